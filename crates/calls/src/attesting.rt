// The calls of board and station.
use crate::{lent_argument, line};
use frames::argument;
use std::io;
use std::io::Write;

pub fn attest(out: &mut impl Write, call: &[u8], memory: &mut [u8]) -> io::Result<()> {
    let memory = lent_argument::lend(call, 0, memory);
    line::attested(out, board::attest(memory, argument(call, 1)))?;
    line::memory(out, memory)
}

pub fn token(out: &mut impl Write, call: &[u8]) -> io::Result<()> {
    line::token(out, station::token(argument(call, 0), argument(call, 1)))
}

pub fn check_reply(out: &mut impl Write, call: &[u8]) -> io::Result<()> {
    let key = argument(call, 0);
    let challenge = argument(call, 1);
    let reply = argument(call, 2);
    line::verdict(
        out,
        station::check(key, challenge, reply, argument(call, 3)),
    )
}
