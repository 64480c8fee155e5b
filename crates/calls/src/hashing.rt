// The calls of hash, HMAC and the running hash, by value and lent.
use crate::line;
use frames::argument;
use sha256::Sha;
use std::io;
use std::io::Write;

pub fn hash(out: &mut impl Write, call: &[u8]) -> io::Result<()> {
    line::hash(out, sha256::hash(argument(call, 0)))
}

pub fn mac(out: &mut impl Write, call: &[u8]) -> io::Result<()> {
    line::mac(out, hmac::mac(argument(call, 0), argument(call, 1)))
}

// The state that a call of the running hash begins with.
fn state(call: &[u8]) -> Sha {
    state_codecs::state_of(argument(call, 0))
}

pub fn take_in(out: &mut impl Write, call: &[u8]) -> io::Result<()> {
    line::taken(out, state(call).take_in(argument(call, 1)))
}

pub fn finish(out: &mut impl Write, call: &[u8]) -> io::Result<()> {
    let s = state(call);
    line::hash(out, s.finish())?;
    line::state(out, s)
}

pub fn lent_take_in(out: &mut impl Write, call: &[u8]) -> io::Result<()> {
    let s = state(call);
    line::taken(
        out,
        lent_hash::take_in_with_fields(s.words, s.block, s.total, argument(call, 1)),
    )
}

pub fn lent_finish(out: &mut impl Write, call: &[u8]) -> io::Result<()> {
    let s = state(call);
    let f = lent_hash::finish_with_fields(s.words, s.block, s.total);
    line::hash(out, f.digest)?;
    line::state(out, f.state)
}
