// The calls of layout and monitor.
use crate::{lent_argument, line};
use frames::argument;
use std::io;
use std::io::Write;

pub fn check(out: &mut impl Write, call: &[u8]) -> io::Result<()> {
    line::checked(out, layout::check(argument(call, 0)))
}

pub fn step(
    out: &mut impl Write,
    call: &[u8],
    memory: &mut [u8],
    room: &mut [u8],
) -> io::Result<()> {
    let memory = lent_argument::lend(call, 0, memory);
    let room = lent_argument::lend(call, 4, room);
    let from = step_codecs::monitor_of(argument(call, 3));
    line::stepped(
        out,
        monitor::step(memory, argument(call, 1), argument(call, 2), from, room),
    )?;
    line::memory(out, memory)?;
    line::room(out, room)
}

pub fn trace(
    out: &mut impl Write,
    call: &[u8],
    memory: &mut [u8],
    room: &mut [u8],
) -> io::Result<()> {
    let memory = lent_argument::lend(call, 0, memory);
    let room = lent_argument::lend(call, 3, room);
    line::traced(
        out,
        monitor::trace(memory, argument(call, 1), argument(call, 2), room),
    )?;
    line::memory(out, memory)?;
    line::room(out, room)
}
