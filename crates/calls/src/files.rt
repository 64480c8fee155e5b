// The call of run files.
use crate::{lent_argument, line};
use frames::argument;
use std::io;
use std::io::Write;

pub fn judge(
    out: &mut impl Write,
    call: &[u8],
    memory: &mut [u8],
    room: &mut [u8],
) -> io::Result<()> {
    let memory = lent_argument::lend(call, 1, memory);
    let room = lent_argument::lend(call, 2, room);
    line::traced(out, runfile::judge(argument(call, 0), memory, room))?;
    line::memory(out, memory)?;
    line::room(out, room)
}
