// The call of the step reader.
use crate::line;
use frames::argument;
use std::io;
use std::io::Write;

pub fn next(out: &mut impl Write, call: &[u8]) -> io::Result<()> {
    let place = octets::number(argument(call, 1)) as usize;
    line::advanced(out, reader::next_at(argument(call, 0), place))
}
