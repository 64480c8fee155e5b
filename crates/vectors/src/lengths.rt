// Lengths around the edges of blocks and limits: the first bytes of a pattern, whose byte i is i % 251 + 1. None is 0,
// since a 0 could get lost among the zeros that fill a block.
ghost use Rattle.std.specs.Prelude.{◌≡◌, ◌≤◌, length};
ghost use Rattle.vectors.specs.Pattern as P;

use crate::line;
use std::io;
use std::io::Write;

// One byte more than the hash takes.
pub const PATTERN_BYTES: usize = 131_073;

pub type Pattern = [u8; PATTERN_BYTES];

pub fn fill(pattern: &mut [u8])
    ensures { pattern.new ≡ P.pattern_of (length pattern.old) }
{
    for (i, b) in pattern.iter_mut().enumerate() {
        *b = (i % 251 + 1) as u8;
    }
}

pub fn hashes(out: &mut impl Write, pattern: &Pattern) -> io::Result<()> {
    for n in [
        0, 1, 55, 56, 63, 64, 65, 119, 120, 127, 128, 65_535, 65_536, 131_071, 131_072, 131_073,
    ] {
        line::hash(out, b"pattern", &pattern[..n])?;
    }
    Ok(())
}

fn mac(out: &mut impl Write, pattern: &Pattern, key: usize, message: usize) -> io::Result<()>
    requires { (key ≤ length pattern.now) × (message ≤ length pattern.now) }
{
    line::mac(out, b"pattern", &pattern[..key], &pattern[..message])
}

pub fn keys(out: &mut impl Write, pattern: &Pattern) -> io::Result<()> {
    for key in [0, 1, 63, 64, 65, 131, 65_536, 65_537] {
        mac(out, pattern, key, 28)?;
    }
    Ok(())
}

pub fn messages(out: &mut impl Write, pattern: &Pattern) -> io::Result<()> {
    for message in [0, 1, 63, 64, 65, 65_535, 65_536, 65_537] {
        mac(out, pattern, 20, message)?;
    }
    for n in [0, 65_536, 65_537] {
        mac(out, pattern, n, n)?;
    }
    Ok(())
}
