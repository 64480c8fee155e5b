// The running hash: a message in parts, and states that no message reaches.
ghost use Rattle.std.specs.Prelude.{◌≡◌, length};

use crate::lengths::Pattern;
use crate::line;
use sha256::Sha;
use std::io;
use std::io::Write;

fn after(state: Sha, bytes: &[u8]) -> Sha {
    let t = state.take_in(bytes);
    t.state
}

// One turn's parts, an empty one among them. 293 is odd, so that in 64 turns each part meets every filling of the
// block.
const TURN: usize = 293;

fn turn(state: Sha, bytes: &[u8]) -> Sha
    requires { length bytes.now ≡ 293 }
{
    let mut s = state;
    for (from, to) in [
        (0, 1),
        (1, 64),
        (64, 64),
        (64, 128),
        (128, 193),
        (193, TURN),
    ] {
        s = after(s, &bytes[from..to]);
    }
    s
}

fn parts(message: &[u8]) -> Sha {
    let mut s = Sha::start();
    let mut turns = message.chunks_exact(TURN);
    for bytes in &mut turns {
        s = turn(s, bytes);
    }
    after(s, turns.remainder())
}

// The first 131,072 bytes in parts, and then one byte more.
pub fn in_parts(out: &mut impl Write, pattern: &Pattern) -> io::Result<()> {
    let whole = parts(&pattern[..131_072]);
    line::finish(out, b"parts", whole)?;
    let more = line::take_in(out, b"parts", whole, b"x")?;
    line::finish(out, b"parts", more)
}

// A state of any total, whose block has no zero byte.
fn state(total: u64) -> Sha {
    Sha {
        words: [
            0x0123_4567,
            0x89ab_cdef,
            0xfedc_ba98,
            0x7654_3210,
            0,
            0xffff_ffff,
            0x8000_0000,
            0x7fff_ffff,
        ],
        block: *b"After bytes are taken in the block behind the filled part is 0..",
        total,
    }
}

// An object that holds anything is lent to be started.
pub fn started(out: &mut impl Write) -> io::Result<()> {
    let held = state(7);
    let words = held.words;
    let block = held.block;
    let s = lent_hash::start_with_fields(words, block, held.total);
    line::take_in(out, b"started", s, b"")?;
    line::finish(out, b"started", s)
}

pub fn made_up(out: &mut impl Write) -> io::Result<()> {
    for total in [
        0,
        1,
        55,
        56,
        63,
        131_071,
        131_072,
        131_073,
        0x1_0000_0000,
        u64::MAX,
    ] {
        let s = state(total);
        line::take_in(out, b"made-up", s, b"")?;
        line::take_in(out, b"made-up", s, b"x")?;
        line::finish(out, b"made-up", s)?;
    }
    Ok(())
}

pub fn to_the_limit(out: &mut impl Write, pattern: &Pattern) -> io::Result<()> {
    for (total, n) in [(1, 131_071), (1, 131_072), (0, 131_073)] {
        line::take_in(out, b"made-up", state(total), &pattern[..n])?;
    }
    Ok(())
}
