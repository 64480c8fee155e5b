// Judges the run files on standard input, one after the other, and prints of each what the program `judge` prints. A
// file stands behind its length, a 32-bit little-endian number of at most 49,153. Memory and room are kept from file to
// file, so that it would show if one saw what another left there. tests/second makes the files and works the same text
// out by itself.
#![tactic(auto)]

use std::io;
use std::io::{Read, Write};

// The bytes of a length, and the most bytes that it may name: one more than a file may have.
const LENGTH_SIZE: usize = 4;

const MOST_READ: usize = file_contents::LARGEST_FILE + 1;

// What is lent to each judgement.
#[derive(Drop)]
struct Lent {
    memory: [u8; layout::MEMORY_BYTES],
    room: [u8; traces::ANSWER * traces::MOST_STEPS],
}

impl Lent {
    fn new() -> Lent {
        let mut memory = [0u8; layout::MEMORY_BYTES];
        for (a, b) in memory.iter_mut().enumerate() {
            // tests/second works this pattern out too.
            *b = ((7 * a + a / 256) % 256) as u8;
        }
        Lent {
            memory,
            room: [0u8; traces::ANSWER * traces::MOST_STEPS],
        }
    }

    // The lines stand in the program `judge` too: a crate to share them would be longer.
    fn print(&mut self, out: &mut impl Write, file: &[u8]) -> io::Result<()> {
        let mut text = [0u8; report::LONGEST];
        let k = report::text(file, &mut self.memory, &mut self.room, &mut text);
        out.write_all(&text[0..k])
    }
}

// Judges the next file, and tells whether there was one.
fn next(input: &mut impl Read, out: &mut impl Write, lent: &mut Lent) -> io::Result<bool> {
    let mut length = [0u8; LENGTH_SIZE];
    let mut file = [0u8; MOST_READ];
    let got = input::read_full(input, &mut length)?;
    if got == 0 {
        return Ok(false);
    }
    let n = u32::from_le_bytes(length) as usize;
    if got < LENGTH_SIZE || n > MOST_READ || input::read_full(input, &mut file[..n])? < n {
        // The length is too great, or the input ends before the file does.
        out.write_all(b"cut\n")?;
        return Ok(false);
    }
    lent.print(out, &file[..n])?;
    Ok(true)
}

// Nothing says that the input ends, and a proved loop has to: no run uses up so many turns.
fn all(input: &mut impl Read, out: &mut impl Write, lent: &mut Lent) -> io::Result<()> {
    for _ in 0..u64::MAX {
        if !next(input, out, lent)? {
            break;
        }
    }
    Ok(())
}

fn main(rt: HostRuntime) -> io::Result<()> {
    let mut lent = Lent::new();
    all(&mut rt.stdin(), &mut rt.stdout(), &mut lent)
}
