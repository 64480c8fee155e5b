// Reads a run file on standard input, judges it, and prints what came of it. One byte more is read than a file may
// have, so that a longer one is told from it. File and text have their lengths beside them: this project has no heap.
#![tactic(auto)]

use std::io;
use std::io::{Read, Write};

fn judge(input: &mut impl Read, out: &mut impl Write) -> io::Result<()> {
    let mut file = [0u8; file_contents::LARGEST_FILE + 1];
    let mut memory = [0u8; layout::MEMORY_BYTES];
    let mut room = [0u8; traces::ANSWER * traces::MOST_STEPS];
    let mut text = [0u8; report::LONGEST];
    let n = input::read_full(input, &mut file)?;
    let k = report::text(&file[0..n], &mut memory, &mut room, &mut text);
    out.write_all(&text[0..k])
}

fn main(rt: HostRuntime) -> io::Result<()> {
    judge(&mut rt.stdin(), &mut rt.stdout())
}
