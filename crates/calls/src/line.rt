// The lines that tell what a call answered, and what it left.
ghost use Rattle.std.specs.Prelude.{◌≤◌, length};

use monitor::Totals;
use reader::Advance;
use refusal::Refusal;
use rules::Monitor;
use sha256::{DIGEST, Sha, Taken};
use std::io;
use std::io::Write;
use steps::Step;

fn hex(bytes: &[u8], digits: &mut [u8]) -> usize
    ensures { result ≤ length digits.new }
{
    hex_text::write(bytes, digits)
}

// Bytes in hexadecimal digits; a state is the longest that there is to print. The digits have their length beside them, as
// `hex_text::write` promises it: this project has no heap.
fn given(out: &mut impl Write, name: &[u8], bytes: &[u8]) -> io::Result<()> {
    let mut digits = [0u8; 2 * state_codecs::STATE_BYTES];
    let n = hex(bytes, &mut digits);
    out.write_all(name)?;
    out.write_all(&digits[..n])?;
    out.write_all(b"\n")
}

fn refused(out: &mut impl Write, r: Refusal) -> io::Result<()> {
    writeln!(out, "{r}")
}

// A word where the call is done.
fn answer<T: Copy>(out: &mut impl Write, a: Result<T, Refusal>, done: &[u8]) -> io::Result<()> {
    match a {
        Ok(_) => out.write_all(done),
        Err(r) => refused(out, r),
    }
}

fn digest(out: &mut impl Write, name: &[u8], d: Result<[u8; DIGEST], Refusal>) -> io::Result<()> {
    match d {
        Ok(bytes) => given(out, name, &bytes),
        Err(r) => refused(out, r),
    }
}

// ---- first lines

pub fn checked(out: &mut impl Write, c: Result<layout::Layout, Refusal>) -> io::Result<()> {
    answer(out, c, b"good\n")
}

pub fn stepped(out: &mut impl Write, s: Result<Monitor, Refusal>) -> io::Result<()> {
    match s {
        Ok(m) => writeln!(out, "held {} last {}", u8::from(m.held), m.lastpc),
        Err(r) => refused(out, r),
    }
}

pub fn traced(out: &mut impl Write, t: Result<Totals, Refusal>) -> io::Result<()> {
    match t {
        Ok(n) => writeln!(out, "steps {} resets {}", n.steps, n.resets),
        Err(r) => refused(out, r),
    }
}

pub fn attested(out: &mut impl Write, a: Result<(), Refusal>) -> io::Result<()> {
    answer(out, a, b"accepted\n")
}

pub fn token(out: &mut impl Write, d: Result<[u8; DIGEST], Refusal>) -> io::Result<()> {
    digest(out, b"token ", d)
}

pub fn verdict(out: &mut impl Write, v: Result<bool, Refusal>) -> io::Result<()> {
    match v {
        Ok(true) => out.write_all(b"yes\n"),
        Ok(false) => out.write_all(b"no\n"),
        Err(r) => refused(out, r),
    }
}

pub fn hash(out: &mut impl Write, d: Result<[u8; DIGEST], Refusal>) -> io::Result<()> {
    digest(out, b"hash ", d)
}

pub fn mac(out: &mut impl Write, d: Result<[u8; DIGEST], Refusal>) -> io::Result<()> {
    digest(out, b"mac ", d)
}

fn read(out: &mut impl Write, r: Result<Option<Step>, Refusal>) -> io::Result<()> {
    match r {
        Ok(Some(s)) => given(out, b"step ", &step_codecs::step_bytes(s)),
        Ok(None) => out.write_all(b"end\n"),
        Err(r) => refused(out, r),
    }
}

// ---- what is left

// Memory or room, as they stand after the call.
fn left(out: &mut impl Write, name: &[u8], bytes: &[u8]) -> io::Result<()> {
    given(out, name, &sha256_digest::digest_of(bytes))
}

pub fn memory(out: &mut impl Write, bytes: &[u8]) -> io::Result<()> {
    left(out, b"memory ", bytes)
}

pub fn room(out: &mut impl Write, bytes: &[u8]) -> io::Result<()> {
    left(out, b"room ", bytes)
}

pub fn state(out: &mut impl Write, s: Sha) -> io::Result<()> {
    given(out, b"state ", &state_codecs::state_bytes(s))
}

pub fn taken(out: &mut impl Write, t: Taken) -> io::Result<()> {
    answer(out, t.answer, b"taken\n")?;
    state(out, t.state)
}

pub fn advanced(out: &mut impl Write, a: Advance) -> io::Result<()> {
    read(out, a.read)?;
    writeln!(out, "place {}", a.place)
}

pub fn cut(out: &mut impl Write) -> io::Result<()> {
    out.write_all(b"cut\n")
}
