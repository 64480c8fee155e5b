// A line of output: the call, the name of its input, the input's numbers, and the answer, one space apart.
use refusal::Refusal;
use sha256::{DIGEST, Sha};
use std::io;
use std::io::Write;

fn text(out: &mut impl Write, bytes: &[u8]) -> io::Result<()> {
    out.write_all(bytes)
}

fn number(out: &mut impl Write, n: u64) -> io::Result<()> {
    text(out, b" ")?;
    write!(out, "{n}")
}

fn length(out: &mut impl Write, bytes: &[u8]) -> io::Result<()> {
    number(out, bytes.len() as u64)
}

fn hex(out: &mut impl Write, bytes: &[u8]) -> io::Result<()> {
    text(out, b" ")?;
    for b in bytes {
        write!(out, "{b:02x}")?;
    }
    Ok(())
}

fn words(out: &mut impl Write, w: [u32; 8]) -> io::Result<()> {
    text(out, b" ")?;
    for x in w {
        write!(out, "{x:08x}")?;
    }
    Ok(())
}

fn begin(out: &mut impl Write, call: &[u8], name: &[u8]) -> io::Result<()> {
    text(out, call)?;
    text(out, b" ")?;
    text(out, name)
}

fn end(out: &mut impl Write) -> io::Result<()> {
    text(out, b"\n")
}

fn refused(out: &mut impl Write, r: Refusal) -> io::Result<()> {
    write!(out, " {r}")
}

fn digest(out: &mut impl Write, d: Result<[u8; DIGEST], Refusal>) -> io::Result<()> {
    match d {
        Ok(bytes) => hex(out, &bytes)?,
        Err(r) => refused(out, r)?,
    }
    end(out)
}

fn taken(out: &mut impl Write, answer: Result<(), Refusal>) -> io::Result<()> {
    match answer {
        Ok(()) => text(out, b" taken"),
        Err(r) => refused(out, r),
    }
}

fn state(out: &mut impl Write, s: Sha) -> io::Result<()> {
    words(out, s.words)?;
    hex(out, &s.block)?;
    number(out, s.total)?;
    end(out)
}

pub fn hash(out: &mut impl Write, name: &[u8], message: &[u8]) -> io::Result<()> {
    begin(out, b"sha256", name)?;
    length(out, message)?;
    digest(out, sha256::hash(message))
}

pub fn mac(out: &mut impl Write, name: &[u8], key: &[u8], message: &[u8]) -> io::Result<()> {
    begin(out, b"hmac", name)?;
    length(out, key)?;
    length(out, message)?;
    digest(out, hmac::mac(key, message))
}

// Prints the whole state that was handed back, so that its block shows, and hands it on.
pub fn take_in(out: &mut impl Write, name: &[u8], s: Sha, bytes: &[u8]) -> io::Result<Sha> {
    begin(out, b"take_in", name)?;
    number(out, s.total)?;
    length(out, bytes)?;
    let t = s.take_in(bytes);
    taken(out, t.answer)?;
    state(out, t.state)?;
    Ok(t.state)
}

pub fn finish(out: &mut impl Write, name: &[u8], s: Sha) -> io::Result<()> {
    begin(out, b"finish", name)?;
    number(out, s.total)?;
    digest(out, s.finish())
}
