// Prints a line for each case of SHA-256, HMAC and the running hash: published examples, lengths around the edges of
// blocks and limits, a message in parts, and states that no message reaches. tests/second works the same lines out by
// itself.
#![tactic(auto)]

mod lengths;
mod line;
mod published;
mod running;

use lengths::Pattern;
use std::io;
use std::io::Write;

fn cases_of(out: &mut impl Write, pattern: &Pattern) -> io::Result<()> {
    lengths::hashes(out, pattern)?;
    lengths::keys(out, pattern)?;
    lengths::messages(out, pattern)?;
    running::in_parts(out, pattern)?;
    running::started(out)?;
    running::made_up(out)?;
    running::to_the_limit(out, pattern)
}

fn main(rt: HostRuntime) -> io::Result<()> {
    let mut out = rt.stdout();
    published::examples(&mut out)?;
    let mut pattern = [0u8; lengths::PATTERN_BYTES];
    lengths::fill(&mut pattern);
    cases_of(&mut out, &pattern)
}
