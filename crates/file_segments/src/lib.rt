// The memory body of a run file: which segment fails, and the memory that the segments describe.
#![tactic(auto)]

ghost use Rattle.std.specs.Prelude.{◌≡◌, ◌+◌, ◌-◌, ◌<◌, ltb, length, get_or};
ghost use Rattle.std.specs.Iterator.{at_most};
ghost use Rattle.file_segments.specs.Segments as S;
ghost use Rattle.file_segments.specs.Inner as I;
ghost use Rattle.file_segments.specs.Promises as P;

use refusal::{Reason, Refusal};

// A segment's bytes before its contents: its start and its length.
const HEAD_SIZE: usize = 4;

// The four bytes of the segment at p run past the body.
fn is_cut(body: &[u8], p: usize) -> bool
    requires { p < length body.now }
    ensures { result ≡ ltb (length body.now) (p + S.head_size) }
{
    body.len() < p + HEAD_SIZE
}

// The byte at a place, 0 behind the body's end.
fn byte_at(body: &[u8], i: usize) -> u8
    ensures { result ≡ get_or body.now i 0 }
{
    body.get(i).copied().unwrap_or(0)
}

// The start and the length that the segment at p names, each a definition of its own. Only of a head that is cut is each byte
// tested: that is faster. That p is in the body stays a clause, since a type for it would hold body and p over again.
fn start_at(body: &[u8], p: usize) -> usize
    requires { p < length body.now }
    ensures { (result ≡ S.start_at body.now p) × (result < 65536) }
{
    if is_cut(body, p) {
        return octets::number_of_two(byte_at(body, p), byte_at(body, p + 1)) as usize;
    }
    octets::number_of_two(body[p], body[p + 1]) as usize
}

fn size_at(body: &[u8], p: usize) -> usize
    requires { p < length body.now }
    ensures { (result ≡ S.size_at body.now p) × (result < 65536) }
{
    if is_cut(body, p) {
        return octets::number_of_two(byte_at(body, p + 2), byte_at(body, p + 3)) as usize;
    }
    octets::number_of_two(body[p + 2], body[p + 3]) as usize
}

// The places of a body's segments.
#[derive(Drop)]
struct Places<'a> {
    body: &'a [u8],
    at: usize,
}

impl<'a> Places<'a> {
    fn of(body: &'a [u8]) -> Places<'a>
        ensures { (result.body ≡ body.entry) × (result.at ≡ 0) }
    {
        Places { body, at: 0 }
    }
}

impl<'a> Iterator for Places<'a> {
    type Item = usize;

    ghost next_gives = { I.GivesPlace };

    ghost remaining = { λ s. at_most (length s.body.now - s.at) };

    fn next(&mut self) -> Option<usize> {
        let p = self.at;
        if self.body.len() <= p {
            return None;
        }
        self.at = p + HEAD_SIZE + size_at(self.body, p);
        Some(p)
    }
}

// The segment at p fails, where the one before it ends at `end`.
fn fails_at(body: &[u8], p: usize, end: usize) -> bool
    requires { p < length body.now }
    ensures { result ≡ S.fails_at body.now p end }
{
    if is_cut(body, p) {
        return true;
    }
    let n = body.len();
    let start = start_at(body, p);
    let size = size_at(body, p);
    (size == 0) | (n < p + HEAD_SIZE + size) | (start < end) | (layout::MEMORY_BYTES < start + size)
}

// Refusal 14.
pub fn check_segments(body: &[u8]) -> Result<(), Refusal>
    ensures { P.ChecksSegments body.now result }
{
    let mut end: usize = 0;
    for (k, p) in Places::of(body).enumerate() {
        if fails_at(body, p, end) {
            return Err(Reason::Segment.at(k));
        }
        end = start_at(body, p) + size_at(body, p);
    }
    Ok(())
}

// The contents of the segment at p: the bytes behind its head, as many of them as there are.
fn contents_at<'a>(body: &'a [u8], p: usize) -> &'a [u8]
    requires { p < length body.now }
    ensures { result.now ≡ S.contents_at body.now p }
{
    if is_cut(body, p) {
        return &[];
    }
    let from = p + HEAD_SIZE;
    let end = from + size_at(body, p);
    &body[from..end.min(body.len())]
}

// The memory becomes what the segments describe, as far as it reaches, whatever stood there. A segment whose four bytes
// run past the body has no contents, one whose contents do has those that there are.
pub fn fill(body: &[u8], memory: &mut [u8])
    ensures { P.Fills body.now memory.old memory.new }
{
    memory.fill(0);
    for p in Places::of(body) {
        octets::store(memory, start_at(body, p), contents_at(body, p));
    }
}
