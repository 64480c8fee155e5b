// The contents of a run file: which entry fails, and where the bodies stand.
#![tactic(auto)]

ghost use Rattle.std.specs.Prelude.{◌≡◌, ◌<◌};
ghost use Rattle.notions.specs.First.{found};
ghost use Rattle.file_contents.specs.Contents as C;
ghost use Rattle.file_contents.specs.Promises as P;

use refusal::{Reason, Refusal};

// The most bytes of a run file.
pub const LARGEST_FILE: usize = 49_152;

// The bytes of the contents, the number of their entries, and the bytes of an entry and of each of its two numbers.
pub const CONTENTS_SIZE: usize = 24;

const ENTRIES: usize = 3;

const ENTRY_SIZE: usize = 8;

const NUMBER_SIZE: usize = 4;

// The entries' numbers. No enum: a place in the file is worked out from them (`begins`).
const LAYOUT_ENTRY: usize = 0;

const TRACE_ENTRY: usize = 2;

// The length that an entry names.
fn size(file: &[u8], k: usize) -> usize
    requires { k < C.entries }
    ensures { (result ≡ C.size file.now k) × (result < 4294967296) }
{
    octets::number_at(file, ENTRY_SIZE * k + NUMBER_SIZE, NUMBER_SIZE) as usize
}

// Where the body of an entry has to begin: behind the contents and the bodies before it. No sum here is over 2^34.
fn begins(file: &[u8], k: usize) -> usize
    requires { k < C.entries }
    ensures { (result ≡ C.begins file.now k) × (result < 17179869184) }
{
    let mut at = CONTENTS_SIZE;
    for j in 0..k {
        at += size(file, j);
    }
    at
}

fn entry_fails(file: &[u8], k: usize) -> bool
    requires { k < C.entries }
    ensures { result ≡ C.entry_fails file.now k }
{
    let n = file.len();
    let begin = begins(file, k);
    let offset = octets::number_at(file, ENTRY_SIZE * k, NUMBER_SIZE) as usize;
    let size = size(file, k);
    let end = begin + size;
    (offset != begin)
        | (n < end)
        | ((k == LAYOUT_ENTRY) & (size != layout::LAYOUT_BYTES))
        | ((k == TRACE_ENTRY) & (end < n))
}

// The first entry that fails. In a file under 24 bytes it is entry 0, whose body would begin past the end. By `for`: with `find`
// and its closure a check took five times as long.
fn first_failing(file: &[u8]) -> Option<usize>
    ensures { result ≡ found C.entries (C.entry_fails file.now) }
{
    for k in 0..ENTRIES {
        if entry_fails(file, k) {
            return Some(k);
        }
    }
    None
}

// Refusals 15 and 13.
pub fn check_contents(file: &[u8]) -> Result<(), Refusal>
    ensures { P.ChecksContents file.now result }
{
    if file.len() > LARGEST_FILE {
        return Err(Reason::FileSize.into());
    }
    if let Some(k) = first_failing(file) {
        return Err(Reason::Contents.at(k));
    }
    Ok(())
}

// Where the trace's body has to begin: behind the contents, the layout and the memory's segments.
pub fn trace_begins(file: &[u8]) -> usize
    ensures { P.BeginsTrace file.now result }
{
    begins(file, TRACE_ENTRY)
}
