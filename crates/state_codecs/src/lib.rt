// A state of the running hash as 104 bytes, as the program `calls` takes and prints it. Numbers have their lightest
// byte first.
#![tactic(auto)]

ghost use Rattle.std.specs.Prelude.{◌≡◌, ◌*◌, ◌<◌, drop};
ghost use Rattle.std.proofs.lemmas.List.Edits.{sets};
ghost use Rattle.octets.specs.Numbers as N;
ghost use Rattle.sha256.specs.Running as R;
ghost use Rattle.state_codecs.specs.States as S;
ghost use Rattle.state_codecs.specs.Promises as P;

use sha256::Sha;
use std::array;

// A state: eight words of four bytes, the block of 64, and the total in eight.
const WORDS: usize = 8;

const WORD_BYTES: usize = 4;

const BLOCK_AT: usize = WORDS * WORD_BYTES;

const BLOCK_BYTES: usize = 64;

const TOTAL_AT: usize = BLOCK_AT + BLOCK_BYTES;

const TOTAL_BYTES: usize = 8;

pub const STATE_BYTES: usize = TOTAL_AT + TOTAL_BYTES;

fn word_at(bytes: &[u8], i: usize) -> u32
    requires { i < S.word_count }
    ensures { result ≡ N.number_at bytes.now (S.word_bytes * i) S.word_bytes }
{
    octets::number_at(bytes, WORD_BYTES * i, WORD_BYTES) as u32
}

fn words_of(bytes: &[u8]) -> [u32; WORDS]
    ensures { result ≡ S.words_of S.word_count bytes.now }
{
    array::from_fn(|i| word_at(bytes, i))
}

fn block_behind_words(bytes: &[u8]) -> [u8; BLOCK_BYTES]
    ensures { result ≡ R.block_of (drop S.block_at bytes.now) }
{
    sha256::block_of(bytes.get(BLOCK_AT..).unwrap_or(&[]))
}

// The state that 104 bytes stand for; bytes that are missing count as 0.
// No `impl From`, here or for the bytes of a state: `Sha` is of another crate, so the check refuses it as an orphan.
pub fn state_of(bytes: &[u8]) -> Sha
    ensures { P.IsState bytes.now result }
{
    let words = words_of(bytes);
    let block = block_behind_words(bytes);
    let total = octets::number_at(bytes, TOTAL_AT, TOTAL_BYTES);
    Sha {
        words,
        block,
        total,
    }
}

fn put_words(out: &mut [u8], words: [u32; WORDS])
    ensures { out.new ≡ sets out.old 0 (S.words_bytes words) }
{
    for (i, word) in words.iter().enumerate() {
        octets::store(out, WORD_BYTES * i, &word.to_le_bytes());
    }
}

// The bytes of a state.
pub fn state_bytes(s: Sha) -> [u8; STATE_BYTES]
    ensures { P.IsStateBytes s result }
{
    let mut out = [0u8; STATE_BYTES];
    put_words(&mut out, s.words);
    octets::store(&mut out, BLOCK_AT, &s.block);
    octets::store(&mut out, TOTAL_AT, &s.total.to_le_bytes());
    out
}
