// SHA-256 as the board has it, with its limit: the running hash by value, and the hash of a whole message.
// The block function is `sha256_block`'s, padding and digests are `sha256_digest`'s.
#![tactic(auto)]

ghost use Rattle.std.specs.Prelude.{◌≡◌, ◌++◌, ◌+◌, ◌%◌, ◌^◌, ◌<◌, ◌≤◌, length, take};
ghost use Rattle.std.proofs.Math.Seq.{paste};
ghost use Rattle.sha256.specs.Running as R;
ghost use Rattle.sha256.specs.Promises as P;

use refusal::{Reason, Refusal};

// The most bytes that the hash takes.
const LIMIT: u64 = 131_072;

// The bytes of a block, and of a digest.
pub const BLOCK: usize = sha256_block::BLOCK;

pub const DIGEST: usize = sha256_digest::DIGEST;

// A hash under way: the hash value after the whole blocks, the block that is being filled, and how many bytes came.
// The first total % 64 bytes of the block are its filled part, so every value of this type has a meaning.
#[derive(Clone, Copy)]
pub struct Sha {
    pub words: [u32; 8],
    pub block: [u8; BLOCK],
    pub total: u64,
}

// A state handed back: with the bytes taken in, or refused and as it was.
// No `Result`: the promise `TakesIn` and the claim `TakeInAnswers` speak of the state that a refused call hands back.
#[derive(Clone, Copy)]
pub struct Taken {
    pub answer: Result<(), Refusal>,
    pub state: Sha,
}

// Whether n bytes more than total are over the limit. The sum itself might not fit.
fn over(total: u64, n: usize) -> bool
    ensures { result ≡ P.over (total + n) }
{
    total.saturating_add(n as u64) > LIMIT
}

// The block with the bytes x stored from at on.
fn put(mut block: [u8; BLOCK], at: usize, x: &[u8]) -> [u8; BLOCK]
    requires { at + length x.now ≤ 64 }
    ensures { result ≡ paste block at x.now (length x.now) }
{
    block[at..at + x.len()].copy_from_slice(x);
    block
}

// The first 64 of the bytes, with zeros behind them.
pub fn block_of(bytes: &[u8]) -> [u8; BLOCK]
    ensures { P.IsBlock bytes.now result }
{
    put([0u8; BLOCK], 0, &bytes[..BLOCK.min(bytes.len())])
}

// The first at bytes of the block, the bytes x behind them, and zeros behind those.
fn part(block: [u8; BLOCK], at: usize, x: &[u8]) -> [u8; BLOCK]
    requires { at + length x.now ≤ 64 }
    ensures { result ≡ R.block_of (take at block ++ x.now) }
{
    put(block_of(&block[..at]), at, x)
}

impl Sha {
    // Before any byte.
    pub fn start() -> Sha
        ensures { P.Starts result }
    {
        Sha {
            words: sha256_block::initial(),
            block: [0u8; BLOCK],
            total: 0,
        }
    }

    // Bytes more, too few to fill the block.
    fn absorb_within(mut self, x: &[u8]) -> Sha
        requires { (self.total + length x.now < 2 ^ 62) × (self.total % 64 + length x.now < 64) }
        ensures { result ≡ R.taken self x.now }
    {
        self.block = part(self.block, self.total as usize % BLOCK, x);
        self.total += x.len() as u64;
        self
    }

    // Bytes more, enough to fill the block.
    fn absorb_filling(mut self, x: &[u8]) -> Sha
        requires { (self.total + length x.now < 2 ^ 62) × (64 ≤ self.total % 64 + length x.now) }
        ensures { result ≡ R.taken self x.now }
    {
        let at = self.total as usize % BLOCK;
        let n = x.len();
        let full = put(self.block, at, &x[..BLOCK - at]);
        let first = sha256_block::blocks(self.words, &full);
        self.words = sha256_block::blocks(first, &x[BLOCK - at..]);
        self.block = block_of(&x[n - (at + n) % BLOCK..]);
        self.total += n as u64;
        self
    }

    // Bytes more.
    fn absorb(self, x: &[u8]) -> Sha
        requires { self.total + length x.now < 2 ^ 62 }
        ensures { result ≡ R.taken self x.now }
    {
        let at = self.total as usize % BLOCK;
        if at + x.len() < BLOCK {
            return self.absorb_within(x);
        }
        self.absorb_filling(x)
    }

    // The state with the bytes taken in; refused, and the state as it was, if there would be over 131,072 in all.
    // The rules page wants this form: a method that takes `mut self` and hands it back.
    pub fn take_in(mut self, bytes: &[u8]) -> Taken
        ensures { P.TakesIn self bytes.now result }
    {
        if over(self.total, bytes.len()) {
            return Taken {
                answer: Err(Reason::LengthOrTotal.into()),
                state: self,
            };
        }
        self = self.absorb(bytes);
        Taken {
            answer: Ok(()),
            state: self,
        }
    }

    // The digest of the bytes taken in; refused if there are over 131,072.
    pub fn finish(self) -> Result<[u8; DIGEST], Refusal>
        ensures { P.Finishes self result }
    {
        if self.total > LIMIT {
            return Err(Reason::LengthOrTotal.into());
        }
        Ok(sha256_digest::digest_from(self.words, self.block, self.total))
    }
}

// The hash of a message; refused if it is over 131,072 bytes.
pub fn hash(message: &[u8]) -> Result<[u8; DIGEST], Refusal>
    ensures { P.Hashes message.now result }
{
    if message.len() as u64 > LIMIT {
        return Err(Reason::LengthOrTotal.into());
    }
    Ok(sha256_digest::digest_of(message))
}
