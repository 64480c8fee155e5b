// SHA-256 of FIPS 180-4: padding, and the digest of a whole message. The block function is `sha256_block`'s.
#![tactic(auto)]

ghost use Rattle.std.specs.Prelude.{◌≡◌, ◌+◌, ◌%◌, ◌^◌, ◌<◌, length};
ghost use Rattle.sha256_digest.specs.Hash as D;
ghost use Rattle.sha256_digest.specs.Promises as P;

// The bytes of a block, and of a digest.
pub const BLOCK: usize = sha256_block::BLOCK;

pub const DIGEST: usize = 32;

// The bytes of the length at the padding's end, and the most that a message's last blocks have.
const LENGTH: usize = 8;

const LAST: usize = 128;

// How many bytes `at` bytes are with their padding: a block, or two if the length does not fit behind them.
fn padded_size(at: usize) -> usize
    requires { at < 64 }
    ensures { result ≡ at + 1 + D.zeros at + 8 }
{
    if at < BLOCK - LENGTH { BLOCK } else { LAST }
}

// A hash value as bytes.
fn out(words: [u32; 8]) -> [u8; DIGEST]
    ensures { result ≡ D.out words 8 }
{
    let mut d = [0; DIGEST];
    for (i, word) in words.iter().enumerate() {
        d[i * 4..i * 4 + 4].copy_from_slice(&word.to_be_bytes());
    }
    d
}

// The digest of total bytes: their whole blocks have the hash value words, and the bytes behind those are left. They
// and their padding are hashed.
fn last_digest(words: [u32; 8], left: &[u8], total: u64) -> [u8; DIGEST]
    requires { (length left.now ≡ total % 64) × (total < 2 ^ 61) }
    ensures { result ≡ D.digest_from words left.now total }
{
    let at = left.len();
    let n = padded_size(at);
    let mut p = [0; LAST];
    p[..at].copy_from_slice(left);
    p[at] = 0x80;
    p[n - LENGTH..n].copy_from_slice(&(total * 8).to_be_bytes());
    out(sha256_block::blocks(words, &p[..n]))
}

// From this many bytes on the length in bits does not fit 64 bits, and the standard has no digest.
const BEYOND_STANDARD: usize = 2_305_843_009_213_693_952;

// The digest of total bytes: their whole blocks have the hash value words, and the block begins with the bytes behind
// those. Zeros where the standard has none, and no `Option`: so `DigestsFrom` promises it.
pub fn digest_from(words: [u32; 8], block: [u8; BLOCK], total: u64) -> [u8; DIGEST]
    ensures { P.DigestsFrom words block total result }
{
    if total as usize >= BEYOND_STANDARD {
        return [0; DIGEST];
    }
    last_digest(words, &block[..total as usize % BLOCK], total)
}

// The digest of a message; zeros where the standard has none, as `Digests` promises.
pub fn digest_of(message: &[u8]) -> [u8; DIGEST]
    ensures { P.Digests message.now result }
{
    let n = message.len();
    if n >= BEYOND_STANDARD {
        return [0; DIGEST];
    }
    let words = sha256_block::blocks(sha256_block::initial(), message);
    let (_, left) = message.as_chunks::<BLOCK>();
    last_digest(words, left, n as u64)
}
