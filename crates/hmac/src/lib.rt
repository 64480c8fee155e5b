// HMAC-SHA-256 of FIPS 198-1.
#![tactic(auto)]

ghost use Rattle.std.specs.Prelude.{◌≡◌, ◌++◌, ◌≤◌, length};
ghost use Rattle.sha256_digest.specs.Hash.{sha256};
ghost use Rattle.hmac.specs.Hmac as S;
ghost use Rattle.hmac.specs.Promises as P;

use refusal::{Reason, Refusal};
use sha256::{BLOCK, DIGEST, Sha};

// The most bytes of a key, and of a message.
pub const MOST: usize = 65_536;

const IPAD: u8 = 0x36;

const OPAD: u8 = 0x5c;

// The key as one block: a key over 64 bytes is hashed first.
fn key_block(key: &[u8]) -> [u8; BLOCK]
    requires { length key.now ≤ P.most }
    ensures { result ≡ S.k0 key.now }
{
    if key.len() > BLOCK {
        let digest = sha256_digest::digest_of(key);
        return sha256::block_of(&digest);
    }
    sha256::block_of(key)
}

// Each byte of the block XOR x.
// No `map`: with its closure a MAC took 0.3 µs longer.
fn mask(mut block: [u8; BLOCK], x: u8) -> [u8; BLOCK]
    ensures { result ≡ S.xored x block }
{
    for i in 0..BLOCK {
        block[i] ^= x;
    }
    block
}

// The hash of a block and a message joined. The message is hashed where it stands.
fn hash_joined(block: [u8; BLOCK], message: &[u8]) -> [u8; DIGEST]
    requires { length message.now ≤ P.most }
    ensures { result ≡ sha256 (block ++ message.now) }
{
    let first = Sha::start().take_in(&block).state;
    let second = first.take_in(message).state;
    second.finish().unwrap()
}

fn mac_of(key: &[u8], message: &[u8]) -> [u8; DIGEST]
    requires { (length key.now ≤ P.most) × (length message.now ≤ P.most) }
    ensures { result ≡ S.hmac key.now message.now }
{
    let k = key_block(key);
    let inner = hash_joined(mask(k, IPAD), message);
    hash_joined(mask(k, OPAD), &inner)
}

// The MAC of a message under a key; refused if either is over 65,536 bytes.
pub fn mac(key: &[u8], message: &[u8]) -> Result<[u8; DIGEST], Refusal>
    ensures { P.Macs key.now message.now result }
{
    if (key.len() > MOST) | (message.len() > MOST) {
        return Err(Reason::LengthOrTotal.into());
    }
    Ok(mac_of(key, message))
}
