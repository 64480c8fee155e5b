// SHA-256's block function: FIPS 180-4, 6.2.2, over the whole blocks of some bytes.
// Padding and the running hash are `sha256`'s.
#![tactic(auto)]

mod constants;
mod functions;

ghost use Rattle.std.specs.Prelude.{◌≡◌, length, take};
ghost use Rattle.sha256_block.specs.Words as W;
ghost use Rattle.sha256_block.specs.Block as B;
ghost use Rattle.sha256_block.specs.Promises as P;

use constants::K;
use functions::{big_sigma0, big_sigma1, ch, maj, small_sigma0, small_sigma1};

// The bytes of a block.
pub const BLOCK: usize = 64;

// The eight working variables.
#[derive(Clone, Copy)]
pub struct Vars {
    pub a: u32,
    pub b: u32,
    pub c: u32,
    pub d: u32,
    pub e: u32,
    pub f: u32,
    pub g: u32,
    pub h: u32,
}

// A hash value as working variables.
impl From<[u32; 8]> for Vars {
    ghost from_gives = { λ s v. v ≡ B.load s };

    fn from(s: [u32; 8]) -> Vars {
        let [a, b, c, d, e, f, g, h] = s;
        Vars {
            a,
            b,
            c,
            d,
            e,
            f,
            g,
            h,
        }
    }
}

// The initial hash value.
pub fn initial() -> [u32; 8]
    ensures { P.IsInitial result }
{
    constants::H
}

// The schedule's word from the words 2, 7, 15 and 16 places before it.
fn next_word(w2: u32, w7: u32, w15: u32, w16: u32) -> u32
    ensures { result ≡ B.next w2 w7 w15 w16 }
{
    small_sigma1(w2)
        .wrapping_add(w7)
        .wrapping_add(small_sigma0(w15))
        .wrapping_add(w16)
}

// The 16 words of the block m, and zeros behind them.
fn opening(m: &[u8; BLOCK]) -> [u32; 64]
    ensures { (length result ≡ 64) × (take 16 result ≡ W.words m.now 16) }
{
    let mut w = [0u32; 64];
    let (words, _) = m.as_chunks::<4>();
    for (i, bytes) in words.iter().enumerate() {
        w[i] = u32::from_be_bytes(*bytes);
    }
    w
}

// The message schedule of the block m. The last two words are carried along: read back from the array, each would
// keep the next but one waiting.
fn schedule(m: &[u8; BLOCK]) -> [u32; 64]
    ensures { result ≡ B.schedule m.now 48 }
{
    let mut w = opening(m);
    let mut w2 = w[14];
    let mut w1 = w[15];
    for t in 0..48 {
        let next = next_word(w2, w[t + 9], w[t + 1], w[t]);
        w[t + 16] = next;
        w2 = w1;
        w1 = next;
    }
    w
}

// One round, with the constant k and the schedule's word w.
fn round(k: u32, w: u32, v: Vars) -> Vars
    ensures { result ≡ B.round k w v }
{
    let t1 = v
        .h
        .wrapping_add(big_sigma1(v.e))
        .wrapping_add(ch(v.e, v.f, v.g))
        .wrapping_add(k)
        .wrapping_add(w);
    let t2 = big_sigma0(v.a).wrapping_add(maj(v.a, v.b, v.c));
    Vars {
        a: t1.wrapping_add(t2),
        b: v.a,
        c: v.b,
        d: v.c,
        e: v.d.wrapping_add(t1),
        f: v.e,
        g: v.f,
        h: v.g,
    }
}

// The 64 rounds. Four make a turn, so that the variables are moved on once for the four.
fn rounds(w: &[u32; 64], v: Vars) -> Vars
    ensures { result ≡ B.rounds w.now v 64 }
{
    let mut u = v;
    for t in (0..64).step_by(4) {
        u = round(K[t], w[t], u);
        u = round(K[t + 1], w[t + 1], u);
        u = round(K[t + 2], w[t + 2], u);
        u = round(K[t + 3], w[t + 3], u);
    }
    u
}

// The hash value s, taken on by the block m.
fn compress(s: &mut [u32; 8], m: &[u8; BLOCK])
    ensures { s.new ≡ B.compress s.old m.now }
{
    let v = rounds(&schedule(m), (*s).into());
    *s = [
        s[0].wrapping_add(v.a),
        s[1].wrapping_add(v.b),
        s[2].wrapping_add(v.c),
        s[3].wrapping_add(v.d),
        s[4].wrapping_add(v.e),
        s[5].wrapping_add(v.f),
        s[6].wrapping_add(v.g),
        s[7].wrapping_add(v.h),
    ];
}

// The hash value after the whole blocks of the bytes; what is left behind them is not looked at.
pub fn blocks(words: [u32; 8], bytes: &[u8]) -> [u32; 8]
    ensures { P.HashesBlocks words bytes.now result }
{
    let (whole, _) = bytes.as_chunks::<BLOCK>();
    let mut w = words;
    for block in whole {
        compress(&mut w, block);
    }
    w
}
