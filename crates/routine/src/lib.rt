// The attestation routine on plain slices: the comparisons, the token, the reply, and steps 1 and 2.
#![tactic(auto)]

ghost use Rattle.routine.specs.Promises as P;

use refusal::{Reason, Refusal};

// The bytes of a challenge, a token or a reply.
pub const STRING: usize = 32;

// Whether a is greater than b, the first byte heaviest. Neither is secret, so this may leave early.
pub fn greater(a: &[u8], b: &[u8]) -> bool
    ensures { P.Compares a.now b.now result }
{
    a > b
}

// Whether a and b are equal. Goes over all bytes, whatever it finds: the time of an `==` could tell where they differ.
pub fn equal(a: &[u8], b: &[u8]) -> bool
    ensures { P.Equals a.now b.now result }
{
    if a.len() != b.len() {
        return false;
    }
    let mut differing = 0u8;
    // a equals b exactly if nothing differed so far and the bytes that are left are equal.
    for (x, y) in a.iter().zip(b) {
        differing |= x ^ y;
    }
    differing == 0
}

// T for a key and a challenge.
pub fn token(key: &[u8], challenge: &[u8]) -> Result<[u8; STRING], Refusal>
    ensures { P.Tokens key.now challenge.now result }
{
    hmac::mac(key, challenge)
}

// The reply for a key, T and a region. The region is hashed where it stands.
pub fn reply_to(key: &[u8], t: &[u8], region: &[u8]) -> Result<[u8; STRING], Refusal>
    ensures { P.RepliesTo key.now t.now region.now result }
{
    // A region that is too long is refused before anything is hashed.
    if region.len() > hmac::MOST {
        return Err(Reason::LengthOrTotal.into());
    }
    let one_time_key = hmac::mac(key, t)?;
    hmac::mac(&one_time_key, region)
}

// The reply for a key, a challenge and a region.
pub fn reply(key: &[u8], challenge: &[u8], region: &[u8]) -> Result<[u8; STRING], Refusal>
    ensures { P.Replies key.now challenge.now region.now result }
{
    let t = token(key, challenge)?;
    reply_to(key, &t, region)
}

// Steps 1 and 2: is the challenge greater than the counter, and is T the token that came with it?
pub fn authorise(
    key: &[u8],
    challenge: &[u8],
    received: &[u8],
    counter: &[u8],
) -> Result<(), Refusal>
    ensures { P.Authorises key.now challenge.now received.now
        counter.now result }
{
    if !greater(challenge, counter) {
        return Err(Reason::ChallengeNotGreater.into());
    }
    let t = token(key, challenge)?;
    if !equal(&t, received) {
        return Err(Reason::TokenDiffers.into());
    }
    Ok(())
}
