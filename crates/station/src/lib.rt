// The station: the token for a challenge, and the check of a reply.
#![tactic(auto)]

ghost use Rattle.station.specs.Promises as P;

use refusal::{Reason, Refusal};
use routine::STRING;

// The bytes of a key.
const KEY: usize = 64;

// The token for a challenge; refused unless the key has 64 bytes and the challenge 32.
pub fn token(key: &[u8], challenge: &[u8]) -> Result<[u8; STRING], Refusal>
    ensures { P.MakesToken key.now challenge.now result }
{
    if (key.len() != KEY) | (challenge.len() != STRING) {
        return Err(Reason::LengthOrTotal.into());
    }
    routine::token(key, challenge)
}

// Whether a reply is the routine's for the key, the challenge and the expected region; refused for a wrong length of
// one of them.
pub fn check(key: &[u8], challenge: &[u8], reply: &[u8], region: &[u8]) -> Result<bool, Refusal>
    ensures { P.ChecksReply key.now challenge.now reply.now
        region.now result }
{
    if (key.len() != KEY)
        | (challenge.len() != STRING)
        | (reply.len() != STRING)
        | (region.len() == 0)
        | (region.len() > hmac::MOST)
    {
        return Err(Reason::LengthOrTotal.into());
    }
    let due = routine::reply(key, challenge, region)?;
    Ok(routine::equal(reply, &due))
}
