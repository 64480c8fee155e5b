// The hash, the MAC, attestation, the judging of a trace and of a run file for a C program to time. `speed_c` exports these
// functions, and bench/ links those.
#![tactic(auto)]

ghost use Rattle.std.specs.Prelude.{◌≡◌};
ghost use Rattle.speed.specs.Promises as P;

use refusal::Refusal;

// The bytes of a digest.
const DIGEST_BYTES: usize = 32;

// A digest's bytes at the room's start; a room that is too short for them is left as it is.
fn store(bytes: &[u8; DIGEST_BYTES], room: &mut [u8])
    ensures { room.new ≡ P.holding bytes.now room.old }
{
    if room.len() < DIGEST_BYTES {
        return;
    }
    room[..DIGEST_BYTES].copy_from_slice(bytes);
}

// Stores the bytes that `hash` answers, and zeros where it refuses.
pub fn speed_hash(message: &[u8], room: &mut [u8])
    ensures { P.StoresHash message.now room.old room.new }
{
    let d = sha256::hash(message).unwrap_or([0u8; DIGEST_BYTES]);
    store(&d, room);
}

// Stores the bytes that `mac` answers, and zeros where it refuses.
pub fn speed_mac(key: &[u8], message: &[u8], room: &mut [u8])
    ensures { P.StoresMac key.now message.now
        room.old room.new }
{
    let d = hmac::mac(key, message).unwrap_or([0u8; DIGEST_BYTES]);
    store(&d, room);
}

// The number of the refusal, or 0: C gets a number.
fn number<T: Copy>(answer: Result<T, Refusal>) -> usize
    ensures { result ≡ P.number_of answer }
{
    match answer {
        Ok(_) => 0,
        Err(r) => r.reason.number() as usize,
    }
}

// What `attest` leaves in memory, and the number of its refusal or 0.
pub fn speed_attest(memory: &mut [u8], layout: &[u8]) -> usize
    ensures { P.NumbersAttest memory.old layout.now memory.new result }
{
    number(board::attest(memory, layout))
}

// What `trace` leaves in memory and room, and the number of its refusal or 0.
pub fn speed_trace(memory: &mut [u8], layout: &[u8], trace: &[u8], room: &mut [u8]) -> usize
    ensures { P.NumbersTrace memory.old layout.now trace.now
        room.old memory.new room.new result }
{
    number(monitor::trace(memory, layout, trace, room))
}

// What `judge` leaves in memory and room, and the number of its refusal or 0.
pub fn speed_judge(file: &[u8], memory: &mut [u8], room: &mut [u8]) -> usize
    ensures { P.NumbersJudge file.now memory.old room.old
        memory.new room.new result }
{
    number(runfile::judge(file, memory, room))
}
