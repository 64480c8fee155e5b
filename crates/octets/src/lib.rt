// Bytes as numbers, and bytes stored at a place. Numbers have their lightest byte first.
#![tactic(auto)]

ghost use Rattle.std.specs.Prelude.{◌≡◌, ◌^◌, ◌≤◌, ◌<◌, length};
ghost use Rattle.octets.specs.Numbers as N;
ghost use Rattle.octets.specs.Promises as P;

// The most bytes that a number is read from.
const NUMBER_BYTES: usize = 8;

// The number of two bytes.
pub fn number_of_two(low: u8, high: u8) -> u16
    ensures { P.IsNumberOfTwo low high result }
{
    u16::from_le_bytes([low, high])
}

// The number of at most eight bytes. The library's `from_le_bytes` is of eight and no fewer: these would be copied first.
fn short_number(bytes: &[u8]) -> u64
    requires { length bytes.now ≤ N.number_bytes }
    ensures { (result ≡ N.number bytes.now) × (result < 256 ^ length bytes.now) }
{
    let mut n: u64 = 0;
    for b in bytes.iter().rev() {
        n = 256 * n + u64::from(*b);
    }
    n
}

// The number of at most eight bytes from a place on, or of those of them that there are.
fn short_number_at(bytes: &[u8], from: usize, k: usize) -> u64
    requires { k ≤ N.number_bytes }
    ensures { (result ≡ N.number_at bytes.now from k) × (result < 256 ^ k) }
{
    let behind = bytes.get(from..).unwrap_or(&[]);
    // Where all k are there their length is known to the compiler, which then reads them at once.
    if behind.len() < k {
        return short_number(behind);
    }
    short_number(&behind[..k])
}

// The number of k bytes from a place on, or of those of them that there are. Over eight count as eight.
pub fn number_at(bytes: &[u8], from: usize, k: usize) -> u64
    ensures { P.ReadsNumber bytes.now from k result }
{
    short_number_at(bytes, from, k.min(NUMBER_BYTES))
}

// The number of the first eight bytes, or of those of them that there are.
pub fn number(bytes: &[u8]) -> u64
    ensures { P.IsNumber bytes.now result }
{
    short_number_at(bytes, 0, NUMBER_BYTES)
}

// Stores bytes in the room from a place on, as many as fit. What stands beside them stays.
pub fn store(room: &mut [u8], at: usize, x: &[u8])
    ensures { P.Stores room.old at x.now room.new }
{
    if room.len() <= at {
        return;
    }
    let k = (room.len() - at).min(x.len());
    room[at..at + k].copy_from_slice(&x[..k]);
}
