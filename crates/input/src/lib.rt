// Reading on until a buffer is full or the input ends, however few bytes a read gives.
#![tactic(auto)]

ghost use Rattle.std.specs.Prelude.{◌≡◌, ◌+◌, ◌<◌, ◌≤◌, length, take, drop, IfOk};
ghost use Rattle.std.specs.Io.KnownBytes.{Consumes, IsAtEnd};

use std::io;
use std::io::Read;

// Reads behind the first n bytes of a buffer, and answers how many bytes came.
fn read_at<R: Read>(input: &mut R, buffer: &mut [u8], n: usize) -> io::Result<usize>
    requires { n ≤ length buffer.old }
    ensures front { take n buffer.new ≡ take n buffer.old }
    ensures within { IfOk result (λ k. n + k ≤ length buffer.new) }
    ensures bytes { IfOk result (λ k. Consumes (R.remaining input.old) (R.remaining input.new)
        (take k (drop n buffer.new))) }
    ensures end { IfOk result (λ k. k ≡ 0 → n < length buffer.old → IsAtEnd (R.remaining input.new)) }
{
    input.read(&mut buffer[n..])
}

// Fills a buffer from its start, and answers how many bytes came: fewer than it holds only if the input ended.
pub fn read_full<R: Read>(input: &mut R, buffer: &mut [u8]) -> io::Result<usize>
    ensures within { IfOk result (λ n. n ≤ length buffer.new) }
    ensures bytes { IfOk result (λ n. Consumes (R.remaining input.old) (R.remaining input.new) (take n buffer.new)) }
    ensures end { IfOk result (λ n. n < length buffer.new → IsAtEnd (R.remaining input.new)) }
    ensures kept { length buffer.new ≡ length buffer.old }
{
    // No `for`: n grows by the bytes that a read gave. And `read_exact` does not say how many came before the end.
    let mut n = 0;
    while n < buffer.len() {
        let k = read_at(input, buffer, n)?;
        if k == 0 {
            break;
        }
        n += k;
    }
    Ok(n)
}
