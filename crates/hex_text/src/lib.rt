// Bytes in hexadecimal digits, as the program `calls` prints them.
#![tactic(auto)]

ghost use Rattle.std.specs.Prelude.{◌≡◌};
ghost use Rattle.std.proofs.lemmas.List.Edits.{sets};
ghost use Rattle.io.specs.Digits as D;
ghost use Rattle.hex_text.specs.Digits as T;
ghost use Rattle.hex_text.specs.Promises as P;

// The digits of a byte. They come from `io::hex`, in a buffer with their length: `write!` promises the text only where it answers
// `Ok`, and nothing rules `Err` out.
const DIGITS: usize = 2;

// Stores a byte's two digits, as many as fit.
fn put_digits(out: &mut [u8], at: usize, b: u8)
    ensures { out.new ≡ sets out.old at (D.last_digits T.base T.byte_digits b) }
{
    let mut text = [0u8; 16];
    let k = io::hex(u64::from(b), DIGITS, &mut text);
    octets::store(out, at, &text[..k]);
}

// Writes the bytes' digits, as many as fit, and answers how many those are. What stands behind them stays.
pub fn write(bytes: &[u8], out: &mut [u8]) -> usize
    ensures { P.WritesHex bytes.now out.old out.new result }
{
    for (i, b) in bytes.iter().enumerate() {
        put_digits(out, DIGITS * i, *b);
    }
    out.len().min(DIGITS * bytes.len())
}
