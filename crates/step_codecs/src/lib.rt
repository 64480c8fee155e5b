// A step as 12 bytes and a monitor from its bytes, as the program `calls` prints and takes them. Numbers have their
// lightest byte first.
#![tactic(auto)]

ghost use Rattle.std.specs.Prelude.{◌≡◌, get_or};
ghost use Rattle.steps.specs.Steps as T;
ghost use Rattle.step_codecs.specs.Promises as P;

use rules::Monitor;
use steps::Step;

// The bytes of a step.
const STEP_BYTES: usize = 12;

// The flags' byte, from bit 0 on.
fn flags(s: Step) -> u8
    ensures { result ≡ T.flags s }
{
    u8::from(s.cpureads)
        + 2 * u8::from(s.cpuwrites)
        + 4 * u8::from(s.interrupt)
        + 8 * u8::from(s.dmaactive)
        + 16 * u8::from(s.dmawrites)
}

// The 12 bytes that a step stands for.
// No `impl From`, here or for `Monitor`: neither type is of this crate, so the check refuses it as an orphan.
pub fn step_bytes(s: Step) -> [u8; STEP_BYTES]
    ensures { P.IsStepBytes s result }
{
    let [pc0, pc1] = s.pc.to_le_bytes();
    let [cpu0, cpu1] = s.cpuaddress.to_le_bytes();
    let [dma0, dma1] = s.dmaaddress.to_le_bytes();
    [
        pc0,
        pc1,
        cpu0,
        cpu1,
        dma0,
        dma1,
        flags(s),
        s.cpudata,
        s.dmadata,
        0,
        0,
        0,
    ]
}

// The byte at a place, or 0 behind the end.
fn byte_at(bytes: &[u8], i: usize) -> u8
    ensures { result ≡ get_or bytes.now i 0 }
{
    bytes.get(i).copied().unwrap_or(0)
}

// Held if the first byte is not 0, and the last PC behind it.
pub fn monitor_of(bytes: &[u8]) -> Monitor
    ensures { P.IsMonitor bytes.now result }
{
    Monitor {
        held: byte_at(bytes, 0) != 0,
        lastpc: octets::number_of_two(byte_at(bytes, 1), byte_at(bytes, 2)),
    }
}
