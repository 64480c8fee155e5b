// One step of a trace, and the 12 bytes that tell it.
#![tactic(auto)]

ghost use Rattle.std.specs.Prelude.{◌≡◌, ◌<◌};
ghost use Rattle.steps.specs.Promises as P;
ghost use Rattle.steps.specs.Steps as S;

// A step: PC, the address and the data byte of the CPU's access and of the DMA's, and the flag bits 0 to 4.
#[derive(Clone, Copy)]
pub struct Step {
    pub pc: u16,
    pub cpuaddress: u16,
    pub dmaaddress: u16,
    pub cpureads: bool,
    pub cpuwrites: bool,
    pub interrupt: bool,
    pub dmaactive: bool,
    pub dmawrites: bool,
    pub cpudata: u8,
    pub dmadata: u8,
}

// Bit k of a byte is set. By a shift: the library has no test of one bit.
fn bit(k: u8, x: u8) -> bool
    requires { k < 8 }
    ensures { result ≡ S.bit k x }
{
    (x >> k) % 2 == 1
}

// The step that 12 bytes tell.
// No `impl From`: callers and the promise name `decode`, and an impl beside it would only say the same again.
pub fn decode(b: [u8; 12]) -> Step
    ensures { P.Decodes b result }
{
    Step {
        pc: octets::number_of_two(b[0], b[1]),
        cpuaddress: octets::number_of_two(b[2], b[3]),
        dmaaddress: octets::number_of_two(b[4], b[5]),
        cpureads: bit(0, b[6]),
        cpuwrites: bit(1, b[6]),
        interrupt: bit(2, b[6]),
        dmaactive: bit(3, b[6]),
        dmawrites: bit(4, b[6]),
        cpudata: b[7],
        dmadata: b[8],
    }
}

// The zero bits and bytes of a step's 12 bytes are zero.
pub fn clean(b: [u8; 12]) -> bool
    ensures { P.IsClean b result }
{
    (b[6] < 32) & (b[9] == 0) & (b[10] == 0) & (b[11] == 0)
}
