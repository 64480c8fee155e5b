// What the monitor remembers, and the rules by which a step resets.
#![tactic(auto)]

ghost use Rattle.std.specs.Prelude.{◌≡◌};
ghost use Rattle.rules.specs.Rules as R;
ghost use Rattle.rules.specs.Inner as I;
ghost use Rattle.rules.specs.Promises as P;

use layout::Layout;
use steps::Step;

// What the monitor remembers: whether it is held, and the PC of the step before.
#[derive(Clone, Copy)]
pub struct Monitor {
    pub held: bool,
    pub lastpc: u16,
}

// For each rule, whether it is tried at a step and applies to it.
#[derive(Clone, Copy)]
struct Broken {
    r1: bool,
    r2: bool,
    r3: bool,
    r4: bool,
    r5: bool,
    r6: bool,
    r7: bool,
    r8: bool,
    r9: bool,
    r10: bool,
}

// A number, as `cause` answers.
const HELD: u8 = 15;

// Which of the ten rules are tried at the step and apply to it.
fn breaks(l: Layout, m: Monitor, s: Step) -> Broken
    ensures { result ≡ R.broken l m s }
{
    let inside = l.cr.holds(s.pc);
    let was_inside = l.cr.holds(m.lastpc);
    let cpu_kr = l.kr.holds(s.cpuaddress);
    let cpu_xs = l.xs.holds(s.cpuaddress);
    let cpu_mr = l.mr.holds(s.cpuaddress);
    let cpu_ctr = l.ctr.holds(s.cpuaddress);
    let dma_kr = l.kr.holds(s.dmaaddress);
    let dma_xs = l.xs.holds(s.dmaaddress);
    let dma_ctr = l.ctr.holds(s.dmaaddress);
    let unheld = !m.held;
    let outside = !inside;
    Broken {
        r1: outside & (s.cpureads & cpu_kr),
        r2: unheld & (was_inside & (m.lastpc != l.cr.hi) & outside),
        r3: unheld & (!was_inside & inside & (s.pc != l.cr.lo)),
        r4: unheld & (s.interrupt & inside),
        r5: outside & ((s.cpureads & cpu_xs) | (s.cpuwrites & cpu_xs)),
        r6: unheld & (inside & s.cpuwrites & (!cpu_xs & !cpu_mr & !cpu_ctr)),
        r7: s.dmaactive & dma_kr,
        r8: s.dmaactive & dma_xs,
        r9: unheld & (s.dmaactive & inside),
        r10: (outside & (s.cpuwrites & cpu_ctr)) | (s.dmawrites & (s.dmaactive & dma_ctr)),
    }
}

// The lowest rule of the ten, and 0 if none applies.
fn lowest(b: Broken) -> u8
    ensures { result ≡ R.lowest b }
{
    let in_order = [b.r1, b.r2, b.r3, b.r4, b.r5, b.r6, b.r7, b.r8, b.r9, b.r10];
    match in_order.iter().position(|broken| *broken) {
        Some(k) => k as u8 + 1,
        None => 0,
    }
}

// CR is neither entered nor left, and no access is in a region that a rule guards. Most steps are so, and then none is broken.
fn apart(l: Layout, m: Monitor, s: Step) -> bool
    ensures { result ≡ I.apart l m s }
{
    let code = l.cr.holds(s.pc) | l.cr.holds(m.lastpc);
    let cpu = l.kr.holds(s.cpuaddress) | l.xs.holds(s.cpuaddress) | l.ctr.holds(s.cpuaddress);
    let dma = l.kr.holds(s.dmaaddress) | l.xs.holds(s.dmaaddress) | l.ctr.holds(s.dmaaddress);
    !(code | cpu | dma)
}

// PC in CR as the rules allow: it came from CR or enters at the lowest address, nothing interrupts, the DMA rests, and a write is in XS,
// MR or CTR. Most other steps are so.
fn visits(l: Layout, m: Monitor, s: Step) -> bool
    ensures { result ≡ I.visits l m s }
{
    let entered = l.cr.holds(m.lastpc) | (s.pc == l.cr.lo);
    let lawful = l.xs.holds(s.cpuaddress) | l.mr.holds(s.cpuaddress) | l.ctr.holds(s.cpuaddress);
    l.cr.holds(s.pc) & entered & !(s.interrupt | s.dmaactive) & (!s.cpuwrites | lawful)
}

// Why the step resets, and 0 if it does not. A number, since `effects::act` promises an answer for every byte as a cause.
pub fn cause(l: Layout, m: Monitor, s: Step) -> u8
    ensures { P.GivesCause l m s result }
{
    if m.held & (s.pc != 0) {
        return HELD;
    }
    if apart(l, m, s) {
        return 0;
    }
    if visits(l, m, s) {
        return 0;
    }
    lowest(breaks(l, m, s))
}
