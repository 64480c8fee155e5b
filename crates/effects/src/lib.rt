// What one step hands out and what it stores, by its cause.
#![tactic(auto)]

ghost use Rattle.std.specs.Prelude.{◌≡◌, ◌+◌, get_or};
ghost use Rattle.notions.specs.Choice.{pick};
ghost use Rattle.effects.specs.Effects as E;
ghost use Rattle.effects.specs.Promises as P;

use layout::Layout;
use steps::Step;

// Early returns, tests as numbers and zeros are written out below: with `get`, `u8::from` and one place for an answer that hides
// all, the judging of a trace took 1.2 to 2.2 times as long.

// The four answer bytes of a step; bit 0 of `exposed` stands for the CPU's byte, bit 1 for the DMA's. Bytes, and no `Option`: the
// promise `Acts` and the answers of a trace are of the four as they stand.
#[derive(Clone, Copy)]
pub struct StepAnswer {
    pub cause: u8,
    pub exposed: u8,
    pub cpubyte: u8,
    pub dmabyte: u8,
}

// The byte at an address, or 0 where it is not exposed.
fn peek(on: bool, a: u16, memory: &[u8]) -> u8
    ensures { result ≡ pick on (get_or memory.now a 0) 0 }
{
    let at = a as usize;
    if !on | (memory.len() <= at) {
        return 0;
    }
    memory[at]
}

// A store, which has no effect in CR and KR.
fn put(l: Layout, on: bool, a: u16, v: u8, memory: &mut [u8])
    ensures { memory.new ≡ E.stored l on a v memory.old }
{
    let at = a as usize;
    if !on | (memory.len() <= at) {
        return;
    }
    if !l.cr.holds(a) & !l.kr.holds(a) {
        memory[at] = v;
    }
}

// The exposure bits.
fn exposure(cpu: bool, dma: bool) -> u8
    ensures { result ≡ pick cpu 1 0 + pick dma 2 0 }
{
    if cpu {
        if dma { 3 } else { 1 }
    } else {
        if dma { 2 } else { 0 }
    }
}

// Both reads, and then the stores.
fn access(l: Layout, s: Step, memory: &mut [u8]) -> StepAnswer
    ensures { (result ≡ E.exposing l s memory.old)
        × (memory.new ≡ E.storing l s memory.old) }
{
    let cpu_seen = s.cpureads & !l.cr.holds(s.pc);
    let dma_seen = s.dmaactive & !s.dmawrites;
    let cpu_stores = s.cpuwrites;
    let dma_stores = s.dmaactive & s.dmawrites;
    let exposed = exposure(cpu_seen, dma_seen);
    let cpubyte = peek(cpu_seen, s.cpuaddress, memory);
    let dmabyte = peek(dma_seen, s.dmaaddress, memory);
    put(l, cpu_stores, s.cpuaddress, s.cpudata, memory);
    put(l, dma_stores, s.dmaaddress, s.dmadata, memory);
    StepAnswer {
        cause: 0,
        exposed,
        cpubyte,
        dmabyte,
    }
}

// A step that does not reset. With PC in CR and the DMA at rest nothing is handed out, so that only the CPU's store is left.
fn perform(l: Layout, s: Step, memory: &mut [u8]) -> StepAnswer
    ensures { (result ≡ E.exposing l s memory.old)
        × (memory.new ≡ E.storing l s memory.old) }
{
    if l.cr.holds(s.pc) & !s.dmaactive {
        put(l, s.cpuwrites, s.cpuaddress, s.cpudata, memory);
        return StepAnswer {
            cause: 0,
            exposed: 0,
            cpubyte: 0,
            dmabyte: 0,
        };
    }
    access(l, s, memory)
}

// A step that has been given its cause, on memory of any length: its answer and its stores, which are none if it resets.
pub fn act(l: Layout, cause: u8, s: Step, memory: &mut [u8]) -> StepAnswer
    ensures { P.Acts l cause s memory.old memory.new result }
{
    if cause == 0 {
        return perform(l, s, memory);
    }
    StepAnswer {
        cause,
        exposed: 0,
        cpubyte: 0,
        dmabyte: 0,
    }
}
