// What the bytes of a trace are: whole steps, how many, and whether they and a room for their answers fit.
#![tactic(auto)]

ghost use Rattle.std.specs.Prelude.{◌≡◌, ◌+◌, ◌*◌, ◌≤◌, length};
ghost use Rattle.notions.specs.First.{found};
ghost use Rattle.traces.specs.Traces as T;
ghost use Rattle.traces.specs.Promises as P;

use refusal::{Reason, Refusal};

// The bytes of a step and of its answer, and the most steps of a trace.
pub const STEP: usize = 12;

pub const ANSWER: usize = 4;

pub const MOST_STEPS: usize = 4096;

// The 12 bytes of a step.
fn step_bytes(b: &[u8], n: usize) -> [u8; STEP]
    requires { T.step_size * n + T.step_size ≤ length b.now }
    ensures { result ≡ T.step_bytes b.now n }
{
    let at = STEP * n;
    let mut r = [0u8; STEP];
    r.copy_from_slice(&b[at..at + STEP]);
    r
}

// The same of any step: zeros if the trace has none with this number.
pub fn step_record(trace: &[u8], n: usize) -> [u8; STEP]
    ensures { P.GivesRecord trace.now n result }
{
    if n < trace.len() / STEP {
        return step_bytes(trace, n);
    }
    [0u8; STEP]
}

// The first step with a zero bit or byte set.
fn first_unclean(b: &[u8]) -> Option<usize>
    ensures { result ≡ found (T.count b.now) (T.unclean b.now) }
{
    (0..b.len() / STEP).find(|k| !steps::clean(step_bytes(b, *k)))
}

// Not whole steps, or over 4,096 of them.
pub fn misfits(trace: &[u8]) -> bool
    ensures { P.Misfits trace.now result }
{
    (trace.len() % STEP != 0) | (MOST_STEPS < trace.len() / STEP)
}

// Refusals 7 to 9 of a trace and of so many bytes of answer room.
pub fn fits(trace: &[u8], room: usize) -> Result<(), Refusal>
    ensures { P.Fits trace.now room result }
{
    if misfits(trace) {
        return Err(Reason::TraceSize.into());
    }
    if room < ANSWER * (trace.len() / STEP) {
        return Err(Reason::RoomSize.into());
    }
    if let Some(k) = first_unclean(trace) {
        return Err(Reason::StepNotZero.at(k));
    }
    Ok(())
}

// The same of one step.
pub fn step_fits(step: &[u8], room: usize) -> Result<(), Refusal>
    ensures { P.StepFits step.now room result }
{
    if step.len() != STEP {
        return Err(Reason::TraceSize.into());
    }
    fits(step, room)
}
