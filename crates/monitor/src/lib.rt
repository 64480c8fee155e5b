// The monitor on lent memory: one step from whatever it remembers, and a trace from its start.
#![tactic(auto)]

ghost use Rattle.std.specs.Prelude.{◌≡◌, ◌+◌, ◌*◌, ◌≤◌, length};
ghost use Rattle.effects.specs.Effects as E;
ghost use Rattle.traces.specs.Traces as T;
ghost use Rattle.monitor.specs.Runs as R;
ghost use Rattle.monitor.specs.Inner as I;
ghost use Rattle.monitor.specs.Promises as P;

use effects::StepAnswer;
use layout::Layout;
use refusal::{Reason, Refusal};
use rules::Monitor;
use traces::{ANSWER, STEP};

#[derive(Clone, Copy)]
pub struct Totals {
    pub steps: usize,
    pub resets: usize,
}

// What one step leaves beside memory and room.
#[derive(Clone, Copy)]
struct Outcome {
    answer: StepAnswer,
    monitor: Monitor,
}

// The four answer bytes, at a place of the room.
fn put_answer(room: &mut [u8], at: usize, a: StepAnswer)
    requires { at + T.answer_size ≤ length room.old }
    ensures { room.new ≡ I.replaced room.old at T.answer_size (E.bytes a) }
{
    let bytes = [a.cause, a.exposed, a.cpubyte, a.dmabyte];
    room[at..at + ANSWER].copy_from_slice(&bytes);
}

// Step i of a trace: its decision, its stores, and its answer at its place of the room.
fn run_step(
    l: Layout,
    m: Monitor,
    trace: &[u8],
    i: usize,
    memory: &mut [u8],
    room: &mut [u8],
) -> Outcome
    requires { (T.step_size * i + T.step_size ≤ length trace.now) × (T.answer_size * i + T.answer_size ≤ length room.old) }
    ensures { I.RunsStep l m (T.steps trace.now i) i memory.old room.old
        memory.new room.new result }
{
    let s = steps::decode(traces::step_record(trace, i));
    let cause = rules::cause(l, m, s);
    let answer = effects::act(l, cause, s, memory);
    put_answer(room, ANSWER * i, answer);
    let monitor = Monitor {
        held: cause != 0,
        lastpc: s.pc,
    };
    Outcome { answer, monitor }
}

// All steps of a trace, from the monitor's start.
fn run(l: Layout, trace: &[u8], memory: &mut [u8], room: &mut [u8]) -> Totals
    requires { T.answer_size * T.count trace.now ≤ length room.old }
    ensures { (result ≡ R.totals l trace.now memory.old)
        × (memory.new ≡ R.memory_after l trace.now memory.old)
        × (room.new ≡ R.room_after l trace.now memory.old room.old) }
{
    let steps = trace.len() / STEP;
    let mut m = Monitor {
        held: true,
        lastpc: 0,
    };
    let mut resets: usize = 0;
    for i in 0..steps {
        let j = run_step(l, m, trace, i, memory, room);
        m = j.monitor;
        resets += usize::from(j.answer.cause != 0);
    }
    Totals { steps, resets }
}

// Layout, trace, memory and room go side by side through these functions: the public ones have them as parameters.

// The run alone, for a call that has checked the layout and the steps by itself. A refused call changes nothing.
pub fn run_with(
    l: Layout,
    trace: &[u8],
    memory: &mut [u8],
    room: &mut [u8],
) -> Result<Totals, Refusal>
    ensures { P.Runs l trace.now memory.old room.old
        memory.new room.new result }
{
    if memory.len() != layout::MEMORY_BYTES {
        return Err(Reason::MemorySize.into());
    }
    if room.len() < ANSWER * (trace.len() / STEP) {
        return Err(Reason::RoomSize.into());
    }
    Ok(run(l, trace, memory, room))
}

// Judges a trace on lent memory, from the monitor's start, and puts four answer bytes a step into the room.
// A refused call changes nothing.
pub fn trace(
    memory: &mut [u8],
    layout: &[u8],
    trace: &[u8],
    room: &mut [u8],
) -> Result<Totals, Refusal>
    ensures { P.Traces memory.old layout.now trace.now room.old
        memory.new room.new result }
{
    let rest = traces::fits(trace, room.len());
    let l = layout::admit(memory, layout, rest)?;
    run_with(l, trace, memory, room)
}

// Judges one step on lent memory, from whatever the monitor remembers, and hands back what it then remembers.
// A refused call changes nothing.
pub fn step(
    memory: &mut [u8],
    layout: &[u8],
    step: &[u8],
    monitor: Monitor,
    room: &mut [u8],
) -> Result<Monitor, Refusal>
    ensures { P.Steps memory.old layout.now step.now monitor room.old
        memory.new room.new result }
{
    let rest = traces::step_fits(step, room.len());
    let l = layout::admit(memory, layout, rest)?;
    Ok(run_step(l, monitor, step, 0, memory, room).monitor)
}
