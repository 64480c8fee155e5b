// The judging of a run file.
#![tactic(auto)]

ghost use Rattle.std.specs.Prelude.{◌≡◌};
ghost use Rattle.refusal.specs.Answers.{row, and_then};
ghost use Rattle.traces.specs.Traces.{trace_check};
ghost use Rattle.file_segments.specs.Segments.{segment_check};
ghost use Rattle.runfile.specs.Promises as P;
ghost use Rattle.runfile.specs.Inner as I;

use monitor::Totals;
use refusal::Refusal;

// Where the bodies of layout and memory begin in a file whose contents pass.
const LAYOUT_AT: usize = file_contents::CONTENTS_SIZE;

const MEMORY_AT: usize = LAYOUT_AT + layout::LAYOUT_BYTES;

// Refusals 14 and 7 to 9.
fn check_bodies(segments: &[u8], trace: &[u8], room: usize) -> Result<(), Refusal>
    ensures { row result
        ≡ row (and_then (segment_check segments.now) (trace_check trace.now room)) }
{
    file_segments::check_segments(segments)?;
    traces::fits(trace, room)
}

// A file whose contents passed, by its bodies: the other refusals, and then the run.
fn judge_bodies(
    layout: &[u8],
    segments: &[u8],
    trace: &[u8],
    memory: &mut [u8],
    room: &mut [u8],
) -> Result<Totals, Refusal>
    ensures { I.JudgesBodies layout.now segments.now trace.now
        memory.old room.old memory.new room.new result }
{
    let rest = check_bodies(segments, trace, room.len());
    let l = layout::admit(memory, layout, rest)?;
    file_segments::fill(segments, memory);
    monitor::run_with(l, trace, memory, room)
}

// Judges a run file: the memory becomes what its segments describe, and then what its trace stores; four answer bytes a
// step stand in the room. A refused call changes nothing.
pub fn judge(file: &[u8], memory: &mut [u8], room: &mut [u8]) -> Result<Totals, Refusal>
    ensures { P.Judges file.now memory.old room.old
        memory.new room.new result }
{
    file_contents::check_contents(file)?;
    let trace_at = file_contents::trace_begins(file);
    judge_bodies(
        &file[LAYOUT_AT..MEMORY_AT],
        &file[MEMORY_AT..trace_at],
        &file[trace_at..],
        memory,
        room,
    )
}
