// A reader of a trace: it holds the trace's bytes and the number of the step that is next.
#![tactic(auto)]

ghost use Rattle.reader.specs.Promises as P;

use refusal::{Reason, Refusal};
use steps::Step;

#[derive(Clone, Copy)]
pub struct StepReader<'a> {
    pub trace: &'a [u8],
    pub place: usize,
}

// What is read at a place, and the place after it: the promise `Advances` is of both.
#[derive(Clone, Copy)]
pub struct Advance {
    pub read: Result<Option<Step>, Refusal>,
    pub place: usize,
}

// What stands at a place of a trace: a step, the end, or refusal 7 or 9.
pub fn step_at(trace: &[u8], place: usize) -> Result<Option<Step>, Refusal>
    ensures { P.ReadsAt trace.now place result }
{
    if traces::misfits(trace) {
        return Err(Reason::TraceSize.into());
    }
    if trace.len() / traces::STEP <= place {
        return Ok(None);
    }
    let bytes = traces::step_record(trace, place);
    if !steps::clean(bytes) {
        return Err(Reason::StepNotZero.at(place));
    }
    Ok(Some(steps::decode(bytes)))
}

impl<'a> StepReader<'a> {
    // At the first step.
    pub fn new(trace: &'a [u8]) -> StepReader<'a>
        ensures { P.Begins trace.entry result }
    {
        StepReader { trace, place: 0 }
    }

    // What stands at the reader's place. Only handing out a step moves the place.
    // No `Iterator`: a refusal leaves the place, so that its `next` would give the same refusal without end.
    pub fn next(&mut self) -> Result<Option<Step>, Refusal>
        ensures { P.Reads self.old self.new result }
    {
        let read = step_at(self.trace, self.place)?;
        if let Some(_) = read {
            self.place += 1;
        }
        Ok(read)
    }
}

// The same without a reader in hand: one is made, put at this place, lent to `next`, and asked for its place. The edits
// next_at_from_0 and next_at_keeps_the_place are of this function.
pub fn next_at(trace: &[u8], place: usize) -> Advance
    ensures { P.Advances trace.now place result }
{
    let mut reader = StepReader::new(trace);
    reader.place = place;
    let read = reader.next();
    Advance {
        read,
        place: reader.place,
    }
}
