// The running hash that the caller lends and finds changed, for the board. What is worked out is `sha256`'s, by value:
// these take the object apart and store back what the method hands over.
#![tactic(auto)]

ghost use Rattle.lent_hash.specs.Promises as P;

use refusal::Refusal;
use sha256::{DIGEST, Sha, Taken};

// A digest, and the state that it is of: the edit finish_changes_the_total is of its field.
#[derive(Clone, Copy)]
pub struct Finished {
    pub digest: Result<[u8; DIGEST], Refusal>,
    pub state: Sha,
}

// Before any byte, whatever stood in the object.
pub fn start(state: &mut Sha)
    ensures { P.Starts state.new }
{
    *state = Sha::start();
}

// Takes the bytes in; refused, and the object as it was, if there would be over 131,072 in all. The rules page wants this
// form: the object is taken apart, the method by value is called, and the fields are stored back.
pub fn take_in(state: &mut Sha, bytes: &[u8]) -> Result<(), Refusal>
    ensures { P.TakesIn state.old bytes.now state.new result }
{
    let words = state.words;
    let block = state.block;
    let held = Sha {
        words,
        block,
        total: state.total,
    };
    let taken = held.take_in(bytes);
    let words = taken.state.words;
    let block = taken.state.block;
    state.words = words;
    state.block = block;
    state.total = taken.state.total;
    taken.answer
}

// The digest of the bytes taken in; refused if there are over 131,072. Nothing in the object changes.
pub fn finish(state: &Sha) -> Result<[u8; DIGEST], Refusal>
    ensures { P.Finishes state.now result }
{
    Sha::finish(*state)
}

// The same three for callers that have no object to lend: it is made of these fields, lent, and handed back.
// They keep three parameters, since docs/ASSURANCE.md and the edit taken_in_by_another_object speak of the fields.
pub fn start_with_fields(words: [u32; 8], block: [u8; 64], total: u64) -> Sha
    ensures { P.Starts result }
{
    let mut object = Sha {
        words,
        block,
        total,
    };
    start(&mut object);
    object
}

pub fn take_in_with_fields(words: [u32; 8], block: [u8; 64], total: u64, bytes: &[u8]) -> Taken
    ensures { P.TakesIn (P.object words block total) bytes.now result.state result.answer }
{
    let mut object = Sha {
        words,
        block,
        total,
    };
    let answer = take_in(&mut object, bytes);
    Taken {
        answer,
        state: object,
    }
}

pub fn finish_with_fields(words: [u32; 8], block: [u8; 64], total: u64) -> Finished
    ensures { P.FinishesLent (P.object words block total) result }
{
    let object = Sha {
        words,
        block,
        total,
    };
    let digest = finish(&object);
    Finished {
        digest,
        state: object,
    }
}
