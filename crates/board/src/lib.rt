// Attestation on a board's memory.
#![tactic(auto)]

ghost use Rattle.std.specs.Prelude.{◌≡◌, ◌+◌, ◌≤◌, length};
ghost use Rattle.layout.specs.Regions.{size};
ghost use Rattle.layout.specs.Calls.{memory_bytes};
ghost use Rattle.refusal.specs.Answers.{row};
ghost use Rattle.routine.specs.Routine.{string_bytes, token};
ghost use Rattle.board.specs.Memory as M;
ghost use Rattle.board.specs.Attestation as S;
ghost use Rattle.board.specs.Promises as P;
ghost use Rattle.board.specs.Inner as I;

use layout::{Layout, MEMORY_BYTES, Region};
use refusal::{Reason, Refusal};
use routine::STRING;

// A region's bytes, where they stand.
fn part(memory: &[u8; MEMORY_BYTES], r: Region) -> &[u8]
    requires { 1 ≤ size r }
    ensures { (result.now ≡ M.bytes_of r memory.now) × (length result.now ≡ size r)
        × (size r ≤ memory_bytes) }
{
    &memory[r.lo as usize..=r.hi as usize]
}

// A challenge, a token or a reply, where it stands: in MR in this order.
fn string(memory: &[u8; MEMORY_BYTES], a: usize) -> &[u8; STRING]
    requires { a + string_bytes ≤ memory_bytes }
    ensures { result.now ≡ M.bytes_at a string_bytes memory.now }
{
    <&[u8; STRING]>::try_from(&memory[a..a + STRING]).unwrap()
}

// Steps 1 and 2, which only read.
fn authorise(memory: &[u8; MEMORY_BYTES], l: Layout) -> Result<(), Refusal>
    requires { I.Sized l }
    ensures { row result ≡ row (S.request_check_in l memory.now) }
{
    let mail = l.mr.lo as usize;
    let key = part(memory, l.kr);
    let counter = part(memory, l.ctr);
    let challenge = string(memory, mail);
    let received = string(memory, mail + STRING);
    routine::authorise(key, challenge, received, counter)
}

// Step 3: the reply to the token that came, which is T, is stored, and CTR becomes the challenge.
fn accept(memory: &mut [u8; MEMORY_BYTES], l: Layout)
    requires { I.Sized l × (token (M.key l memory.old) (M.challenge l memory.old) ≡ M.received l memory.old) }
    ensures { memory.new ≡ S.accepted l memory.old }
{
    let mail = l.mr.lo as usize;
    let challenge = *string(memory, mail);
    let received = string(memory, mail + STRING);
    let key = part(memory, l.kr);
    let region = part(memory, l.ar);
    let due = routine::reply_to(key, received, region).unwrap();
    octets::store(memory, mail + 2 * STRING, &due);
    octets::store(memory, l.ctr.lo as usize, &challenge);
}

// Attestation on lent memory: done, with the reply in MR and the challenge in CTR, or refused with nothing changed.
pub fn attest(memory: &mut [u8], layout: &[u8]) -> Result<(), Refusal>
    ensures { P.Attests memory.old layout.now memory.new result }
{
    let l = layout::admit(memory, layout, Ok(()))?;
    let Some(board) = memory.as_mut_array::<MEMORY_BYTES>() else {
        return Err(Reason::MemorySize.into());
    };
    authorise(board, l)?;
    accept(board, l);
    Ok(())
}
