// Calls on standard input.
use frames::Framed;
use std::io;
use std::io::Read;

// Whether a call stands at the room's start, there is none more, or it is cut: a state more than an Option has.
#[derive(Clone, Copy)]
pub enum Next {
    Call,
    End,
    Cut,
}

// A byte more than the longest call has: there is always room for what is asked for.
pub const ROOM: usize = frames::LONGEST + 1;

// Reads a call into the room, and never a byte that is not the call's. What stands behind it there is left from calls
// before.
#[tactic(auto, using(crate::proofs::Asked::asked))]
pub fn read(input: &mut impl Read, room: &mut [u8; ROOM]) -> io::Result<Next> {
    let mut n = 0;
    // No `for`: n grows by the bytes that came.
    loop {
        match frames::frame(&room[..n]) {
            Framed::Whole => return Ok(Next::Call),
            Framed::Cut => return Ok(Next::Cut),
            Framed::Needs(k) => {
                let came = input::read_full(input, &mut room[n..n + k])?;
                n += came;
                if came < k {
                    return Ok(if n == 0 { Next::End } else { Next::Cut });
                }
            }
        }
    }
}
