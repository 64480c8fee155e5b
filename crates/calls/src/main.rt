// Makes the calls that standard input lists, one after another, and prints what came back of each. docs/CALLS.md says
// how a call is written, and what is printed of it.
#![tactic(auto)]

mod attesting;
mod files;
mod hashing;
mod lent_argument;
mod line;
mod monitoring;
mod reading;
mod stream;

use std::io;
use std::io::{Read, Write};
use stream::Next;

// The call that was read. Its memory and its room, which it may change, are copied to rooms of their own, so that they
// can be lent to it.
#[derive(Drop)]
struct Rooms {
    call: [u8; stream::ROOM],
    memory: [u8; frames::MOST_ARGUMENT_BYTES],
    room: [u8; frames::MOST_ARGUMENT_BYTES],
}

impl Rooms {
    // Numbers, and no enum: each arm names its call already, and an enum would list all of them twice more.
    fn make(&mut self, out: &mut impl Write) -> io::Result<()> {
        let Rooms { call, memory, room } = self;
        match call[0] {
            1 => monitoring::check(out, call),
            2 => monitoring::step(out, call, memory, room),
            3 => monitoring::trace(out, call, memory, room),
            4 => attesting::attest(out, call, memory),
            5 => attesting::token(out, call),
            6 => attesting::check_reply(out, call),
            7 => hashing::hash(out, call),
            8 => hashing::mac(out, call),
            9 => hashing::take_in(out, call),
            10 => hashing::finish(out, call),
            11 => hashing::lent_take_in(out, call),
            12 => hashing::lent_finish(out, call),
            13 => reading::next(out, call),
            14 => files::judge(out, call, memory, room),
            _ => Ok(()),
        }
    }
}

// Makes the next call, and tells whether there was one.
fn next(input: &mut impl Read, out: &mut impl Write, rooms: &mut Rooms) -> io::Result<bool> {
    match stream::read(input, &mut rooms.call)? {
        Next::Call => {
            rooms.make(out)?;
            Ok(true)
        }
        Next::End => Ok(false),
        Next::Cut => {
            line::cut(out)?;
            Ok(false)
        }
    }
}

// Nothing says that the input ends, and a proved loop has to: no run uses up so many turns.
fn all(input: &mut impl Read, out: &mut impl Write, rooms: &mut Rooms) -> io::Result<()> {
    for _ in 0..u64::MAX {
        if !next(input, out, rooms)? {
            break;
        }
    }
    Ok(())
}

fn main(rt: HostRuntime) -> io::Result<()> {
    let mut rooms = Rooms {
        call: [0u8; stream::ROOM],
        memory: [0u8; frames::MOST_ARGUMENT_BYTES],
        room: [0u8; frames::MOST_ARGUMENT_BYTES],
    };
    all(&mut rt.stdin(), &mut rt.stdout(), &mut rooms)
}
