// A call in a stream of bytes: whether it is whole, and its arguments.
#![tactic(auto)]

ghost use Rattle.std.specs.Prelude.{◌≡◌, ◌≤◌, length, drop, option_copied};
ghost use Rattle.frames.specs.Calls as C;
ghost use Rattle.frames.specs.Frames as F;
ghost use Rattle.frames.specs.Promises as P;
ghost use Rattle.frames.specs.Inner as W;

// The bytes that one call's arguments have together at most.
pub const MOST_ARGUMENT_BYTES: usize = 262_144;

// The arguments that a call has at most, and the bytes of an argument's length.
const MOST_ARGUMENTS: usize = 5;

const LENGTH_BYTES: usize = 4;

// The bytes of the longest call.
pub const LONGEST: usize = 1 + MOST_ARGUMENTS * LENGTH_BYTES + MOST_ARGUMENT_BYTES;

// What bytes are of the call that they begin: too few by so many at least, all of it, or cut.
// Three states, and no Option or Result: the laws of specs/Streams.antt name each of them.
#[derive(Clone, Copy, PartialEq, Eq)]
pub enum Framed {
    Needs(usize),
    Whole,
    Cut,
}

// The length that an argument must have: any, or that of a monitor, a state of the running hash or a place in a trace.
type Length = Option<usize>;

const ANY: Length = None;

const MONITOR: Length = Some(3);

const STATE: Length = Some(104);

const PLACE: Length = Some(8);

// By its number: the length of each argument of a call, in order.
const CALLS: [Option<&[Length]>; 15] = [
    None, // 0: no call
    Some(&[ANY]), // 1: layout
    Some(&[ANY, ANY, ANY, MONITOR, ANY]), // 2: memory, layout, step, monitor, room
    Some(&[ANY, ANY, ANY, ANY]), // 3: memory, layout, trace, room
    Some(&[ANY, ANY]), // 4: memory, layout
    Some(&[ANY, ANY]), // 5: key, challenge
    Some(&[ANY, ANY, ANY, ANY]), // 6: key, challenge, reply, region
    Some(&[ANY]), // 7: message
    Some(&[ANY, ANY]), // 8: key, message
    Some(&[STATE, ANY]), // 9: state, bytes
    Some(&[STATE]), // 10: state
    Some(&[STATE, ANY]), // 11: state, bytes
    Some(&[STATE]), // 12: state
    Some(&[ANY, PLACE]), // 13: trace, place
    Some(&[ANY, ANY, ANY]), // 14: file, memory, room
];

// The lengths of a call's arguments, if a call has this number: any byte of a stream, so no enum.
fn lengths(number: u8) -> Option<&'static [Length]>
    ensures { option_copied result ≡ W.lengths number }
{
    *CALLS.get(number as usize)?
}

// Whether an argument may have so many bytes.
fn allows(wanted: Length, size: usize) -> bool
    ensures { result ≡ W.allows wanted size }
{
    wanted.is_none_or(|n| n == size)
}

// The length of the argument that begins at a place.
fn size_at(bytes: &[u8], at: usize) -> usize
    ensures { result ≡ F.size (drop at bytes.now) }
{
    octets::number_at(bytes, at, LENGTH_BYTES) as usize
}

// The place behind that argument, or the end of the bytes if they end before.
fn behind(bytes: &[u8], at: usize) -> usize
    requires { at ≤ length bytes.now }
    ensures { (result ≤ length bytes.now)
        × (drop result bytes.now ≡ F.behind (drop at bytes.now)) }
{
    let n = bytes.len();
    let size = size_at(bytes, at);
    if n - at < LENGTH_BYTES {
        return n;
    }
    if n - at - LENGTH_BYTES < size {
        return n;
    }
    at + LENGTH_BYTES + size
}

// One argument.
fn framed_one(bytes: &[u8], at: usize, wanted: Length, used: usize) -> Framed
    requires { (at ≤ length bytes.now) × (used ≤ C.most_argument_bytes) }
    ensures { result ≡ W.framed_one wanted used (drop at bytes.now) }
{
    let left = bytes.len() - at;
    if left < LENGTH_BYTES {
        return Framed::Needs(LENGTH_BYTES - left);
    }
    let size = size_at(bytes, at);
    if !allows(wanted, size) | (MOST_ARGUMENT_BYTES - used < size) {
        return Framed::Cut;
    }
    if left - LENGTH_BYTES < size {
        return Framed::Needs(size - (left - LENGTH_BYTES));
    }
    Framed::Whole
}

// All arguments.
fn framed_all(bytes: &[u8], lengths: &[Length]) -> Framed
    requires { 1 ≤ length bytes.now }
    ensures { result ≡ W.framed_all lengths.now 0 (drop 1 bytes.now) }
{
    let mut at = 1;
    let mut used = 0;
    for wanted in lengths {
        let one = framed_one(bytes, at, *wanted, used);
        if one != Framed::Whole {
            return one;
        }
        used += size_at(bytes, at);
        at = behind(bytes, at);
    }
    Framed::Whole
}

// What bytes of a stream are of the call that they begin.
pub fn frame(bytes: &[u8]) -> Framed
    ensures { P.Frames bytes.now result }
{
    let Some(number) = bytes.first() else {
        return Framed::Needs(1);
    };
    match lengths(*number) {
        Some(wanted) => framed_all(bytes, wanted),
        None => Framed::Cut,
    }
}

// Where argument i begins, or the end of the bytes if there is none.
fn begin(bytes: &[u8], i: usize) -> usize
    ensures { (result ≤ length bytes.now)
        × (F.skipped i (drop 1 bytes.now) ≡ drop result bytes.now) }
{
    let n = bytes.len();
    let mut at = n.min(1);
    for _ in 0..i {
        // However great i is, the turns end with the bytes.
        if at == n {
            break;
        }
        at = behind(bytes, at);
    }
    at
}

// Argument i of a call, where it stands.
pub fn argument(bytes: &[u8], i: usize) -> &[u8]
    ensures { P.IsArgument bytes.now i result.now }
{
    let at = begin(bytes, i);
    let n = bytes.len();
    let from = at + (n - at).min(LENGTH_BYTES);
    let size = size_at(bytes, at).min(n - from);
    &bytes[from..from + size]
}

// Copies argument i of a call to the room's start, as much of it as fits, and answers how much that is.
pub fn copy_argument(bytes: &[u8], i: usize, room: &mut [u8]) -> usize
    ensures { P.Copies bytes.now i room.old room.new result }
{
    let given = argument(bytes, i);
    let fits = given.len().min(room.len());
    room[..fits].copy_from_slice(&given[..fits]);
    fits
}
