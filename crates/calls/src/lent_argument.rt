// An argument that a call may change, in a room of its own, so that it can be lent to it.
ghost use Rattle.std.specs.Prelude.{◌≡◌, length, take};
ghost use Rattle.frames.specs.Frames as F;

// Copies argument i of a call into a room, which is as long as an argument can be, and lends it there.
pub fn lend<'a>(call: &[u8], i: usize, room: &'a mut [u8]) -> &'a mut [u8]
    ensures { result.now ≡ take (length room.old) (F.argument call.now i) }
{
    let n = frames::copy_argument(call, i, room);
    &mut room[..n]
}
