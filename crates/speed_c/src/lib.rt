// The functions of `speed` under C names, for bench/. A slice is a pointer and a length. C asks for each function twice: what
// it does stands in `speed`, which Rattle's crates can call too.
#![tactic(auto)]

ghost use Rattle.speed.specs.Promises as P;

#[unsafe(no_mangle)]
pub extern "C" fn speed_hash(message: &[u8], room: &mut [u8])
    ensures { P.StoresHash message.now room.old room.new }
{
    speed::speed_hash(message, room);
}

#[unsafe(no_mangle)]
pub extern "C" fn speed_mac(key: &[u8], message: &[u8], room: &mut [u8])
    ensures { P.StoresMac key.now message.now
        room.old room.new }
{
    speed::speed_mac(key, message, room);
}

#[unsafe(no_mangle)]
pub extern "C" fn speed_attest(memory: &mut [u8], layout: &[u8]) -> usize
    ensures { P.NumbersAttest memory.old layout.now memory.new result }
{
    speed::speed_attest(memory, layout)
}

#[unsafe(no_mangle)]
pub extern "C" fn speed_trace(
    memory: &mut [u8],
    layout: &[u8],
    trace: &[u8],
    room: &mut [u8],
) -> usize
    ensures { P.NumbersTrace memory.old layout.now trace.now
        room.old memory.new room.new result }
{
    speed::speed_trace(memory, layout, trace, room)
}

#[unsafe(no_mangle)]
pub extern "C" fn speed_judge(file: &[u8], memory: &mut [u8], room: &mut [u8]) -> usize
    ensures { P.NumbersJudge file.now memory.old room.old
        memory.new room.new result }
{
    speed::speed_judge(file, memory, room)
}
