//! A narrow line, as C asks for it. It and its addresses lie in memory of C's own, and need no handle.
ghost use Rattle.std.specs.Prelude.{◌≡◌, true};
ghost use Rattle.ipx_limits.specs.LineMembers.{LineJoined, LineLeft, LineSpoken, LineSilent, LineSecond, is_silent};
ghost use Rattle.ipx_limits.specs.LineRoom.{LineAsked, LineSent, lets_beyond, own_after, taken, own_cost, one_cost, one_owed, lets_answer, lets_stranger, strangers_owed, stranger_after};
ghost use Rattle.ipx_limits.specs.declared.rank.Rank.{Rank};
ghost use Rattle.std.specs.Prelude.{Option};
ghost use Rattle.ipx_limits.specs.Strangers.{strangers_of_line};
ghost use Rattle.ipx_c.specs.LimitValues.{rank_at, room_number};

use crate::limit_values::{rank_at, room_number};
use ipx_limits::{Line, LineAddress, StrangersLimits};

// ---- Who is there

/// An address has one more client there.
#[unsafe(no_mangle)]
pub extern "C" fn ipxr_line_join(line: &mut Line, address: &mut LineAddress)
    ensures { LineJoined line.old line.new address.old address.new }
{
    line.join(address);
}

/// An address has one fewer.
#[unsafe(no_mangle)]
pub extern "C" fn ipxr_line_leave(line: &mut Line, address: &mut LineAddress)
    ensures { LineLeft line.old line.new address.old address.new }
{
    line.leave(address);
}

/// An address speaks. Returns the number that it has then.
#[unsafe(no_mangle)]
pub extern "C" fn ipxr_line_speak(line: &mut Line, address: &mut LineAddress) -> u8
    ensures number { result ≡ address.new.number }
    ensures address { LineSpoken line.old line.new address.old address.new }
{
    line.speak(address)
}

/// An address speaks no more, or is gone.
#[unsafe(no_mangle)]
pub extern "C" fn ipxr_line_silence(line: &mut Line, address: &mut LineAddress)
    ensures { LineSilent line.old line.new address.old address.new }
{
    line.silence(address);
}

/// A second passes for an address.
#[unsafe(no_mangle)]
pub extern "C" fn ipxr_line_second(line: &mut Line, address: &mut LineAddress)
    ensures { LineSecond (is_silent address.old) line.old line.new address.old address.new }
{
    line.second(address);
}

// ---- Copies

/// Whether there is room for a copy of a packet of so many bytes to an address, and with which rank it goes out.
#[unsafe(no_mangle)]
pub extern "C" fn ipxr_line_room(
    line: &Line,
    now: u64,
    number: u8,
    bytes: usize,
    said: &mut u64,
    to: &mut LineAddress,
) -> u8
    ensures { (room : Option Rank) × ((result ≡ room_number room) × LineAsked now line.now number bytes said.old said.new room to.old to.new) }
{
    room_number(line.room(now, number, bytes, said, to))
}

/// A copy goes out that found room with that rank.
#[unsafe(no_mangle)]
pub extern "C" fn ipxr_line_send(
    line: &mut Line,
    now: u64,
    number: u8,
    bytes: usize,
    rank: u8,
    said: &mut u64,
    to: &mut LineAddress,
)
    ensures { LineSent now number bytes (rank_at rank) line.old line.new said.old said.new to.old to.new }
{
    line.send(now, number, bytes, rank_at(rank), said, to);
}

/// Whether there is room for a copy beyond all parts.
#[unsafe(no_mangle)]
pub extern "C" fn ipxr_line_lets_beyond(line: &Line, now: u64) -> bool
    ensures { result ≡ lets_beyond now line.now }
{
    line.lets_beyond(now)
}

// ---- What the gateway says itself

/// Whether an answer of the gateway's own goes out to a client, whose address uses so much of the part that it has of them.
#[unsafe(no_mangle)]
pub extern "C" fn ipxr_line_lets_answer(line: &Line, now: u64, address: &mut u64) -> bool
    ensures room { result ≡ lets_answer now line.now address.new }
    ensures address { address.new ≡ one_owed now line.now address.old }
{
    line.lets_answer(now, address)
}

/// It goes out.
#[unsafe(no_mangle)]
pub extern "C" fn ipxr_line_send_answer(line: &mut Line, now: u64, bytes: usize, address: &mut u64)
    ensures line { line.new ≡ own_after now line.old bytes }
    ensures address { address.new ≡ taken now true (one_cost line.old bytes) address.old }
{
    line.send_answer(now, bytes, address);
}

/// A ping goes out.
#[unsafe(no_mangle)]
pub extern "C" fn ipxr_line_send_ping(line: &mut Line, now: u64, bytes: usize)
    ensures { line.new ≡ own_after now line.old bytes }
{
    line.send_ping(now, bytes);
}

/// Whether there is room for what the gateway says to one who is no client, whose address uses so much of the part that it has there.
#[unsafe(no_mangle)]
pub extern "C" fn ipxr_line_lets_stranger(line: &mut Line, now: u64, address: &mut u64) -> bool
    ensures room { result ≡ lets_stranger now line.new address.new }
    ensures line { line.new ≡ strangers_owed now line.old }
    ensures address { address.new ≡ one_owed now line.old address.old }
{
    line.lets_stranger(now, address)
}

/// It goes out.
#[unsafe(no_mangle)]
pub extern "C" fn ipxr_line_send_to_stranger(
    line: &mut Line,
    now: u64,
    bytes: usize,
    address: &mut u64,
)
    ensures line { line.new ≡ stranger_after now line.old bytes }
    ensures address { address.new ≡ taken now true (one_cost line.old bytes) address.old }
{
    line.send_to_stranger(now, bytes, address);
}

/// Makes the limits of what goes to all who are no clients, where what follows upon a registration is counted with it.
#[unsafe(no_mangle)]
pub extern "C" fn ipxr_line_strangers(line: &Line, limits: &mut StrangersLimits)
    ensures { limits.new ≡ strangers_of_line line.now }
{
    *limits = StrangersLimits::of_line(line);
}

/// Nanoseconds from a ping of so many bytes to the next.
#[unsafe(no_mangle)]
pub extern "C" fn ipxr_line_between_pings(line: &Line, bytes: usize, between: &mut u64)
    ensures { between.new ≡ own_cost line.now bytes }
{
    *between = line.between_pings(bytes);
}
