//! Who reads packets: how fast, and what waits for it.
ghost use Rattle.std.specs.Prelude.{◌≡◌, true, ◌&&◌};
ghost use Rattle.ipx_fair.specs.Serving.{Passed};
ghost use Rattle.ipx_fair.specs.Hearing.{hears_from};
ghost use Rattle.ipx_fair.specs.States.{State, empty};
ghost use Rattle.ipx_fair.specs.Tallies.{receiver_of, no_setting};
ghost use Rattle.ipx_limits.specs.Several.{Counted};
ghost use Rattle.ipx_limits.specs.Receiving.{pieces, packet_weight, piece_weight, reads_of, HasQueue, both_hear, BothCounted};

use ipx_fair::{Receiver256, Setting};

/// Packets of more bytes than these are longer, and so many pieces each.
const SHORT: usize = 110;

const MIDDLE: usize = 600;

const SHORT_PIECES: u64 = 22;

const MIDDLE_PIECES: u64 = 37;

/// Pieces of the longest packet.
pub(crate) const LONGEST_PIECES: u64 = 89;

/// How fast somebody reads, and how much may wait. Packets are read one after the other, however long they are; and there is so much memory
/// for those that aren't read yet.
///
/// See the example of [`Limits`](crate::Limits).
#[repr(C)]
#[derive(Clone, Copy, Debug, Default, PartialEq, Eq)]
pub struct Reading {
    /// Nanoseconds for a packet, however long it is.
    pub packet: u64,
    /// Nanoseconds for a piece of the memory that it takes.
    pub piece: u64,
    /// How many packets may wait,
    pub packets: Setting,
    /// and how many pieces.
    pub pieces: Setting,
}

impl Reading {
    /// What a packet takes in so many frames.
    pub fn of_packet(&self, frames: u32) -> u64
        ensures { result ≡ packet_weight self.now frames }
    {
        u64::from(frames).saturating_mul(self.packet)
    }

    /// What the pieces of a packet of so many bytes take in so many frames.
    pub fn of_pieces(&self, bytes: usize, frames: u32) -> u64
        ensures { result ≡ piece_weight self.now bytes frames }
    {
        u64::from(frames).saturating_mul(self.piece.saturating_mul(pieces(bytes)))
    }

    /// Whether a reader has room for a packet of somebody who has a queue there.
    pub(crate) fn has_room(&self, reader: &Reader, queue: u8, bytes: usize, frames: u32) -> bool
        ensures value { result ≡ both_hear self.now queue bytes frames (reads_of reader.now) }
        ensures there { HasQueue queue (reads_of reader.now) }
    {
        let packets = reader.packets.hears(queue, self.of_packet(frames));
        let pieces = reader.pieces.hears(queue, self.of_pieces(bytes, frames));
        packets && pieces
    }

    /// The reader counts a packet that goes on, for which it has room.
    pub(crate) fn count(
        &self,
        goes: bool,
        reader: &mut Reader,
        queue: u8,
        bytes: usize,
        frames: u32,
    )
        requires { goes ≡ true → both_hear self.now queue bytes frames (reads_of reader.old) ≡ true }
        ensures { BothCounted self.now queue bytes frames goes (reads_of reader.old) (reads_of reader.new) }
    {
        if goes {
            let _ = reader.packets.says(queue, self.of_packet(frames));
            let _ = reader.pieces.says(queue, self.of_pieces(bytes, frames));
        }
    }
}

/// What waits for somebody who reads packets. It goes out at once all the same: this is a calculation of how much he has not read yet.
///
/// See the example of [`Limits`](crate::Limits).
#[repr(C)]
#[derive(Debug, Drop)]
pub struct Reader {
    /// Packets,
    pub packets: Receiver256,
    /// and the pieces of memory that they take.
    pub pieces: Receiver256,
}

impl Reader {
    /// One that hears nothing yet: all bytes 0.
    pub fn zeros() -> Reader
        ensures packets { (reads_of result).packets ≡ empty no_setting 256 }
        ensures pieces { (reads_of result).pieces ≡ empty no_setting 256 }
    {
        Reader {
            packets: Receiver256::zeros(),
            pieces: Receiver256::zeros(),
        }
    }

    /// So many nanoseconds pass.
    pub fn pass(&mut self, nanoseconds: u64)
        ensures packets { Passed nanoseconds (reads_of self.old).packets (reads_of self.new).packets }
        ensures pieces { Passed nanoseconds (reads_of self.old).pieces (reads_of self.new).pieces }
    {
        self.packets.pass(nanoseconds);
        self.pieces.pass(nanoseconds);
    }
}

/// A receiver counts a packet that goes on, for which it has room.
pub(crate) fn count(goes: bool, receiver: &mut Receiver256, speaker: u8, weight: u64)
    requires { goes ≡ true → hears_from (receiver_of receiver.old) speaker weight ≡ true }
    ensures { Counted goes speaker weight (receiver_of receiver.old) (receiver_of receiver.new) }
{
    if goes {
        let _ = receiver.says(speaker, weight);
    }
}

/// Pieces of the memory that a system keeps for a packet of so many bytes.
fn pieces(bytes: usize) -> u64
    ensures { result ≡ pieces bytes }
{
    if bytes > MIDDLE {
        LONGEST_PIECES
    } else if bytes > SHORT {
        MIDDLE_PIECES
    } else {
        SHORT_PIECES
    }
}
