//! A place in memory.
ghost use Rattle.std.specs.Prelude.{◌≡◌, ◌<◌, not};
ghost use Rattle.ipx_peers.specs.Places.{is_session};
ghost use Rattle.ipx_peers.specs.Memory.{no_peer};
ghost use Rattle.ipx_peers.specs.inside.Kept.{slot_of, has_room_for, heard_in, first_in, is_kept_of, yielded_in, later_in, is_away_in};

use crate::opened::Opened;
use crate::present::Present;

/// Seconds for which a place is present after it was heard.
const PLACE_LASTS: u64 = 180;

/// How many numbers are told apart, the latest of each remainder.
const SLOTS: u64 = 256;

/// A place, as it lies in memory. All bytes 0, there is none.
///
/// See the example of [`Peers`](crate::Peers).
#[repr(C)]
#[derive(Clone, Copy, Debug)]
pub struct Peer {
    /// Its session.
    pub session: [u8; 16],
    /// Where it is.
    pub address: [u8; 24],
    /// For how many seconds it is still present, unless it is heard: at most 180. At 0 it isn't.
    pub left: u64,
    /// The highest number that was heard.
    pub newest: u64,
    /// And the highest of each remainder by 256, or 0.
    pub slots: [u64; 256],
}

impl Peer {
    /// No place.
    pub(crate) fn none() -> Peer
        ensures { result ≡ no_peer }
    {
        Peer {
            session: [0; 16],
            address: [0; 24],
            left: 0,
            newest: 0,
            slots: [0; 256],
        }
    }

    /// A new place, whose first datagram it is.
    pub(crate) fn first(opened: &Opened) -> Peer
        ensures { result ≡ first_in opened.now }
    {
        let mut slots = [0; 256];
        slots[slot_of(opened.number)] = opened.number;
        Peer {
            session: opened.session,
            address: opened.address,
            left: PLACE_LASTS,
            newest: opened.number,
            slots,
        }
    }

    /// Whether it has that session.
    pub(crate) fn is_of(&self, session: [u8; 16]) -> bool
        ensures { result ≡ is_kept_of session self.now }
    {
        self.session == session
    }

    /// Whether a datagram's number is heard: no number of its remainder was that is as high.
    pub(crate) fn has_room_for(&self, opened: &Opened) -> bool
        ensures { result ≡ has_room_for opened.now self.now }
    {
        self.slots[slot_of(opened.number)] < opened.number
    }

    /// Hears a datagram of this place.
    pub(crate) fn hear(&mut self, opened: &Opened)
        ensures { self.new ≡ heard_in opened.now self.old }
    {
        let is_newest = self.newest < opened.number;
        self.slots[slot_of(opened.number)] = opened.number;
        self.left = PLACE_LASTS;
        if is_newest {
            self.newest = opened.number;
            self.address = opened.address;
        }
    }

    /// Whether it isn't present.
    pub(crate) fn is_away(&self) -> bool
        ensures { result ≡ is_away_in self.now }
    {
        self.left == 0
    }

    /// A new place is at an address: whoever was there isn't present any more.
    pub(crate) fn yield_at(&mut self, address: [u8; 24])
        ensures { self.new ≡ yielded_in address self.old }
    {
        if self.address == address {
            self.left = 0;
        }
    }

    /// A second passes.
    pub(crate) fn pass(&mut self)
        ensures { self.new ≡ later_in self.old }
    {
        self.left = self.left.saturating_sub(1);
    }

    /// What a datagram to it needs.
    pub(crate) fn whereabouts(&self) -> Present
        ensures session { result.session ≡ self.now.session }
        ensures address { result.address ≡ self.now.address }
    {
        Present {
            session: self.session,
            address: self.address,
        }
    }
}

/// The slot of a number.
fn slot_of(number: u64) -> usize
    ensures slot { result ≡ slot_of number }
    ensures small { result < 256 }
{
    (number % SLOTS) as usize
}

/// Whether it is a session: not zeros.
pub(crate) fn is_session(session: [u8; 16]) -> bool
    ensures { result ≡ is_session session }
{
    session != [0; 16]
}
