//! A station, and the kind of frames that it uses.
ghost use Rattle.std.specs.Prelude.{◌≡◌};
ghost use Rattle.ipx_cable.specs.Stations.{is_kind, is_known, is_of, has_just_spoken, aged, heard};

/// Seconds for which a station is known after it was heard.
pub(crate) const STATION_LASTS: u16 = 300;

/// Seconds without a word in its kind, after which a station may have another.
const STAYS: u16 = 5;

/// The number of the first kind of frames, and of the last.
const FIRST_KIND: u8 = 1;

const LAST_KIND: u8 = 4;

/// A station on a link where any kind of frames may be used. All bytes 0, nobody is known there.
///
/// See the example of [`Kinds`](crate::Kinds).
#[repr(C)]
#[derive(Clone, Copy, Debug, Default, PartialEq, Eq)]
pub struct Station {
    /// Its address on the link.
    pub node: [u8; 6],
    /// The kind of frames that it uses: a number from 1 to 4.
    pub kind: u8,
    /// For how many seconds it is still known, unless it is heard again: at most 300. At 0 it isn't.
    pub left: u16,
}

impl Station {
    /// One that was heard just now.
    pub(crate) fn heard(node: [u8; 6], kind: u8) -> Station
        ensures { result ≡ heard node kind }
    {
        Station {
            node,
            kind,
            left: STATION_LASTS,
        }
    }

    /// Whether somebody is known there.
    pub fn is_known(&self) -> bool
        ensures { result ≡ is_known self.now }
    {
        self.left > 0 && is_kind(self.kind)
    }

    /// Whether it is known, and has this node.
    pub(crate) fn is_of(&self, node: [u8; 6]) -> bool
        ensures { result ≡ is_of node self.now }
    {
        self.is_known() && self.node == node
    }

    /// Whether it said something in its kind less than five seconds ago.
    pub(crate) fn has_just_spoken(&self) -> bool
        ensures { result ≡ has_just_spoken self.now }
    {
        self.left > STATION_LASTS - STAYS
    }

    /// The same a second later.
    pub(crate) fn later(&self) -> Station
        ensures { result ≡ aged self.now }
    {
        Station {
            node: self.node,
            kind: self.kind,
            left: self.left.saturating_sub(1),
        }
    }
}

/// Whether it is the number of a kind of frames.
pub(crate) fn is_kind(kind: u8) -> bool
    ensures { result ≡ is_kind kind }
{
    FIRST_KIND <= kind && kind <= LAST_KIND
}
