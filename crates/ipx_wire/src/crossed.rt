//! The networks that a packet of type 20 has crossed: a list at the beginning of its data, counted by its transport control.
ghost use Rattle.ipx_wire.specs.Crossed.{network_at};
ghost use Rattle.std.specs.Prelude.{◌≡◌, ◌+◌, ◌<◌, ◌≤◌, List, length, slice_get, IfOk, IfErr, IsOkAnd, Some};

use crate::crossed_iter::CrossedIter;
use crate::fields::u32_at;
use crate::network::Network;
use std::marker::Model;
use thiserror::Error;

/// Why data has no list of networks crossed. A reader reports the first fault in this order.
///
/// See the example of [`Crossed`].
#[derive(Clone, Copy, Debug, PartialEq, Eq, Hash, Error)]
pub enum CrossedFault {
    /// There are fewer than 32 bytes, so no room for eight networks.
    #[error("no room for eight networks")]
    Short,
    /// The transport control is 8 or more, so there is no place for one network more.
    #[error("no place for one network more")]
    Full,
}

/// The networks that a packet has crossed, at most seven, lent from the data that was read.
///
/// ```
/// match Crossed::read(packet.header().control, packet.payload()) {
///     Ok(crossed) => {
///         for network in crossed.entries() {
///             println!(rt; "it has crossed {network}")?;
///         }
///     }
///     Err(CrossedFault::Short) => println!(rt; "there is no room for eight networks")?,
///     Err(CrossedFault::Full) => println!(rt; "it has crossed eight networks or more")?,
/// }
/// // prints it has crossed 00000040
/// ```
#[derive(Debug, Drop)]
pub struct Crossed<'a> {
    count: usize,
    payload: &'a [u8],
}

impl<'a> Model for Crossed<'a> {
    ghost use Rattle.std.specs.Prelude.{List};
    ghost use Rattle.ipx_wire.specs.declared.network.Network.{Network};
    ghost use Rattle.std.specs.Prelude.{◌-◌};
    ghost use Rattle.ipx_wire.specs.Crossed.{networks_at};
    ghost use Rattle.ipx_wire.specs.inside.Kept.{IsCounted};
    ghost use Rattle.ipx_wire.specs.Numbers.{crossed_places};

    ghost Value = { List Network };

    ghost view = { λ c. networks_at c.count c.payload.now };

    ghost invariant = { λ c. IsCounted 0 (crossed_places - 1) 4 c.count c.payload.now };
}

impl<'a> Crossed<'a> {
    ghost use Rattle.ipx_wire.specs.Crossed.{IsCrossed, IsNotCrossed, crossed_of, is_among};
    ghost use Rattle.ipx_wire.specs.Numbers.{crossed_places};

    /// The places of the list: the most networks that a packet of type 20 crosses.
    pub const PLACES: u8 = 8;

    /// How many bytes a place takes.
    pub(crate) const PLACE: usize = 4;

    /// How many bytes the list takes.
    pub(crate) const SIZE: usize = 32;

    /// Reads the networks crossed at the beginning of a packet's data; `control` is its transport control.
    ///
    /// The faults, in their order: `Short` under 32 bytes, whatever the transport control; `Full` if it is 8 or more.
    #[tactic(auto, unfolding(crate::specs::Crossed::crossed_of))]
    pub fn read(control: u8, payload: &'a [u8]) -> Result<Crossed<'a>, CrossedFault>
        ensures found { IfOk result (IsCrossed control payload.entry.now) }
        ensures only { (networks : List Network) → IsCrossed control payload.entry.now networks → IsOkAnd result (λ told. told ≡ networks) }
        ensures refused { IfErr result (IsNotCrossed control payload.entry.now) }
        // The same as a function of the bytes.
        ensures value { result ≡ crossed_of control payload.entry.now }
    {
        if payload.len() < Self::SIZE {
            return Err(CrossedFault::Short);
        }
        if control >= Self::PLACES {
            return Err(CrossedFault::Full);
        }
        Ok(Crossed {
            count: usize::from(control),
            payload,
        })
    }

    /// How many networks were crossed, 0 to 7: as many as the transport control says.
    pub fn len(&self) -> usize
        ensures value { result ≡ length self.now }
        ensures most { result < crossed_places }
    {
        self.count
    }

    /// Network number `k`, counted from 0; `k` is below `len()`.
    pub fn get(&self, k: usize) -> Network
        requires { k < length self.now }
        ensures { slice_get self.now k ≡ Some result }
    {
        network_from(self.payload, Self::PLACE * k)
    }

    /// The networks, in the order in which the packet crossed them.
    pub fn entries(&self) -> CrossedIter<'a>
        ensures { result ≡ self.now }
    {
        CrossedIter::of(self.count, self.payload)
    }

    /// Whether the packet has crossed a network.
    pub fn contains(&self, network: Network) -> bool
        ensures { result ≡ is_among network self.now }
    {
        for k in 0..self.len() {
            if self.get(k).0 == network.0 {
                return true;
            }
        }
        false
    }
}

#[tactic(auto, unfolding(crate::specs::Crossed::network_at))]
pub(crate) fn network_from(bytes: &[u8], place: usize) -> Network
    requires { place + 4 ≤ length bytes.now }
    ensures { result ≡ network_at bytes.now place }
{
    Network(u32_at(bytes, place))
}
