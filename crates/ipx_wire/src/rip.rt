//! The data of routing information packets: a request or a response of 1 to 50 entries.
ghost use Rattle.ipx_wire.specs.Rip.{entry_at, operation_word};
ghost use Rattle.std.specs.Prelude.{◌≡◌, ◌+◌, ◌*◌, ◌<◌, ◌≤◌, length, slice_get, IfOk, IfErr, IsOkAnd, Some};

use crate::fields::{u16_at, u32_at};
use crate::network::Network;
use crate::rip_entries::RipEntries;
use std::fmt;
use std::marker::Model;
use thiserror::Error;

/// What a routing information packet does.
///
/// See the example of [`RipEntry`].
#[derive(Clone, Copy, Debug, PartialEq, Eq, Hash)]
pub enum Operation {
    /// Asks a neighbour for routes.
    Request,
    /// Advertises routes.
    Response,
}

impl Operation {
    ghost use Rattle.ipx_wire.specs.Rip.{operation_number, operation_word};

    /// The number that stands for it in a packet: 1 request, 2 response.
    pub fn number(self) -> u16
        ensures { result ≡ operation_number self }
    {
        match self {
            Operation::Request => 1,
            Operation::Response => 2,
        }
    }

    /// `request` or `response`.
    pub fn word(self) -> &'static str
        ensures { result.now ≡ operation_word self }
    {
        match self {
            Operation::Request => "request",
            Operation::Response => "response",
        }
    }
}

/// `request` or `response`.
impl fmt::Display for Operation {
    ghost output = { λ operation. Some (operation_word operation) };

    fn fmt<W: fmt::Write>(&self, f: &mut fmt::Formatter<W>) -> fmt::Result {
        f.write_str(self.word())
    }
}

/// Why data is not routing information. A reader reports the first fault in this order.
///
/// See the example of [`Rip`].
#[derive(Clone, Copy, Debug, PartialEq, Eq, Hash, Error)]
pub enum RipFault {
    /// There are fewer than the two bytes of the operation.
    #[error("no operation")]
    Short,
    /// The operation is neither 1 nor 2, but this number.
    #[error("operation {0} is neither request nor response")]
    Operation(u16),
    /// There are fewer than ten bytes, so no whole entry.
    #[error("no entry")]
    NoEntry,
    /// There are 410 bytes or more, so over fifty entries.
    #[error("more than fifty entries")]
    TooMany,
}

/// A network and how far it is, as a neighbour advertises it.
///
/// One is advertised, where `from` and `to` are addresses:
///
/// ```
/// let entry = RipEntry {
///     network: Network(0x30),
///     hops: 1,
///     ticks: 2,
/// };
/// let mut out = [0; 40];
/// let size = write_rip(from, to, Operation::Response, &[entry], &mut out);
/// println!(rt; "{}", Hex(&out[Header::SIZE..size]))?;
/// // prints 00020000003000010002
/// ```
#[derive(Clone, Copy, Debug, Default, PartialEq, Eq, Hash)]
pub struct RipEntry {
    /// The network; in a request, [`Network::ALL_ROUTES`] asks for every route.
    pub network: Network,
    /// How many routers are on the way; 16 or more mean unreachable.
    pub hops: u16,
    /// How long a packet takes, in ticks of about an eighteenth of a second.
    pub ticks: u16,
}

impl RipEntry {
    /// How many bytes an entry takes.
    pub const SIZE: usize = 8;

    /// The most entries that one packet has.
    pub const MOST: usize = 50;

    /// This many hops or more mean that a network or a service is unreachable.
    pub const UNREACHABLE: u16 = 16;
}

/// The data of a routing information packet; its entries are lent from the bytes that were read.
///
/// ```
/// match Rip::read(data) {
///     Ok(rip) => {
///         for RipEntry { network, ticks, .. } in rip.entries() {
///             println!(rt; "network {network} is {ticks} ticks away")?;
///         }
///     }
///     Err(RipFault::Operation(number)) => println!(rt; "no operation has the number {number}")?,
///     Err(fault) => println!(rt; "{fault}")?,
/// }
/// // prints network 00000030 is 2 ticks away
/// ```
#[derive(Debug, Drop)]
pub struct Rip<'a> {
    operation: Operation,
    count: usize,
    body: &'a [u8],
}

impl<'a> Model for Rip<'a> {
    ghost use Rattle.ipx_wire.specs.Rip.{RipParts, entries_at};
    ghost use Rattle.ipx_wire.specs.inside.Kept.{IsCounted};
    ghost use Rattle.ipx_wire.specs.Numbers.{most_entries};

    ghost Value = { RipParts };

    ghost view = { λ r. record { operation = r.operation; entries = entries_at r.count r.body.now } };

    ghost invariant = { λ r. IsCounted 1 most_entries 8 r.count r.body.now };
}

impl<'a> Rip<'a> {
    ghost use Rattle.ipx_wire.specs.Numbers.{most_entries};
    ghost use Rattle.ipx_wire.specs.Rip.{RipParts, IsRip, IsNoRip, rip_of};

    /// Reads the data of a packet. Fewer than eight bytes behind the last entry are ignored.
    ///
    /// The faults, in their order: `Short` under 2 bytes; `Operation` if the operation is neither 1 nor 2; `NoEntry` under
    /// 10 bytes; `TooMany` from 410 bytes on.
    #[tactic(auto, unfolding(crate::specs::Rip::rip_of))]
    pub fn read(payload: &'a [u8]) -> Result<Rip<'a>, RipFault>
        ensures found { IfOk result (IsRip payload.entry.now) }
        ensures only { (r : RipParts) → IsRip payload.entry.now r → IsOkAnd result (λ q. q ≡ r) }
        ensures refused { IfErr result (IsNoRip payload.entry.now) }
        // The same as a function of the bytes.
        ensures value { result ≡ rip_of payload.entry.now }
    {
        if payload.len() < 2 {
            return Err(RipFault::Short);
        }
        let operation = match u16_at(payload, 0) {
            1 => Operation::Request,
            2 => Operation::Response,
            number => return Err(RipFault::Operation(number)),
        };
        let count = (payload.len() - 2) / RipEntry::SIZE;
        if count == 0 {
            return Err(RipFault::NoEntry);
        }
        if count > RipEntry::MOST {
            return Err(RipFault::TooMany);
        }
        let (_, body) = payload.split_at(2);
        Ok(Rip {
            operation,
            count,
            body,
        })
    }

    /// Whether the packet asks for routes or advertises them.
    pub fn operation(&self) -> Operation
        ensures { result ≡ self.now.operation }
    {
        self.operation
    }

    /// How many entries there are, 1 to 50.
    pub fn len(&self) -> usize
        ensures value { result ≡ length self.now.entries }
        ensures some { 1 ≤ result }
        ensures most { result ≤ most_entries }
    {
        self.count
    }

    /// Entry number `k`, counted from 0; `k` is below `len()`.
    pub fn entry(&self, k: usize) -> RipEntry
        requires { k < length self.now.entries }
        ensures { slice_get self.now.entries k ≡ Some result }
    {
        entry_from(self.body, RipEntry::SIZE * k)
    }

    /// Entry number `k`, counted from 0, or `None` if there are no more than `k`.
    pub fn get(&self, k: usize) -> Option<RipEntry>
        ensures { result ≡ slice_get self.now.entries k }
    {
        if k < self.len() {
            Some(self.entry(k))
        } else {
            None
        }
    }

    /// The entries in their order.
    pub fn entries(&self) -> RipEntries<'a>
        ensures { result ≡ self.now.entries }
    {
        RipEntries::of(self.count, self.body)
    }
}

#[tactic(auto, unfolding(crate::specs::Rip::entry_at))]
pub(crate) fn entry_from(bytes: &[u8], place: usize) -> RipEntry
    requires { place + 8 ≤ length bytes.now }
    ensures { result ≡ entry_at bytes.now place }
{
    RipEntry {
        network: Network(u32_at(bytes, place)),
        hops: u16_at(bytes, place + 4),
        ticks: u16_at(bytes, place + 6),
    }
}
