//! A packet, read from bytes: its header and the data that its length counts.
ghost use Rattle.std.specs.Prelude.{◌≡◌, ◌+◌, ◌++◌, length, drop, IfOk, IfErr, IsOkAnd, Ok};

use crate::fields::u16_at;
use crate::header::Header;
use std::marker::Model;
use thiserror::Error;

/// Why bytes are not a packet. A reader reports the first fault in this order.
///
/// See the example of [`Packet`].
#[derive(Clone, Copy, Debug, PartialEq, Eq, Hash, Error)]
pub enum PacketFault {
    /// There are fewer than thirty bytes.
    #[error("fewer bytes than a header")]
    Short,
    /// The length counts fewer than the thirty bytes of the header.
    #[error("a length smaller than the header")]
    LengthSmall,
    /// The length counts more bytes than there are.
    #[error("a length beyond the last byte")]
    LengthBeyond,
}

/// A packet whose length has been checked, lent from the bytes that it was read from. Its fields are read where they are
/// asked for.
///
/// ```
/// match Packet::read(bytes) {
///     Ok(packet) => {
///         let Header { source, kind, .. } = packet.header();
///         println!(rt; "{source} sent a packet of type {kind}")?;
///     }
///     Err(PacketFault::Short) => println!(rt; "a header has thirty bytes")?,
///     Err(fault) => println!(rt; "{fault}")?,
/// }
/// // prints 00000020.0000000000BB.0453 sent a packet of type 1
/// ```
#[derive(Debug, Drop)]
pub struct Packet<'a> {
    whole: &'a [u8],
}

impl<'a> Model for Packet<'a> {
    ghost use Rattle.std.specs.Prelude.{drop};
    ghost use Rattle.ipx_wire.specs.Header.{header_at};
    ghost use Rattle.ipx_wire.specs.Packet.{Parts};
    ghost use Rattle.ipx_wire.specs.inside.Kept.{IsKept};

    ghost Value = { Parts };

    ghost view = { λ p. record { header = header_at p.whole.now; payload = drop 30 p.whole.now } };

    ghost invariant = { λ p. IsKept (header_at p.whole.now) p.whole.now };
}

impl<'a> Packet<'a> {
    ghost use Rattle.ipx_wire.specs.Header.{header_bytes};
    ghost use Rattle.ipx_wire.specs.Packet.{Parts, IsPacket, IsNoPacket, packet_of};

    /// Reads the packet at the beginning of `bytes`. Bytes behind its length are padding, and ignored.
    ///
    /// The faults, in their order: `Short` under 30 bytes; `LengthSmall` if the length field is under 30; `LengthBeyond` if it
    /// is more than there are bytes.
    #[tactic(auto, unfolding(crate::specs::Packet::packet_of))]
    pub fn read(bytes: &'a [u8]) -> Result<Packet<'a>, PacketFault>
        ensures found { IfOk result (IsPacket bytes.entry.now) }
        ensures only { (p : Parts) → IsPacket bytes.entry.now p → IsOkAnd result (λ q. q ≡ p) }
        ensures refused { IfErr result (IsNoPacket bytes.entry.now) }
        // The same as a function of the bytes.
        ensures value { result ≡ packet_of bytes.entry.now }
    {
        if bytes.len() < Header::SIZE {
            return Err(PacketFault::Short);
        }
        let length = usize::from(u16_at(bytes, 2));
        if length < Header::SIZE {
            return Err(PacketFault::LengthSmall);
        }
        if bytes.len() < length {
            return Err(PacketFault::LengthBeyond);
        }
        let whole = &bytes[..length];
        Ok(Packet { whole })
    }

    /// The header, each field as it came.
    pub fn header(&self) -> Header
        ensures { result ≡ self.now.header }
    {
        Header::at_front(self.whole)
    }

    /// The data behind the header, without padding.
    pub fn payload(&self) -> &'a [u8]
        ensures { result.now ≡ self.now.payload }
    {
        &self.whole[Header::SIZE..]
    }

    /// Header and data, exactly as many bytes as the length says.
    pub fn bytes(&self) -> &'a [u8]
        ensures value { result.now ≡ header_bytes self.now.header ++ self.now.payload }
        ensures counted { length result.now ≡ self.now.header.length }
        // What is lent is read as this packet again.
        ensures packet { IsPacket result.now self.now }
    {
        self.whole
    }
}
