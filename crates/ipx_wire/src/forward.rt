//! Packets sent on: each field as it came, but for those that a router changes.
ghost use Rattle.std.specs.Prelude.{◌≡◌, ◌<◌, ◌≤◌, ◌++◌, length, drop};
ghost use Rattle.ipx_wire.specs.Forward.{forwarded, propagated};
ghost use Rattle.ipx_wire.specs.Numbers.{crossed_bytes, crossed_places};
ghost use Rattle.ipx_wire.specs.Packet.{IsPacket};
ghost use Rattle.ipx_wire.specs.Write.{packet_bytes};

use crate::crossed::Crossed;
use crate::fields::{put_bytes, put_u8, put_u16, put_u32};
use crate::header::Header;
use crate::network::Network;
use crate::packet::Packet;

/// Where the checksum stands in a packet.
const CHECKSUM: usize = 0;

/// Where the transport control stands.
const CONTROL: usize = 4;

/// Where the destination's network stands.
const NETWORK: usize = 6;

/// Writes a packet with its transport control one higher to the beginning of `out`, and returns its number of bytes, which is
/// the packet's length.
///
/// Its transport control is under 255, and `out` has room for as many bytes as its length counts. All else is written
/// as it came, the checksum too. Padding is left out, and the type isn't checked.
pub fn write_forwarded(packet: &Packet<'_>, out: &mut [u8]) -> usize
    requires control { packet.now.header.control < 255 }
    requires room { packet.now.header.length ≤ length out.old }
    ensures count { result ≡ packet.now.header.length }
    ensures bytes { out.new ≡ packet_bytes (forwarded packet.now) ++ drop packet.now.header.length out.old }
    ensures size { length (packet_bytes (forwarded packet.now)) ≡ packet.now.header.length }
    // What was written is a packet.
    ensures packet { IsPacket (packet_bytes (forwarded packet.now)) (forwarded packet.now) }
{
    let bytes = packet.bytes();
    let count = bytes.len();
    put_bytes(out, 0, bytes);
    change_to_forwarded(packet, &mut out[..count]);
    count
}

/// Changes a packet's own bytes, header and data, to those of the packet as it goes on: the transport control is one higher.
/// It is under 255.
pub fn change_to_forwarded(packet: &Packet<'_>, bytes: &mut [u8])
    requires control { packet.now.header.control < 255 }
    requires own { bytes.old ≡ packet_bytes packet.now }
    ensures { bytes.new ≡ packet_bytes (forwarded packet.now) }
{
    packet.bytes();
    put_u8(bytes, CONTROL, packet.header().control + 1);
}

/// Writes a packet of type 20 as it leaves for the network `outgoing` to the beginning of `out`, and returns its number of bytes,
/// which is the packet's length.
///
/// Its transport control is under 8 and it has 32 bytes of data or more, exactly if [`Crossed::read`] of the two
/// returns a list, and `out` has room for as many bytes as its length counts. Neither the networks of that list nor
/// the type are checked.
///
/// The network `arrived`, from which it came, is written behind the networks crossed, the transport control is one
/// higher, the checksum is FFFFh, and the destination's network is `outgoing`. All else is written as it came. Padding is
/// left out.
pub fn write_crossed(
    packet: &Packet<'_>,
    arrived: Network,
    outgoing: Network,
    out: &mut [u8],
) -> usize
    requires free { packet.now.header.control < crossed_places }
    requires eight { crossed_bytes ≤ length packet.now.payload }
    requires room { packet.now.header.length ≤ length out.old }
    ensures count { result ≡ packet.now.header.length }
    ensures bytes { out.new ≡ packet_bytes (propagated arrived outgoing packet.now) ++ drop packet.now.header.length out.old }
    ensures size { length (packet_bytes (propagated arrived outgoing packet.now)) ≡ packet.now.header.length }
    // What was written is a packet.
    ensures packet { IsPacket (packet_bytes (propagated arrived outgoing packet.now)) (propagated arrived outgoing packet.now) }
{
    let bytes = packet.bytes();
    let count = bytes.len();
    put_bytes(out, 0, bytes);
    change_to_crossed(packet, arrived, outgoing, &mut out[..count]);
    count
}

/// Changes a packet's own bytes, header and data, to those of the packet of type 20 as it leaves for the network `outgoing`.
///
/// Its transport control is under 8 and it has 32 bytes of data or more, as for [`write_crossed`], which says what changes.
pub fn change_to_crossed(packet: &Packet<'_>, arrived: Network, outgoing: Network, bytes: &mut [u8])
    requires free { packet.now.header.control < crossed_places }
    requires eight { crossed_bytes ≤ length packet.now.payload }
    requires own { bytes.old ≡ packet_bytes packet.now }
    ensures { bytes.new ≡ packet_bytes (propagated arrived outgoing packet.now) }
{
    packet.bytes();
    let control = packet.header().control;
    put_u16(bytes, CHECKSUM, Header::NO_CHECKSUM);
    put_u8(bytes, CONTROL, control + 1);
    put_u32(bytes, NETWORK, outgoing.0);
    let place = Header::SIZE + Crossed::PLACE * usize::from(control);
    put_u32(bytes, place, arrived.0);
}
