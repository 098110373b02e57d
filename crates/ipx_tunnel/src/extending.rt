//! Broadcasts that are copied to another network.
ghost use Rattle.std.specs.Prelude.{◌≡◌, ◌≤◌, ◌==◌, ◌&&◌, length};
ghost use Rattle.ipx_wire.specs.Numbers.{header_size};
ghost use Rattle.ipx_tunnel.specs.Extend.{is_named, is_extended_by, is_extended, extended};

use crate::reading::is_here;
use byteorder::{BigEndian, ByteOrder};
use ipx_wire::{Header, Network, Node, Packet, Socket};

/// Where the destination's network stands in a packet.
const NETWORK: usize = 6;

/// Whether bytes that came on a network are copied to the other networks that name the same socket: they are a
/// broadcast there, to a socket that this network names, and the source names the network. Ask it about what the
/// router hears.
pub fn is_extended(network: Network, sockets: &[Socket], bytes: &[u8]) -> bool
    ensures { result ≡ is_extended network sockets.now bytes.now }
{
    match Packet::read(bytes) {
        Ok(packet) => is_extended_by(network, sockets, packet.header()),
        Err(_) => false,
    }
}

fn is_extended_by(network: Network, sockets: &[Socket], header: Header) -> bool
    ensures { result ≡ is_extended_by network sockets.now header }
{
    header.destination.node == Node::BROADCAST
        && is_here(network, header.destination.network)
        && header.source.network == network
        && is_named(sockets, header.destination.socket)
        && header.kind != Header::PROPAGATED
}

/// Whether a socket is one of those that a network names.
pub fn is_named(sockets: &[Socket], socket: Socket) -> bool
    ensures { result ≡ is_named sockets.now socket }
{
    sockets.iter().any(|named| named.0 == socket.0)
}

/// Makes the bytes of a packet those of its copy for another network, which names the packet's socket too. Only the destination's network
/// changes.
pub fn extend(bytes: &mut [u8], to: Network)
    requires { header_size ≤ length bytes.old }
    ensures { bytes.new ≡ extended to bytes.old }
{
    BigEndian::write_u32(&mut bytes[NETWORK..NETWORK + 4], to.0);
}
