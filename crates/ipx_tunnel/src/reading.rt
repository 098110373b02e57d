//! What a datagram says, and the packet in it.
ghost use Rattle.std.specs.Prelude.{◌≡◌, ◌≤◌, length, take};
ghost use Rattle.ipx_wire.specs.Packet.{packet_of};
ghost use Rattle.ipx_tunnel.specs.Says.{is_to, names, said_by, said, packet_in};
ghost use Rattle.ipx_tunnel.specs.Places.{is_here, is_from_here};
ghost use Rattle.ipx_tunnel.specs.Clients.{lasts_by};

use crate::said::Said;
use crate::sender::Sender;
use ipx_wire::{Header, Network, Node, Packet, Socket};

/// The socket of registrations, their answers and pings.
pub(crate) const TUNNEL: Socket = Socket(2);

/// The node that stands for none.
const NOBODY: Node = Node([0; 6]);

/// The number that stands for all networks.
const ALL: Network = Network(0xFFFF_FFFF);

/// The number that stands for the network at hand.
const LOCAL: Network = Network(0);

/// For how many seconds the answer to a cookie counts.
const ANSWER_LASTS: u8 = 30;

/// For how many seconds counts what somebody trusted says.
const TRUST_LASTS: u8 = 180;

/// What a datagram says.
pub(crate) fn said(network: Network, from: Sender, bytes: &[u8]) -> Said
    ensures { result ≡ said network from bytes.now }
{
    match Packet::read(bytes) {
        Ok(packet) => said_by(network, from, packet.header()),
        Err(_) => Said::Nothing,
    }
}

fn said_by(network: Network, from: Sender, header: Header) -> Said
    ensures { result ≡ said_by network from header }
{
    if is_to(header, NOBODY) {
        Said::Registers
    } else if !names(network, from.place, header) {
        Said::Nothing
    } else if is_to(header, from.cookies.current) || is_to(header, from.cookies.previous) {
        Said::Answers
    } else {
        Said::Speaks(header)
    }
}

/// Whether a packet is for the tunnel's socket on that node.
pub fn is_to(header: Header, node: Node) -> bool
    ensures { result ≡ is_to header node }
{
    header.destination.socket == TUNNEL && header.destination.node == node
}

fn names(network: Network, place: Node, header: Header) -> bool
    ensures { result ≡ names network place header }
{
    header.source.node == place && is_from_here(network, header.source.network)
}

/// Whether a source's network means this one: it is 0, of somebody who doesn't know it yet, or its number.
pub fn is_from_here(network: Network, from: Network) -> bool
    ensures { result ≡ is_from_here network from }
{
    from == LOCAL || from == network
}

/// Whether a destination's network means this one.
pub fn is_here(network: Network, to: Network) -> bool
    ensures { result ≡ is_here network to }
{
    to == LOCAL || to == ALL || to == network
}

/// For how many seconds it counts what was said.
pub(crate) fn lasts(is_trusted: bool, said: Said) -> u8
    ensures { result ≡ lasts_by is_trusted said }
{
    match said {
        Said::Nothing => 0,
        Said::Answers if !is_trusted => ANSWER_LASTS,
        _ if is_trusted => TRUST_LASTS,
        _ => 0,
    }
}

/// The packet in the bytes, without what lies behind it.
pub fn packet_in(bytes: &[u8]) -> &[u8]
    ensures { result.now ≡ packet_in bytes.now (packet_of bytes.now) }
{
    match Packet::read(bytes) {
        Ok(packet) => front_of(bytes, packet.bytes().len()),
        Err(_) => &[],
    }
}

fn front_of(bytes: &[u8], count: usize) -> &[u8]
    requires { count ≤ length bytes.now }
    ensures { result.now ≡ take count bytes.now }
{
    &bytes[..count]
}
