//! The numbers and addresses at fixed places of a packet, each with its highest byte first.
ghost use Rattle.std.specs.Prelude.{◌≡◌, ◌+◌, ◌≤◌, [], ◌∷◌, length};
ghost use Rattle.std.specs.Int.{to_be_bytes, from_be_bytes, w16, w32};
ghost use Rattle.ipx_wire.specs.Piece.{piece};
ghost use Rattle.ipx_wire.specs.Address.{address_bytes, address_at};
ghost use Rattle.ipx_wire.specs.Put.{PutsAt};

use crate::address::Address;
use crate::network::Network;
use crate::node::Node;
use crate::socket::Socket;
use byteorder::{BigEndian, ByteOrder};

/// The number in two bytes.
pub fn u16_at(bytes: &[u8], place: usize) -> u16
    requires { place + 2 ≤ length bytes.now }
    ensures { result ≡ from_be_bytes w16 (piece bytes.now place 2) }
{
    u16::from_be_bytes([bytes[place], bytes[place + 1]])
}

/// The number in four bytes.
pub fn u32_at(bytes: &[u8], place: usize) -> u32
    requires { place + 4 ≤ length bytes.now }
    ensures { result ≡ from_be_bytes w32 (piece bytes.now place 4) }
{
    u32::from_be_bytes([
        bytes[place],
        bytes[place + 1],
        bytes[place + 2],
        bytes[place + 3],
    ])
}

/// The node in six bytes.
pub fn node_at(bytes: &[u8], place: usize) -> Node
    requires { place + 6 ≤ length bytes.now }
    ensures { result.0 ≡ piece bytes.now place 6 }
{
    Node([
        bytes[place],
        bytes[place + 1],
        bytes[place + 2],
        bytes[place + 3],
        bytes[place + 4],
        bytes[place + 5],
    ])
}

/// The address in twelve bytes.
#[tactic(auto, unfolding(crate::specs::Address::address_at))]
pub fn address_from(bytes: &[u8], place: usize) -> Address
    requires { place + 12 ≤ length bytes.now }
    ensures { result ≡ address_at bytes.now place }
{
    Address {
        network: Network(u32_at(bytes, place)),
        node: node_at(bytes, place + 4),
        socket: Socket(u16_at(bytes, place + 10)),
    }
}

/// Writes one byte.
pub fn put_u8(out: &mut [u8], place: usize, byte: u8)
    requires { place + 1 ≤ length out.old }
    ensures { PutsAt out.old place (byte ∷ []) out.new }
{
    out[place] = byte;
}

/// Writes a number of two bytes.
pub fn put_u16(out: &mut [u8], place: usize, number: u16)
    requires { place + 2 ≤ length out.old }
    ensures { PutsAt out.old place (to_be_bytes w16 number) out.new }
{
    BigEndian::write_u16(&mut out[place..place + 2], number);
}

/// Writes a number of four bytes.
pub fn put_u32(out: &mut [u8], place: usize, number: u32)
    requires { place + 4 ≤ length out.old }
    ensures { PutsAt out.old place (to_be_bytes w32 number) out.new }
{
    BigEndian::write_u32(&mut out[place..place + 4], number);
}

/// Writes the six bytes of a node.
pub fn put_node(out: &mut [u8], place: usize, node: Node)
    requires { place + 6 ≤ length out.old }
    ensures bytes { PutsAt out.old place node.0 out.new }
    ensures size { length node.0 ≡ 6 }
{
    out[place..place + 6].copy_from_slice(&node.0);
}

/// Writes the twelve bytes of an address.
#[tactic(auto, unfolding(crate::specs::Address::address_bytes))]
pub fn put_address(out: &mut [u8], place: usize, address: Address)
    requires { place + 12 ≤ length out.old }
    ensures bytes { PutsAt out.old place (address_bytes address) out.new }
    ensures size { length (address_bytes address) ≡ 12 }
{
    put_u32(out, place, address.network.0);
    put_node(out, place + 4, address.node);
    put_u16(out, place + 10, address.socket.0);
}

/// Writes bytes as they are.
pub fn put_bytes(out: &mut [u8], place: usize, bytes: &[u8])
    requires { place + length bytes.now ≤ length out.old }
    ensures { PutsAt out.old place bytes.now out.new }
{
    out[place..place + bytes.len()].copy_from_slice(bytes);
}
