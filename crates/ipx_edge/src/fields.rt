//! Numbers, addresses and names at places of a packet, each number with its highest byte first.
ghost use Rattle.std.specs.Prelude.{◌≡◌, ◌+◌, ◌≤◌, length};
ghost use Rattle.std.specs.Int.{to_be_bytes, from_be_bytes, w16, w32};
ghost use Rattle.ipx_wire.specs.Address.{address_at};
ghost use Rattle.ipx_wire.specs.Name.{name_of};
ghost use Rattle.ipx_wire.specs.Piece.{piece};
ghost use Rattle.ipx_edge.specs.Places.{with_at};

use ipx_wire::{Address, Network, Node, ServiceName, Socket};

/// Where the checksum stands in a packet.
pub(crate) const CHECKSUM: usize = 0;

/// The number in the two bytes from a place on.
pub(crate) fn u16_at(place: usize, bytes: &[u8]) -> u16
    requires { place + 2 ≤ length bytes.now }
    ensures { result ≡ from_be_bytes w16 (piece bytes.now place 2) }
{
    u16::from_be_bytes([bytes[place], bytes[place + 1]])
}

/// The number in the four bytes from a place on.
pub(crate) fn u32_at(place: usize, bytes: &[u8]) -> u32
    requires { place + 4 ≤ length bytes.now }
    ensures { result ≡ from_be_bytes w32 (piece bytes.now place 4) }
{
    u32::from_be_bytes([
        bytes[place],
        bytes[place + 1],
        bytes[place + 2],
        bytes[place + 3],
    ])
}

/// Writes a number into the two bytes from a place on.
#[tactic(auto, unfolding(crate::specs::Places::with_at))]
pub(crate) fn put_u16(number: u16, place: usize, bytes: &mut [u8])
    requires { place + 2 ≤ length bytes.old }
    ensures bytes { bytes.new ≡ with_at place (to_be_bytes w16 number) bytes.old }
    ensures size { length bytes.new ≡ length bytes.old }
{
    bytes[place..place + 2].copy_from_slice(&number.to_be_bytes());
}

/// Writes a number into the four bytes from a place on.
#[tactic(auto, unfolding(crate::specs::Places::with_at))]
pub(crate) fn put_u32(number: u32, place: usize, bytes: &mut [u8])
    requires { place + 4 ≤ length bytes.old }
    ensures bytes { bytes.new ≡ with_at place (to_be_bytes w32 number) bytes.old }
    ensures size { length bytes.new ≡ length bytes.old }
{
    bytes[place..place + 4].copy_from_slice(&number.to_be_bytes());
}

/// The address in the twelve bytes from a place on.
#[tactic(auto, unfolding(ipx_wire::specs::Address::address_at))]
pub(crate) fn address_at(place: usize, bytes: &[u8]) -> Address
    requires { place + 12 ≤ length bytes.now }
    ensures { result ≡ address_at bytes.now place }
{
    let mut node = [0; 6];
    node.copy_from_slice(&bytes[place + 4..place + 10]);
    Address {
        network: Network(u32_at(place, bytes)),
        node: Node(node),
        socket: Socket(u16_at(place + 10, bytes)),
    }
}

/// The name in the 48 bytes from a place on, if they have one.
pub(crate) fn name_at(place: usize, bytes: &[u8]) -> Option<ServiceName>
    requires { place + 48 ≤ length bytes.now }
    ensures { result ≡ name_of (piece bytes.now place 48) }
{
    let mut field = [0; ServiceName::SIZE];
    field.copy_from_slice(&bytes[place..place + ServiceName::SIZE]);
    ServiceName::read(&field)
}
