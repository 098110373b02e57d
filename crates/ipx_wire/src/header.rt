//! The header of a packet: its first thirty bytes.
ghost use Rattle.std.specs.Prelude.{◌≡◌, ◌+◌, ◌≤◌, ◌++◌, length, drop};

use crate::address::Address;
use crate::fields::{address_from, put_address, put_u8, put_u16, u16_at};

/// The first thirty bytes of a packet. Each number stands there with its highest byte first.
///
/// ```
/// let header = packet.header();
/// let answer = Header {
///     source: header.destination,
///     destination: header.source,
///     ..header
/// };
/// let mut out = [0; Header::SIZE];
/// answer.write(&mut out);
/// println!(rt; "{}", Hex(&out))?;
/// // prints FFFF00280001000000200000000000BB045300000020FFFFFFFFFFFF0453
/// ```
#[derive(Clone, Copy, Debug, PartialEq, Eq, Hash)]
pub struct Header {
    /// [`Header::NO_CHECKSUM`], FFFFh, if there is none. This crate neither computes nor checks it.
    pub checksum: u16,
    /// How many bytes header and data have together, 30 to 65,535 in a packet.
    pub length: u16,
    /// Transport control: how many routers the packet has crossed, 0 to 255.
    pub control: u8,
    /// The packet type: [`Header::RIP`], [`Header::SAP`], [`Header::PROPAGATED`], or another.
    pub kind: u8,
    /// Where the packet goes to.
    pub destination: Address,
    /// Where the packet comes from.
    pub source: Address,
}

impl Header {
    ghost use Rattle.ipx_wire.specs.Header.{header_bytes, header_at};

    /// The packet type of the routing information protocol.
    pub const RIP: u8 = 1;

    /// The packet type of the service advertising protocol.
    pub const SAP: u8 = 4;

    /// The packet type of packets that every router propagates, NetBIOS broadcasts.
    pub const PROPAGATED: u8 = 20;

    /// The checksum of a packet that has none.
    pub const NO_CHECKSUM: u16 = 0xFFFF;

    /// The most routers that a packet goes through: with this transport control, or a greater one, it isn't forwarded.
    pub const MOST_ROUTERS: u8 = 16;

    /// How many bytes a header has.
    pub const SIZE: usize = 30;

    /// Writes the header to the beginning of a slice that has room for its thirty bytes.
    pub fn write(&self, out: &mut [u8])
        requires { 30 ≤ length out.old }
        ensures bytes { out.new ≡ header_bytes self.now ++ drop 30 out.old }
        ensures size { length (header_bytes self.now) ≡ 30 }
    {
        put_u16(out, 0, self.checksum);
        put_u16(out, 2, self.length);
        put_u8(out, 4, self.control);
        put_u8(out, 5, self.kind);
        put_address(out, 6, self.destination);
        put_address(out, 18, self.source);
    }

    /// The header in the first thirty bytes.
    #[tactic(auto, unfolding(crate::specs::Header::header_at))]
    pub(crate) fn at_front(bytes: &[u8]) -> Header
        requires { 30 ≤ length bytes.now }
        ensures { result ≡ header_at bytes.now }
    {
        Header {
            checksum: u16_at(bytes, 0),
            length: u16_at(bytes, 2),
            control: bytes[4],
            kind: bytes[5],
            destination: address_from(bytes, 6),
            source: address_from(bytes, 18),
        }
    }
}
