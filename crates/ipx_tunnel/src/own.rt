//! Datagrams of the tunnel's own.

use ipx_wire::{Address, Header, Node};

/// The most datagrams of the tunnel's own after one datagram: an answer and a ping.
pub const MOST_OWN: usize = 2;

/// A datagram of the tunnel's own, to one place: an answer or a ping. It is a packet without data.
///
/// See the example of [`Tunnel`](crate::Tunnel).
#[derive(Clone, Copy, Debug, Default, PartialEq, Eq)]
pub struct Own {
    /// Where it goes.
    pub place: Node,
    /// The destination that its packet names.
    pub destination: Address,
    /// The source that its packet names.
    pub source: Address,
}

impl Own {
    ghost use Rattle.std.specs.Prelude.{◌≡◌, length};
    ghost use Rattle.ipx_wire.specs.Header.{header_bytes};
    ghost use Rattle.ipx_tunnel.specs.Own.{header_of};

    /// Its thirty bytes.
    pub fn bytes(&self) -> [u8; Header::SIZE]
        ensures bytes { result ≡ header_bytes (header_of self.now) }
        ensures size { length (header_bytes (header_of self.now)) ≡ 30 }
    {
        let header = Header {
            checksum: Header::NO_CHECKSUM,
            length: Header::SIZE as u16,
            control: 0,
            kind: 0,
            destination: self.destination,
            source: self.source,
        };
        let mut bytes = [0; Header::SIZE];
        header.write(&mut bytes);
        bytes
    }
}
