//! What a datagram says.

use ipx_wire::Header;

/// What a datagram says of its sender.
///
/// See the example of [`Tunnel`](crate::Tunnel).
#[derive(Clone, Copy, Debug, PartialEq, Eq)]
pub enum Said {
    /// Nothing that counts: it isn't a packet, or names another source.
    Nothing,
    /// That it wants to be a client.
    Registers,
    /// That it heard its ping.
    Answers,
    /// Something to others, by a packet with that header.
    Speaks(Header),
}
