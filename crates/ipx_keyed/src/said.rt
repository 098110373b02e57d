//! What a datagram says.

use ipx_wire::{Header, Node};

/// What a datagram says of its sender.
///
/// See the example of [`Tunnel`](crate::Tunnel).
#[derive(Clone, Copy, Debug, PartialEq, Eq)]
pub enum Said {
    /// Nothing that counts: it isn't a packet, names no node of its sender's, or registers where nobody may.
    Nothing,
    /// That it wants to be a client.
    Registers,
    /// That it heard its ping, and has this node.
    Answers(Node),
    /// Something to others, by a packet with that header.
    Speaks(Header),
}
