//! Who sent a datagram.

use ipx_wire::Node;

/// The cookies of a place: nodes that only somebody who receives there can know, such as a keyed hash of the place and the minute.
///
/// See the example of [`Tunnel`](crate::Tunnel).
#[derive(Clone, Copy, Debug, PartialEq, Eq)]
pub struct Cookies {
    /// The one by which it is pinged from now on.
    pub current: Node,
    /// The one by which it was pinged before, whose answer counts too.
    pub previous: Node,
}

/// Where a datagram came from, and what the server knows of this place.
///
/// See the example of [`Tunnel`](crate::Tunnel).
#[derive(Clone, Copy, Debug, PartialEq, Eq)]
pub struct Sender {
    /// The place: the four bytes of the IPv4 address, and the two of the port.
    pub place: Node,
    /// Its cookies.
    pub cookies: Cookies,
    /// Whether its address is trusted, so that it is a client without an answer.
    pub is_trusted: bool,
}
