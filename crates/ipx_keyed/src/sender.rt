//! Who sent a datagram.

use ipx_tunnel::Cookies;
use ipx_wire::Node;

/// Where a datagram came from, and what the server makes of this place.
///
/// See the example of [`Tunnel`](crate::Tunnel).
#[derive(Clone, Copy, Debug, PartialEq, Eq)]
pub struct Sender {
    /// The place: the four bytes of the IPv4 address, and the two of the port.
    pub place: Node,
    /// Its node, which answers hand out: a keyed hash of the place. A word by it proves that its sender heard, if it comes soon.
    pub node: Node,
    /// Another node that it may still name, such as the hash by the key before. It proves nothing.
    pub former: Node,
    /// Its cookies: keyed hashes of the place and the minute.
    pub cookies: Cookies,
    /// Whether its address is trusted, so that any word makes it a client.
    pub is_trusted: bool,
    /// Whether it may register. Otherwise its registration says nothing.
    pub may_register: bool,
}
