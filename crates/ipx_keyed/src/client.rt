//! A client.

use ipx_wire::Node;

/// A client of a tunnel, or somebody who registered and is remembered.
///
/// See the example of [`Tunnel`](crate::Tunnel).
#[derive(Clone, Copy, Debug, Default, PartialEq, Eq)]
pub struct Client {
    /// Where it is.
    pub place: Node,
    /// Its node on the network.
    pub node: Node,
    /// The source node of its pings.
    pub cookie: Node,
    /// How many seconds longer it stays if it isn't heard, or is remembered.
    pub seconds_left: u8,
}
