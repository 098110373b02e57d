//! A client.

use ipx_wire::Node;

/// A client of a tunnel.
///
/// See the example of [`Tunnel`](crate::Tunnel).
#[derive(Clone, Copy, Debug, Default, PartialEq, Eq)]
pub struct Client {
    /// Where it is; its node has the same bytes.
    pub place: Node,
    /// The source node of its pings.
    pub cookie: Node,
    /// How many seconds longer it stays if it isn't heard.
    pub seconds_left: u8,
}
