//! The setting of a tunnel.

use ipx_wire::{Network, Node};

/// The values that a tunnel is made with.
///
/// See the example of [`Tunnel`](crate::Tunnel).
#[derive(Clone, Copy, Debug, PartialEq, Eq)]
pub struct Setting {
    /// The number of its network.
    pub network: Network,
    /// The node of the server itself, and of the router behind it.
    pub node: Node,
    /// The most clients.
    pub capacity: u16,
    /// The most clients of one IPv4 address.
    pub share: u16,
    /// The most places that are remembered because they registered.
    pub remembered: u16,
    /// The most of them of one IPv4 address.
    pub remembered_share: u16,
}
