//! The setting of a segment.

use ipx_wire::{Network, Node};

/// The values that a segment is made with.
///
/// See the example of [`Segment`](crate::Segment).
#[derive(Clone, Copy, Debug, PartialEq, Eq)]
pub struct Setting {
    /// The number of its network.
    pub network: Network,
    /// The node of the router on it.
    pub node: Node,
    /// How many links it has; they are numbered from 0.
    pub links: u8,
    /// The most stations that are known at one time.
    pub capacity: u16,
}
