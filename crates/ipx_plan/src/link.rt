//! Links.

use crate::carrier::Carrier;
use ipx_wire::{Network, Node};

/// A link of a configuration, with what a plan needs to know of it. Of what is only compared it has a number: equal numbers, in either
/// configuration, mean the same.
///
/// See the example of [`Plan`](crate::Plan).
#[derive(Clone, Copy, Debug, Default, PartialEq, Eq)]
pub struct Link {
    /// The number of its network.
    pub network: Network,
    /// What carries it.
    pub carrier: Carrier,
    /// The kind of its frames.
    pub frames: u8,
    /// Whether its network has several links.
    pub is_of_several: bool,
    /// Whether it is the first link of its network.
    pub is_first: bool,
    /// A number for what else the router's port is made from: its cost, its longest packet, its shares.
    pub port: u32,
    /// The router's node there: of an old link the one that it has, of a new one the one that a new router would have; `None` while a card's
    /// address isn't known.
    pub node: Option<Node>,
    /// A number for the rules for its clients.
    pub clients: u32,
    /// A number for the sockets whose broadcasts are extended.
    pub sockets: u32,
}
