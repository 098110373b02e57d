//! The structs of a plan that cross to C, as its header has them.

/// A link of a configuration, as C gives it.
#[repr(C)]
#[derive(Clone, Copy)]
pub struct PlanLink {
    pub network: u32,
    /// What carries it: a tunnel, a card, what links share, or a link's own.
    pub carrier: u8,
    /// The kind of its frames.
    pub frames: u8,
    /// Of a tunnel: its UDP port, or 0.
    pub udp_port: u16,
    /// The number of what carries it.
    pub number: u32,
    /// The number of what the router's port is made from.
    pub port: u32,
    /// The number of the rules for clients.
    pub clients: u32,
    /// The number of the sockets that are extended.
    pub sockets: u32,
    /// The router's node there,
    pub node: [u8; 6],
    /// if it is known.
    pub has_node: bool,
    /// Whether its network has several links.
    pub is_of_several: bool,
    /// Whether it is the first link of its network.
    pub is_first: bool,
}

/// What a new link is made from.
#[repr(C)]
#[derive(Clone, Copy)]
pub struct PlanOrigin {
    /// The old link that it continues.
    pub was: usize,
    /// The old or the new link whose cable it has.
    pub cable: usize,
    /// What becomes of its tunnel.
    pub tunnel: u8,
    /// Whether that cable is an old link's.
    pub is_kept: bool,
    pub is_as_before: bool,
    pub has_other_clients: bool,
    pub has_other_sockets: bool,
}

/// What becomes of an old link.
#[repr(C)]
#[derive(Clone, Copy)]
pub struct PlanFate {
    /// The new link that continues it.
    pub becomes: usize,
    pub is_closed: bool,
    pub ends_tunnel: bool,
}
