//! The structs of a tunnel with keyed nodes that cross to C, as its header has them.

/// The setting of a tunnel, as C gives it.
#[repr(C)]
#[derive(Clone, Copy)]
pub struct KeyedSetting {
    pub network: u32,
    pub node: [u8; 6],
    /// The most clients.
    pub capacity: u16,
    /// The most clients of one IPv4 address.
    pub share: u16,
    /// The most registrations that it remembers.
    pub remembered: u16,
    /// The most of them of one IPv4 address.
    pub remembered_share: u16,
}

/// Where a datagram came from, as C gives it.
#[repr(C)]
#[derive(Clone, Copy)]
pub struct KeyedSender {
    pub place: [u8; 6],
    /// The node that answers hand out.
    pub node: [u8; 6],
    /// The node that it may name still.
    pub former: [u8; 6],
    /// The cookie by which it is pinged from now on.
    pub current: [u8; 6],
    /// The cookie by which it was pinged before.
    pub previous: [u8; 6],
    pub is_trusted: bool,
    pub may_register: bool,
}

/// A client, or somebody who registered and is remembered.
#[repr(C)]
#[derive(Clone, Copy)]
pub struct KeyedMember {
    pub place: [u8; 6],
    pub node: [u8; 6],
    /// How many seconds longer it stays if it isn't heard.
    pub seconds_left: u8,
}
