//! The structs of a tunnel that cross to C, as its header has them.

/// The setting of a tunnel, as C gives it.
#[repr(C)]
#[derive(Clone, Copy)]
pub struct TunnelSetting {
    pub network: u32,
    pub node: [u8; 6],
    /// The most clients.
    pub capacity: u16,
    /// The most clients of one IPv4 address.
    pub share: u16,
}

/// Where a datagram came from, as C gives it.
#[repr(C)]
#[derive(Clone, Copy)]
pub struct SenderValues {
    pub place: [u8; 6],
    /// The cookie by which it is pinged from now on.
    pub current: [u8; 6],
    /// The cookie by which it was pinged before.
    pub previous: [u8; 6],
    pub is_trusted: bool,
}

/// A datagram of the tunnel's own.
#[repr(C)]
#[derive(Clone, Copy)]
pub struct OwnRecord {
    /// Where it goes.
    pub place: [u8; 6],
    pub bytes: [u8; 30],
}

/// A client.
#[repr(C)]
#[derive(Clone, Copy)]
pub struct ClientRecord {
    pub place: [u8; 6],
    /// How many seconds longer it stays if it isn't heard.
    pub seconds_left: u8,
}
