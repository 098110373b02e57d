//! The structs that cross to C, as the header has them.

/// A port, as C gives it.
#[repr(C)]
#[derive(Clone, Copy)]
pub struct PortValues {
    pub network: u32,
    pub node: [u8; 6],
    /// In ticks.
    pub cost: u16,
    /// Bytes of the longest packet that may leave there.
    pub longest: u16,
    /// How many routes may have come by it.
    pub routes: u16,
    /// How many services may have come by it.
    pub services: u16,
}

/// A packet that is to be sent, without its bytes.
#[repr(C)]
#[derive(Clone, Copy)]
pub struct PacketSent {
    /// How many bytes it has.
    pub length: usize,
    pub port: u8,
    /// The node of the next hop, or the broadcast.
    pub node: [u8; 6],
}

/// A route that was learned.
#[repr(C)]
#[derive(Clone, Copy)]
pub struct RouteRecord {
    pub network: u32,
    pub hops: u16,
    pub ticks: u16,
    /// The neighbour that advertised it.
    pub node: [u8; 6],
    pub port: u8,
    /// In seconds.
    pub age: u8,
}

/// A service that was learned.
#[repr(C)]
#[derive(Clone, Copy)]
pub struct ServiceRecord {
    /// Its name, and zeros behind.
    pub name: [u8; 48],
    pub network: u32,
    pub node: [u8; 6],
    pub socket: u16,
    /// Its type.
    pub kind: u16,
    pub hops: u16,
    /// The neighbour that advertised it.
    pub neighbour: [u8; 6],
    pub port: u8,
    /// In seconds.
    pub age: u8,
}

/// An address, as C gives it.
#[repr(C)]
#[derive(Clone, Copy)]
pub struct AddressValues {
    pub network: u32,
    pub node: [u8; 6],
    pub socket: u16,
}

/// A route of a packet, as C gives it.
#[repr(C)]
#[derive(Clone, Copy)]
pub struct RouteEntry {
    pub network: u32,
    pub hops: u16,
    pub ticks: u16,
}

/// A service of a packet, as C gives it.
#[repr(C)]
#[derive(Clone, Copy)]
pub struct ServiceEntry {
    /// Its name, a zero, and anything behind.
    pub name: [u8; 48],
    pub network: u32,
    pub node: [u8; 6],
    pub socket: u16,
    /// Its type.
    pub kind: u16,
    pub hops: u16,
}
