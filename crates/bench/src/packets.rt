//! The packets that are read, copied and written.

use ipx_wire::{
    Address, Network, Node, Operation, RipEntry, Service, ServiceName, Socket, write_query,
    write_rip, write_sap,
};

/// A packet of each kind.
#[derive(Drop)]
pub struct Packets {
    pub routes: [RipEntry; 50],
    pub services: [Service; 7],
    /// A full response of routes.
    pub response: [u8; 432],
    /// A full response of services.
    pub advertised: [u8; 480],
    pub query: [u8; 34],
    /// A packet that has crossed four networks.
    pub propagated: [u8; 62],
}

impl Packets {
    pub fn new() -> Packets {
        let route = RipEntry {
            network: Network(0x0000_0030),
            hops: 1,
            ticks: 2,
        };
        let service = Service {
            kind: 4,
            name: ServiceName::default(),
            address: FROM,
            hops: 1,
        };
        let routes = [route; 50];
        let services = [service; 7];
        let mut response = [0; 432];
        write_rip(FROM, TO, Operation::Response, &routes, &mut response);
        let mut advertised = [0; 480];
        write_sap(FROM, TO, false, &services, &mut advertised);
        let mut query = [0; 34];
        write_query(FROM, TO, false, 0xFFFF, &mut query);
        Packets {
            routes,
            services,
            response,
            advertised,
            query,
            propagated: PROPAGATED,
        }
    }
}

pub const FROM: Address = Address {
    network: Network(0x0000_0010),
    node: Node([0, 0, 0, 0, 0, 1]),
    socket: Socket::RIP,
};

pub const TO: Address = Address {
    network: Network(0x0000_0010),
    node: Node::BROADCAST,
    socket: Socket::RIP,
};

/// Header, eight places of which four are filled, nothing behind them.
const PROPAGATED: [u8; 62] = [
    0xFF, 0xFF, 0, 62, 4, 20, 0, 0, 0, 0x10, 0xFF, 0xFF, 0xFF, 0xFF, 0xFF, 0xFF, 4, 0x55, 0, 0, 0,
    0x10, 0, 0, 0, 0, 0, 0xAA, 4, 0x55, 0, 0, 0, 0x11, 0, 0, 0, 0x12, 0, 0, 0, 0x13, 0, 0, 0, 0x14,
    0, 0, 0, 0, 0, 0, 0, 0, 0, 0, 0, 0, 0, 0, 0, 0,
];
