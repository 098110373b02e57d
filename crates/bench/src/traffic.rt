//! What comes to the routers that are measured: who sends it, and what it offers.

use ipx_wire::{Address, Network, Node, Service, ServiceName, Socket};

/// The networks of the ports, which follow one another from here on.
const FIRST_NETWORK: u32 = 0x1000;

/// The node of the neighbours.
pub const NEIGHBOUR: Node = Node([0, 0, 0, 0, 0, 0xAA]);

/// A packet of 62 bytes that came from port 0 to another network, whose number isn't filled in.
pub const UNICAST: [u8; 62] = [
    0xFF, 0xFF, 0, 62, 3, 17, 0, 0, 0, 0, 0, 0, 0, 0, 0, 0xBB, 4, 0x51, 0, 0, 0x10, 0, 0, 0, 0, 0,
    0, 0xAA, 4, 0x51, 1, 2, 3, 4, 5, 6, 7, 8, 9, 10, 11, 12, 13, 14, 15, 16, 17, 18, 19, 20, 21,
    22, 23, 24, 25, 26, 27, 28, 29, 30, 31, 32,
];

/// The network of a port.
pub fn network_of(port: u8) -> Network {
    Network(FIRST_NETWORK + u32::from(port))
}

/// A service of that number, that many hops away.
pub fn service(number: u8, hops: u16) -> Service {
    let mut field = [0; 48];
    field[..8].copy_from_slice(b"SERVER-A");
    field[8] = b'A' + number % 16;
    field[9] = b'A' + number / 16;
    Service {
        kind: 4,
        name: ServiceName::read(&field).unwrap_or_default(),
        address: Address {
            network: Network(u32::from(number) + 1),
            node: NEIGHBOUR,
            socket: Socket(0x451),
        },
        hops,
    }
}

/// From a neighbour on a port's network to all its nodes.
pub fn addresses(port: u8, socket: Socket) -> (Address, Address) {
    let network = network_of(port);
    let from = Address {
        network,
        node: NEIGHBOUR,
        socket,
    };
    let to = Address {
        network,
        node: Node::BROADCAST,
        socket,
    };
    (from, to)
}
