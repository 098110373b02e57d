//! What passes between a cable and the router.

use anyhow::Result;
use ipx_edge::{Rule, Way, What, claim, enter, filter, is_needless, number, write_static_routes};
use ipx_router::Port;
use ipx_wire::{Address, Network, Node, Packet, RipEntry, Service, Socket, write_sap};

/// A station that knows no number sends to node CC of network 30; the port is on network 50.
const NAMELESS: [u8; 30] = [
    0xFF, 0xFF, 0, 0x1E, 0, 0, 0, 0, 0, 0x30, 0, 0, 0, 0, 0, 0xCC, 0x40, 1, 0, 0, 0, 0, 0, 0, 0, 0,
    0, 0xAA, 0x40, 1,
];

/// The network's number is filled in.
pub fn numbered(rt: &HostRuntime, port: Port) -> Result<()> {
    let mut bytes = NAMELESS;
    number(&port, &mut bytes);
    if let Ok(packet) = Packet::read(&bytes) {
        println!(rt; "it came from {}", packet.header().source)?;
    }
    // prints it came from 00000050.0000000000AA.4001
    Ok(())
}

/// Routes that a router carried here.
pub fn held(rt: &HostRuntime, port: Port, routes: &[u8; 40]) -> Result<()> {
    let mut bytes = *routes;
    bytes[4] = 1;
    let is_in = enter(&port, &mut bytes);
    println!(rt; "it comes in: {is_in}")?;
    // prints it comes in: false
    Ok(())
}

/// A response of one route, which a rule denies.
pub fn filtered(rt: &HostRuntime, port: Port, routes: &[u8; 40]) -> Result<()> {
    let mut bytes = *routes;
    let rule = Rule {
        permits: false,
        what: What::Routes {
            way: Way::In,
            from: Network(0x30),
            to: Network(0x3F),
        },
    };
    match filter(Way::In, &port, &[rule], &mut bytes) {
        Some(count) => println!(rt; "{count} bytes pass")?,
        None => println!(rt; "nothing passes")?,
    }
    // prints nothing passes
    Ok(())
}

/// A router's routes, for all of network 60; the port is on network 50.
pub fn claimed(rt: &HostRuntime, port: Port, routes: &[u8; 40]) -> Result<()> {
    let mut bytes = *routes;
    bytes[9] = 0x60;
    bytes[21] = 0x60;
    if let Some(network) = claim(&port, &bytes) {
        println!(rt; "a router claims {network} for this cable")?;
    }
    // prints a router claims 00000060 for this cable
    Ok(())
}

/// The router's answer to a query for the nearest server: one that is 4 hops away.
pub fn needless(rt: &HostRuntime, port: Port, service: Service) -> Result<()> {
    let router = Address {
        network: port.network(),
        node: port.node(),
        socket: Socket::SAP,
    };
    let mut bytes = [0; 96];
    write_sap(router, service.address, true, &[service], &mut bytes);
    let is_left_out = is_needless(&port, 1, &bytes);
    println!(rt; "the answer is left out: {is_left_out}")?;
    // prints the answer is left out: true
    Ok(())
}

/// A route by way of a node on the port's network 50.
pub fn taught(rt: &HostRuntime, port: Port, node: Node) -> Result<()> {
    let route = RipEntry {
        network: Network(0x30),
        hops: 1,
        ticks: 2,
    };
    let mut out = [0; 40];
    let size = write_static_routes(&port, node, &[route], &mut out);
    if let Ok(packet) = Packet::read(&out[..size]) {
        println!(rt; "{size} bytes from {}", packet.header().source)?;
    }
    // prints 40 bytes from 00000050.0000000000AA.0453
    Ok(())
}
