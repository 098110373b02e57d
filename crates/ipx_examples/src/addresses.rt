//! Numbers, addresses, and bytes in digits.

use anyhow::Result;
use ipx_wire::{Address, Hex, Network, Node, NotHex, Socket};

/// A network, read from its digits.
pub fn network(rt: &HostRuntime) -> Result<()> {
    match "0000BEEF".parse::<Network>() {
        Ok(network) => println!(rt; "network {network} has the number {}", network.0)?,
        Err(NotHex) => println!(rt; "a network has eight hexadecimal digits")?,
    }
    // prints network 0000BEEF has the number 48879
    Ok(())
}

/// A node, read and written.
pub fn node(rt: &HostRuntime) -> Result<()> {
    let node = Node([0, 0, 0, 0, 0, 0xAA]);
    let is_read = Node::from_hex("0000000000aa") == Some(node);
    println!(rt; "node {node} is read: {is_read}")?;
    // prints node 0000000000AA is read: true
    Ok(())
}

/// A socket, and those of routers.
pub fn socket(rt: &HostRuntime) -> Result<()> {
    let socket = Socket(0x4003);
    let is_routers = socket == Socket::RIP || socket == Socket::SAP;
    println!(rt; "socket {socket} is a router's: {is_routers}")?;
    // prints socket 4003 is a router's: false
    Ok(())
}

/// An address, in digits.
pub fn address(rt: &HostRuntime) -> Result<()> {
    let address = Address {
        network: Network(0x10),
        node: Node([0, 0, 0, 0, 0, 0xAA]),
        socket: Socket::RIP,
    };
    println!(rt; "{address}")?;
    // prints 00000010.0000000000AA.0453
    Ok(())
}

/// Bytes, in digits.
pub fn hex(rt: &HostRuntime) -> Result<()> {
    let bytes = [0xFF, 0xFF, 0x00, 0x1E];
    println!(rt; "{}", Hex(&bytes))?;
    // prints FFFF001E
    Ok(())
}
