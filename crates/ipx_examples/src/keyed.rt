//! A tunnel that hands out nodes, to which a player comes.

use anyhow::Result;
use arrayvec::ArrayVec;
use ipx_keyed::{Sender, Setting, Tunnel};
use ipx_tunnel::Cookies;
use ipx_wire::{Network, Node};

/// A player registers, and speaks by the node that it is given.
pub fn come(
    rt: &HostRuntime,
    place: Node,
    cookies: Cookies,
    registration: &[u8],
    word: &[u8],
) -> Result<()> {
    let from = Sender {
        place,
        node: Node([2, 0xA1, 0xB2, 0xC3, 0xD4, 0xE5]),
        former: place,
        cookies,
        is_trusted: false,
        may_register: true,
    };
    tunnel(rt, from, registration, word)
}

fn tunnel(rt: &HostRuntime, from: Sender, registration: &[u8], word: &[u8]) -> Result<()> {
    let setting = Setting {
        network: Network(0x10),
        node: Node([0, 0, 0, 0, 0, 1]),
        capacity: 64,
        share: 16,
        remembered: 128,
        remembered_share: 16,
    };
    let mut tunnel = Tunnel::<64, 128>::new(setting);
    let mut to = ArrayVec::new();
    let dispatch = tunnel.hear(from, registration, &mut to);
    for own in dispatch.own.iter() {
        println!(rt; "{} is told its node {}", own.place, own.destination.node)?;
    }
    let dispatch = tunnel.hear(from, word, &mut to);
    println!(rt; "the router hears its first word: {}", dispatch.is_heard)?;
    for client in tunnel.clients() {
        let seconds = client.seconds_left;
        println!(rt; "{} stays for {seconds} seconds", client.node)?;
    }
    // prints 0A0000010852 is told its node 02A1B2C3D4E5
    // prints the router hears its first word: true
    // prints 02A1B2C3D4E5 stays for 30 seconds
    Ok(())
}
