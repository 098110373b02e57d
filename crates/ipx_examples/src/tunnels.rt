//! A tunnel to which a player comes.

use anyhow::Result;
use arrayvec::ArrayVec;
use ipx_tunnel::{Sender, Setting, Tunnel};
use ipx_wire::{Network, Node};

/// A player registers, and answers the ping.
pub fn tunnel(rt: &HostRuntime, from: Sender, registration: &[u8], answer: &[u8]) -> Result<()> {
    let setting = Setting {
        network: Network(0x10),
        node: Node([0, 0, 0, 0, 0, 1]),
        capacity: 64,
        share: 16,
    };
    let mut tunnel = Tunnel::<64>::new(setting);
    let mut to = ArrayVec::new();
    let dispatch = tunnel.hear(from, registration, &mut to);
    for own in dispatch.own.iter() {
        println!(rt; "{} bytes to {}", own.bytes().len(), own.place)?;
    }
    tunnel.hear(from, answer, &mut to);
    for client in tunnel.clients() {
        let seconds = client.seconds_left;
        println!(rt; "{} stays for {seconds} seconds", client.place)?;
    }
    // prints 30 bytes to 0A0000010852
    // prints 30 bytes to 0A0000010852
    // prints 0A0000010852 stays for 30 seconds
    Ok(())
}
