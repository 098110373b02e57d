//! Gateways that share a network.

use anyhow::Result;
use ipx_peers::{Opened, Peers};

/// Another gateway gets to know this one, is heard, and falls silent.
pub fn two(rt: &HostRuntime) -> Result<()> {
    let (here, there) = ([1; 16], [2; 16]);
    let mut opened = Opened {
        session: there,
        echo: [0; 16],
        address: [10; 24],
        number: 1,
    };
    let mut peers = Peers::zeros();
    peers.begin(here);
    println!(rt; "it doesn't know us yet: {:?}", peers.hear(&opened))?;
    opened.echo = here;
    opened.number = 2;
    println!(rt; "it does now: {:?}", peers.hear(&opened))?;
    println!(rt; "the same once more: {:?}", peers.hear(&opened))?;
    if let Some(present) = peers.present(0) {
        println!(rt;
            "to be sent there: number {}, to {}",
            peers.number(),
            present.address[0]
        )?;
    }
    for _ in 0..180 {
        peers.second();
    }
    println!(rt; "three minutes later: {:?}", peers.present(0))?;
    // prints it doesn't know us yet: Greet
    // prints it does now: New(0)
    // prints the same once more: Repeated
    // prints to be sent there: number 1, to 10
    // prints three minutes later: None
    Ok(())
}
