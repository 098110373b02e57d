//! A network of two cables and a tunnel.

use anyhow::Result;
use arrayvec::ArrayVec;
use ipx_segment::{Link, Segment, Setting};
use ipx_wire::{Network, Node};

/// A PC on a cable calls to all, and a player answers it.
pub fn segment(rt: &HostRuntime, player: Node, pc: Node) -> Result<()> {
    let setting = Setting {
        network: Network(0x10),
        node: Node([0, 0, 0, 0, 0, 1]),
        links: 3,
        capacity: 1024,
    };
    let mut segment = Segment::<8, 1024>::new(setting);
    segment.change(0, Link::Cable(256));
    segment.change(1, Link::Cable(256));
    segment.change(2, Link::Sure(512));
    segment.come(2, player);
    let mut to = ArrayVec::new();
    let is_heard = segment.hear(0, pc, Node::BROADCAST, &mut to);
    println!(rt;
        "a call goes to {} links, and to the router: {is_heard}",
        to.len()
    )?;
    segment.hear(2, player, pc, &mut to);
    for link in to.iter() {
        let number = *link;
        println!(rt; "the answer goes to link {number}")?;
    }
    for station in segment.stations() {
        println!(rt; "{} is at link {}", station.node, station.link)?;
    }
    // prints a call goes to 2 links, and to the router: true
    // prints the answer goes to link 0
    // prints 000000000002 is at link 2
    // prints 0000000000AA is at link 0
    Ok(())
}
