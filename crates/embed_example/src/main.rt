//! A router in a program of one's own: it is handed packets and seconds, and what it sends is printed.
//!
//! Here the packets are constants and a minute passes at once. A program with real ports hands over what they receive and
//! an event each second, and gives what stands in the outbox to its ports.
#![tactic(auto)]

use hex::FromHexError;
use ipx_router::{Event, Outbox, Port, PortFault, PortsFault, Router};
use ipx_wire::{Hex, Network, Node, OutOfMemory};
use std::io;
use thiserror::Error;

/// Node BB, a router on network 20, advertises network 30.
const ADVERTISEMENT: &str =
    "FFFF0028000100000020FFFFFFFFFFFF0453000000200000000000BB045300020000003000010002";

/// Node AA, on network 10, asks for all routes.
const REQUEST: &str =
    "FFFF0028000100000010FFFFFFFFFFFF0453000000100000000000AA04530001FFFFFFFFFFFFFFFF";

/// Node AA sends to node CC, on network 30.
const FAR: &str = "FFFF001E0000000000300000000000CC4003000000100000000000AA4003";

fn main(rt: HostRuntime) -> Result<(), Stop> {
    // Network, node, ticks to cross the network, bytes of the longest packet.
    let ports = [
        Port::new(Network(0x10), Node([0, 0, 0, 0, 0, 1]), 1, 576)?,
        Port::new(Network(0x20), Node([0, 0, 0, 0, 0, 2]), 1, 1500)?,
    ];
    let mut router = Router::<2, 256, 128>::new(&ports)?;
    let mut outbox = Outbox::new(rt.alloc());
    // Room for any event, where no packet that comes is longer than 1,500 bytes. From here on no event takes memory.
    outbox.reserve(router.most_need(1500))?;
    router.step(Event::Start, &mut outbox)?;
    send(&rt, &mut outbox)?;
    for (port, text) in [(1, ADVERTISEMENT), (0, REQUEST), (0, FAR)] {
        let bytes = hex::decode(rt.alloc(), text)?;
        if router.has_port(port) {
            let event = Event::Packet {
                port,
                bytes: &bytes,
            };
            let outcome = router.step(event, &mut outbox)?;
            println!(rt; "packet on port {port}: {outcome:?}")?;
            send(&rt, &mut outbox)?;
        }
    }
    for _ in 0..60 {
        router.step(Event::Second, &mut outbox)?;
        send(&rt, &mut outbox)?;
    }
    Ok(())
}

/// Takes everything out of the outbox: for each packet the port on which it leaves, the node on that port's network that
/// it goes to next, and its bytes.
fn send(rt: &HostRuntime, outbox: &mut Outbox) -> io::Result<()> {
    for sent in outbox.iter() {
        let (port, next_hop, bytes) = (sent.port, sent.link, Hex(sent.bytes));
        println!(rt; "out {port} {next_hop} {bytes}")?;
    }
    outbox.clear();
    Ok(())
}

/// Why the program stops early.
#[derive(Debug, Drop, Error)]
enum Stop {
    #[error("a port: {0}")]
    Port(#[from] PortFault),
    #[error("the ports: {0}")]
    Ports(#[from] PortsFault),
    #[error("{0}")]
    Memory(#[from] OutOfMemory),
    #[error("a packet: {0}")]
    Digits(#[from] FromHexError),
    #[error("{0}")]
    Output(#[from] io::Error),
}
