//! What the tests of a router share: a router of two ports that neighbours talk to, and what it sent.

use ipx_router::{Event, Outbox, Outcome, Port, PortFault, Router};
use ipx_wire::{Address, Network, Node, Operation, OutOfMemory, RipEntry, Socket, write_rip};
use std::alloc::Global;
use std::test::Fail;

/// The networks of ports 0 and 1.
const NETWORKS: [Network; 2] = [Network(0x10), Network(0x20)];

/// The last byte of a neighbour's node; the others are 0.
pub const A: u8 = 0xAA;

pub const B: u8 = 0xBB;

/// A running router with port 0 on network 10 and port 1 on network 20, and what it sent at its last event.
#[derive(Drop)]
pub struct Watched {
    pub router: Router<2, 50, 8>,
    pub outbox: Outbox,
}

/// A node of which all bytes but the last are 0.
pub fn node(last: u8) -> Node {
    Node([0, 0, 0, 0, 0, last])
}

/// Ports 0 and 1, with nodes 1 and 2, at a cost of one tick each.
pub fn ports() -> Result<[Port; 2], PortFault> {
    let [first, second] = NETWORKS;
    let first = Port::new(first, node(1), 1, 576)?;
    let second = Port::new(second, node(2), 1, 576)?;
    Ok([first, second])
}

/// An entry of a response.
pub fn entry(network: u32, hops: u16, ticks: u16) -> RipEntry {
    RipEntry {
        network: Network(network),
        hops,
        ticks,
    }
}

/// Entries for fifty networks in a row, each at one hop and two ticks.
pub fn fifty(first: u32) -> [RipEntry; 50] {
    let mut entries = [entry(first, 1, 2); 50];
    let mut network = first;
    for entry in &mut entries {
        entry.network = Network(network);
        network = network.wrapping_add(1);
    }
    entries
}

/// The address of a socket of a node on a port's network.
pub fn on(port: u8, node: Node, socket: Socket) -> Address {
    let [first, second] = NETWORKS;
    Address {
        network: if port == 0 { first } else { second },
        node,
        socket,
    }
}

/// A neighbour's broadcast response, with zeros behind it; it has one to fifty entries.
pub fn response(port: u8, neighbour: u8, entries: &[RipEntry]) -> Option<[u8; 440]> {
    if entries.is_empty() || entries.len() > RipEntry::MOST {
        return None;
    }
    let mut bytes = [0; 440];
    let from = on(port, node(neighbour), Socket::RIP);
    let to = on(port, Node::BROADCAST, Socket::RIP);
    write_rip(from, to, Operation::Response, entries, &mut bytes);
    Some(bytes)
}

impl Watched {
    /// A router with the two ports above; nothing is in the outbox but what its start sent.
    pub fn started(heap: Global) -> Result<Watched, Fail> {
        let mut router = Router::new(&ports()?)?;
        let mut outbox = Outbox::new(heap);
        router.step(Event::Start, &mut outbox)?;
        Ok(Watched { router, outbox })
    }

    /// What becomes of a second.
    pub fn second(&mut self) -> Result<Outcome, OutOfMemory> {
        self.outbox.clear();
        self.router.step(Event::Second, &mut self.outbox)
    }

    /// What becomes of bytes that come in on a port.
    pub fn packet(&mut self, port: u8, bytes: &[u8]) -> Result<Outcome, Fail> {
        if !self.router.has_port(port) {
            return Err(Fail::new("no such port"));
        }
        self.outbox.clear();
        Ok(
            self.router
                .step(Event::Packet { port, bytes }, &mut self.outbox)?,
        )
    }

    /// What becomes of a neighbour's response.
    pub fn hear(&mut self, port: u8, neighbour: u8, entries: &[RipEntry]) -> Result<Outcome, Fail> {
        match response(port, neighbour, entries) {
            Some(bytes) => self.packet(port, &bytes),
            None => Err(Fail::new("no response")),
        }
    }

    /// The port and the length of the packet sent with exactly `k` others before it.
    pub fn sent(&self, k: usize) -> Option<(u8, usize)> {
        sent(&self.outbox, k)
    }
}

/// The port and the length of the packet in an outbox with exactly `k` others before it.
pub fn sent(outbox: &Outbox, k: usize) -> Option<(u8, usize)> {
    if k < outbox.len() {
        let sent = outbox.get(k);
        Some((sent.port, sent.bytes.len()))
    } else {
        None
    }
}
