//! The half in Rattle of `tools/embed bench`: a router of the size that the library for C has, on the heap as there, forwards the
//! packets of `examples/embed/bench/forward.c`, and what it sends is copied out alike.
//!
//! With no word it prints what it can measure; with the word `run` it measures.
#![tactic(auto)]

use ipx_router::{Event, Outbox, Port, PortFault, Router};
use ipx_wire::{Address, Network, Node, Operation, RipEntry, Socket, write_rip};
use std::io::ErrorKind;
use std::time::Instant;
use std::{env, io};

/// How many packets are forwarded in a run.
const PACKETS: u32 = TURNS * ROUTES as u32;

/// How many rounds of packets for the far networks there are in a run.
const TURNS: u32 = 50_000;

/// How many runs there are.
const RUNS: u32 = 9;

/// How many far networks there are.
const ROUTES: usize = 16;

/// The first far network; the others follow it.
const FAR: u32 = 0x1000;

/// The most bytes of a packet that leaves.
const LONGEST: usize = 576;

/// The bytes of a response with the far networks.
const RESPONSE: usize = 32 + RipEntry::SIZE * ROUTES;

/// A packet without data, from AA on network 10 to CC on a far network, whose number isn't filled in.
const TO_FAR: [u8; 30] = [
    0xFF, 0xFF, 0, 30, 0, 0, 0, 0, 0, 0, 0, 0, 0, 0, 0, 0xCC, 0x40, 0x03, 0, 0, 0, 0x10, 0, 0, 0,
    0, 0, 0xAA, 0x40, 0x03,
];

/// How long the fastest run took, in nanoseconds, and a number that depends on what was copied.
#[derive(Clone, Copy)]
struct Timed {
    run: u128,
    seen: u64,
}

/// A router and what it sends, as a handle of C has them.
#[derive(Drop)]
struct Machine {
    router: Router<32, 2048, 1024>,
    outbox: Outbox,
}

fn main(rt: HostRuntime) -> io::Result<()> {
    let word = env::args(&rt)?.nth(1);
    match word {
        Some(word) if word.as_str() == "run" => report(&rt),
        _ => println!(rt; "forward a packet in Rattle: 2 ports, {ROUTES} routes"),
    }
}

/// Prints how long a packet takes, with a digit that depends on what was copied.
fn report(rt: &HostRuntime) -> io::Result<()> {
    let timed = measure(rt)?;
    let tenths = timed.run.wrapping_mul(10) / u128::from(PACKETS);
    let (whole, tenth, mark) = (tenths / 10, tenths % 10, timed.seen % 10);
    println!(rt; "forward a packet in Rattle: {whole}.{tenth} ns a packet ({mark})")
}

/// Forwards the packets several times over, and keeps the fastest run: other programs may run on the machine.
fn measure(rt: &HostRuntime) -> io::Result<Timed> {
    let Ok(router) = new_router() else {
        return Err(ErrorKind::Other.into());
    };
    let outbox = Outbox::new(rt.alloc());
    let Ok(mut machine) = Box::new(rt.alloc(), Machine { router, outbox }) else {
        return Err(ErrorKind::OutOfMemory.into());
    };
    let packets = far_packets();
    let mut copied = [0; LONGEST];
    let mut timed = Timed {
        run: u128::MAX,
        seen: 0,
    };
    hand(&mut machine, Event::Start);
    hand(
        &mut machine,
        Event::Packet {
            port: 1,
            bytes: &advertisement(),
        },
    );
    machine.outbox.clear();
    for _ in 0..RUNS {
        let start = Instant::now(rt)?;
        let seen = forward(&mut machine, &packets, &mut copied);
        timed.run = timed.run.min(start.elapsed(rt)?.as_nanos());
        timed.seen = timed.seen.wrapping_add(seen ^ u64::from(copied[4]));
    }
    Ok(timed)
}

/// The ports of `forward.c`.
fn new_router() -> Result<Router<32, 2048, 1024>, PortFault> {
    let ports = [
        Port::new(Network(0x10), Node([0, 0, 0, 0, 0, 1]), 1, LONGEST as u16)?,
        Port::new(Network(0x20), Node([0, 0, 0, 0, 0, 2]), 1, LONGEST as u16)?,
    ];
    Router::new(&ports).map_err(|_| PortFault::Network)
}

/// BB on network 20 advertises the far networks: one hop, two ticks.
fn advertisement() -> [u8; RESPONSE] {
    let mut entries = [RipEntry::default(); ROUTES];
    for k in 0..ROUTES {
        entries[k] = RipEntry {
            network: Network(FAR + k as u32),
            hops: 1,
            ticks: 2,
        };
    }
    let from = Address {
        network: Network(0x20),
        node: Node([0, 0, 0, 0, 0, 0xBB]),
        socket: Socket::RIP,
    };
    let to = Address {
        node: Node::BROADCAST,
        ..from
    };
    let mut bytes = [0; RESPONSE];
    write_rip(from, to, Operation::Response, &entries, &mut bytes);
    bytes
}

/// A packet for each far network.
fn far_packets() -> [[u8; 30]; ROUTES] {
    let mut packets = [TO_FAR; ROUTES];
    for k in 0..ROUTES {
        packets[k][6..10].copy_from_slice(&(FAR + k as u32).to_be_bytes());
    }
    packets
}

/// Hands an event to the router, if the port that it names is there.
fn hand(machine: &mut Machine, event: Event<'_>) {
    match event {
        Event::Packet { port, bytes } => {
            if machine.router.has_port(port) {
                let _ = machine
                    .router
                    .step(Event::Packet { port, bytes }, &mut machine.outbox);
            }
        }
        Event::Start => {
            let _ = machine.router.step(Event::Start, &mut machine.outbox);
        }
        _ => {}
    }
}

/// Forwards all rounds, and adds up the lengths of what is sent.
fn forward(machine: &mut Machine, packets: &[[u8; 30]; ROUTES], copied: &mut [u8; LONGEST]) -> u64 {
    let mut length = 0u64;
    for turn in 0..PACKETS {
        let bytes = &packets[turn as usize % ROUTES];
        hand(machine, Event::Packet { port: 0, bytes });
        length = length.wrapping_add(take_out(&mut machine.outbox, copied));
    }
    length
}

/// Copies each packet of the outbox, takes all out, and adds up their lengths.
fn take_out(outbox: &mut Outbox, copied: &mut [u8; LONGEST]) -> u64 {
    let mut length = 0u64;
    for k in 0..outbox.len() {
        let bytes = outbox.get(k).bytes;
        let size = bytes.len().min(LONGEST);
        copied[..size].copy_from_slice(&bytes[..size]);
        length = length.wrapping_add(size as u64);
    }
    outbox.clear();
    length
}
