//! Rings of routers that settle from their start, and a packet whose tree has ten thousand receptions.
ghost use Rattle.std.specs.Prelude.{◌<◌};

use ipx_internet::{Internet, Settled};
use ipx_router::{Event, Port, Router};
use ipx_wire::{Network, Node};
use std::alloc::Global;
use std::io::{self, ErrorKind};
use std::time::Instant;

/// How many routers the rings have.
pub const RINGS: [u32; 3] = [10, 100, 1000];

/// How many routers stand on the three networks on which a packet is traced. Each hears it on two, and on the third by each other
/// router twice.
const ROUTERS: u32 = 72;

/// How often it is traced.
const TRACES: u32 = 10;

/// More than any of it takes.
const LIMIT: usize = 1_000_000_000;

/// What was measured.
#[derive(Clone, Copy)]
pub struct Timed {
    /// The deliveries or the receptions.
    pub count: u64,
    /// The nanoseconds that they took together.
    pub nanoseconds: u128,
}

/// Lets a ring settle from its start, one time delivery by delivery to count them, and one time in one go.
pub fn measure_ring(rt: &HostRuntime, routers: u32) -> io::Result<Timed> {
    let Some(count) = counted(rt.alloc(), routers) else {
        return Err(ErrorKind::Other.into());
    };
    match ring(rt.alloc(), routers) {
        Some(mut ring) => settled(rt, &mut ring, count),
        None => Err(ErrorKind::Other.into()),
    }
}

fn settled(rt: &HostRuntime, ring: &mut Ring, count: u64) -> io::Result<Timed> {
    let start = Instant::now(rt)?;
    let settled = ring.settle(LIMIT);
    let nanoseconds = start.elapsed(rt)?.as_nanos();
    match settled {
        Ok(Settled::Quiet) => Ok(Timed { count, nanoseconds }),
        _ => Err(ErrorKind::Other.into()),
    }
}

/// Traces a packet that comes to one of the routers on three networks.
pub fn measure_trace(rt: &HostRuntime) -> io::Result<Timed> {
    match together(rt.alloc()) {
        Some(internet) => traced(rt, &internet),
        None => Err(ErrorKind::Other.into()),
    }
}

fn traced(rt: &HostRuntime, internet: &Together) -> io::Result<Timed> {
    let start = Instant::now(rt)?;
    let mut count = 0u64;
    for _ in 0..TRACES {
        match internet.trace(0, 0, &TO_ALL, LIMIT) {
            Ok(trace) => count = count.wrapping_add(trace.len() as u64),
            Err(_) => return Err(ErrorKind::Other.into()),
        }
    }
    let nanoseconds = start.elapsed(rt)?.as_nanos();
    Ok(Timed { count, nanoseconds })
}

/// A packet of type 20 to all of network 1.
const TO_ALL: [u8; 62] = [
    0xFF, 0xFF, 0, 62, 0, 20, 0, 0, 0, 1, 0xFF, 0xFF, 0xFF, 0xFF, 0xFF, 0xFF, 4, 0x55, 0, 0, 0, 1,
    0xAA, 0xAA, 0xAA, 0xAA, 0xAA, 0xAA, 4, 0x55, 0, 0, 0, 0, 0, 0, 0, 0, 0, 0, 0, 0, 0, 0, 0, 0, 0,
    0, 0, 0, 0, 0, 0, 0, 0, 0, 0, 0, 0, 0, 0, 0,
];

type Ring = Internet<2, 64, 8>;

/// A port of a network, and the node of that number.
fn port(network: u32, node: u32) -> Option<Port> {
    let [a, b, c, d] = node.to_be_bytes();
    Port::new(Network(network), Node([0, 0, a, b, c, d]), 1, 576).ok()
}

/// So many routers, each between a network and the next one, the last one's being the first. They were started.
fn ring(heap: Global, routers: u32) -> Option<Ring> {
    let mut internet = Ring::new(heap);
    join_ring(&mut internet, routers)?;
    Some(internet)
}

fn join_ring(internet: &mut Ring, routers: u32) -> Option<()> {
    for k in 0..routers {
        let number = internet.add(in_ring(k, routers)?).ok()?;
        internet.event(number, Event::Start).ok()?;
    }
    Some(())
}

/// The router of that number.
fn in_ring(k: u32, routers: u32) -> Option<Router<2, 64, 8>>
    requires { k < routers }
{
    let next = (k + 1) % routers;
    let node = k.wrapping_mul(2);
    let first = port(k.wrapping_add(1), node.wrapping_add(1))?;
    let second = port(next.wrapping_add(1), node.wrapping_add(2))?;
    Router::new(&[first, second]).ok()
}

/// How many deliveries it takes until nothing waits.
fn counted(heap: Global, routers: u32) -> Option<u64> {
    let mut ring = ring(heap, routers)?;
    deliveries(&mut ring)
}

fn deliveries(ring: &mut Ring) -> Option<u64> {
    for count in 0..LIMIT as u64 {
        if ring.waiting() == 0 {
            return Some(count);
        }
        ring.settle(1).ok()?;
    }
    None
}

type Together = Internet<3, 64, 8>;

/// Routers that stand on the same three networks. They were started, and nothing has settled.
fn together(heap: Global) -> Option<Together> {
    let mut internet = Together::new(heap);
    join_together(&mut internet)?;
    Some(internet)
}

fn join_together(internet: &mut Together) -> Option<()> {
    for k in 0..ROUTERS {
        let number = internet.add(on_three_networks(k + 1)?).ok()?;
        internet.event(number, Event::Start).ok()?;
    }
    Some(())
}

/// A router on networks 1, 2 and 3, with this node on each.
fn on_three_networks(node: u32) -> Option<Router<3, 64, 8>> {
    let first = port(1, node)?;
    let second = port(2, node)?;
    let third = port(3, node)?;
    Router::new(&[first, second, third]).ok()
}
