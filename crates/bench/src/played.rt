//! An internet of 32 routers of up to 8 ports with services, played for 1,000 seconds with 16,000 packets of hosts and 9,000 traces.
//! `dev/plain/played.c` plays one of plain routers to which the same happens.

use crate::traffic::{NEIGHBOUR, UNICAST, service};
use ipx_internet::{Internet, TraceRoom};
use ipx_router::{Event, Port, Router};
use ipx_wire::{Address, Network, Node, Service, Socket, write_sap};
use std::alloc::Global;
use std::io::{self, ErrorKind};
use std::time::Instant;

pub const ROUTERS: u32 = 32;

pub const SECONDS: u32 = 1_000;

/// How many packets hosts send and how many are traced in a second.
const PACKETS: u32 = 16;

const TRACES: u32 = 9;

/// Beside the ring there are chords. One begins at each router whose number is a multiple of the first number, and leads as many on as
/// the second says.
const CHORDS: [(u32, u32); 3] = [(2, 6), (4, 12), (8, 16)];

/// The networks of a kind of chords have numbers from here on, and so do those of the next kind.
const OF_CHORDS: u32 = 0x100;

/// How many routes and services a router can have.
const ROUTES: usize = 128;

const SERVICES: usize = 256;

/// In how many seconds the host beside each router announces its services once.
const ROUND: u32 = 64;

/// Where the networks and the node stand in a packet.
const TO_NETWORK: usize = 6;

const FROM_NETWORK: usize = 18;

const FROM_NODE: usize = 22;

/// More than any of it takes.
const LIMIT: usize = 1_000_000;

/// The multiples of this prime jump.
const STEP: u32 = 40_503;

/// A packet for all networks that has crossed none.
const TO_ALL: [u8; 62] = [
    0xFF, 0xFF, 0, 62, 0, 20, 0, 0, 0, 0, 0xFF, 0xFF, 0xFF, 0xFF, 0xFF, 0xFF, 4, 0x55, 0, 0, 0, 0,
    0, 0, 0, 0, 0, 0xAA, 4, 0x55, 0, 0, 0, 0, 0, 0, 0, 0, 0, 0, 0, 0, 0, 0, 0, 0, 0, 0, 0, 0, 0, 0,
    0, 0, 0, 0, 0, 0, 0, 0, 0, 0,
];

type Simulated = Internet<8, ROUTES, SERVICES>;

/// An internet that was played.
#[derive(Drop)]
pub struct Played {
    pub internet: Simulated,
    pub nanoseconds: u128,
    /// How many receptions the traces have.
    pub receptions: u64,
}

/// Plays it once.
pub fn measure_played(rt: &HostRuntime) -> io::Result<Played> {
    let heap = rt.alloc();
    let Some(mut internet) = new_internet(heap) else {
        return Err(ErrorKind::OutOfMemory.into());
    };
    let mut room = TraceRoom::new(heap);
    let start = Instant::now(rt)?;
    let receptions = play(&mut internet, &mut room);
    let nanoseconds = start.elapsed(rt)?.as_nanos();
    match receptions {
        Some(receptions) => Ok(Played {
            internet,
            nanoseconds,
            receptions,
        }),
        None => Err(ErrorKind::Other.into()),
    }
}

/// Plays it all. Returns how many receptions there were; `None` where something is refused.
fn play(internet: &mut Simulated, room: &mut TraceRoom) -> Option<u64> {
    start_all(internet)?;
    let mut receptions = 0u64;
    for second in 0..SECONDS {
        pass(internet)?;
        send(internet, second)?;
        receptions = receptions.wrapping_add(traced(internet, room, second)?);
    }
    Some(receptions)
}

fn start_all(internet: &mut Simulated) -> Option<()> {
    for router in 0..ROUTERS {
        internet.event(router as usize, Event::Start).ok()?;
    }
    settle(internet)
}

/// A second passes for each router.
fn pass(internet: &mut Simulated) -> Option<()> {
    for router in 0..ROUTERS {
        internet.event(router as usize, Event::Second).ok()?;
    }
    settle(internet)
}

fn settle(internet: &mut Simulated) -> Option<()> {
    internet.settle(LIMIT).ok().map(|_| ())
}

/// What hosts send in a second: one announces its services, or all write to others.
fn send(internet: &mut Simulated, second: u32) -> Option<()> {
    if second % ROUND < ROUTERS {
        let host = second % ROUND;
        bring(internet, host, &announcement(host))?;
    } else {
        write_one(internet, second.wrapping_mul(PACKETS))?;
    }
    for place in 1..PACKETS {
        write_one(internet, second.wrapping_mul(PACKETS).wrapping_add(place))?;
    }
    settle(internet)
}

/// A packet comes to a router from its host.
fn bring(internet: &mut Simulated, router: u32, bytes: &[u8]) -> Option<()> {
    let event = Event::Packet { port: 0, bytes };
    internet.event(router as usize, event).ok().map(|_| ())
}

/// A host writes to one beside another router.
fn write_one(internet: &mut Simulated, turn: u32) -> Option<()> {
    let (from, to) = (turn % ROUTERS, turn.wrapping_mul(STEP) / 7 % ROUTERS);
    let mut packet = UNICAST;
    put(&mut packet, TO_NETWORK, ring_network(to));
    put(&mut packet, FROM_NETWORK, ring_network(from));
    bring(internet, from, &packet)
}

fn traced(internet: &Simulated, room: &mut TraceRoom, second: u32) -> Option<u64> {
    let mut receptions = 0u64;
    for place in 0..TRACES {
        let router = second
            .wrapping_mul(TRACES)
            .wrapping_add(place)
            .wrapping_mul(STEP)
            % ROUTERS;
        let mut packet = TO_ALL;
        put(&mut packet, TO_NETWORK, ring_network(router));
        put(&mut packet, FROM_NETWORK, ring_network(router));
        let trace = internet
            .trace_in(room, router as usize, 0, &packet, LIMIT)
            .ok()?;
        receptions = receptions.wrapping_add(trace.len() as u64);
        room.keep(trace);
    }
    Some(receptions)
}

/// The network between a router and the next one. Each router has a host on it.
fn ring_network(router: u32) -> u32 {
    (router % ROUTERS).wrapping_add(1)
}

fn put(packet: &mut [u8; 62], place: usize, network: u32) {
    if place < 58 {
        packet[place..place + 4].copy_from_slice(&network.to_be_bytes());
    }
}

/// The seven services of the host beside a router.
fn announcement(router: u32) -> [u8; 480] {
    let mut services = [Service::default(); 7];
    for place in 0..7u8 {
        let number = router.wrapping_mul(7).wrapping_add(u32::from(place));
        services[usize::from(place)] = service((number % 256) as u8, 1);
    }
    let network = Network(ring_network(router));
    let from = Address {
        network,
        node: NEIGHBOUR,
        socket: Socket::SAP,
    };
    let to = Address {
        network,
        node: Node::BROADCAST,
        socket: Socket::SAP,
    };
    let mut out = [0; 480];
    write_sap(from, to, false, &services, &mut out);
    out
}

/// The networks of a router.
fn networks(heap: Global, router: u32) -> Option<Vec<u32>> {
    let mut networks = Vec::new(heap);
    networks.push(ring_network(router)).ok()?;
    networks
        .push(ring_network(router.wrapping_add(ROUTERS - 1)))
        .ok()?;
    for (kind, (every, length)) in CHORDS.iter().enumerate() {
        let first = (kind as u32).wrapping_add(1).wrapping_mul(OF_CHORDS);
        let other = router.wrapping_add(ROUTERS).wrapping_sub(*length) % ROUTERS;
        if router % (*every).max(1) == 0 {
            networks.push(first.wrapping_add(router)).ok()?;
        }
        if other % (*every).max(1) == 0 {
            networks.push(first.wrapping_add(other)).ok()?;
        }
    }
    Some(networks)
}

/// The node of a router's port.
fn node(router: u32, place: usize) -> Node {
    let [a, b, c, d] = router.to_be_bytes();
    Node([2, a, b, c, d, (place % 256) as u8])
}

fn new_internet(heap: Global) -> Option<Simulated> {
    let mut internet = Simulated::new(heap);
    for router in 0..ROUTERS {
        add_router(heap, &mut internet, router)?;
    }
    Some(internet)
}

fn add_router(heap: Global, internet: &mut Simulated, router: u32) -> Option<()> {
    let mut ports = Vec::new(heap);
    for (place, network) in networks(heap, router)?.iter().enumerate() {
        let port = Port::new(Network(*network), node(router, place), 1, 1500).ok()?;
        ports.push(port).ok()?;
    }
    let router = Router::new(&ports).ok()?;
    internet.add(router).ok().map(|_| ())
}
