//! What a router of eight ports does with an event as its table of routes grows.
//!
//! The routes came by seven of the ports, in responses of fifty networks that follow one another. Responses are taken in an order that
//! jumps, so a large table isn't in the caches where the next one falls.
ghost use Rattle.std.specs.Prelude.{◌≤◌};

use crate::stepped::{Stepped, hear, new_router};
use crate::traffic::{UNICAST, addresses};
use ipx_router::{Event, Outbox};
use ipx_wire::{Network, Operation, RipEntry, Socket, write_rip};
use std::alloc::{AllocError, Global};
use std::io::{self, ErrorKind};
use std::time::Instant;

/// How many routes the tables have, and as many records those that are compared with maps.
pub const SIZES: [u32; 4] = [256, 2_048, 16_384, 65_535];

/// The network of the first route; those of the others follow.
const FIRST: u32 = 0x10_0000;

/// How many routes a response has.
const ENTRIES: u32 = 50;

/// How many neighbours there are, each on a port of its own, from port 1 on.
const NEIGHBOURS: u32 = 7;

/// How many packets a block has, and how many blocks are timed.
const TURNS: u32 = 60;

const BLOCKS: u32 = 300;

/// How many seconds pass from one broadcast of everything to the next.
const PERIOD: u32 = 60;

/// The multiples of this prime jump.
const STEP: u32 = 40_503;

/// The hops of a route that is there, and of one that is withdrawn.
const NEAR: u16 = 2;

const GONE: u16 = 16;

/// A kind of event.
#[derive(Clone, Copy, PartialEq, Eq)]
pub enum Grown {
    Forward,
    Unchanged,
    Changed,
    Exchange,
    Second,
    Periodic,
}

impl Grown {
    pub const ALL: [Grown; 6] = [
        Grown::Forward,
        Grown::Unchanged,
        Grown::Changed,
        Grown::Exchange,
        Grown::Second,
        Grown::Periodic,
    ];

    pub fn name(self) -> &'static str {
        match self {
            Grown::Forward => "forward to one of many networks",
            Grown::Unchanged => "hear fifty of many routes that change nothing",
            Grown::Changed => "hear fifty of many routes that all change",
            Grown::Exchange => "hear that the route in the middle is gone, or there again",
            Grown::Second => "let a quiet second pass over many routes",
            Grown::Periodic => "advertise many routes",
        }
    }

    /// How many events a block has.
    fn turns(self) -> u32 {
        match self {
            Grown::Second => PERIOD - 1,
            Grown::Periodic => 1,
            _ => TURNS,
        }
    }
}

/// How long the fastest block of events took.
#[derive(Clone, Copy)]
pub struct Timed {
    /// How many events a block has.
    pub count: u32,
    pub nanoseconds: u128,
    /// It depends on each event.
    pub seen: u64,
}

/// Hands events to a router with a full table of that many routes, a block after the other, and keeps the fastest.
pub fn measure_grown(rt: &HostRuntime, kind: Grown, routes: u32) -> io::Result<Timed> {
    match routes {
        256 => measure::<256>(rt, kind),
        2_048 => measure::<2_048>(rt, kind),
        16_384 => measure::<16_384>(rt, kind),
        _ => measure::<65_535>(rt, kind),
    }
}

/// The largest routers have over a megabyte: only what measures them pays for their place on the stack.
#[inline(never)]
fn measure<const R: usize>(rt: &HostRuntime, kind: Grown) -> io::Result<Timed>
    requires some { 1 ≤ R }
    requires few { R ≤ 65535 }
{
    match new_router::<R>() {
        Ok(mut router) => measure_router(rt, kind, R as u32, &mut router),
        Err(_) => Err(ErrorKind::Other.into()),
    }
}

/// Measures a router whose table can hold that many routes.
fn measure_router<S: Stepped>(
    rt: &HostRuntime,
    kind: Grown,
    routes: u32,
    router: &mut S,
) -> io::Result<Timed> {
    let Ok(heard) = Heard::new(rt.alloc(), routes) else {
        return Err(ErrorKind::OutOfMemory.into());
    };
    let mut outbox = Outbox::new(rt.alloc());
    router.hand(&mut outbox, Event::Start);
    let timed = heard.fastest(rt, kind, router, &mut outbox);
    // (a table that isn't full would cost less)
    if timed.is_ok() && !router.is_full() {
        return Err(ErrorKind::Other.into());
    }
    timed
}

/// Goes to the end of a period that was begun.
fn finish<S: Stepped>(kind: Grown, router: &mut S, outbox: &mut Outbox) {
    if kind == Grown::Second {
        seconds(router, outbox, 1);
    }
}

fn seconds<S: Stepped>(router: &mut S, outbox: &mut Outbox, count: u32) -> u64 {
    let mut seen = 0u64;
    for _ in 0..count {
        seen = seen.wrapping_add(router.hand(outbox, Event::Second));
    }
    seen
}

/// What a full router hears: each response of fifty routes, the same with a tick more for each, and the route in the middle withdrawn
/// and offered again.
#[derive(Drop)]
struct Heard {
    routes: u32,
    responses: Vec<[u8; 432]>,
    later: Vec<[u8; 432]>,
    gone: [u8; 40],
    back: [u8; 40],
}

impl Heard {
    fn new(heap: Global, routes: u32) -> Result<Heard, AllocError> {
        let middle = routes / 2;
        Ok(Heard {
            routes,
            responses: responses(heap, routes, 3)?,
            later: responses(heap, routes, 4)?,
            gone: one_route(middle, GONE),
            back: one_route(middle, NEAR),
        })
    }

    /// Hands out one block after the other, and keeps the time of the fastest.
    fn fastest<S: Stepped>(
        &self,
        rt: &HostRuntime,
        kind: Grown,
        router: &mut S,
        outbox: &mut Outbox,
    ) -> io::Result<Timed> {
        let mut timed = Timed {
            count: kind.turns(),
            nanoseconds: u128::MAX,
            seen: 0,
        };
        for block in 0..BLOCKS {
            self.prepare(kind, router, outbox);
            let start = Instant::now(rt)?;
            let seen = self.block(kind, router, outbox, block.wrapping_mul(TURNS));
            timed.nanoseconds = timed.nanoseconds.min(start.elapsed(rt)?.as_nanos());
            timed.seen = timed.seen.wrapping_add(seen);
            finish(kind, router, outbox);
        }
        Ok(timed)
    }

    /// Before seconds that are timed: refreshes the table and, where all is to be advertised, goes to the second before. Before packets:
    /// refreshes it in the first block.
    fn prepare<S: Stepped>(&self, kind: Grown, router: &mut S, outbox: &mut Outbox) {
        if !router.is_full() || kind == Grown::Second || kind == Grown::Periodic {
            self.refresh(router, outbox);
        }
        if kind == Grown::Periodic {
            seconds(router, outbox, PERIOD - 1);
        }
    }

    /// Fills the table, or refreshes what it holds.
    fn refresh<S: Stepped>(&self, router: &mut S, outbox: &mut Outbox) {
        for place in 0..self.routes.div_ceil(ENTRIES) {
            if let Some(bytes) = self.responses.get(place as usize) {
                hear(router, outbox, port_of(place), bytes);
            }
        }
    }

    /// Hands a block of events to the router, from that turn on.
    fn block<S: Stepped>(
        &self,
        kind: Grown,
        router: &mut S,
        outbox: &mut Outbox,
        first: u32,
    ) -> u64 {
        match kind {
            Grown::Second | Grown::Periodic => seconds(router, outbox, kind.turns()),
            _ => self.packets(kind, router, outbox, first),
        }
    }

    fn packets<S: Stepped>(
        &self,
        kind: Grown,
        router: &mut S,
        outbox: &mut Outbox,
        first: u32,
    ) -> u64 {
        let mut seen = 0u64;
        for turn in 0..TURNS {
            let now = first.wrapping_add(turn);
            seen = seen.wrapping_add(self.packet(kind, router, outbox, now));
        }
        seen
    }

    /// The packet of a turn.
    fn packet<S: Stepped>(
        &self,
        kind: Grown,
        router: &mut S,
        outbox: &mut Outbox,
        turn: u32,
    ) -> u64 {
        let is_odd = turn % 2 == 1;
        match kind {
            Grown::Forward => {
                let number = turn.wrapping_mul(STEP) % self.routes.max(1);
                hear(router, outbox, 0, &unicast(number))
            }
            Grown::Exchange => {
                let port = port_of(self.routes / 2 / ENTRIES);
                hear(
                    router,
                    outbox,
                    port,
                    if is_odd { &self.back } else { &self.gone },
                )
            }
            Grown::Changed => {
                let all = if is_odd { &self.responses } else { &self.later };
                self.response(all, router, outbox, turn / 2)
            }
            _ => self.response(&self.responses, router, outbox, turn),
        }
    }

    /// A response of those that have nothing in common with others: the last one may repeat what the one before it has.
    fn response<S: Stepped>(
        &self,
        all: &[[u8; 432]],
        router: &mut S,
        outbox: &mut Outbox,
        turn: u32,
    ) -> u64 {
        let own = (self.routes / ENTRIES).max(2) - 1;
        let place = turn.wrapping_mul(STEP) % own;
        match all.get(place as usize) {
            Some(bytes) => hear(router, outbox, port_of(place), bytes),
            None => 0,
        }
    }
}

/// The port on which a response comes.
fn port_of(place: u32) -> u8 {
    (place % NEIGHBOURS) as u8 + 1
}

fn network_at(number: u32) -> Network {
    Network(FIRST.wrapping_add(number))
}

/// A packet from port 0 to the network of a route.
fn unicast(number: u32) -> [u8; 62] {
    let mut packet = UNICAST;
    let [a, b, c, d] = network_at(number).0.to_be_bytes();
    packet[6] = a;
    packet[7] = b;
    packet[8] = c;
    packet[9] = d;
    packet
}

/// All routes, fifty in each response; the last one begins earlier where that doesn't come out even.
fn responses(heap: Global, routes: u32, ticks: u16) -> Result<Vec<[u8; 432]>, AllocError> {
    let mut all = Vec::new(heap);
    for place in 0..routes.div_ceil(ENTRIES) {
        let first = place
            .wrapping_mul(ENTRIES)
            .min(routes.saturating_sub(ENTRIES));
        all.push(response(port_of(place), first, ticks))?;
    }
    Ok(all)
}

fn response(port: u8, first: u32, ticks: u16) -> [u8; 432] {
    let mut entries = [RipEntry::default(); 50];
    for place in 0..50 {
        entries[place] = RipEntry {
            network: network_at(first.wrapping_add(place as u32)),
            hops: NEAR,
            ticks,
        };
    }
    let mut out = [0; 432];
    let (from, to) = addresses(port, Socket::RIP);
    write_rip(from, to, Operation::Response, &entries, &mut out);
    out
}

/// A response of one route.
fn one_route(number: u32, hops: u16) -> [u8; 40] {
    let entries = [RipEntry {
        network: network_at(number),
        hops,
        ticks: 3,
    }];
    let mut out = [0; 40];
    let (from, to) = addresses(port_of(number / ENTRIES), Socket::RIP);
    write_rip(from, to, Operation::Response, &entries, &mut out);
    out
}
