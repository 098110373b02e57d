//! What a tunnel with 64 clients does with packets and seconds: one that has room for 4,096, beside one that has room for no more.
//!
//! Room that is empty should cost nothing.
ghost use Rattle.std.specs.Prelude.{◌≤◌};

use arrayvec::ArrayVec;
use ipx_tunnel::{Cookies, Own, Sender, Setting, Tunnel};
use ipx_wire::{Network, Node};
use std::io;
use std::time::Instant;

/// How many clients there are, and for how many the two tunnels have room.
pub const CLIENTS: u16 = 64;

const SMALL: usize = 64;

pub const LARGE: usize = 4_096;

/// How many calls a block has. As seconds they are fewer than a client stays, so nobody leaves.
const TURNS: u32 = 100;

/// How many blocks are timed.
const BLOCKS: u32 = 2_000;

/// A packet of a game on network 10h, from the first client to all others.
const TO_ALL: [u8; 30] = [
    0xFF, 0xFF, 0, 0x1E, 0, 4, 0, 0, 0, 0x10, 0xFF, 0xFF, 0xFF, 0xFF, 0xFF, 0xFF, 0x86, 0x9C, 0, 0,
    0, 0x10, 10, 0, 0, 1, 0, 0, 0x86, 0x9C,
];

/// The same packet to the client in the middle.
const TO_ONE: [u8; 30] = [
    0xFF, 0xFF, 0, 0x1E, 0, 4, 0, 0, 0, 0x10, 10, 0, 0, 1, 0, 32, 0x86, 0x9C, 0, 0, 0, 0x10, 10, 0,
    0, 1, 0, 0, 0x86, 0x9C,
];

/// A registration.
const REGISTRATION: [u8; 30] = [
    0xFF, 0xFF, 0, 0x1E, 0, 0, 0, 0, 0, 0, 0, 0, 0, 0, 0, 0, 0, 2, 0, 0, 0, 0, 0, 0, 0, 0, 0, 0, 0,
    2,
];

/// What a tunnel does.
#[derive(Clone, Copy)]
pub enum Kind {
    ToAll,
    ToOne,
    Send,
    Second,
}

impl Kind {
    pub const ALL: [Kind; 4] = [Kind::ToAll, Kind::ToOne, Kind::Send, Kind::Second];

    pub fn name(self) -> &'static str {
        match self {
            Kind::ToAll => "hear a client's packet for all",
            Kind::ToOne => "hear a client's packet for another",
            Kind::Send => "send a packet of the router's to all",
            Kind::Second => "let a second pass over clients",
        }
    }
}

/// How long the fastest block of calls took, of each tunnel.
#[derive(Clone, Copy)]
pub struct Timed {
    pub large: u128,
    pub small: u128,
    /// How many calls a block has.
    pub count: u32,
    /// It depends on each call.
    pub seen: u64,
}

/// Calls two tunnels by turns, a block of each, and keeps the fastest. Both are filled anew before each block, untimed.
pub fn measure_rooms(rt: &HostRuntime, kind: Kind) -> io::Result<Timed> {
    let (mut large, mut small) = (new_tunnel::<LARGE>(), new_tunnel::<SMALL>());
    let (mut places, mut few_places) = (ArrayVec::new(), ArrayVec::new());
    let (mut pings, mut few_pings) = (ArrayVec::new(), ArrayVec::new());
    let mut timed = Timed {
        large: u128::MAX,
        small: u128::MAX,
        count: TURNS,
        seen: 0,
    };
    for _ in 0..BLOCKS {
        let (one, seen) = measure_block(rt, kind, &mut large, &mut places, &mut pings)?;
        let (other, also) = measure_block(rt, kind, &mut small, &mut few_places, &mut few_pings)?;
        timed.large = timed.large.min(one);
        timed.small = timed.small.min(other);
        timed.seen = timed.seen.wrapping_add(seen).wrapping_add(also);
    }
    Ok(timed)
}

fn new_tunnel<const C: usize>() -> Tunnel<C>
    requires some { 64 ≤ C }
{
    Tunnel::new(Setting {
        network: Network(0x10),
        node: Node([0, 0, 0, 0, 0, 1]),
        capacity: CLIENTS,
        share: CLIENTS,
    })
}

/// A client of that number, who is trusted.
fn client(number: u8) -> Sender {
    Sender {
        place: Node([10, 0, 0, 1, 0, number]),
        cookies: Cookies {
            current: Node([2, 0, 0, 0, 0, 1]),
            previous: Node([2, 0, 0, 0, 0, 2]),
        },
        is_trusted: true,
    }
}

/// How long a block of calls takes.
fn measure_block<const C: usize>(
    rt: &HostRuntime,
    kind: Kind,
    tunnel: &mut Tunnel<C>,
    places: &mut ArrayVec<Node, C>,
    pings: &mut ArrayVec<Own, C>,
) -> io::Result<(u128, u64)>
    requires few { C ≤ 4096 }
{
    for number in 0..CLIENTS {
        tunnel.hear(client((number % 256) as u8), &REGISTRATION, places);
    }
    let mut seen = 0u64;
    let start = Instant::now(rt)?;
    for _ in 0..TURNS {
        seen = seen.wrapping_add(call(kind, tunnel, places, pings));
    }
    Ok((start.elapsed(rt)?.as_nanos(), seen))
}

/// Calls the tunnel once.
fn call<const C: usize>(
    kind: Kind,
    tunnel: &mut Tunnel<C>,
    places: &mut ArrayVec<Node, C>,
    pings: &mut ArrayVec<Own, C>,
) -> u64
    requires few { C ≤ 4096 }
{
    match kind {
        Kind::ToAll => drop(tunnel.hear(client(0), &TO_ALL, places)),
        Kind::ToOne => drop(tunnel.hear(client(0), &TO_ONE, places)),
        Kind::Send => tunnel.send(Node::BROADCAST, places),
        Kind::Second => tunnel.second(pings, places),
    }
    places.len().wrapping_add(pings.len()) as u64
}
