//! The kinds of work that are measured, and the packets that they are done on.
ghost use Rattle.std.specs.Prelude.{◌<◌};

use crate::packets::Packets;
use crate::work::{
    control_of, crossed_of, forwarded_of, propagated_of, routes_of, services_of, write_queries,
    write_routes, write_services,
};
use std::io;
use std::time::Instant;

/// What is done with a packet.
#[derive(Clone, Copy)]
pub enum Kind {
    ReadHeader,
    ReadRip,
    ReadSap,
    ReadCrossed,
    WriteRip,
    WriteSap,
    WriteQuery,
    Forward,
    Propagate,
}

impl Kind {
    pub const ALL: [Kind; 9] = [
        Kind::ReadHeader,
        Kind::ReadRip,
        Kind::ReadSap,
        Kind::ReadCrossed,
        Kind::WriteRip,
        Kind::WriteSap,
        Kind::WriteQuery,
        Kind::Forward,
        Kind::Propagate,
    ];

    pub fn name(self) -> &'static str {
        match self {
            Kind::ReadHeader => "read a header",
            Kind::ReadRip => "read a response of routes",
            Kind::ReadSap => "read a response of services",
            Kind::ReadCrossed => "read the networks crossed",
            Kind::WriteRip => "write a response of routes",
            Kind::WriteSap => "write a response of services",
            Kind::WriteQuery => "write a query",
            Kind::Forward => "forward a packet",
            Kind::Propagate => "propagate a packet",
        }
    }

    /// How many entries its packet has.
    pub fn entries(self) -> u32 {
        match self {
            Kind::ReadHeader | Kind::WriteQuery | Kind::Forward | Kind::Propagate => 0,
            Kind::ReadRip | Kind::WriteRip => 50,
            Kind::ReadSap | Kind::WriteSap => 7,
            Kind::ReadCrossed => 4,
        }
    }
}

/// How long the copies and the work took.
#[derive(Clone, Copy)]
pub struct Timed {
    pub copy: u128,
    pub work: u128,
    /// It depends on each copy and each turn of the work.
    pub seen: u64,
}

/// Copies packets, and then does the work as often.
pub fn measure_kind(
    rt: &HostRuntime,
    kind: Kind,
    packets: &Packets,
    turns: u32,
) -> io::Result<Timed> {
    let start = Instant::now(rt)?;
    let seen = copied(kind, packets, turns);
    let copy = start.elapsed(rt)?.as_nanos();
    let start = Instant::now(rt)?;
    let done = done(kind, packets, turns);
    let work = start.elapsed(rt)?.as_nanos();
    Ok(Timed {
        copy,
        work,
        seen: seen ^ done,
    })
}

/// Copies the bytes of the kind's packet that many times. The answer depends on each copy.
fn copied(kind: Kind, packets: &Packets, turns: u32) -> u64 {
    match kind {
        Kind::ReadHeader | Kind::WriteQuery => copy(packets.query, turns),
        Kind::ReadRip | Kind::WriteRip => copy(packets.response, turns),
        Kind::ReadSap | Kind::WriteSap => copy(packets.advertised, turns),
        Kind::ReadCrossed | Kind::Forward | Kind::Propagate => copy(packets.propagated, turns),
    }
}

/// Does the work that many times. The answer depends on each turn.
fn done(kind: Kind, packets: &Packets, turns: u32) -> u64 {
    match kind {
        Kind::ReadHeader => each(&packets.query, turns, control_of),
        Kind::ReadRip => each(&packets.response, turns, routes_of),
        Kind::ReadSap => each(&packets.advertised, turns, services_of),
        Kind::ReadCrossed => each(&packets.propagated, turns, crossed_of),
        Kind::WriteRip => write_routes(packets, turns),
        Kind::WriteSap => write_services(packets, turns),
        Kind::WriteQuery => write_queries(turns),
        Kind::Forward => each(&packets.propagated, turns, forwarded_of),
        Kind::Propagate => each(&packets.propagated, turns, propagated_of),
    }
}

/// How many packets are gone round, so that no turn knows the bytes of the next.
const ROUND: usize = 16;

/// The room of a packet in the round.
const ROOM: usize = 512;

fn copy<const N: usize>(bytes: [u8; N], turns: u32) -> u64
    requires some { 0 < N }
    requires room { N < 513 }
{
    let round = round_of(&bytes);
    let mut out = [0u8; N];
    let mut seen = 0u64;
    for turn in 0..turns {
        out.copy_from_slice(&round[turn as usize % ROUND][..N]);
        seen = seen.wrapping_add(u64::from(out[turn as usize % N]));
    }
    seen
}

/// Hands the packets of a round to the work, one a turn.
fn each<F: Fn(&[u8]) -> u64>(bytes: &[u8], turns: u32, work: F) -> u64
    requires { F.IsAlwaysCallable work }
{
    let round = round_of(bytes);
    let size = bytes.len().min(ROOM);
    let mut seen = 0u64;
    for turn in 0..turns {
        seen = seen.wrapping_add(work(&round[turn as usize % ROUND][..size]));
    }
    seen
}

/// The packet from different networks.
fn round_of(bytes: &[u8]) -> [[u8; ROOM]; ROUND] {
    let size = bytes.len().min(ROOM);
    let mut packet = [0; ROOM];
    packet[..size].copy_from_slice(&bytes[..size]);
    let mut round = [packet; ROUND];
    for place in 0..ROUND {
        round[place][21] = place as u8;
    }
    round
}
