//! What is done with a full table of offers, beside reading as many records once.
//!
//! To read its records is what a table must at least do that holds their ages in them.

use crate::jumping::place_at;
use ipx_table::{Held, Offer, Table, Taken};
use ipx_wire::{Network, Node};
use std::io;
use std::time::Instant;

/// A way to a network; fewer ticks are better, then fewer hops.
#[derive(Clone, Copy, Debug, Default, PartialEq, Eq)]
pub struct Way {
    pub network: Network,
    pub hops: u16,
    pub ticks: u16,
    pub port: u8,
    pub node: Node,
}

impl Offer for Way {
    ghost use Rattle.std.specs.Prelude.{nat_le};
    ghost use Rattle.std.proofs.Common.{rules};

    type Key = Network;

    ghost reading = { record {
      key = λ way. way.network;
      source = λ way. (way.port, way.node);
      rank = λ way. (way.ticks, way.hops);
      is_down = λ way. nat_le 16 way.hops;
    } };

    fn key(&self) -> Network {
        self.network
    }

    fn source(&self) -> (u8, Node) {
        (self.port, self.node)
    }

    fn rank(&self) -> (u16, u16) {
        (self.ticks, self.hops)
    }

    fn is_down(&self) -> bool {
        16 <= self.hops
    }

    ghost alike = { Prim.search rules };
}

/// How many records a full table has: a network for each number of a byte.
pub const RECORDS: usize = 256;

/// The network in the middle of them.
const MIDDLE: u8 = 128;

/// How many calls a block has. As seconds they are two less than an offer lives, so nothing ends.
const BLOCK: u32 = 178;

/// How many blocks are timed.
const BLOCKS: u32 = 3_000;

/// How many calls that makes, and how many readings of the records beside them.
pub const CALLS: u32 = BLOCKS * BLOCK;

/// What is done with a full table.
#[derive(Clone, Copy)]
pub enum Call {
    Second,
    Refresh,
    InOrder,
    LookUp,
    Exchange,
    ReadAll,
}

impl Call {
    pub const ALL: [Call; 6] = [
        Call::Second,
        Call::Refresh,
        Call::InOrder,
        Call::LookUp,
        Call::Exchange,
        Call::ReadAll,
    ];

    pub fn name(self) -> &'static str {
        match self {
            Call::Second => "let a second pass",
            Call::Refresh => "refresh a record",
            Call::InOrder => "refresh the next record by key",
            Call::LookUp => "look up a record",
            Call::Exchange => "withdraw a record in the middle and admit it again",
            Call::ReadAll => "get every record, place by place",
        }
    }
}

/// How long the calls took, and the readings beside them.
#[derive(Clone, Copy)]
pub struct Timed {
    pub calls: u128,
    pub readings: u128,
    /// It depends on each call and each reading.
    pub seen: u64,
}

/// Reads a list and calls a table by turns, a block of each, so that what else the machine does slows
/// both. The table is filled anew before each block, untimed, so no record gets old enough to end.
pub fn measure_call(rt: &HostRuntime, call: Call) -> io::Result<Timed> {
    let mut records = full_list();
    let mut table = Table::new();
    let mut calls = 0u128;
    let mut readings = 0u128;
    let mut seen = 0u64;
    for block in 0..BLOCKS {
        fill(&mut table);
        let start = Instant::now(rt)?;
        seen = seen.wrapping_add(read(&mut records));
        readings = readings.wrapping_add(start.elapsed(rt)?.as_nanos());
        let start = Instant::now(rt)?;
        seen = seen.wrapping_add(done(call, &mut table, block.wrapping_mul(BLOCK)));
        calls = calls.wrapping_add(start.elapsed(rt)?.as_nanos());
    }
    Ok(Timed {
        calls,
        readings,
        seen,
    })
}

/// Reads the records as often as a block has calls. One changes before each reading, so that each is done.
fn read(records: &mut [Held<Way>; RECORDS]) -> u64 {
    let mut seen = 0u64;
    for turn in 0..BLOCK {
        records[turn as usize].age = turn as u8;
        seen = seen.wrapping_add(sum_of(records));
    }
    seen
}

/// The ages and the ticks of the records.
fn sum_of(records: &[Held<Way>; RECORDS]) -> u64 {
    let mut sum = 0u64;
    for place in 0..RECORDS {
        let held = &records[place];
        sum = sum.wrapping_add(u64::from(held.age) + u64::from(held.offer.ticks));
    }
    sum
}

/// Calls the table as often as a block has calls, from that turn on.
fn done(call: Call, table: &mut Table<Way, RECORDS>, first: u32) -> u64 {
    match call {
        Call::Second => let_pass(table),
        Call::Refresh => refresh(table, first),
        Call::InOrder => refresh_in_order(table, first),
        Call::LookUp => look_up(table, first),
        Call::Exchange => exchange(table),
        Call::ReadAll => read_all(table),
    }
}

/// Lets seconds pass.
fn let_pass(table: &mut Table<Way, RECORDS>) -> u64 {
    let mut seen = 0u64;
    for _ in 0..BLOCK {
        seen = seen.wrapping_add(table.second().len() as u64);
    }
    seen.wrapping_add(seen_at(table, 0))
}

/// Offers again what is held, in an order that jumps.
fn refresh(table: &mut Table<Way, RECORDS>, first: u32) -> u64 {
    let mut seen = 0u64;
    for turn in 0..BLOCK {
        let taken = table.offer(way_to(place_at(first.wrapping_add(turn))));
        seen = seen.wrapping_add(u64::from(taken == Taken::Refreshed { changed: false }));
    }
    seen
}

/// Offers again what is held, by network, as a neighbour does.
fn refresh_in_order(table: &mut Table<Way, RECORDS>, first: u32) -> u64 {
    let mut seen = 0u64;
    for turn in 0..BLOCK {
        let exchanged = table.exchange(way_to((first.wrapping_add(turn) % 256) as u8));
        seen = seen.wrapping_add(u64::from(exchanged.before == exchanged.after));
    }
    seen
}

/// Looks networks up, in an order that jumps.
fn look_up(table: &Table<Way, RECORDS>, first: u32) -> u64 {
    let mut seen = 0u64;
    for turn in 0..BLOCK {
        seen = seen.wrapping_add(seen_at(table, place_at(first.wrapping_add(turn))));
    }
    seen
}

/// Withdraws the network in the middle, and offers it again.
fn exchange(table: &mut Table<Way, RECORDS>) -> u64 {
    let way = way_to(MIDDLE);
    let gone = Way { hops: 16, ..way };
    let mut seen = 0u64;
    for _ in 0..BLOCK {
        seen = seen.wrapping_add(u64::from(table.offer(gone) == Taken::Withdrawn));
        seen = seen.wrapping_add(u64::from(table.offer(way) == Taken::Admitted));
    }
    seen
}

/// Gets all records by their places, as often as a block has calls.
fn read_all(table: &Table<Way, RECORDS>) -> u64 {
    let mut seen = 0u64;
    for _ in 0..BLOCK {
        seen = seen.wrapping_add(sum_held(table));
    }
    seen
}

/// The ages and the ticks of the records of a table.
fn sum_held(table: &Table<Way, RECORDS>) -> u64 {
    let mut sum = 0u64;
    for place in 0..RECORDS {
        if let Some(held) = table.get_at(place) {
            sum = sum.wrapping_add(u64::from(held.age) + u64::from(held.offer.ticks));
        }
    }
    sum
}

/// What the table holds of a network.
fn seen_at(table: &Table<Way, RECORDS>, number: u8) -> u64 {
    match table.get(&Network(u32::from(number))) {
        Some(held) => u64::from(held.age) + u64::from(held.offer.ticks),
        None => 0,
    }
}

/// Offers a way to each network, so that each record is at age 0.
fn fill(table: &mut Table<Way, RECORDS>) {
    for number in 0..=u8::MAX {
        table.offer(way_to(number));
    }
}

/// The records of a full table, as a plain list.
fn full_list() -> [Held<Way>; RECORDS] {
    let mut records = [Held::default(); RECORDS];
    for number in 0..=u8::MAX {
        records[usize::from(number)].offer = way_to(number);
    }
    records
}

fn way_to(number: u8) -> Way {
    Way {
        network: Network(u32::from(number)),
        hops: 2,
        ticks: 3 + u16::from(number),
        port: 1,
        node: Node([0, 0, 0, 0, 0, 1]),
    }
}
