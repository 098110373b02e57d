//! What is done with a full table of offers as it grows, beside the same with an ordered map of the library, whose key is the network.
//!
//! A table keeps its records in one sorted row: what a record less or more costs is the moving of all behind it. A map keeps them in a tree.
//! But the ages of a map's records stand in them, so a second writes each.
ghost use Rattle.std.specs.Prelude.{◌≤◌};

use crate::tables::Way;
use ipx_table::{Held, Table, Taken};
use ipx_wire::{Network, Node};
use std::alloc::Global;
use std::collections::BTreeMap;
use std::io::{self, ErrorKind};
use std::time::Instant;

/// A map of the same records.
type Map = BTreeMap<u32, Held<Way>>;

/// How many calls a block has, and how many blocks are timed. As seconds they are fewer than an offer lives, so nothing ends.
const TURNS: u32 = 60;

const BLOCKS: u32 = 100;

/// The multiples of this prime jump.
const STEP: u32 = 40_503;

/// What is done with a full table.
#[derive(Clone, Copy)]
pub enum Kept {
    LookUp,
    Exchange,
    Second,
}

impl Kept {
    pub const ALL: [Kept; 3] = [Kept::LookUp, Kept::Exchange, Kept::Second];

    pub fn name(self) -> &'static str {
        match self {
            Kept::LookUp => "look up one of many records",
            Kept::Exchange => "withdraw the record in the middle of many and admit it again",
            Kept::Second => "let a second pass over many records",
        }
    }
}

/// How long the fastest blocks took.
#[derive(Clone, Copy)]
pub struct Timed {
    /// How many calls a block has.
    pub count: u32,
    pub table: u128,
    pub map: u128,
    /// It depends on each call.
    pub seen: u64,
}

/// Calls a table and a map by turns, a block of each, and keeps the fastest of each.
pub fn measure_kept(rt: &HostRuntime, call: Kept, records: u32) -> io::Result<Timed> {
    match records {
        256 => measure::<256>(rt, call),
        2_048 => measure::<2_048>(rt, call),
        16_384 => measure::<16_384>(rt, call),
        _ => measure::<65_535>(rt, call),
    }
}

/// The largest tables have over a megabyte: only what measures them pays for their place on the stack.
#[inline(never)]
fn measure<const R: usize>(rt: &HostRuntime, call: Kept) -> io::Result<Timed>
    requires { R ≤ 65535 }
{
    let mut table = Table::<Way, R>::new();
    match full_map(rt.alloc(), R as u32) {
        Some(mut map) => fastest(rt, call, &mut table, &mut map),
        None => Err(ErrorKind::OutOfMemory.into()),
    }
}

/// Times one block after the other, and keeps the fastest of each. The table is filled before each, untimed.
fn fastest<const R: usize>(
    rt: &HostRuntime,
    call: Kept,
    table: &mut Table<Way, R>,
    map: &mut Map,
) -> io::Result<Timed>
    requires { R ≤ 65535 }
{
    let records = R as u32;
    let mut timed = Timed {
        count: TURNS,
        table: u128::MAX,
        map: u128::MAX,
        seen: 0,
    };
    for block in 0..BLOCKS {
        let first = block.wrapping_mul(TURNS);
        fill(table, records);
        let start = Instant::now(rt)?;
        let seen = of_table(call, table, records, first);
        timed.table = timed.table.min(start.elapsed(rt)?.as_nanos());
        let start = Instant::now(rt)?;
        let other = of_map(call, map, records, first);
        timed.map = timed.map.min(start.elapsed(rt)?.as_nanos());
        timed.seen = timed.seen.wrapping_add(seen).wrapping_add(other);
    }
    Ok(timed)
}

/// Calls a table as often as a block has calls, from that turn on.
fn of_table<const R: usize>(
    call: Kept,
    table: &mut Table<Way, R>,
    records: u32,
    first: u32,
) -> u64 {
    let mut seen = 0u64;
    for turn in 0..TURNS {
        let one = match call {
            Kept::LookUp => look_up(table, number_at(first.wrapping_add(turn), records)),
            Kept::Exchange => exchange(table, records / 2),
            Kept::Second => second(table),
        };
        seen = seen.wrapping_add(one);
    }
    seen
}

/// The same for a map.
fn of_map(call: Kept, map: &mut Map, records: u32, first: u32) -> u64 {
    let mut seen = 0u64;
    for turn in 0..TURNS {
        let one = match call {
            Kept::LookUp => look_up_in_map(map, number_at(first.wrapping_add(turn), records)),
            Kept::Exchange => exchange_in_map(map, records / 2),
            Kept::Second => second_of_map(map),
        };
        seen = seen.wrapping_add(one);
    }
    seen
}

fn look_up<const R: usize>(table: &Table<Way, R>, number: u32) -> u64 {
    match table.get(&Network(number)) {
        Some(held) => u64::from(held.age) + u64::from(held.offer.ticks),
        None => 0,
    }
}

fn look_up_in_map(map: &Map, number: u32) -> u64 {
    match map.get(&number) {
        Some(held) => u64::from(held.age).wrapping_add(u64::from(held.offer.ticks)),
        None => 0,
    }
}

/// Withdraws a network, and offers it again.
fn exchange<const R: usize>(table: &mut Table<Way, R>, number: u32) -> u64 {
    let way = way_to(number);
    let gone = table.offer(Way { hops: 16, ..way }) == Taken::Withdrawn;
    let back = table.offer(way) == Taken::Admitted;
    u64::from(gone) + u64::from(back)
}

/// A second that ends no record, as all are that are timed.
fn second<const R: usize>(table: &mut Table<Way, R>) -> u64 {
    if table.expires() {
        return 0;
    }
    table.pass();
    1
}

fn exchange_in_map(map: &mut Map, number: u32) -> u64 {
    let gone = map.remove(&number).is_some();
    let back = map.insert(number, held_of(number)).is_ok();
    u64::from(gone) + u64::from(back)
}

/// A second of a map: each record gets older, up to the age at which it would end.
fn second_of_map(map: &mut Map) -> u64 {
    let mut old = 0u64;
    for held in map.values_mut() {
        held.age = if held.age < 179 { held.age + 1 } else { 0 };
        old = old.wrapping_add(u64::from(held.age));
    }
    old
}

/// Offers a way to each network, so that each record is at age 0.
fn fill<const R: usize>(table: &mut Table<Way, R>, records: u32) {
    for number in 0..records {
        table.offer(way_to(number));
    }
}

fn full_map(heap: Global, records: u32) -> Option<Map> {
    let mut map = BTreeMap::new(heap);
    for number in 0..records {
        if map.insert(number, held_of(number)).is_err() {
            return None;
        }
    }
    Some(map)
}

fn held_of(number: u32) -> Held<Way> {
    Held {
        offer: way_to(number),
        age: 0,
    }
}

/// The network of a turn, in an order that jumps.
fn number_at(turn: u32, records: u32) -> u32 {
    turn.wrapping_mul(STEP) % records.max(1)
}

fn way_to(number: u32) -> Way {
    Way {
        network: Network(number),
        hops: 2,
        ticks: 3,
        port: 1,
        node: Node([0, 0, 0, 0, 0, 1]),
    }
}
