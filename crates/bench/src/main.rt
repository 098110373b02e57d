//! How fast packets are read and written, beside copying the same bytes in the same run; and how fast a
//! full table is called, beside reading its records in the same run; and how a router takes events as its table of routes grows,
//! and how a table grows beside an ordered map; and how fast a capture is shown, beside copying its file; and how fast internets settle
//! and a packet is traced, in larger and larger ones; and how fast a tunnel with room for many clients is called, beside one with room
//! for few.
//!
//! With no word it prints what it can measure; with the word `run` it measures, all or the part that a second word names:
//! packets, tables, growth, captures, internets or tunnels. A copy is what any
//! program must at least do with a packet, and a reading with records that age, so the ratios hold on
//! any machine. With the word `play` it plays an internet and prints how it ends: `dev/plain_speed` plays one of plain routers beside it,
//! and measures a router's events beside those of a plain one.
#![tactic(auto)]

mod captures;
mod growth;
mod internets;
mod jumping;
mod kinds;
mod maps;
mod packets;
mod played;
mod stepped;
mod tables;
mod traffic;
mod tunnels;
mod work;

use crate::captures::measure_decode;
use crate::growth::{Grown, measure_grown};
use crate::kinds::{Kind, measure_kind};
use crate::maps::{Kept, measure_kept};
use crate::packets::Packets;
use crate::played::Played;
use crate::tables::{CALLS, Call, RECORDS};
use crate::tunnels::Kind as Called;
use std::{env, fmt, io};

/// How many packets of a kind are read or written.
const TURNS: u32 = 1_000_000;

fn main(rt: HostRuntime) -> io::Result<()> {
    let mut words = env::args(&rt)?.skip(1);
    match words.next() {
        Some(word) if word.as_str() == "run" => measure(&rt, &words.next()),
        Some(word) if word.as_str() == "play" => report_played(&rt),
        _ => list(&rt),
    }
}

fn list(rt: &HostRuntime) -> io::Result<()> {
    list_packets(rt)?;
    list_calls(rt)?;
    list_grown(rt)?;
    list_kept(rt)?;
    list_sizes(rt)?;
    let records = u64::from(captures::RECORDS);
    list_one(rt, "show a capture", records, "records")?;
    let rings = internets::RINGS.len() as u64;
    list_one(rt, "settle a ring, trace a packet", rings, "rings")?;
    let routers = u64::from(played::ROUTERS);
    list_one(rt, "play an internet", routers, "routers")?;
    list_rooms(rt)
}

fn list_packets(rt: &HostRuntime) -> io::Result<()> {
    for kind in Kind::ALL {
        list_one(
            rt,
            kind.name(),
            u64::from(kind.entries()),
            "entries a packet",
        )?;
    }
    Ok(())
}

fn list_calls(rt: &HostRuntime) -> io::Result<()> {
    for call in Call::ALL {
        list_one(rt, call.name(), RECORDS as u64, "records")?;
    }
    Ok(())
}

fn list_grown(rt: &HostRuntime) -> io::Result<()> {
    for kind in Grown::ALL {
        list_one(rt, kind.name(), 8, "ports, of each size")?;
    }
    Ok(())
}

fn list_kept(rt: &HostRuntime) -> io::Result<()> {
    for call in Kept::ALL {
        let name = call.name();
        println!(rt; "{name}: in a table and in an ordered map, of each size")?;
    }
    Ok(())
}

fn list_rooms(rt: &HostRuntime) -> io::Result<()> {
    for kind in Called::ALL {
        list_one(rt, kind.name(), u64::from(tunnels::CLIENTS), "clients")?;
    }
    Ok(())
}

fn list_sizes(rt: &HostRuntime) -> io::Result<()> {
    for routes in growth::SIZES {
        list_one(rt, "a size", u64::from(routes), "routes or records")?;
    }
    Ok(())
}

/// What is measured, and on how many of what.
fn list_one(rt: &HostRuntime, name: &str, number: u64, what: &str) -> io::Result<()> {
    println!(rt; "{name}: {number} {what}")
}

/// Measures the part of that name, or all parts where none is named.
fn measure(rt: &HostRuntime, part: &Option<String>) -> io::Result<()> {
    let packets = Packets::new();
    if is_wanted(part, "packets") {
        report_packets(rt, &packets)?;
    }
    if is_wanted(part, "tables") {
        report_calls(rt)?;
    }
    if is_wanted(part, "growth") {
        report_growth(rt)?;
        report_maps(rt)?;
    }
    if is_wanted(part, "captures") {
        report_capture(rt, &packets)?;
    }
    if is_wanted(part, "internets") {
        report_internets(rt)?;
    }
    if is_wanted(part, "tunnels") {
        report_rooms(rt)?;
    }
    Ok(())
}

fn is_wanted(part: &Option<String>, name: &str) -> bool {
    match part {
        Some(part) => part.as_str() == name,
        None => true,
    }
}

fn report_packets(rt: &HostRuntime, packets: &Packets) -> io::Result<()> {
    for kind in Kind::ALL {
        report(rt, kind, packets)?;
    }
    Ok(())
}

fn report(rt: &HostRuntime, kind: Kind, packets: &Packets) -> io::Result<()> {
    let timed = measure_kind(rt, kind, packets, TURNS)?;
    let name = kind.name();
    let packet = ratio(timed.work, u128::from(TURNS));
    let entry = Tenths(packet.0 / u128::from(kind.entries().max(1)));
    let copies = ratio(timed.work, timed.copy);
    let mark = timed.seen % 10;
    println!(rt; "{name}: {packet} ns a packet, {entry} ns an entry, {copies} copies ({mark})")
}

fn report_calls(rt: &HostRuntime) -> io::Result<()> {
    for call in Call::ALL {
        report_call(rt, call)?;
    }
    Ok(())
}

fn report_call(rt: &HostRuntime, call: Call) -> io::Result<()> {
    let timed = tables::measure_call(rt, call)?;
    let name = call.name();
    let each = ratio(timed.calls, u128::from(CALLS));
    let readings = ratio(timed.calls, timed.readings);
    let mark = timed.seen % 10;
    println!(rt; "{name}: {each} ns a call, {readings} readings of {RECORDS} records ({mark})")
}

fn report_growth(rt: &HostRuntime) -> io::Result<()> {
    for kind in Grown::ALL {
        for routes in growth::SIZES {
            report_grown(rt, kind, routes)?;
        }
    }
    Ok(())
}

fn report_maps(rt: &HostRuntime) -> io::Result<()> {
    for call in Kept::ALL {
        for records in growth::SIZES {
            report_kept(rt, call, records)?;
        }
    }
    Ok(())
}

fn report_grown(rt: &HostRuntime, kind: Grown, routes: u32) -> io::Result<()> {
    let timed = measure_grown(rt, kind, routes)?;
    let name = kind.name();
    let each = ratio(timed.nanoseconds, u128::from(timed.count));
    let mark = timed.seen % 10;
    println!(rt; "{name}: {each} ns, {routes} routes ({mark})")
}

fn report_kept(rt: &HostRuntime, call: Kept, records: u32) -> io::Result<()> {
    let timed = measure_kept(rt, call, records)?;
    let name = call.name();
    let each = ratio(timed.table, u128::from(timed.count));
    let map = ratio(timed.map, u128::from(timed.count));
    let mark = timed.seen % 10;
    println!(rt; "{name}: table {each} ns, ordered map {map} ns, {records} records ({mark})")
}

fn report_capture(rt: &HostRuntime, packets: &Packets) -> io::Result<()> {
    let timed = measure_decode(rt, packets)?;
    let microseconds = (timed.show / 1000).max(1);
    let records = u128::from(captures::RECORDS) * 1_000_000 / microseconds;
    let megabytes = u128::from(timed.bytes) / microseconds;
    let copies = ratio(timed.show, timed.copy);
    println!(rt;
        "show a capture: {records} records a second, {megabytes} megabytes a second, {copies} copies of the file"
    )
}

fn report_internets(rt: &HostRuntime) -> io::Result<()> {
    for routers in internets::RINGS {
        let timed = internets::measure_ring(rt, routers)?;
        let each = ratio(timed.nanoseconds, u128::from(timed.count));
        let count = timed.count;
        println!(rt; "settle a ring of {routers} routers: {each} ns a delivery of {count}")?;
    }
    let timed = internets::measure_trace(rt)?;
    let each = ratio(timed.nanoseconds, u128::from(timed.count));
    let count = timed.count;
    println!(rt; "trace a packet: {each} ns a reception of {count}")
}

/// Plays an internet, and prints how long it took and how its routers end.
fn report_played(rt: &HostRuntime) -> io::Result<()> {
    let played = played::measure_played(rt)?;
    let milliseconds = ratio(played.nanoseconds, 1_000_000);
    let (routers, seconds, receptions) = (played::ROUTERS, played::SECONDS, played.receptions);
    println!(rt;
        "play {routers} routers for {seconds} seconds: {milliseconds} ms, {receptions} receptions"
    )?;
    for number in 0..played::ROUTERS {
        report_router(rt, &played, number)?;
    }
    Ok(())
}

/// The routes of a router in the end, and how many services it has.
fn report_router(rt: &HostRuntime, played: &Played, number: u32) -> io::Result<()> {
    let Some(router) = played.internet.router(number as usize) else {
        return Ok(());
    };
    let services = router.services();
    println!(rt; "router {number}: {services} services")?;
    for place in 0..router.routes() {
        if let Some(held) = router.route_at(place) {
            let way = held.offer;
            let (network, hops, ticks, port, node) = (
                way.network,
                way.hops,
                way.ticks,
                way.port,
                way.node,
            );
            println!(rt; "route {network} {hops} {ticks} {port} {node}")?;
        }
    }
    Ok(())
}

fn report_rooms(rt: &HostRuntime) -> io::Result<()> {
    for kind in Called::ALL {
        let timed = tunnels::measure_rooms(rt, kind)?;
        let name = kind.name();
        let count = u128::from(timed.count);
        let (large, small) = (ratio(timed.large, count), ratio(timed.small, count));
        let (room, clients) = (tunnels::LARGE, tunnels::CLIENTS);
        let mark = timed.seen % 10;
        println!(rt;
            "{name}: {large} ns with room for {room}, {small} ns with room for {clients} ({mark})"
        )?;
    }
    Ok(())
}

/// A number of tenths, shown with a point.
#[derive(Clone, Copy)]
struct Tenths(u128);

/// Nanoseconds divided by what they are counted by, which is 1 at least.
fn ratio(nanoseconds: u128, by: u128) -> Tenths {
    Tenths(nanoseconds.wrapping_mul(10) / by.max(1))
}

impl fmt::Display for Tenths {
    fn fmt<W: fmt::Write>(&self, f: &mut fmt::Formatter<W>) -> fmt::Result {
        let (whole, tenth) = (self.0 / 10, self.0 % 10);
        write!(f, "{whole}.{tenth}")
    }
}
