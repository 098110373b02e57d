//! Internets: deliveries one by one, where a packet gets to, and what is refused.

mod first_packet;
mod lasting;
mod memory;

use crate::internet::memory::{added, happened, settled};
use crate::same::same;
use ipx_internet::{Internet, InternetFault, Settled, Trace, TraceFault};
use ipx_router::{Event, Outcome, Port, PortFault, Router};
use ipx_wire::{Network, Node};
use std::alloc::Global;
use std::test::Fail;

type Small = Internet<2, 50, 8>;

/// A port of a network with this number, whose node ends so.
fn port(network: u32, node: u8) -> Result<Port, PortFault> {
    Port::new(Network(network), Node([0, 0, 0, 0, 0, node]), 1, 576)
}

/// A router on two networks: of each port the number of the network, and how the node ends.
fn between(west: (u32, u8), east: (u32, u8)) -> Result<Router<2, 50, 8>, Fail> {
    let first = port(west.0, west.1)?;
    let second = port(east.0, east.1)?;
    Ok(Router::new(&[first, second])?)
}

/// Adds a router on two networks, and tells its number.
fn joined(internet: &mut Small, west: (u32, u8), east: (u32, u8)) -> Result<usize, Fail> {
    added(internet, between(west, east)?)
}

/// Networks 10, 20 and 30 in a line: routers 0 and 1 meet on network 20. Both are started, and nothing has settled.
fn line(heap: Global) -> Result<Small, Fail> {
    let mut internet = Small::new(heap);
    joined(&mut internet, (0x10, 1), (0x20, 2))?;
    joined(&mut internet, (0x20, 3), (0x30, 4))?;
    happened(&mut internet, 0, Event::Start)?;
    happened(&mut internet, 1, Event::Start)?;
    Ok(internet)
}

/// The network, hops and age of the first route of a router.
fn first_route(internet: &Small, number: usize) -> Option<(u32, u16, u8)> {
    let held = internet.router(number)?.route_at(0)?;
    Some((held.offer.network.0, held.offer.hops, held.age))
}

/// How many routers there are, how much waits, and what it weighs.
fn counts(internet: &Small) -> (usize, usize, usize) {
    (
        internet.len(),
        internet.waiting(),
        internet.most_deliveries(),
    )
}

/// What is told where so many deliveries are handed out.
fn handed_out(internet: &mut Small, limit: usize) -> Result<Settled, InternetFault> {
    internet.settle(limit)
}

#[test]
fn two_routers_learn_each_other_delivery_by_delivery(rt: HostRuntime) -> Result<(), Fail> {
    let mut internet = line(rt.alloc())?;
    same(&rt, counts(&internet), (2, 6, 3614));
    same(&rt, handed_out(&mut internet, 0), Ok(Settled::Left(6)));
    same(&rt, handed_out(&mut internet, 1), Ok(Settled::Left(5)));
    same(&rt, first_route(&internet, 0), None);
    same(&rt, first_route(&internet, 1), Some((0x10, 1, 0)));
    same(&rt, handed_out(&mut internet, 6), Ok(Settled::Left(1)));
    same(&rt, handed_out(&mut internet, 100), Ok(Settled::Quiet));
    same(&rt, counts(&internet), (2, 0, 2));
    same(&rt, handed_out(&mut internet, 1), Ok(Settled::Quiet));
    same(&rt, first_route(&internet, 0), Some((0x30, 1, 0)));
    Ok(())
}

#[test]
fn what_an_internet_weighs_is_a_limit_that_leaves_nothing(rt: HostRuntime) -> Result<(), Fail> {
    let mut internet = line(rt.alloc())?;
    let (_, _, most) = counts(&internet);
    same(&rt, handed_out(&mut internet, most), Ok(Settled::Quiet));
    happened(&mut internet, 0, Event::PortDown { port: 0 })?;
    let (_, _, most) = counts(&internet);
    same(&rt, most, 3);
    same(&rt, handed_out(&mut internet, most), Ok(Settled::Quiet));
    Ok(())
}

#[test]
fn an_internet_that_weighs_more_than_a_word_tells_the_greatest(
    rt: HostRuntime,
) -> Result<(), Fail> {
    let mut internet = Small::new(rt.alloc());
    for number in 1..=24 {
        let own = u32::from(number) + 0x100;
        joined(&mut internet, (0x10, number), (own, 1))?;
    }
    same(&rt, counts(&internet), (24, 0, 0));
    happened(&mut internet, 0, Event::Start)?;
    same(&rt, counts(&internet), (24, 69, usize::MAX));
    settled(&mut internet)?;
    same(&rt, counts(&internet), (24, 0, 0));
    Ok(())
}

#[test]
fn an_internet_without_routers_weighs_nothing(rt: HostRuntime) -> Result<(), Fail> {
    let mut internet = Small::new(rt.alloc());
    same(&rt, counts(&internet), (0, 0, 0));
    same(&rt, handed_out(&mut internet, 0), Ok(Settled::Quiet));
    Ok(())
}

/// A packet from node AA on network 10 to node CC on network 99.
const FAR: [u8; 30] = [
    0xFF, 0xFF, 0, 30, 0, 0, 0, 0, 0, 0x99, 0, 0, 0, 0, 0, 0xCC, 0x40, 3, 0, 0, 0, 0x10, 0, 0, 0,
    0, 0, 0xAA, 0x40, 3,
];

/// A response on network 20 from node 0, which the caller sets, that offers a way to network 99 at one hop.
const WAY: [u8; 40] = [
    0xFF, 0xFF, 0, 40, 0, 1, 0, 0, 0, 0x20, 0xFF, 0xFF, 0xFF, 0xFF, 0xFF, 0xFF, 4, 0x53, 0, 0, 0,
    0x20, 0, 0, 0, 0, 0, 0, 4, 0x53, 0, 2, 0, 0, 0, 0x99, 0, 1, 0, 2,
];

/// The line, settled, where each router holds the other for its way to network 99.
fn looped(heap: Global) -> Result<Small, Fail> {
    let mut internet = line(heap)?;
    settled(&mut internet)?;
    for (number, port, neighbour) in [(0, 1, 3), (1, 0, 2)] {
        let mut bytes = WAY;
        bytes[27] = neighbour;
        let way = Event::Packet {
            port,
            bytes: &bytes,
        };
        happened(&mut internet, number, way)?;
    }
    Ok(internet)
}

/// The parent of a reception, its router and the packet's transport control, and what became of it.
type Row = (Option<usize>, usize, Option<u8>, Outcome);

fn row(trace: &Trace<'_>, number: usize) -> Option<Row> {
    if number < trace.len() {
        let it = trace.get(number);
        Some((it.parent, it.router, it.bytes.get(4).copied(), it.outcome))
    } else {
        None
    }
}

#[test]
fn receptions_come_one_by_one(rt: HostRuntime) -> Result<(), Fail> {
    let internet = looped(rt.alloc())?;
    let trace = internet.trace(0, 0, &FAR, 17)?;
    let mut next = 0usize;
    for it in trace.iter() {
        same(&rt, (it.parent, it.router), (next.checked_sub(1), next % 2));
        next = next.wrapping_add(1);
    }
    same(&rt, next, 17);
    Ok(())
}

#[test]
fn the_longest_packet_is_traced(rt: HostRuntime) -> Result<(), Fail> {
    let internet = looped(rt.alloc())?;
    let mut bytes = [0u8; 65_535];
    bytes[..FAR.len()].copy_from_slice(&FAR);
    bytes[2] = 0xFF;
    bytes[3] = 0xFF;
    let trace = internet.trace(0, 0, &bytes, 17)?;
    same(&rt, trace.len(), 1);
    Ok(())
}

/// A port that the longest packets pass.
fn wide(network: u32, node: u8) -> Result<Port, PortFault> {
    Port::new(Network(network), Node([0, 0, 0, 0, 0, node]), 1, 65_535)
}

/// The line of routers 0 and 1 once more, settled, where the longest packets pass.
fn wide_line(heap: Global) -> Result<Small, Fail> {
    let mut internet = Small::new(heap);
    for (west, east) in [(0x10, 0x20), (0x20, 0x30)] as [(u8, u8); 2] {
        let first = wide(u32::from(west), west + 1)?;
        let second = wide(u32::from(east), east + 2)?;
        added(&mut internet, Router::new(&[first, second])?)?;
    }
    happened(&mut internet, 0, Event::Start)?;
    happened(&mut internet, 1, Event::Start)?;
    settled(&mut internet)?;
    Ok(internet)
}

#[test]
fn the_longest_packet_is_kept_for_the_next_router(rt: HostRuntime) -> Result<(), Fail> {
    let internet = wide_line(rt.alloc())?;
    let mut bytes = [7u8; 65_535];
    bytes[..FAR.len()].copy_from_slice(&FAR);
    bytes[2] = 0xFF;
    bytes[3] = 0xFF;
    bytes[9] = 0x30;
    let trace = internet.trace(0, 0, &bytes, 17)?;
    same(&rt, trace.len(), 2);
    for it in trace.iter() {
        same(&rt, it.outcome, Outcome::Forwarded);
        same(&rt, it.bytes.len(), 65_535);
        same(&rt, it.bytes.last().copied(), Some(7));
    }
    Ok(())
}

#[test]
fn a_high_limit_takes_no_memory(rt: HostRuntime) -> Result<(), Fail> {
    let internet = looped(rt.alloc())?;
    let trace = internet.trace(0, 0, &FAR, usize::MAX)?;
    same(&rt, trace.len(), 17);
    Ok(())
}

#[test]
fn routers_come_one_by_one(rt: HostRuntime) -> Result<(), Fail> {
    let internet = looped(rt.alloc())?;
    let mut routes = 0usize;
    for router in internet.iter() {
        routes = routes.wrapping_mul(10).wrapping_add(router.routes());
    }
    // Each has learned the other's far network, and the one behind the loop.
    same(&rt, routes, 22);
    Ok(())
}

#[test]
fn what_is_not_there_is_refused(rt: HostRuntime) -> Result<(), Fail> {
    let mut internet = line(rt.alloc())?;
    let missing = InternetFault::NoSuchPort;
    let down = Event::PortDown { port: 2 };
    same(&rt, internet.event(2, Event::Second), Err(missing));
    same(&rt, internet.event(1, down), Err(missing));
    same(&rt, internet.waiting(), 6);
    assert!(rt; internet.router(2).is_none());
    for (number, port) in [(2, 0), (0, 2)] {
        match internet.trace(number, port, &FAR, 0) {
            Ok(trace) => same(&rt, trace.is_empty(), true),
            Err(fault) => same(&rt, fault, TraceFault::NoSuchPort),
        }
    }
    Ok(())
}

#[test]
fn is_shown_by_its_routers_and_what_waits(rt: HostRuntime) -> Result<(), Fail> {
    let mut internet = line(rt.alloc())?;
    let shown = format!(in rt.alloc(); "{internet:?}")?;
    same(
        &rt,
        shown.as_str(),
        "Internet { routers: 2, waiting: 6, .. }",
    );
    Ok(())
}

#[test]
fn a_router_that_is_refused_is_shown_by_its_fault(rt: HostRuntime) -> Result<(), Fail> {
    let mut internet = line(rt.alloc())?;
    let refused = internet.add(between((0x10, 1), (0x40, 1))?).err();
    let shown = format!(in rt.alloc(); "{refused:?}")?;
    same(
        &rt,
        shown.as_str(),
        "Some(AddRefused { fault: SameNode, .. })",
    );
    Ok(())
}
