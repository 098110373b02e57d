//! How long a route to a network that is gone may last while other things happen.

use crate::same::same;
use ipx_internet::{Internet, Settled};
use ipx_router::{Event, Port, PortFault, Router};
use ipx_wire::{Network, Node};
use std::alloc::Global;
use std::test::Fail;

type Row = Internet<2, 50, 8>;

/// As many routers as a route has numbers of hops, 0 to 15.
const ROUTERS: usize = 16;

/// The last of them.
const LAST: usize = 15;

/// The seconds that a record lasts.
const LIFETIME: usize = 180;

/// A response on network 100 from node AA that says that network 99 is no hop away.
const WAY: [u8; 40] = [
    0xFF, 0xFF, 0, 40, 0, 1, 0, 0, 1, 0, 0xFF, 0xFF, 0xFF, 0xFF, 0xFF, 0xFF, 4, 0x53, 0, 0, 1, 0,
    0, 0, 0, 0, 0, 0xAA, 4, 0x53, 0, 2, 0, 0, 0, 0x99, 0, 0, 0, 2,
];

/// A port of a network with this number, whose node ends so.
fn port(network: u32, node: u8) -> Result<Port, PortFault> {
    Port::new(Network(network), Node([0, 0, 0, 0, 0, node]), 1, 576)
}

/// Hands out all that waits.
fn settled(internet: &mut Row) -> Result<(), Fail> {
    match internet.settle(10_000)? {
        Settled::Quiet => Ok(()),
        Settled::Left(_) => Err(Fail::new("something waits")),
    }
}

/// Sixteen routers in a row, on networks 100 to 110, that were started.
fn row(heap: Global) -> Result<Row, Fail> {
    let mut internet = Row::new(heap);
    let mut network = 0x100u32;
    for number in 0..ROUTERS {
        let first = port(network, 1)?;
        network = network.wrapping_add(1);
        let second = port(network, 2)?;
        let router = Router::new(&[first, second])?;
        if let Err(refused) = internet.add(router) {
            return Err(Fail::from(refused.fault));
        }
        internet.event(number, Event::Start)?;
    }
    Ok(internet)
}

/// The row, where the first router has just heard of network 99, and each port to the next router is down.
fn told(heap: Global) -> Result<Row, Fail> {
    let mut internet = row(heap)?;
    for number in 0..ROUTERS {
        internet.event(number, Event::PortDown { port: 1 })?;
    }
    settled(&mut internet)?;
    let way = Event::Packet {
        port: 0,
        bytes: &WAY,
    };
    internet.event(0, way)?;
    settled(&mut internet)?;
    Ok(internet)
}

/// A second of each router but this one, and all that waits.
fn seconds(internet: &mut Row, but: usize) -> Result<(), Fail> {
    for number in 0..ROUTERS {
        if number != but {
            internet.event(number, Event::Second)?;
        }
    }
    settled(internet)
}

/// Before this router has its second, its port to the next one comes up for a moment: it advertises there what it has.
fn told_at_last(internet: &mut Row, number: usize) -> Result<(), Fail> {
    internet.event(number, Event::PortUp { port: 1 })?;
    settled(internet)?;
    internet.event(number, Event::PortDown { port: 1 })?;
    internet.event(number, Event::Second)?;
    settled(internet)
}

/// As many ticks as a record stands once it was heard.
fn lifetime(internet: &mut Row) -> Result<(), Fail> {
    for _ in 1..LIFETIME {
        seconds(internet, ROUTERS)?;
    }
    Ok(())
}

/// The hops and age of a router's route to network 99.
fn route(router: &Router<2, 50, 8>) -> Option<(u16, u8)> {
    for held in router.iter_routes() {
        if held.offer.network == Network(0x99) {
            return Some((held.offer.hops, held.age));
        }
    }
    None
}

/// How many routers have such a route, and the last of them, with its hops and age.
fn holders(internet: &Row) -> (usize, Option<(usize, u16, u8)>) {
    let mut count = 0usize;
    let mut last = None;
    for number in 0..ROUTERS {
        if let Some((hops, age)) = internet.router(number).and_then(route) {
            count = count.wrapping_add(1);
            last = Some((number, hops, age));
        }
    }
    (count, last)
}

/// The bound of `laws::gone_meanwhile` is met: each router tells the next one of its route in the last moment.
#[test]
fn a_route_to_what_is_gone_lasts_2879_busy_ticks(rt: HostRuntime) -> Result<(), Fail> {
    let mut internet = told(rt.alloc())?;
    same(&rt, holders(&internet), (1, Some((0, 0, 0))));
    let mut hops = 0u16;
    for number in 0..LAST {
        lifetime(&mut internet)?;
        same(&rt, holders(&internet), (1, Some((number, hops, 179))));
        seconds(&mut internet, number)?;
        told_at_last(&mut internet, number)?;
        hops = hops.wrapping_add(1);
    }
    lifetime(&mut internet)?;
    same(&rt, holders(&internet), (1, Some((LAST, 15, 179))));
    seconds(&mut internet, ROUTERS)?;
    same(&rt, holders(&internet), (0, None));
    Ok(())
}
