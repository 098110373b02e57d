//! The router: which ports make one, what it learns and advertises, and room in an outbox.

use crate::same::same;
use ipx_router::{Event, Outbox, Outcome, Port, PortFault, PortsFault, RouteOffer, Router};
use ipx_table::Held;
use ipx_wire::{Network, Node};
use std::test::Fail;

const NODE: Node = Node([0, 0, 0, 0, 0, 1]);

/// A port of a network with this number, whose values are good.
fn port(network: u32) -> Result<Port, PortFault> {
    Port::new(Network(network), NODE, 1, 576)
}

/// Why these ports make no router.
fn fault_of(ports: &[Port]) -> Option<PortsFault> {
    Router::<2, 50, 8>::new(ports).err()
}

#[test]
fn the_first_fault_of_ports_is_reported(rt: HostRuntime) -> Result<(), Fail> {
    let one = port(0x10)?;
    let two = port(0x20)?;
    same(&rt, fault_of(&[]), Some(PortsFault::NoPort));
    same(&rt, fault_of(&[one, one, one]), Some(PortsFault::TooMany));
    same(&rt, fault_of(&[one, two, two]), Some(PortsFault::TooMany));
    same(&rt, fault_of(&[one, one]), Some(PortsFault::SameNetwork));
    same(&rt, fault_of(&[one, two]), None);
    same(&rt, fault_of(&[two]), None);
    Ok(())
}

#[test]
fn a_router_has_the_ports_that_it_is_made_of(rt: HostRuntime) -> Result<(), Fail> {
    let one = port(0x10)?;
    let two = port(0x20)?;
    for ports in [&[one, two] as &[Port], &[two]] {
        let router = Router::<2, 50, 8>::new(ports)?;
        assert!(rt; router.has_port(0) && !router.has_port(2) && !router.has_port(255));
        same(&rt, router.has_port(1), ports.len() == 2);
        same(&rt, router.routes(), 0);
    }
    Ok(())
}

/// A response from node AA on network 10: networks 33 of 16 hops, 31, 30, 30 again and 32.
const RESPONSE: [u8; 72] = [
    0xFF, 0xFF, 0, 72, 0, 1, 0, 0, 0, 0x10, 0xFF, 0xFF, 0xFF, 0xFF, 0xFF, 0xFF, 4, 0x53, 0, 0, 0,
    0x10, 0, 0, 0, 0, 0, 0xAA, 4, 0x53, 0, 2, 0, 0, 0, 0x33, 0, 16, 0, 2, 0, 0, 0, 0x31, 0, 3, 0,
    4, 0, 0, 0, 0x30, 0, 1, 0, 2, 0, 0, 0, 0x30, 0, 5, 0, 6, 0, 0, 0, 0x32, 0, 7, 0, 8,
];

/// A router of two ports with room for two routes, before its start.
fn small() -> Result<Router<2, 2, 2>, Fail> {
    let first = port(0x10)?;
    let second = port(0x20)?;
    Ok(Router::new(&[first, second])?)
}

/// What becomes of that response on port 0.
fn hear(router: &mut Router<2, 2, 2>, outbox: &mut Outbox) -> Result<Outcome, Fail> {
    if !router.has_port(0) {
        return Err(Fail::new("no such port"));
    }
    let response = Event::Packet {
        port: 0,
        bytes: &RESPONSE,
    };
    Ok(router.step(response, outbox)?)
}

#[test]
fn what_a_neighbour_advertises_is_kept_and_passed_on(rt: HostRuntime) -> Result<(), Fail> {
    let mut router = small()?;
    let mut outbox = Outbox::new(rt.alloc());
    hear(&mut router, &mut outbox)?;
    router.step(Event::Start, &mut outbox)?;
    same(&rt, hear(&mut router, &mut outbox)?, Outcome::Learned);
    assert!(rt; outbox.len() == 7);
    let sent = outbox.get(6);
    same(&rt, (sent.port, sent.link), (1, Node::BROADCAST));
    assert!(rt; sent.bytes.len() == 48);
    let entries = [0, 0, 0, 0x30, 0, 6, 0, 7, 0, 0, 0, 0x31, 0, 4, 0, 5];
    same(&rt, &sent.bytes[32..], entries.as_slice());
    outbox.clear();
    same(&rt, outbox.len(), 0);
    same(&rt, hear(&mut router, &mut outbox)?, Outcome::Learned);
    assert!(rt; outbox.is_empty());
    same(&rt, router.routes(), 2);
    let held = Held {
        offer: RouteOffer {
            network: Network(0x31),
            hops: 3,
            ticks: 4,
            port: 0,
            node: Node([0, 0, 0, 0, 0, 0xAA]),
        },
        age: 0,
    };
    same(&rt, router.route_at(1), Some(held));
    same(&rt, router.route_at(2), None);
    same(&rt, router.route(Network(0x31)), Some(held));
    same(&rt, router.route(Network(0x32)), None);
    Ok(())
}

#[test]
fn an_event_needs_room_for_the_most_that_it_may_send(rt: HostRuntime) -> Result<(), Fail> {
    let first = port(0x10)?;
    let second = port(0x20)?;
    let mut router = Router::<2, 50, 8>::new(&[first, second])?;
    let mut outbox = Outbox::new(rt.alloc());
    let start = router.need(&Event::Start);
    same(&rt, (start.packets, start.bytes), (6, 2880));
    assert!(rt; !outbox.has_room(start));
    outbox.reserve(start)?;
    assert!(rt; outbox.has_room(start));
    let started = router.handle(Event::Start, &mut outbox);
    same(&rt, started, Outcome::Started);
    same(&rt, outbox.len(), 6);
    let again = router.step(Event::Start, &mut outbox)?;
    same(&rt, again, Outcome::AlreadyRunning);
    same(&rt, outbox.len(), 6);
    let second = router.need(&Event::Second);
    same(&rt, (second.packets, second.bytes), (2, 960));
    outbox.clear();
    assert!(rt; outbox.has_room(start));
    Ok(())
}
