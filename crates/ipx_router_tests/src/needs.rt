//! The room that an event may take, and packets that are only sent on.

use crate::same::same;
use crate::watched::{A, B, Watched, entry, fifty, node, on};
use ipx_router::{Event, Need, Outcome};
use ipx_wire::{Network, Node, Operation, Packet, RipEntry, Socket, write_rip};
use std::test::Fail;

/// Neighbour A's request for all routes.
fn request() -> [u8; 40] {
    let all = RipEntry {
        network: Network::ALL_ROUTES,
        hops: 0xFFFF,
        ticks: 0xFFFF,
    };
    let from = on(0, node(A), Socket::RIP);
    let to = on(0, Node::BROADCAST, Socket::RIP);
    let mut bytes = [0; 40];
    write_rip(from, to, Operation::Request, &[all], &mut bytes);
    bytes
}

/// A packet of type 20 on port 0, which has crossed no network.
fn propagated() -> [u8; 62] {
    let mut bytes = [0; 62];
    bytes[..40].copy_from_slice(&request());
    bytes[3] = 62;
    bytes[5] = 20;
    bytes[30..40].fill(0);
    bytes
}

#[test]
fn one_route_needs_one_page(rt: HostRuntime) -> Result<(), Fail> {
    let mut watched = Watched::started(rt.alloc())?;
    let request = Event::Packet {
        port: 0,
        bytes: &request(),
    };
    let two = Need {
        packets: 2,
        bytes: 960,
    };
    same(&rt, watched.router.need(&request), two);
    watched.hear(1, B, &[entry(0x30, 1, 2)])?;
    same(&rt, watched.router.need(&request), two);
    same(&rt, watched.router.need(&Event::Second), two);
    let up = watched.router.need(&Event::PortUp { port: 1 });
    same(&rt, (up.packets, up.bytes), (4, 1920));
    let down = watched.router.need(&Event::PortDown { port: 1 });
    same(&rt, (down.packets, down.bytes), (1, 480));
    Ok(())
}

#[test]
fn relaying_alone_hears_nothing(rt: HostRuntime) -> Result<(), Fail> {
    let mut watched = Watched::started(rt.alloc())?;
    watched.outbox.clear();
    for (bytes, outcome, sent) in [
        (&request() as &[u8], Outcome::Local, None),
        (&propagated(), Outcome::Propagated, Some((1, 62))),
    ] {
        let packet = Packet::read(bytes)?;
        let need = watched.router.relay_need(&packet);
        same(&rt, (need.packets, need.bytes), (1, bytes.len()));
        watched.outbox.reserve(need)?;
        assert!(rt; watched.router.has_port(0));
        let relayed = watched.router.relay(0, &packet, &mut watched.outbox);
        same(&rt, relayed, outcome);
        same(&rt, watched.sent(0), sent);
    }
    Ok(())
}

#[test]
fn one_room_is_enough_for_every_event(rt: HostRuntime) -> Result<(), Fail> {
    let mut watched = Watched::started(rt.alloc())?;
    watched.outbox.clear();
    let most = watched.router.most_need(1500);
    // Two pages of routes and two of services on each port; a packet has at most two, each of 1,500 bytes.
    same(&rt, (most.packets, most.bytes), (8, 3840));
    same(&rt, watched.router.most_need(65535).bytes, 131_070);
    watched.outbox.reserve(most)?;
    for first in [0x100, 0x200, 0x300] {
        watched.hear(1, B, &fifty(first))?;
        for _ in 0..60 {
            watched.second()?;
            watched.outbox.clear();
            assert!(rt; watched.outbox.has_room(most));
        }
    }
    // The first fifty filled the table, so the others were refused; in the 180th second they expired.
    same(&rt, watched.router.routes(), 0);
    Ok(())
}

#[test]
fn routes_and_services_come_one_by_one(rt: HostRuntime) -> Result<(), Fail> {
    let mut watched = Watched::started(rt.alloc())?;
    watched.hear(1, B, &[entry(0x31, 1, 2), entry(0x30, 1, 2)])?;
    watched.second()?;
    let mut routes = 0u32;
    for held in watched.router.iter_routes() {
        same(&rt, (held.offer.network.0 & !1, held.age), (0x30, 1));
        routes = routes.wrapping_mul(256).wrapping_add(held.offer.network.0);
    }
    same(&rt, routes, 0x3031);
    assert!(rt; watched.router.iter_services().next().is_none());
    Ok(())
}

#[test]
fn ports_and_packets_come_one_by_one(rt: HostRuntime) -> Result<(), Fail> {
    let mut watched = Watched::started(rt.alloc())?;
    let mut networks = 0u32;
    for port in watched.router.iter_ports() {
        networks = networks.wrapping_mul(256).wrapping_add(port.network().0);
    }
    same(&rt, networks, 0x1020);
    watched.hear(1, B, &[entry(0x31, 1, 2), entry(0x30, 1, 2)])?;
    watched.packet(0, &request())?;
    let mut sent = 0usize;
    for packet in &watched.outbox {
        same(&rt, (packet.port, packet.link), (0, node(A)));
        sent = sent.wrapping_add(packet.bytes.len());
    }
    same(&rt, sent, 56);
    Ok(())
}
