//! From switching on to the first packet: a client finds the nearest server and the way to it, and its packet gets there.
//!
//! `examples/first-packet.internet` plays the same story as a script, with a drawing of the networks. Each step names the law
//! of `ipx_laws` on which a program may rely there: the law holds of every internet, the step is one example.

use crate::internet::row;
use crate::same::same;
use ipx_internet::{Internet, Settled};
use ipx_router::{Event, Outcome, Port, PortFault, Router};
use ipx_wire::{Network, Node};
use std::alloc::Global;
use std::test::Fail;

type Five = Internet<3, 50, 8>;

/// The number of the server's own router, which joins its internal network F0 to network FA.
const F: usize = 0;

/// That of the router which joins FA to AB, and by a slow line to CA.
const A: usize = 1;

/// That of the router between AB and BC.
const B: usize = 2;

/// That of the clients' router, which joins BC and CA to their network C0.
const C: usize = 3;

/// How the node of a client on network C0 ends. What C sends to it leaves the internet.
const CLIENT: u8 = 0xCC;

/// The same of a second client. On its card is a router that is never started, so what is sent to it can be counted, and it does
/// nothing.
const COUNTED: u8 = 0xCD;

/// The minutes after which `everywhere` speaks of C: 2,880 ticks, and 60 for each of the three routers on the way.
const MINUTES: usize = 51;

/// The seconds in which the server announces itself once.
const MINUTE: usize = 60;

/// From node 1 on network F0 to all there: the file server (type 4) FILES is at F0.1.0451, no hop away.
const ANNOUNCEMENT: [u8; 96] = [
    0xFF, 0xFF, 0, 96, 0, 4, 0, 0, 0, 0xF0, 0xFF, 0xFF, 0xFF, 0xFF, 0xFF, 0xFF, 4, 0x52, 0, 0, 0,
    0xF0, 0, 0, 0, 0, 0, 1, 4, 0x52, 0, 2, 0, 4, 0x46, 0x49, 0x4C, 0x45, 0x53, 0, 0, 0, 0, 0, 0, 0,
    0, 0, 0, 0, 0, 0, 0, 0, 0, 0, 0, 0, 0, 0, 0, 0, 0, 0, 0, 0, 0, 0, 0, 0, 0, 0, 0, 0, 0, 0, 0, 0,
    0, 0, 0, 0, 0, 0, 0, 0xF0, 0, 0, 0, 0, 0, 1, 4, 0x51, 0, 0,
];

/// From a client to all on network C0: which file server is the nearest?
fn query(node: u8) -> [u8; 34] {
    [
        0xFF, 0xFF, 0, 34, 0, 4, 0, 0, 0, 0xC0, 0xFF, 0xFF, 0xFF, 0xFF, 0xFF, 0xFF, 4, 0x52, 0, 0,
        0, 0xC0, 0, 0, 0, 0, 0, node, 0x40, 3, 0, 3, 0, 4,
    ]
}

/// From a client to all on network C0: who has a way to network F0?
fn request(node: u8) -> [u8; 40] {
    [
        0xFF, 0xFF, 0, 40, 0, 1, 0, 0, 0, 0xC0, 0xFF, 0xFF, 0xFF, 0xFF, 0xFF, 0xFF, 4, 0x53, 0, 0,
        0, 0xC0, 0, 0, 0, 0, 0, node, 0x40, 2, 0, 1, 0, 0, 0, 0xF0, 0xFF, 0xFF, 0xFF, 0xFF,
    ]
}

/// The client's first packet to F0.1.0451.
const FIRST: [u8; 30] = [
    0xFF, 0xFF, 0, 30, 0, 17, 0, 0, 0, 0xF0, 0, 0, 0, 0, 0, 1, 4, 0x51, 0, 0, 0, 0xC0, 0, 0, 0, 0,
    0, 0xCC, 0x40, 3,
];

/// A port of a network with this number and cost, whose node ends so.
fn port(network: u32, node: u8, cost: u16) -> Result<Port, PortFault> {
    Port::new(Network(network), Node([0, 0, 0, 0, 0, node]), cost, 576)
}

/// Adds a router with these ports.
fn join(internet: &mut Five, ports: &[Port]) -> Result<(), Fail> {
    match internet.add(Router::new(ports)?) {
        Ok(_) => Ok(()),
        Err(refused) => Err(Fail::from(refused.fault)),
    }
}

/// F, A, B and C in a row; a slow line of 20 ticks joins A and C too. Behind C are the clients.
fn built(heap: Global) -> Result<Five, Fail> {
    let mut internet = Five::new(heap);
    join(&mut internet, &[port(0xF0, 0xF1, 1)?, port(0xFA, 0xF2, 1)?])?;
    let line = port(0xCA, 0xA3, 20)?;
    join(
        &mut internet,
        &[port(0xFA, 0xA1, 1)?, port(0xAB, 0xA2, 1)?, line],
    )?;
    join(&mut internet, &[port(0xAB, 0xB1, 1)?, port(0xBC, 0xB2, 1)?])?;
    let line = port(0xCA, 0xC1, 20)?;
    join(
        &mut internet,
        &[line, port(0xBC, 0xC2, 1)?, port(0xC0, 0xC3, 1)?],
    )?;
    join(&mut internet, &[port(0xC0, COUNTED, 1)?])?;
    Ok(internet)
}

/// Hands out all that waits.
fn settled(internet: &mut Five) -> Result<(), Fail> {
    match internet.settle(1_000)? {
        Settled::Quiet => Ok(()),
        Settled::Left(_) => Err(Fail::new("something waits")),
    }
}

/// The routers are switched on, one after the other.
fn switched_on(internet: &mut Five) -> Result<(), Fail> {
    for number in [B, C, A, F] {
        internet.event(number, Event::Start)?;
        settled(internet)?;
    }
    Ok(())
}

/// The server announces itself on its internal network.
fn announced(internet: &mut Five) -> Result<(), Fail> {
    let event = Event::Packet {
        port: 0,
        bytes: &ANNOUNCEMENT,
    };
    internet.event(F, event)?;
    settled(internet)
}

/// A second of all routers. It ends quiet, so it is a tick of the laws, with what hosts said before it.
fn a_second(internet: &mut Five) -> Result<(), Fail> {
    match internet.second(1_000)? {
        Settled::Quiet => Ok(()),
        Settled::Left(_) => Err(Fail::new("something waits")),
    }
}

/// A minute in which the server announces itself once.
fn a_minute(internet: &mut Five) -> Result<(), Fail> {
    announced(internet)?;
    for _ in 0..MINUTE {
        a_second(internet)?;
    }
    Ok(())
}

/// The hops and the port of the service that a router has, if it has one.
fn service(internet: &Five, number: usize) -> Option<(u16, u8)> {
    let held = internet.router(number)?.service_at(0)?;
    Some((held.offer.service.hops, held.offer.port))
}

/// What F, A, B and C have of the service.
fn services(internet: &Five) -> [Option<(u16, u8)>; 4] {
    [F, A, B, C].map(|number| service(internet, number))
}

/// How many packets C sends when a client asks, to those whose packets are counted. No other router is on network C0.
fn answers(internet: &mut Five, bytes: &[u8]) -> Result<usize, Fail> {
    let outcome = internet.event(C, Event::Packet { port: 2, bytes })?;
    if outcome != Outcome::Answered {
        return Err(Fail::new("not answered"));
    }
    let waiting = internet.waiting();
    settled(internet)?;
    Ok(waiting)
}

/// C's way to the server's internal network: hops, ticks, and the port.
fn way(internet: &Five) -> Option<(u16, u16, u8)> {
    let held = internet.router(C)?.route(Network(0xF0))?;
    Some((held.offer.hops, held.offer.ticks, held.offer.port))
}

/// A reception of a trace, as `row` tells it: its parent, the router, the packet's transport control, and what becomes of it.
type Row = (Option<usize>, usize, Option<u8>, Outcome);

/// The receptions of the client's first packet, and that there is no fifth.
fn receptions(internet: &Five) -> Result<[Option<Row>; 5], Fail> {
    let trace = internet.trace(C, 2, &FIRST, 16)?;
    Ok([0, 1, 2, 3, 4].map(|number| row(&trace, number)))
}

#[test]
fn a_client_finds_the_nearest_server_and_its_first_packet_arrives(
    rt: HostRuntime,
) -> Result<(), Fail> {
    let mut internet = built(rt.alloc())?;
    switched_on(&mut internet)?;
    // Nobody has announced the server yet, so C has none to name.
    same(&rt, answers(&mut internet, &query(COUNTED))?, 0);
    // All know it as soon as it is announced. That is measured (`dev/study`), not proved.
    announced(&mut internet)?;
    let known = [Some((0, 0)), Some((1, 0)), Some((2, 0)), Some((2, 0))];
    same(&rt, services(&internet), known);
    for _ in 0..MINUTES {
        a_minute(&mut internet)?;
    }
    // `services::everywhere`: each router has it, with its fewest hops, as C has it over the slow line: hops alone count.
    same(&rt, services(&internet), known);
    // `services::nearest`: C answers with one packet to whoever asks, since no shortest way to the server begins on C0.
    same(&rt, answers(&mut internet, &query(CLIENT))?, 0);
    same(&rt, answers(&mut internet, &query(COUNTED))?, 1);
    a_second(&mut internet)?;
    // `right`, also while hosts speak: C's route is of the best way, of 4 ticks, which leads to B.
    same(&rt, way(&internet), Some((3, 4, 1)));
    same(&rt, answers(&mut internet, &request(CLIENT))?, 0);
    same(&rt, answers(&mut internet, &request(COUNTED))?, 1);
    a_second(&mut internet)?;
    // `arrives`: the packet is in as many more routers as that way has
    // hops, and F, the last one, sends it out on network F0, where no router receives it.
    let on = Outcome::Forwarded;
    let wanted = [
        Some((None, C, Some(0), on)),
        Some((Some(0), B, Some(1), on)),
        Some((Some(1), A, Some(2), on)),
        Some((Some(2), F, Some(3), on)),
        None,
    ];
    same(&rt, receptions(&internet)?, wanted);
    Ok(())
}
