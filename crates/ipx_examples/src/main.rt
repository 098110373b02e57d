//! The examples that stand in the doc comments of the public types, run one after the other.
//!
//! An example is the body of a function here, without its last line. `dev/doc_examples` compares the two line by line, and what a
//! line `// prints` promises with what this program prints. What an example is given stands in this file.
#![tactic(auto)]

mod addresses;
mod cables;
mod captures;
mod edges;
mod ends;
mod fates;
mod insides;
mod internets;
mod keyed;
mod limited;
mod offers;
mod packets;
mod peers;
mod plans;
mod routers;
mod routes;
mod runs;
mod segments;
mod services;
mod settings;
mod shares;
mod tunnels;

use crate::ends::copied;
use crate::internets::Small;
use crate::offers::TimeServer;
use anyhow::Result;
use ipx_internet::Internet;
use ipx_router::{Event, Outbox, Outcome, Port, PortFault, Router, Why};
use ipx_table::Table;
use ipx_tunnel::{Cookies, Sender};
use ipx_wire::{Address, Network, Node, Packet, Service, ServiceName, Socket};

/// Node BB, a router on network 20, advertises network 30.
const ROUTES: [u8; 40] = [
    0xFF, 0xFF, 0, 0x28, 0, 1, 0, 0, 0, 0x20, 0xFF, 0xFF, 0xFF, 0xFF, 0xFF, 0xFF, 4, 0x53, 0, 0, 0,
    0x20, 0, 0, 0, 0, 0, 0xBB, 4, 0x53, 0, 2, 0, 0, 0, 0x30, 0, 1, 0, 2,
];

/// It advertises the service ACCOUNTS on network 30.
const SERVICES: [u8; 96] = [
    0xFF, 0xFF, 0, 0x60, 0, 4, 0, 0, 0, 0x20, 0xFF, 0xFF, 0xFF, 0xFF, 0xFF, 0xFF, 4, 0x52, 0, 0, 0,
    0x20, 0, 0, 0, 0, 0, 0xBB, 4, 0x52, 0, 2, 0, 4, 0x41, 0x43, 0x43, 0x4F, 0x55, 0x4E, 0x54, 0x53,
    0, 0, 0, 0, 0, 0, 0, 0, 0, 0, 0, 0, 0, 0, 0, 0, 0, 0, 0, 0, 0, 0, 0, 0, 0, 0, 0, 0, 0, 0, 0, 0,
    0, 0, 0, 0, 0, 0, 0, 0, 0, 0, 0, 0x30, 0, 0, 0, 0, 0, 0xCC, 4, 0x51, 0, 1,
];

/// A packet of type 20 that has crossed networks 40 and 30.
const CROSSED: [u8; 62] = [
    0xFF, 0xFF, 0, 0x3E, 2, 0x14, 0, 0, 0, 0x20, 0xFF, 0xFF, 0xFF, 0xFF, 0xFF, 0xFF, 4, 0x55, 0, 0,
    0, 0x40, 0, 0, 0, 0, 0, 0xDD, 4, 0x55, 0, 0, 0, 0x40, 0, 0, 0, 0x30, 0, 0, 0, 0, 0, 0, 0, 0, 0,
    0, 0, 0, 0, 0, 0, 0, 0, 0, 0, 0, 0, 0, 0, 0,
];

/// Node AA, on network 10, sends to node CC, on network 30.
const FAR: [u8; 30] = [
    0xFF, 0xFF, 0, 0x1E, 0, 0, 0, 0, 0, 0x30, 0, 0, 0, 0, 0, 0xCC, 0x40, 3, 0, 0, 0, 0x10, 0, 0, 0,
    0, 0, 0xAA, 0x40, 3,
];

/// Node AA, on network 10, asks server CC on network 30 what it is.
const ASKED: [u8; 40] = [
    0xFF, 0xFF, 0, 0x28, 0, 17, 0, 0, 0, 0x30, 0, 0, 0, 0, 0, 0xCC, 4, 0x51, 0, 0, 0, 0x10, 0, 0,
    0, 0, 0, 0xAA, 0x40, 3, 0x22, 0x22, 3, 5, 1, 0, 23, 0, 1, 17,
];

/// A registration in DOSBox' tunnel.
const REGISTRATION: [u8; 30] = [
    0xFF, 0xFF, 0, 0x1E, 0, 0, 0, 0, 0, 0, 0, 0, 0, 0, 0, 0, 0, 2, 0, 0, 0, 0, 0, 0, 0, 0, 0, 0, 0,
    2,
];

/// The answer of port 2130 at 10.0.0.1 to a ping whose source is node 021122334455.
const ANSWER: [u8; 30] = [
    0xFF, 0xFF, 0, 0x1E, 0, 0, 0, 0, 0, 0x10, 2, 0x11, 0x22, 0x33, 0x44, 0x55, 0, 2, 0, 0, 0, 0x10,
    0x0A, 0, 0, 1, 8, 0x52, 0, 2,
];

/// A game's broadcast on network 10h, by node 02A1B2C3D4E5.
const WORD: [u8; 30] = [
    0xFF, 0xFF, 0, 0x1E, 0, 0, 0, 0, 0, 0x10, 0xFF, 0xFF, 0xFF, 0xFF, 0xFF, 0xFF, 0x86, 0x9C, 0, 0,
    0, 0x10, 2, 0xA1, 0xB2, 0xC3, 0xD4, 0xE5, 0x86, 0x9C,
];

/// A recording: a section, an interface of Ethernet, and a packet that keeps two bytes.
const RECORDING: [u8; 84] = [
    0x0A, 0x0D, 0x0D, 0x0A, 28, 0, 0, 0, 0x4D, 0x3C, 0x2B, 0x1A, 1, 0, 0, 0, 0xFF, 0xFF, 0xFF,
    0xFF, 0xFF, 0xFF, 0xFF, 0xFF, 28, 0, 0, 0, //
    1, 0, 0, 0, 20, 0, 0, 0, 1, 0, 0, 0, 0, 0, 0, 0, 20, 0, 0, 0, //
    6, 0, 0, 0, 36, 0, 0, 0, 0, 0, 0, 0, 0, 0, 0, 0, 0, 0, 0, 0, 2, 0, 0, 0, 2, 0, 0, 0, 7, 9, 0,
    0, 36, 0, 0, 0,
];

/// The header of a capture file, and a record of sixty bytes, of which two are kept.
const CAPTURE: [u8; 42] = [
    0xD4, 0xC3, 0xB2, 0xA1, 2, 0, 4, 0, 0, 0, 0, 0, 0, 0, 0, 0, 0xFF, 0xFF, 0, 0, 1, 0, 0, 0, 0, 0,
    0, 0, 0, 0, 0, 0, 2, 0, 0, 0, 0x3C, 0, 0, 0, 0xFF, 0xFF,
];

fn main(rt: HostRuntime) -> Result<()> {
    addresses::network(&rt)?;
    addresses::node(&rt)?;
    addresses::socket(&rt)?;
    addresses::address(&rt)?;
    addresses::hex(&rt)?;
    read(&rt)?;
    keep(&rt)?;
    route(&rt)?;
    join(&rt)?;
    serve(&rt)?;
    runs::chosen(&rt)?;
    runs::ended(&rt)
}

/// The examples that read and write packets, files and frames.
fn read(rt: &HostRuntime) -> Result<()> {
    read_routes(rt)?;
    read_services(rt)?;
    ends::intake(rt)?;
    ends::outlet(rt)?;
    captures::capture(rt, &CAPTURE)?;
    captures::capture_fault(rt, &SERVICES)?;
    let mut frame = [0xFF; 60];
    frame[12] = 0;
    frame[13] = 46;
    captures::frame_of(rt, &frame)?;
    captures::frame_kind(rt, at(0xBB).node, at(0xFF).node, &FAR)?;
    captures::recording(rt, &RECORDING)?;
    captures::recording_fault(rt, &ANSWER[..20])?;
    captures::carried_by(rt, &frame)?;
    insides::inside(rt, &Packet::read(&ASKED)?)
}

fn read_routes(rt: &HostRuntime) -> Result<()> {
    packets::packet(rt, &ROUTES)?;
    packets::measure(rt, &[0xFF; 34])?;
    let packet = Packet::read(&ROUTES)?;
    packets::header(rt, &packet)?;
    routes::rip(rt, packet.payload())?;
    routes::rip_entry(rt, at(0xBB), at(0xFF))?;
    packets::crossed(rt, &Packet::read(&CROSSED)?)
}

fn read_services(rt: &HostRuntime) -> Result<()> {
    services::sap(rt, Packet::read(&SERVICES)?.payload())?;
    let mut field = [0; ServiceName::SIZE];
    field[..8].copy_from_slice(b"ACCOUNTS");
    services::service_name(rt, &field)?;
    match ServiceName::read(&field) {
        Some(name) => services::service(rt, name, at(0xBB), at(0xFF)),
        None => Ok(()),
    }
}

/// The examples of tables.
fn keep(rt: &HostRuntime) -> Result<()> {
    let server = TimeServer {
        number: 7,
        steps: 3,
        port: 0,
        node: Node([0, 0, 0, 0, 0, 1]),
    };
    offers::table(rt, server)?;
    let mut table = Table::new();
    table.offer(server);
    let nearer = TimeServer {
        steps: 2,
        node: Node([0, 0, 0, 0, 0, 2]),
        ..server
    };
    offers::exchanged(rt, &mut table, nearer)?;
    offers::found(rt)
}

/// The examples of a router.
fn route(rt: &HostRuntime) -> Result<()> {
    routers::port(rt)?;
    edges::numbered(rt, port(0x50, 1)?)?;
    edges::held(rt, port(0x20, 1)?, &ROUTES)?;
    edges::filtered(rt, port(0x20, 1)?, &ROUTES)?;
    edges::claimed(rt, port(0x50, 1)?, &ROUTES)?;
    let far = Service {
        kind: 4,
        name: ServiceName::default(),
        address: at(0xBB),
        hops: 4,
    };
    edges::needless(rt, port(0x50, 1)?, far)?;
    edges::taught(rt, port(0x50, 1)?, at(0xAA).node)?;
    let ports = ports(0x10, 1)?;
    routers::ports_fault(rt, &ports)?;
    routers::router(rt, &ports)?;
    let mut router = Router::new(&ports)?;
    let mut outbox = Outbox::new(rt.alloc());
    router.step(Event::Start, &mut outbox)?;
    outbox.clear();
    learn(rt, &mut router, &mut outbox)?;
    routers::route_offer(rt, &router)?;
    routers::service_offer(rt, &router)
}

/// What happens to a router that was started: it learns a route and then a service.
fn learn(rt: &HostRuntime, router: &mut Router<2, 50, 8>, outbox: &mut Outbox) -> Result<()> {
    routers::event(rt, router, outbox, &ROUTES)?;
    routers::outbox(rt, outbox)?;
    routers::need(rt, router, outbox)?;
    routers::why(rt, Outcome::Dropped(Why::DownPort))?;
    if router.has_port(1) {
        let bytes = copied(rt.alloc(), &SERVICES)?;
        router.step(
            Event::Packet {
                port: 1,
                bytes: &bytes,
            },
            outbox,
        )?;
    }
    Ok(())
}

/// The examples of internets.
fn join(rt: &HostRuntime) -> Result<()> {
    let (west, east) = (ports(0x10, 1)?, ports(0x20, 3)?);
    meet(rt, &west, &east)?;
    let mut internet = Internet::new(rt.alloc());
    start(&mut internet, &west, &east)?;
    settle(rt, &mut internet, &west)
}

fn meet(rt: &HostRuntime, west: &[Port], east: &[Port]) -> Result<()> {
    internets::internet(rt, Router::new(west)?, Router::new(east)?)
}

/// What happens to an internet that was started, and to a router that it has already.
fn settle(rt: &HostRuntime, internet: &mut Small, west: &[Port]) -> Result<()> {
    internets::settled(rt, internet)?;
    internets::add_refused(rt, internet, Router::new(west)?)?;
    internets::internet_fault(rt, internet)?;
    internets::trace(rt, internet, &FAR)?;
    internets::trace_room(rt, internet, &FAR)
}

/// Adds routers with these ports, and starts them.
fn start(internet: &mut Small, west: &[Port], east: &[Port]) -> Result<()> {
    add(internet, west)?;
    add(internet, east)?;
    internet.event(0, Event::Start)?;
    internet.event(1, Event::Start)?;
    Ok(())
}

fn add(internet: &mut Small, ports: &[Port]) -> Result<()> {
    internet
        .add(Router::new(ports)?)
        .map_err(|refused| refused.fault)?;
    Ok(())
}

/// An address on network 20.
fn at(node: u8) -> Address {
    Address {
        network: Network(0x20),
        node: Node([0, 0, 0, 0, 0, node]),
        socket: Socket::RIP,
    }
}

/// Ports on a network and on the one whose number is greater by 10h, with this node and the next.
fn ports(network: u32, node: u8) -> Result<[Port; 2]> {
    let first = port(network, node)?;
    let second = port(network.wrapping_add(0x10), node.wrapping_add(1))?;
    Ok([first, second])
}

/// A port of a network with this number, whose node ends so.
fn port(network: u32, node: u8) -> Result<Port, PortFault> {
    Port::new(Network(network), Node([0, 0, 0, 0, 0, node]), 1, 576)
}

/// The examples of both tunnels, of a plan, of a line of a configuration, of a segment, of receivers and meters, of limits, and of peers.
fn serve(rt: &HostRuntime) -> Result<()> {
    let cookies = Cookies {
        current: Node([2, 0x11, 0x22, 0x33, 0x44, 0x55]),
        previous: Node([2, 0x66, 0x77, 0x88, 0x99, 0xAA]),
    };
    let from = Sender {
        place: Node([10, 0, 0, 1, 8, 0x52]),
        cookies,
        is_trusted: false,
    };
    tunnels::tunnel(rt, from, &REGISTRATION, &ANSWER)?;
    keyed::come(rt, from.place, cookies, &REGISTRATION, &WORD)?;
    plans::plan(rt)?;
    settings::line(rt)?;
    settings::configuration(rt)?;
    segments::segment(rt, Node([0, 0, 0, 0, 0, 2]), Node([0, 0, 0, 0, 0, 0xAA]))?;
    shares::receivers(rt)?;
    shares::meters(rt)?;
    limited::limits(rt, &ROUTES)?;
    cables::kinds(rt)?;
    cables::loops(rt)?;
    cables::ranges(rt)?;
    cables::paces(rt)?;
    cables::twins(rt)?;
    cables::asked(rt)?;
    cables::own_nodes(rt)?;
    fates::course(rt)?;
    fates::counts(rt)?;
    peers::two(rt)
}
