//! The verdict on bytes that came on a port: heard, sent on, or dropped.
//!
//! Checks are made in this order, and the first that holds decides: the router is stopped; the bytes are no packet;
//! the checks of a packet, which are also made of one that is only to be sent on; of a near packet, it is of type
//! 20 or for a socket without a process, its source is on another network, its data are no routing information or no
//! service advertising, or they answer a query for the nearest service; and last, the port on which it came is down.
ghost use Rattle.std.specs.Prelude.{◌≡◌, ◌==◌, ◌||◌, ◌<◌, ◌∷◌, ◌++◌, [], true, length, None, Some, IfOk, IfErr};
ghost use Rattle.std.specs.List.{AllByRecursion};
ghost use Rattle.ipx_router.specs.inside.CheckGroups.{process_checks, data_why};
ghost use Rattle.ipx_router.specs.Facts.{offers};
ghost use Rattle.ipx_router.specs.inside.Judged.{IsVerdict, IsFound, IsHearing, packet_why};
ghost use Rattle.ipx_router.specs.Numbers.{rip_socket, sap_socket};
ghost use Rattle.ipx_router.specs.Port.{port_at, is_up};
ghost use Rattle.ipx_router.specs.Why.{why, checks, first_of};

use crate::judging::checks::{Onward, check, is_local};
use crate::port::Port;
use crate::ports::addresses::port_of;
use crate::ports::up_ports::is_up;
use crate::route_offer::RouteOffer;
use crate::why::Why;
use ipx_table::Table;
use ipx_wire::{Address, Header, Packet, Rip, Sap, Socket};

/// What is to be done with what came and isn't dropped.
#[derive(Drop)]
pub(crate) enum Verdict<'a> {
    /// Routing information was heard.
    Rip {
        source: Address,
        rip: Rip<'a>,
    },
    /// Service advertising was heard.
    Sap {
        source: Address,
        sap: Sap<'a>,
    },
    /// A packet goes on to other networks.
    // (the packet behind: in front, its place would be put together from the bytes that it shares with a source's)
    Goes {
        onward: Onward<'a>,
        packet: Packet<'a>,
    },
}

/// What is to be done with bytes that came on a port, or why they are dropped.
pub(crate) fn judge<'a, const R: usize>(
    ports: &[Port],
    up: &[u8],
    routes: &Table<RouteOffer, R>,
    running: bool,
    number: u8,
    bytes: &'a [u8],
) -> Result<Verdict<'a>, Why>
    requires port { number < length ports.now }
    requires ups { AllByRecursion (λ j. j < length ports.now) up.now }
    requires by_ups { AllByRecursion (λ r. is_up up.now r.port ≡ true) (offers routes.now.records) }
    ensures refused { IfErr result (λ reason. why ports.now up.now (offers routes.now.records) running number bytes.entry.now ≡ Some reason) }
    ensures verdict { IfOk result (IsVerdict ports.now up.now (offers routes.now.records) running number bytes.entry.now) }
{
    if !running {
        return Err(Why::NotRunning);
    }
    match Packet::read(bytes) {
        Ok(packet) => judge_packet(ports, up, routes, number, packet),
        Err(fault) => Err(Why::Malformed(fault)),
    }
}

/// What is to be done with a packet; only where nothing else drops it, a port that is down does.
fn judge_packet<'a, const R: usize>(
    ports: &[Port],
    up: &[u8],
    routes: &Table<RouteOffer, R>,
    number: u8,
    packet: Packet<'a>,
) -> Result<Verdict<'a>, Why>
    requires port { number < length ports.now }
    requires ups { AllByRecursion (λ j. j < length ports.now) up.now }
    requires by_ups { AllByRecursion (λ r. is_up up.now r.port ≡ true) (offers routes.now.records) }
    ensures refused { IfErr result (λ reason. packet_why ports.now up.now (offers routes.now.records) number packet.entry ≡ Some reason) }
    ensures cleared { IfOk result (λ verdict. packet_why ports.now up.now (offers routes.now.records) number packet.entry ≡ None) }
    ensures found { IfOk result (IsFound ports.now up.now (offers routes.now.records) (port_at ports.now number) packet.entry) }
{
    let verdict = judge_on_port(ports, up, routes, &port_of(ports, number), packet)?;
    if is_up(up, number) {
        Ok(verdict)
    } else {
        Err(Why::DownPort)
    }
}

/// What is to be done with a packet that came on a port, if that is up; whether it is, is the last question, and not asked here.
fn judge_on_port<'a, const R: usize>(
    ports: &[Port],
    up: &[u8],
    routes: &Table<RouteOffer, R>,
    port: &Port,
    packet: Packet<'a>,
) -> Result<Verdict<'a>, Why>
    requires ups { AllByRecursion (λ j. j < length ports.now) up.now }
    requires by_ups { AllByRecursion (λ r. is_up up.now r.port ≡ true) (offers routes.now.records) }
    ensures refused { IfErr result (λ reason. first_of (checks ports.now up.now (offers routes.now.records) port.now packet.entry) ≡ Some reason) }
    ensures cleared { IfOk result (λ verdict. first_of (checks ports.now up.now (offers routes.now.records) port.now packet.entry) ≡ None) }
    ensures found { IfOk result (IsFound ports.now up.now (offers routes.now.records) port.now packet.entry) }
{
    match check(ports, up, routes, port, &packet) {
        Ok(Some(onward)) => Ok(Verdict::Goes { onward, packet }),
        Ok(None) => judge_near(port, &packet),
        Err(why) => Err(why),
    }
}

/// What is to be done with a near packet for the port's node or for all nodes.
fn judge_near<'a>(port: &Port, packet: &Packet<'a>) -> Result<Verdict<'a>, Why>
    ensures refused { IfErr result (λ reason. first_of (process_checks port.now packet.now.header ++ data_why packet.now ∷ []) ≡ Some reason) }
    ensures cleared { IfOk result (λ verdict. first_of (process_checks port.now packet.now.header ++ data_why packet.now ∷ []) ≡ None) }
    ensures hearing { IfOk result (IsHearing packet.now) }
{
    let header = packet.header();
    if header.kind == Header::PROPAGATED || !has_process(header.destination.socket) {
        return Err(Why::OtherSocket);
    }
    if !is_local(port, header.source.network) {
        return Err(Why::NotNeighbour);
    }
    hear(packet)
}

/// What a packet says to the process that it is for.
fn hear<'a>(packet: &Packet<'a>) -> Result<Verdict<'a>, Why>
    ensures refused { IfErr result (λ reason. data_why packet.now ≡ Some reason) }
    ensures cleared { IfOk result (λ verdict. data_why packet.now ≡ None) }
    ensures hearing { IfOk result (IsHearing packet.now) }
{
    let Header {
        source,
        destination,
        ..
    } = packet.header();
    if destination.socket == Socket::RIP {
        match Rip::read(packet.payload()) {
            Ok(rip) => Ok(Verdict::Rip { source, rip }),
            Err(fault) => Err(Why::BadRip(fault)),
        }
    } else {
        match Sap::read(packet.payload()) {
            Ok(Sap::Response { nearest: true, .. }) => Err(Why::NearestReply),
            Ok(sap) => Ok(Verdict::Sap { source, sap }),
            Err(fault) => Err(Why::BadSap(fault)),
        }
    }
}

/// Whether the router has a process on that socket.
fn has_process(socket: Socket) -> bool
    ensures { result ≡ ((socket.0 == rip_socket) || (socket.0 == sap_socket)) }
{
    socket == Socket::RIP || socket == Socket::SAP
}
