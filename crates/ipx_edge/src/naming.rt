//! What rules name, and what the first of them says.
ghost use Rattle.std.specs.Prelude.{◌≡◌, length, take};
ghost use Rattle.ipx_wire.specs.Sap.{sap_of};
ghost use Rattle.ipx_edge.specs.Rules.{is_nearest_query, asks_nearest, names_packet, same_way, names_route, same_bytes, is_among_names, names_service, permits};
ghost use Rattle.ipx_edge.specs.declared.rule.Names.TheVariants.{Is, Begins};

use crate::near::is_near;
use crate::rule::{Names, Rule, Way, What};
use ipx_router::Port;
use ipx_wire::{Packet, RipEntry, Sap, SapEntry, ServiceName, Socket};

/// Whether the first rule that names a packet permits it.
pub(crate) fn permits_packet(port: &Port, rules: &[Rule], packet: &Packet<'_>) -> bool
    ensures { result ≡ permits (names_packet port.now packet.now) rules.now }
{
    for rule in rules {
        if names_packet(port, packet, &rule.what) {
            return rule.permits;
        }
    }
    true
}

/// Whether the first rule that names a route permits it.
pub(crate) fn permits_route(way: Way, rules: &[Rule], entry: RipEntry) -> bool
    ensures { result ≡ permits (names_route way entry) rules.now }
{
    for rule in rules {
        if names_route(way, entry, &rule.what) {
            return rule.permits;
        }
    }
    true
}

/// Whether the first rule that names a service permits it.
pub(crate) fn permits_service(way: Way, rules: &[Rule], entry: &SapEntry) -> bool
    ensures { result ≡ permits (names_service way entry.now) rules.now }
{
    for rule in rules {
        if names_service(way, entry, &rule.what) {
            return rule.permits;
        }
    }
    true
}

fn names_packet(port: &Port, packet: &Packet<'_>, what: &What) -> bool
    ensures { result ≡ names_packet port.now packet.now what.now }
{
    let header = packet.header();
    match what {
        What::Kind(kind) => header.kind == *kind,
        What::OnSocket(socket) => {
            header.destination.socket.0 == socket.0 || header.source.socket.0 == socket.0
        }
        What::Nearest => asks_nearest(port, packet),
        What::Routes { .. } => false,
        What::Services { .. } => false,
    }
}

fn asks_nearest(port: &Port, packet: &Packet<'_>) -> bool
    ensures { result ≡ asks_nearest port.now packet.now }
{
    let header = packet.header();
    is_near(port, header)
        && header.destination.socket == Socket::SAP
        && is_nearest_query(packet.payload())
}

fn is_nearest_query(payload: &[u8]) -> bool
    ensures { result ≡ is_nearest_query (sap_of payload.now) }
{
    match Sap::read(payload) {
        Ok(Sap::Query { nearest, .. }) => nearest,
        _ => false,
    }
}

fn names_route(way: Way, entry: RipEntry, what: &What) -> bool
    ensures { result ≡ names_route way entry what.now }
{
    match what {
        What::Routes { way: on, from, to } => {
            same_way(*on, way) && from.0 <= entry.network.0 && entry.network.0 <= to.0
        }
        _ => false,
    }
}

fn names_service(way: Way, entry: &SapEntry, what: &What) -> bool
    ensures { result ≡ names_service way entry.now what.now }
{
    match what {
        What::Services {
            way: on,
            kind,
            names,
        } => {
            same_way(*on, way)
                && (*kind == Sap::EVERY_TYPE || *kind == entry.kind)
                && is_among_names(names, &entry.name)
        }
        _ => false,
    }
}

fn is_among_names(names: &Names, name: &Option<ServiceName>) -> bool
    ensures { result ≡ is_among_names names.now name.now }
{
    match names {
        Names::All => true,
        Names::Is(one) => is_name(one, name),
        Names::Begins(front) => begins_name(front, name),
    }
}

fn is_name(one: &ServiceName, name: &Option<ServiceName>) -> bool
    ensures { result ≡ is_among_names (Is one.now) name.now }
{
    match name {
        Some(name) => same_bytes(one.bytes(), name.bytes()),
        None => false,
    }
}

fn begins_name(front: &ServiceName, name: &Option<ServiceName>) -> bool
    ensures { result ≡ is_among_names (Begins front.now) name.now }
{
    match name {
        Some(name) => begins(front.bytes(), name.bytes()),
        None => false,
    }
}

fn begins(front: &[u8], name: &[u8]) -> bool
    ensures { result ≡ same_bytes front.now (take (length front.now) name.now) }
{
    if name.len() < front.len() {
        return false;
    }
    same_bytes(front, &name[..front.len()])
}

fn same_bytes(one: &[u8], other: &[u8]) -> bool
    ensures { result ≡ same_bytes one.now other.now }
{
    one == other
}

fn same_way(on: Way, way: Way) -> bool
    ensures { result ≡ same_way on way }
{
    match (on, way) {
        (Way::In, Way::In) => true,
        (Way::Out, Way::Out) => true,
        _ => false,
    }
}
