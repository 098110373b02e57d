//! What passes a filter.
ghost use Rattle.std.specs.Prelude.{◌≡◌, ◌+◌, ◌*◌, ◌^◌, ◌<◌, ◌≤◌, length, take, IfNone, IfSome};
ghost use Rattle.std.specs.Option.{option_map};
ghost use Rattle.ipx_wire.specs.Packet.{packet_of};
ghost use Rattle.ipx_wire.specs.Piece.{piece};
ghost use Rattle.ipx_wire.specs.Rip.{rip_of};
ghost use Rattle.ipx_wire.specs.Sap.{sap_of};
ghost use Rattle.ipx_edge.specs.Filtered.{is_routing, is_advertising, lists_routes, lists_services, filtered};
ghost use Rattle.ipx_edge.specs.Places.{with_at};
ghost use Rattle.ipx_edge.specs.declared.filtering.Verdict.TheVariants.{Entries};
ghost use Rattle.ipx_edge.specs.inside.Verdict.{size_of, passes_of, listed_in, verdict, done, Fits, Keeps};

use crate::fields::{CHECKSUM, put_u16};
use crate::listing::Listed;
use crate::naming::permits_packet;
use crate::near::{is_near, is_own};
use crate::rule::{Rule, Way};
use ipx_router::Port;
use ipx_wire::{Header, Operation, Packet, Rip, RipEntry, Sap, SapEntry, Socket};

/// Where the length stands in a packet.
const LENGTH: usize = 2;

/// Where the first entry of a response stands.
const ENTRIES: usize = 32;

/// What is to be done with a packet.
#[derive(Clone, Copy)]
pub(crate) enum Verdict {
    /// Nothing of it passes.
    Denied,
    /// It passes as it is.
    Whole,
    /// Its entries are looked at, of which there are so many.
    Entries(Listed, usize),
}

/// What rules let pass of a packet that comes in from the port's network, or goes out to it: the first so many of the bytes, or nothing.
///
/// A packet that a rule denies doesn't pass. A response of routes or services that the router hears or sends loses those that a rule
/// denies: its length then says what is left, and its checksum is FFFFh, none. If none is left, it doesn't pass. All else passes byte for
/// byte, also bytes that are no packet. If nothing passes, `bytes` stay as they are.
///
/// See the example of [`Rule`].
pub fn filter(way: Way, port: &Port, rules: &[Rule], bytes: &mut [u8]) -> Option<usize>
    ensures passes { option_map (λ count. take count bytes.new) result ≡ filtered way port.now rules.now bytes.old }
    ensures within { IfSome result (λ count. count ≤ length bytes.new) }
    ensures size { length bytes.new ≡ length bytes.old }
    ensures nothing { IfNone result (bytes.new ≡ bytes.old) }
{
    match judge(way, port, rules, bytes) {
        Verdict::Denied => None,
        Verdict::Whole => Some(bytes.len()),
        Verdict::Entries(listed, count) => leave(listed, way, rules, count, bytes),
    }
}

fn judge(way: Way, port: &Port, rules: &[Rule], bytes: &[u8]) -> Verdict
    ensures value { result ≡ verdict way port.now rules.now (packet_of bytes.now) }
    ensures fits { Fits result bytes.now }
{
    match Packet::read(bytes) {
        Ok(packet) => {
            if permits_packet(port, rules, &packet) {
                listed_in(way, port, &packet)
            } else {
                Verdict::Denied
            }
        }
        Err(_) => Verdict::Whole,
    }
}

fn listed_in(way: Way, port: &Port, packet: &Packet<'_>) -> Verdict
    ensures { result ≡ listed_in way port.now packet.now }
{
    let header = packet.header();
    let payload = packet.payload();
    let size = payload.len().saturating_sub(2);
    if is_routing(way, port, header) && lists_routes(payload) {
        Verdict::Entries(Listed::Routes, size / RipEntry::SIZE)
    } else if is_advertising(way, port, header) && lists_services(payload) {
        Verdict::Entries(Listed::Services, size / SapEntry::SIZE)
    } else {
        Verdict::Whole
    }
}

fn is_routing(way: Way, port: &Port, header: Header) -> bool
    ensures { result ≡ is_routing way port.now header }
{
    match way {
        Way::In => is_near(port, header) && header.destination.socket == Socket::RIP,
        Way::Out => is_own(port, header) && header.source.socket == Socket::RIP,
    }
}

pub(crate) fn is_advertising(way: Way, port: &Port, header: Header) -> bool
    ensures { result ≡ is_advertising way port.now header }
{
    match way {
        Way::In => is_near(port, header) && header.destination.socket == Socket::SAP,
        Way::Out => is_own(port, header) && header.source.socket == Socket::SAP,
    }
}

fn lists_routes(payload: &[u8]) -> bool
    ensures { result ≡ lists_routes (rip_of payload.now) }
{
    match Rip::read(payload) {
        Ok(rip) => match rip.operation() {
            Operation::Response => true,
            Operation::Request => false,
        },
        Err(_) => false,
    }
}

fn lists_services(payload: &[u8]) -> bool
    ensures { result ≡ lists_services (sap_of payload.now) }
{
    match Sap::read(payload) {
        Ok(Sap::Response { .. }) => true,
        _ => false,
    }
}

/// Leaves the entries that pass, and returns how many bytes there are then, if any pass.
fn leave(listed: Listed, way: Way, rules: &[Rule], count: usize, bytes: &mut [u8]) -> Option<usize>
    requires room { 32 + size_of listed * count ≤ length bytes.old }
    requires most { 32 + size_of listed * count < 2 ^ 16 }
    ensures passes { option_map (λ n. take n bytes.new) result ≡ done way rules.now (Entries listed count) bytes.old }
    ensures within { IfSome result (λ n. n ≤ length bytes.new) }
    ensures size { length bytes.new ≡ length bytes.old }
    ensures nothing { IfNone result (bytes.new ≡ bytes.old) }
{
    let end = keep(listed, way, rules, count, bytes);
    if end == ENTRIES + listed.size() * count {
        return Some(bytes.len());
    }
    if end == ENTRIES {
        return None;
    }
    put_u16(end as u16, LENGTH, bytes);
    put_u16(Header::NO_CHECKSUM, CHECKSUM, bytes);
    Some(end)
}

/// Moves the entries that pass to the front, and returns where they end.
fn keep(listed: Listed, way: Way, rules: &[Rule], count: usize, bytes: &mut [u8]) -> usize
    requires { 32 + size_of listed * count ≤ length bytes.old }
    ensures { Keeps (passes_of way rules.now listed) (size_of listed) count bytes.old bytes.new (32 + size_of listed * count) result }
{
    let size = listed.size();
    let (mut from, mut to) = (ENTRIES, ENTRIES);
    for k in 0..count {
        if listed.passes(way, rules, &bytes[from..from + size]) {
            if to < from {
                move_down(from, size, to, bytes);
            }
            to += size;
        }
        from += size;
    }
    to
}

/// Moves so many bytes from a place to one before it.
fn move_down(from: usize, size: usize, to: usize, bytes: &mut [u8])
    requires room { from + size ≤ length bytes.old }
    requires down { to ≤ from }
    ensures { bytes.new ≡ with_at to (piece bytes.old from size) bytes.old }
{
    bytes.copy_within(from..from + size, to);
}
