//! Room counted out: packets and bytes that an event takes at most.
ghost use Rattle.std.specs.Prelude.{◌≡◌, ◌^◌, ◌<◌, ◌≤◌, ◌*◌};
ghost use Rattle.ipx_router.specs.Bounds.{most_packets, most_length};
ghost use Rattle.ipx_router.specs.Happened.{happened};
ghost use Rattle.ipx_router.specs.Needs.{packets_ever, bytes_ever};
ghost use Rattle.ipx_router.specs.Numbers.{most_ports};

use crate::advertising::pages::{ENTRIES_A_PAGE, SERVICES_A_PAGE};
use crate::event::Event;
use crate::outbox::Need;
use ipx_wire::{Header, Packet, SapEntry};

/// The bytes of the longest packet of a router's own: a full page of services, which is longer than one of entries.
const MOST_OWN_LENGTH: usize = Header::SIZE + 2 + SERVICES_A_PAGE * SapEntry::SIZE;

/// The most packets that an event sends, and as many times the bytes of the longest.
pub(crate) fn need_of(ports: usize, routes: usize, services: usize, event: Event<'_>) -> Need
    requires some { 1 ≤ ports }
    requires few { ports ≤ most_ports }
    requires few_routes { routes < 2 ^ 16 }
    requires few_services { services < 2 ^ 16 }
    ensures packets { result.packets ≡ most_packets ports routes services (happened event.entry) }
    ensures bytes { result.bytes ≡ most_packets ports routes services (happened event.entry) * most_length (happened event.entry) }
{
    let packets = packets_of(ports, routes, services, event);
    Need {
        packets,
        bytes: packets * length_of(event),
    }
}

/// The room with which no event is refused in a router with this many ports and at most this many routes and services,
/// as long as no packet that comes is longer than that: the most packets that an event sends, and the most bytes of them.
pub(crate) fn most_need_of(ports: usize, routes: usize, services: usize, longest: u16) -> Need
    requires some { 1 ≤ ports }
    requires few { ports ≤ most_ports }
    requires few_routes { routes < 2 ^ 16 }
    requires few_services { services < 2 ^ 16 }
    ensures packets { result.packets ≡ packets_ever ports routes services }
    ensures bytes { result.bytes ≡ bytes_ever ports routes services longest }
{
    let start = packets_of(ports, routes, services, Event::Start);
    let second = packets_of(ports, routes, services, Event::Second);
    let up = packets_of(ports, routes, services, Event::PortUp { port: 0 });
    let bytes = &[];
    let came = packets_of(ports, routes, services, Event::Packet { port: 0, bytes });
    let packets = start.max(second).max(up);
    Need {
        packets,
        bytes: (packets * MOST_OWN_LENGTH).max(came * usize::from(longest)),
    }
}

/// The most packets that an event sends.
fn packets_of(ports: usize, routes: usize, services: usize, event: Event<'_>) -> usize
    requires some { 1 ≤ ports }
    requires few { ports ≤ most_ports }
    requires few_routes { routes < 2 ^ 16 }
    requires few_services { services < 2 ^ 16 }
    ensures value { result ≡ most_packets ports routes services (happened event.entry) }
    ensures few { result < 2 ^ 20 }
{
    // (not by `div_ceil`, which asks for the remainder too, in each event)
    let of_routes = (routes + ports - 1 + (ENTRIES_A_PAGE - 1)) / ENTRIES_A_PAGE;
    let of_services = (services + (SERVICES_A_PAGE - 1)) / SERVICES_A_PAGE;
    match event {
        Event::Start => 3 * ports,
        Event::Stop | Event::Second => ports * (of_routes + of_services),
        Event::Packet { .. } => ports.max(of_routes).max(of_services),
        Event::PortDown { .. } => (ports - 1) * (of_routes + of_services),
        Event::PortUp { .. } => ports + 1 + of_routes + of_services,
    }
}

/// The bytes of the longest packet that an event sends.
fn length_of(event: Event<'_>) -> usize
    ensures value { result ≡ most_length (happened event.entry) }
    ensures short { result < 2 ^ 16 }
{
    let Event::Packet { bytes, .. } = event else {
        return MOST_OWN_LENGTH;
    };
    // A packet is no longer than the bytes that came. So its header is read only where there are more than a packet of
    // the router's own may have.
    if bytes.len() <= MOST_OWN_LENGTH {
        return MOST_OWN_LENGTH;
    }
    match Packet::read(bytes) {
        Ok(packet) => MOST_OWN_LENGTH.max(usize::from(packet.header().length)),
        Err(_) => MOST_OWN_LENGTH,
    }
}
