//! Routes and services by way of a node, in words.
ghost use Rattle.std.specs.Prelude.{◌≡◌, ◌+◌, ◌≤◌, ◌∷◌, [], ◌++◌, length, take, codes, decimal};
ghost use Rattle.ipx_settings.specs.WritingLinks.{name_in, spaced};
ghost use Rattle.ipx_settings.specs.WritingLines.{bytes_digits, socket_word, via_words, route_words, service_address_word, service_words};

use crate::putting::{put_bytes, put_number, put_text};
use crate::statics::{RouteBegun, ServiceAddress, ServiceBegun};
use crate::writing_links::put_name;

/// Puts a number behind a blank.
fn put_next(room: &mut [u8], at: usize, number: u16) -> usize
    requires { at + 11 ≤ length room.old }
    ensures room { take result room.new ≡ take at room.old ++ 32 ∷ decimal number }
    ensures most { result ≤ at + 11 }
    ensures size { length room.new ≡ length room.old }
{
    let at = put_text(room, at, b" ");
    put_number(room, at, u32::from(number))
}

/// Puts a node behind its word.
fn put_via(room: &mut [u8], at: usize, via: [u8; 6]) -> usize
    requires { at + 17 ≤ length room.old }
    ensures room { take result room.new ≡ take at room.old ++ codes " via " ++ bytes_digits via }
    ensures most { result ≤ at + 17 }
    ensures size { length room.new ≡ length room.old }
{
    let at = put_text(room, at, b" via ");
    put_bytes(room, at, &via)
}

/// Puts the line of a route.
pub(crate) fn put_route(room: &mut [u8], at: usize, route: RouteBegun) -> usize
    requires { at + 53 ≤ length room.old }
    ensures room { take result room.new ≡ take at room.old ++ spaced (codes "route" ∷ route_words route) }
    ensures most { result ≤ at + 53 }
    ensures size { length room.new ≡ length room.old }
{
    match route {
        RouteBegun::Whole(it) => {
            let at = put_text(room, at, b"route ");
            let at = put_bytes(room, at, &it.network.to_be_bytes());
            let at = put_next(room, at, it.hops);
            let at = put_next(room, at, it.ticks);
            put_via(room, at, it.via)
        }
        _ => put_text(room, at, b"route"),
    }
}

/// Puts where a service is offered.
fn put_service_address(room: &mut [u8], at: usize, address: ServiceAddress) -> usize
    requires { at + 26 ≤ length room.old }
    ensures room { take result room.new ≡ take at room.old ++ service_address_word address }
    ensures most { result ≤ at + 26 }
    ensures size { length room.new ≡ length room.old }
{
    let at = put_bytes(room, at, &address.network.to_be_bytes());
    let at = put_text(room, at, b".");
    let at = put_bytes(room, at, &address.node);
    let at = put_text(room, at, b".");
    put_bytes(room, at, &address.socket.to_be_bytes())
}

/// Puts the first words of the line of a service, with its type and its name.
fn put_named(room: &mut [u8], at: usize, kind: u16, name: &[u8; 48]) -> usize
    requires { at + 61 ≤ length room.old }
    ensures room { take result room.new ≡ take at room.old ++ spaced (codes "service" ∷ socket_word kind ∷ name_in name.now ∷ []) }
    ensures most { result ≤ at + 61 }
    ensures size { length room.new ≡ length room.old }
{
    let at = put_text(room, at, b"service ");
    let at = put_bytes(room, at, &kind.to_be_bytes());
    let at = put_text(room, at, b" ");
    put_name(room, at, name)
}

/// Puts the other words behind a blank: where it is offered, and by way of which node.
fn put_offered(
    room: &mut [u8],
    at: usize,
    address: ServiceAddress,
    hops: u16,
    via: [u8; 6],
) -> usize
    requires { at + 55 ≤ length room.old }
    ensures room { take result room.new ≡ take at room.old ++ 32 ∷ spaced (service_address_word address ∷ decimal hops ∷ via_words via) }
    ensures most { result ≤ at + 55 }
    ensures size { length room.new ≡ length room.old }
{
    let at = put_text(room, at, b" ");
    let at = put_service_address(room, at, address);
    let at = put_next(room, at, hops);
    put_via(room, at, via)
}

/// Puts the line of a service.
pub(crate) fn put_service(room: &mut [u8], at: usize, service: &ServiceBegun) -> usize
    requires { at + 116 ≤ length room.old }
    ensures room { take result room.new ≡ take at room.old ++ spaced (codes "service" ∷ service_words service.now) }
    ensures most { result ≤ at + 116 }
    ensures size { length room.new ≡ length room.old }
{
    match service {
        ServiceBegun::Whole(it) => {
            let at = put_named(room, at, it.kind, &it.name);
            put_offered(room, at, it.address, it.hops, it.via)
        }
        _ => put_text(room, at, b"service"),
    }
}
