//! Packets that say 0 for the network on which they were sent get its number.
ghost use Rattle.std.specs.Prelude.{◌≡◌, ℕ, ◌+◌, ◌<◌, ◌≤◌, length, IfSome};
ghost use Rattle.std.specs.Result.{result_ok};
ghost use Rattle.std.specs.Option.{option_map};
ghost use Rattle.ipx_wire.specs.Packet.{packet_of};
ghost use Rattle.ipx_wire.specs.Sap.{sap_of};
ghost use Rattle.ipx_edge.specs.Places.{hops_place};
ghost use Rattle.ipx_edge.specs.Numbered.{is_unnumbered, with_number, with_source, with_service, with_services, services_in, services_told, numbered};

use crate::fields::{CHECKSUM, put_u16, put_u32, u16_at, u32_at};
use crate::near::is_near;
use ipx_router::Port;
use ipx_wire::{Header, Network, Packet, Sap, SapEntry, Socket};

/// Where the network of the source stands in a packet.
const SOURCE: usize = 18;

/// Where the network of a response's first service stands.
const SERVICE: usize = 82;

/// How many bytes further on the hops of that service stand.
const HOPS: usize = 12;

/// A service with this many hops, or more, was retold by a router.
const RETOLD: u16 = 2;

/// Fills in the port's network number where a packet that came from there says 0 for it: as the network of its source, and as that of each
/// service that it advertises on this network from at most one hop away.
///
/// Where a number is filled in, the checksum becomes FFFFh, none. All other bytes stay, and so do bytes that are no packet.
///
/// A station that knows no number sends a packet, where `port` is on network 50h:
///
/// ```
/// number(&port, &mut bytes);
/// if let Ok(packet) = Packet::read(&bytes) {
///     println!(rt; "it came from {}", packet.header().source)?;
/// }
/// // prints it came from 00000050.0000000000AA.4001
/// ```
#[tactic(auto, unfolding(crate::specs::Numbered::numbered))]
pub fn number(port: &Port, bytes: &mut [u8])
    ensures { bytes.new ≡ numbered port.now bytes.old }
{
    if let Some(services) = services_of(port, bytes) {
        number_source(port, bytes);
        number_services(port, services, bytes);
    }
}

/// How many services the packet in the bytes advertises on the port's network; `None` if there is no packet.
fn services_of(port: &Port, bytes: &[u8]) -> Option<usize>
    ensures value { result ≡ option_map (services_told port.now) (result_ok (packet_of bytes.now)) }
    ensures header { IfSome result (λ count. 30 ≤ length bytes.now) }
    ensures room { IfSome result (λ count. (k : ℕ) → k < count → hops_place k + 2 ≤ length bytes.now) }
{
    match Packet::read(bytes) {
        Ok(packet) => Some(services_told(port, &packet)),
        Err(_) => None,
    }
}

fn services_told(port: &Port, packet: &Packet<'_>) -> usize
    ensures value { result ≡ services_told port.now packet.now }
    ensures room { (k : ℕ) → k < result → hops_place k + 2 ≤ 30 + length packet.now.payload }
{
    let header = packet.header();
    if is_near(port, header) && header.destination.socket == Socket::SAP {
        services_in(packet.payload())
    } else {
        0
    }
}

fn services_in(payload: &[u8]) -> usize
    ensures value { result ≡ services_in (sap_of payload.now) }
    ensures room { (k : ℕ) → k < result → hops_place k + 2 ≤ 30 + length payload.now }
{
    match Sap::read(payload) {
        Ok(Sap::Response { entries, .. }) => entries.len(),
        _ => 0,
    }
}

fn number_source(port: &Port, bytes: &mut [u8])
    requires { 30 ≤ length bytes.old }
    ensures bytes { bytes.new ≡ with_source port.now bytes.old }
    ensures size { length bytes.new ≡ length bytes.old }
{
    if is_unnumbered(SOURCE, bytes) {
        put_number(port.network(), SOURCE, bytes);
    }
}

fn number_services(port: &Port, count: usize, bytes: &mut [u8])
    requires { (k : ℕ) → k < count → hops_place k + 2 ≤ length bytes.old }
    ensures { bytes.new ≡ with_services port.now count bytes.old }
{
    for k in 0..count {
        number_service(port, k, bytes);
    }
}

fn number_service(port: &Port, k: usize, bytes: &mut [u8])
    requires { hops_place k + 2 ≤ length bytes.old }
    ensures bytes { bytes.new ≡ with_service port.now k bytes.old }
    ensures size { length bytes.new ≡ length bytes.old }
{
    let place = SERVICE + SapEntry::SIZE * k;
    if is_unnumbered(place, bytes) && u16_at(place + HOPS, bytes) < RETOLD {
        put_number(port.network(), place, bytes);
    }
}

/// Whether the four bytes from a place on say 0.
fn is_unnumbered(place: usize, bytes: &[u8]) -> bool
    requires { place + 4 ≤ length bytes.now }
    ensures { result ≡ is_unnumbered place bytes.now }
{
    u32_at(place, bytes) == Network::LOCAL.0
}

/// Writes the network's number, and that there is no checksum.
fn put_number(network: Network, place: usize, bytes: &mut [u8])
    requires { place + 4 ≤ length bytes.old }
    ensures bytes { bytes.new ≡ with_number network place bytes.old }
    ensures size { length bytes.new ≡ length bytes.old }
{
    put_u32(network.0, place, bytes);
    put_u16(Header::NO_CHECKSUM, CHECKSUM, bytes);
}
