//! Responses of services, written to the beginning of a slice: whole, or service by service.
ghost use Rattle.std.specs.Prelude.{◌≡◌, ◌+◌, ◌*◌, ◌≤◌, ◌++◌, List, length, drop, map};
ghost use Rattle.std.specs.List.{flat_map, AllByRecursion};
ghost use Rattle.ipx_wire.specs.Name.{IsServiceName, name_field};
ghost use Rattle.ipx_wire.specs.Numbers.{most_services};
ghost use Rattle.ipx_wire.specs.Packet.{IsPacket};
ghost use Rattle.ipx_wire.specs.Put.{PutsAt};
ghost use Rattle.ipx_wire.specs.Sap.{IsResponse};
ghost use Rattle.ipx_wire.specs.WriteServices.{IsService, service_bytes, entry_of, sap_front, sap_payload, sap_packet, sap_packet_parts};
ghost use Rattle.ipx_wire.specs.declared.service.Service.{Service as ServiceValue};

use crate::address::Address;
use crate::fields::{put_address, put_u16};
use crate::header::Header;
use crate::laws::is_in_range;
use crate::sap_entries::SapEntry;
use crate::service::Service;
use crate::service_name::ServiceName;
use crate::write::own;

/// Writes a response of 1 to 7 services, general or to a query for the nearest, to the beginning of
/// `out`, and returns its number of bytes: 32, and 64 for each service. `out` has room for as many.
///
/// In the header the type is 4, the checksum FFFFh and the transport control 0. Behind each name
/// there are zeros.
pub fn write_sap(
    from: Address,
    to: Address,
    nearest: bool,
    services: &[Service],
    out: &mut [u8],
) -> usize
    requires some { 1 ≤ length services.now }
    requires most { length services.now ≤ most_services }
    requires room { 32 + 64 * length services.now ≤ length out.old }
    ensures count { result ≡ 32 + 64 * length services.now }
    ensures bytes { out.new ≡ sap_packet from to nearest services.now ++ drop (32 + 64 * length services.now) out.old }
    ensures size { length (sap_packet from to nearest services.now) ≡ 32 + 64 * length services.now }
    // What was written is a packet, and its data are the response.
    ensures packet { IsPacket (sap_packet from to nearest services.now) (sap_packet_parts from to nearest services.now) }
    ensures response { IsResponse (sap_payload nearest services.now) nearest (map entry_of services.now) }
{
    let size = 2 + SapEntry::SIZE * services.len();
    own(Header::SAP, from, to, size as u16).write(out);
    let operation = if nearest { 4 } else { 2 };
    put_u16(out, Header::SIZE, operation);
    put_services(out, Header::SIZE + 2, services);
    Header::SIZE + size
}

fn put_services(out: &mut [u8], place: usize, services: &[Service])
    requires { place + 64 * length services.now ≤ length out.old }
    ensures bytes { PutsAt out.old place (flat_map service_bytes services.now) out.new }
    ensures each { AllByRecursion IsService services.now }
{
    let mut next = place;
    for service in services {
        put_service(out, next, service, service.hops);
        next += SapEntry::SIZE;
    }
}

/// Writes a service as one that is that many hops away, whatever its own hops are, into the 64 bytes of `out` from `place` on. The other
/// bytes stay.
///
/// With `write_sap_front` this writes a response service by service, with no list of them before: the first of them from place 32 on.
#[tactic(auto, unfolding(crate::specs::WriteServices::service_bytes))]
pub fn put_service(out: &mut [u8], place: usize, service: &Service, hops: u16)
    requires { place + 64 ≤ length out.old }
    ensures bytes { PutsAt out.old place (service_bytes (record service.now { hops = hops })) out.new }
    ensures size { length (service_bytes (record service.now { hops = hops })) ≡ 64 }
    ensures is { IsService (record service.now { hops = hops }) }
{
    is_in_range(*service);
    put_u16(out, place, service.kind);
    put_name(out, place + 2, &service.name);
    put_address(out, place + 50, service.address);
    put_u16(out, place + 62, hops);
}

/// Writes what stands before the services of a response of `count` of them, at most 7, general or to a query for the nearest, to
/// the beginning of `out`, and returns how many bytes the whole response has: 32, and 64 for each service. `out` has room for 32.
///
/// The bytes behind these first 32 stay; where the services stand there, the whole is the packet that `write_sap` writes. With a
/// `count` of 0 it is a response without an entry, which readers refuse.
pub fn write_sap_front(
    from: Address,
    to: Address,
    nearest: bool,
    count: usize,
    out: &mut [u8],
) -> usize
    requires most { count ≤ most_services }
    requires room { 32 ≤ length out.old }
    ensures size { result ≡ 32 + 64 * count }
    ensures bytes { out.new ≡ sap_front from to nearest count ++ drop 32 out.old }
    ensures front { length (sap_front from to nearest count) ≡ 32 }
    // With services behind it, it is their packet.
    ensures packet { (services : List ServiceValue) → length services ≡ count
        → sap_packet from to nearest services ≡ sap_front from to nearest count ++ flat_map service_bytes services }
{
    let size = 2 + SapEntry::SIZE * count;
    own(Header::SAP, from, to, size as u16).write(out);
    let operation = if nearest { 4 } else { 2 };
    put_u16(out, Header::SIZE, operation);
    Header::SIZE + size
}

fn put_name(out: &mut [u8], place: usize, name: &ServiceName)
    requires { place + 48 ≤ length out.old }
    ensures bytes { PutsAt out.old place (name_field name.now) out.new }
    ensures size { length (name_field name.now) ≡ 48 }
    ensures named { IsServiceName name.now }
{
    // (by way of a copy, which no write can change: so it is copied in three words of 16 bytes, and not byte by byte)
    out[place..place + ServiceName::SIZE].copy_from_slice(&name.field());
}
