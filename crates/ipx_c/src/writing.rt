//! Packets, as C writes them. They need no router.
ghost use Rattle.std.specs.Prelude.{◌≡◌, ◌+◌, ◌==◌, ◌≤◌, nat_le, nat_lt, if◌then◌else◌, ◌++◌, length, drop, map, None, Some, Ok, Err};
ghost use Rattle.std.specs.Option.{option_map};
ghost use Rattle.ipx_wire.specs.Header.{header_bytes};
ghost use Rattle.ipx_wire.specs.Numbers.{most_entries, most_services};
ghost use Rattle.ipx_wire.specs.Rip.{operation_of};
ghost use Rattle.ipx_c.specs.Codes.{count_code};
ghost use Rattle.ipx_c.specs.Writes.{address_with, address_of, entry_of, is_named, service_of, services_of, is_yes, rip_written, query_written, sap_written, packet_written, buffer_written, count_written};
ghost use Rattle.ipx_c.specs.declared.fault.Fault.TheVariants.{ShortBuffer, NoEntries, ManyEntries};

use crate::code::count_code;
use crate::fault::Fault;
use crate::sending::put;
use crate::values::{AddressValues, RouteEntry, ServiceEntry};
use arrayvec::ArrayVec;
use ipx_wire::{
    Address, Header, Network, Node, Operation, RipEntry, SapEntry, Service, ServiceName, Socket,
    write_query, write_rip, write_sap,
};

/// How many routes one packet has at most.
pub(crate) const MOST_ENTRIES: usize = RipEntry::MOST;

/// How many services.
pub(crate) const MOST_SERVICES: usize = SapEntry::MOST;

/// How many bytes of data: header and data are counted by a number of two bytes.
const MOST_DATA: usize = 65_535 - Header::SIZE;

/// Writes a packet of routing information, a request or a response.
#[unsafe(no_mangle)]
pub extern "C" fn ipxr_write_rip(
    from: &AddressValues,
    to: &AddressValues,
    operation: u16,
    routes: &[RouteEntry],
    buffer: &mut [u8],
) -> i32
    ensures bytes { buffer.new ≡ buffer_written (rip_written from.now to.now operation routes.now (length buffer.old)) buffer.old }
    ensures code { result ≡ count_code (count_written (rip_written from.now to.now operation routes.now (length buffer.old))) }
{
    count_code(put_rip(from, to, operation, routes, buffer))
}

/// Writes a query for services.
#[unsafe(no_mangle)]
pub extern "C" fn ipxr_write_query(
    from: &AddressValues,
    to: &AddressValues,
    nearest: u8,
    kind: u16,
    buffer: &mut [u8],
) -> i32
    ensures bytes { buffer.new ≡ buffer_written (query_written from.now to.now (is_yes nearest) kind (length buffer.old)) buffer.old }
    ensures code { result ≡ count_code (count_written (query_written from.now to.now (is_yes nearest) kind (length buffer.old))) }
{
    count_code(put_query(from, to, nearest != 0, kind, buffer))
}

/// Writes a response of services.
#[unsafe(no_mangle)]
pub extern "C" fn ipxr_write_sap(
    from: &AddressValues,
    to: &AddressValues,
    nearest: u8,
    services: &[ServiceEntry],
    buffer: &mut [u8],
) -> i32
    ensures bytes { buffer.new ≡ buffer_written (sap_written from.now to.now (is_yes nearest) services.now (length buffer.old)) buffer.old }
    ensures code { result ≡ count_code (count_written (sap_written from.now to.now (is_yes nearest) services.now (length buffer.old))) }
{
    count_code(put_sap(from, to, nearest != 0, services, buffer))
}

/// Writes a packet of any type and data, without a checksum.
#[unsafe(no_mangle)]
pub extern "C" fn ipxr_write_packet(
    from: &AddressValues,
    to: &AddressValues,
    kind: u8,
    control: u8,
    payload: &[u8],
    buffer: &mut [u8],
) -> i32
    ensures bytes { buffer.new ≡ buffer_written (packet_written from.now to.now kind control payload.now (length buffer.old)) buffer.old }
    ensures code { result ≡ count_code (count_written (packet_written from.now to.now kind control payload.now (length buffer.old))) }
{
    count_code(put_packet(from, to, kind, control, payload, buffer))
}

fn put_rip(
    from: &AddressValues,
    to: &AddressValues,
    operation: u16,
    values: &[RouteEntry],
    buffer: &mut [u8],
) -> Result<u16, Fault>
    ensures bytes { buffer.new ≡ buffer_written (rip_written from.now to.now operation values.now (length buffer.old)) buffer.old }
    ensures count { result ≡ count_written (rip_written from.now to.now operation values.now (length buffer.old)) }
{
    let operation = operation_of(operation).ok_or(Fault::Operation)?;
    check_count(values.len(), MOST_ENTRIES)?;
    let entries = entries_of(values);
    check_room(buffer, Header::SIZE + 2 + RipEntry::SIZE * values.len())?;
    let count = write_rip(
        address_of(from),
        address_of(to),
        operation,
        &entries,
        buffer,
    );
    Ok(count as u16)
}

fn put_query(
    from: &AddressValues,
    to: &AddressValues,
    nearest: bool,
    kind: u16,
    buffer: &mut [u8],
) -> Result<u16, Fault>
    ensures bytes { buffer.new ≡ buffer_written (query_written from.now to.now nearest kind (length buffer.old)) buffer.old }
    ensures count { result ≡ count_written (query_written from.now to.now nearest kind (length buffer.old)) }
{
    check_room(buffer, Header::SIZE + 4)?;
    let count = write_query(address_of(from), address_of(to), nearest, kind, buffer);
    Ok(count as u16)
}

fn put_sap(
    from: &AddressValues,
    to: &AddressValues,
    nearest: bool,
    values: &[ServiceEntry],
    buffer: &mut [u8],
) -> Result<u16, Fault>
    ensures bytes { buffer.new ≡ buffer_written (sap_written from.now to.now nearest values.now (length buffer.old)) buffer.old }
    ensures count { result ≡ count_written (sap_written from.now to.now nearest values.now (length buffer.old)) }
{
    check_count(values.len(), MOST_SERVICES)?;
    let services = services_of(values).ok_or(Fault::Name)?;
    check_room(buffer, Header::SIZE + 2 + SapEntry::SIZE * values.len())?;
    let count = write_sap(address_of(from), address_of(to), nearest, &services, buffer);
    Ok(count as u16)
}

fn put_packet(
    from: &AddressValues,
    to: &AddressValues,
    kind: u8,
    control: u8,
    payload: &[u8],
    buffer: &mut [u8],
) -> Result<u16, Fault>
    ensures bytes { buffer.new ≡ buffer_written (packet_written from.now to.now kind control payload.now (length buffer.old)) buffer.old }
    ensures count { result ≡ count_written (packet_written from.now to.now kind control payload.now (length buffer.old)) }
{
    if payload.len() > MOST_DATA {
        return Err(Fault::LongPacket);
    }
    let length = (Header::SIZE + payload.len()) as u16;
    check_room(buffer, usize::from(length))?;
    let header = Header {
        checksum: Header::NO_CHECKSUM,
        length,
        control,
        kind,
        destination: address_of(to),
        source: address_of(from),
    };
    put_parts(&header, payload, buffer);
    Ok(length)
}

/// Puts a header and data to the front of a buffer that has room for them.
fn put_parts(header: &Header, payload: &[u8], buffer: &mut [u8])
    requires { 30 + length payload.now ≤ length buffer.old }
    ensures bytes { buffer.new ≡ header_bytes header.now ++ payload.now ++ drop (30 + length payload.now) buffer.old }
    ensures size { length (header_bytes header.now) ≡ 30 }
{
    let (front, rest) = buffer.split_at_mut(Header::SIZE);
    header.write(front);
    put(rest, payload);
}

/// Refuses to write no entry, or more than a packet may have.
pub(crate) fn check_count(count: usize, most: usize) -> Result<(), Fault>
    ensures { result ≡ (if count == 0 then Err NoEntries else if nat_lt most count then Err ManyEntries else Ok tt) }
{
    if count == 0 {
        return Err(Fault::NoEntries);
    }
    if count > most {
        return Err(Fault::ManyEntries);
    }
    Ok(())
}

/// Refuses to write a packet of that size into a buffer that has no room for it.
pub(crate) fn check_room(buffer: &[u8], size: usize) -> Result<(), Fault>
    ensures { result ≡ (if nat_le size (length buffer.now) then Ok tt else Err ShortBuffer) }
{
    if size > buffer.len() {
        return Err(Fault::ShortBuffer);
    }
    Ok(())
}

fn operation_of(number: u16) -> Option<Operation>
    ensures { result ≡ operation_of number }
{
    match number {
        1 => Some(Operation::Request),
        2 => Some(Operation::Response),
        _ => None,
    }
}

pub(crate) fn address_of(values: &AddressValues) -> Address
    ensures { result ≡ address_of values.now }
{
    address_with(values.network, values.node, values.socket)
}

fn address_with(network: u32, node: [u8; 6], socket: u16) -> Address
    ensures { result ≡ address_with network node socket }
{
    Address {
        network: Network(network),
        node: Node(node),
        socket: Socket(socket),
    }
}

pub(crate) fn entries_of(values: &[RouteEntry]) -> ArrayVec<RipEntry, MOST_ENTRIES>
    requires { length values.now ≤ most_entries }
    ensures { result.items ≡ map entry_of values.now }
{
    let mut entries = ArrayVec::new();
    for value in values {
        entries.push(entry_of(value));
    }
    entries
}

fn entry_of(values: &RouteEntry) -> RipEntry
    ensures { result ≡ entry_of values.now }
{
    RipEntry {
        network: Network(values.network),
        hops: values.hops,
        ticks: values.ticks,
    }
}

/// The services, where each has a name.
pub(crate) fn services_of(values: &[ServiceEntry]) -> Option<ArrayVec<Service, MOST_SERVICES>>
    requires { length values.now ≤ most_services }
    ensures { option_map (λ services. services.items) result ≡ services_of values.now }
{
    let mut services = ArrayVec::new();
    for value in values {
        services.push(service_of(value)?);
    }
    Some(services)
}

/// The service, where it has a name.
#[tactic(auto, unfolding(ipx_wire::specs::Name::name_of))]
fn service_of(values: &ServiceEntry) -> Option<Service>
    ensures { result ≡ (if is_named values.now then Some (service_of values.now) else None) }
{
    let name = ServiceName::read(&values.name)?;
    Some(Service {
        kind: values.kind,
        name,
        address: address_with(values.network, values.node, values.socket),
        hops: values.hops,
    })
}
