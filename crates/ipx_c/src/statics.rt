//! Routes and services in the name of a neighbour that says nothing itself, as C writes them. They need no router.
ghost use Rattle.std.specs.Prelude.{◌≡◌, length};
ghost use Rattle.ipx_c.specs.Statics.{routes_written, services_written, Writes};
ghost use Rattle.ipx_c.specs.TunnelValues.{node_of};
ghost use Rattle.ipx_c.specs.Writes.{buffer_written, count_written};

use crate::code::{count_code, fault_code};
use crate::fault::Fault;
use crate::making::port_of;
use crate::values::{PortValues, RouteEntry, ServiceEntry};
use crate::writing::{
    MOST_ENTRIES, MOST_SERVICES, check_count, check_room, entries_of, services_of,
};
use ipx_edge::{write_static_routes, write_static_services};
use ipx_router::Port;
use ipx_wire::{Header, Node, RipEntry, SapEntry};

/// Writes a response of routes from a node to all routers on the port's network.
#[unsafe(no_mangle)]
pub extern "C" fn ipxr_edge_write_routes(
    port: &PortValues,
    node: &[u8; 6],
    routes: &[RouteEntry],
    buffer: &mut [u8],
) -> i32
    ensures { Writes port.now (λ p. routes_written p (node_of node.now) routes.now (length buffer.old)) buffer.old buffer.new result }
{
    match port_of(port) {
        Ok(port) => count_code(put_routes(&port, Node(*node), routes, buffer)),
        Err(fault) => fault_code(Fault::Port(fault)),
    }
}

/// Writes a general response of services from a node to all servers and routers on the port's network.
#[unsafe(no_mangle)]
pub extern "C" fn ipxr_edge_write_services(
    port: &PortValues,
    node: &[u8; 6],
    services: &[ServiceEntry],
    buffer: &mut [u8],
) -> i32
    ensures { Writes port.now (λ p. services_written p (node_of node.now) services.now (length buffer.old)) buffer.old buffer.new result }
{
    match port_of(port) {
        Ok(port) => count_code(put_services(&port, Node(*node), services, buffer)),
        Err(fault) => fault_code(Fault::Port(fault)),
    }
}

fn put_routes(
    port: &Port,
    node: Node,
    values: &[RouteEntry],
    buffer: &mut [u8],
) -> Result<u16, Fault>
    ensures bytes { buffer.new ≡ buffer_written (routes_written port.now node values.now (length buffer.old)) buffer.old }
    ensures count { result ≡ count_written (routes_written port.now node values.now (length buffer.old)) }
{
    check_count(values.len(), MOST_ENTRIES)?;
    let entries = entries_of(values);
    check_room(buffer, Header::SIZE + 2 + RipEntry::SIZE * values.len())?;
    let count = write_static_routes(port, node, &entries, buffer);
    Ok(count as u16)
}

fn put_services(
    port: &Port,
    node: Node,
    values: &[ServiceEntry],
    buffer: &mut [u8],
) -> Result<u16, Fault>
    ensures bytes { buffer.new ≡ buffer_written (services_written port.now node values.now (length buffer.old)) buffer.old }
    ensures count { result ≡ count_written (services_written port.now node values.now (length buffer.old)) }
{
    check_count(values.len(), MOST_SERVICES)?;
    let services = services_of(values).ok_or(Fault::Name)?;
    check_room(buffer, Header::SIZE + 2 + SapEntry::SIZE * values.len())?;
    let count = write_static_services(port, node, &services, buffer);
    Ok(count as u16)
}
