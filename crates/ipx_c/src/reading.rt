//! What C reads of a router.
ghost use Rattle.std.specs.Prelude.{◌≡◌, Some};
ghost use Rattle.ipx_c.specs.Reads.{running_code, up_code, route_count, service_count, route_at, service_at, route_after, service_after, read_code};
ghost use Rattle.ipx_c.specs.Values.{route_record, service_record};

use crate::code::{DONE, fault_code};
use crate::fault::Fault;
use crate::handle::{RouterHandle, put_in, taken_out};
use crate::machine::Machine;
use crate::values::{RouteRecord, ServiceRecord};
use ipx_router::{RouteOffer, ServiceOffer};
use ipx_table::Held;
use std::alloc::Global;

/// Whether the router runs.
#[unsafe(no_mangle)]
pub extern "C" fn ipxr_is_running(alloc: Global, handle: &mut RouterHandle) -> i32
    ensures kept { handle.new.cell.machine ≡ handle.old.cell.machine }
    ensures code { result ≡ running_code handle.old.cell.machine }
{
    let Some(machine) = taken_out(alloc, handle) else {
        return fault_code(Fault::NoRouter);
    };
    let answer = i32::from(machine.router.is_running());
    put_in(handle, machine);
    answer
}

/// Whether a port is up.
#[unsafe(no_mangle)]
pub extern "C" fn ipxr_is_up(alloc: Global, handle: &mut RouterHandle, port: u8) -> i32
    ensures kept { handle.new.cell.machine ≡ handle.old.cell.machine }
    ensures code { result ≡ up_code handle.old.cell.machine port }
{
    let Some(machine) = taken_out(alloc, handle) else {
        return fault_code(Fault::NoRouter);
    };
    let answer = up_code(&machine, port);
    put_in(handle, machine);
    answer
}

fn up_code(machine: &Machine, port: u8) -> i32
    ensures { result ≡ up_code (Some machine.now) port }
{
    if machine.router.has_port(port) {
        i32::from(machine.router.is_up(port))
    } else {
        fault_code(Fault::NoPort)
    }
}

/// How many routes there are.
#[unsafe(no_mangle)]
pub extern "C" fn ipxr_routes(alloc: Global, handle: &mut RouterHandle) -> usize
    ensures kept { handle.new.cell.machine ≡ handle.old.cell.machine }
    ensures count { result ≡ route_count handle.old.cell.machine }
{
    let Some(machine) = taken_out(alloc, handle) else {
        return 0;
    };
    let count = machine.router.routes();
    put_in(handle, machine);
    count
}

/// How many services there are.
#[unsafe(no_mangle)]
pub extern "C" fn ipxr_services(alloc: Global, handle: &mut RouterHandle) -> usize
    ensures kept { handle.new.cell.machine ≡ handle.old.cell.machine }
    ensures count { result ≡ service_count handle.old.cell.machine }
{
    let Some(machine) = taken_out(alloc, handle) else {
        return 0;
    };
    let count = machine.router.services();
    put_in(handle, machine);
    count
}

/// Copies a route.
#[unsafe(no_mangle)]
pub extern "C" fn ipxr_route(
    alloc: Global,
    handle: &mut RouterHandle,
    index: usize,
    route: &mut RouteRecord,
) -> i32
    ensures kept { handle.new.cell.machine ≡ handle.old.cell.machine }
    ensures copied { route.new ≡ route_after (route_at handle.old.cell.machine index) route.old }
    ensures code { result ≡ read_code (route_at handle.old.cell.machine index) }
{
    let Some(machine) = taken_out(alloc, handle) else {
        return fault_code(Fault::NoRouter);
    };
    let found = machine.router.route_at(index);
    put_in(handle, machine);
    let Some(held) = found else {
        return fault_code(Fault::NoRecord);
    };
    *route = route_record(held);
    DONE
}

/// Copies a service.
#[unsafe(no_mangle)]
pub extern "C" fn ipxr_service(
    alloc: Global,
    handle: &mut RouterHandle,
    index: usize,
    service: &mut ServiceRecord,
) -> i32
    ensures kept { handle.new.cell.machine ≡ handle.old.cell.machine }
    ensures copied { service.new ≡ service_after (service_at handle.old.cell.machine index) service.old }
    ensures code { result ≡ read_code (service_at handle.old.cell.machine index) }
{
    let Some(machine) = taken_out(alloc, handle) else {
        return fault_code(Fault::NoRouter);
    };
    let found = machine.router.service_at(index);
    put_in(handle, machine);
    let Some(held) = found else {
        return fault_code(Fault::NoRecord);
    };
    *service = service_record(held);
    DONE
}

fn route_record(held: Held<RouteOffer>) -> RouteRecord
    ensures { result ≡ route_record held }
{
    let route = held.offer;
    let node = route.node.0;
    RouteRecord {
        network: route.network.0,
        hops: route.hops,
        ticks: route.ticks,
        node,
        port: route.port,
        age: held.age,
    }
}

fn service_record(held: Held<ServiceOffer>) -> ServiceRecord
    ensures { result ≡ service_record held }
{
    let offer = held.offer;
    let service = offer.service;
    let name = service.name.field();
    let node = service.address.node.0;
    let neighbour = offer.node.0;
    ServiceRecord {
        name,
        network: service.address.network.0,
        node,
        socket: service.address.socket.0,
        kind: service.kind,
        hops: service.hops,
        neighbour,
        port: offer.port,
        age: held.age,
    }
}
