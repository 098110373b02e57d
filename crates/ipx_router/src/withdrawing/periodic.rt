//! The periodic broadcast of a port: all that it advertises, and in its place among it what ended in this second.
ghost use Rattle.std.specs.Prelude.{◌+◌, ◌<◌, ◌≤◌, ◌++◌, length};
ghost use Rattle.std.specs.List.{AllByRecursion, flat_map};
ghost use Rattle.ipx_router.specs.inside.Ended.{RoutesAscend, ServicesAscend, ended_on, service_ended_on};
ghost use Rattle.ipx_router.specs.Facts.{offers};
ghost use Rattle.ipx_router.specs.Numbers.{most_ports};
ghost use Rattle.ipx_router.specs.Outbox.{Fits, Appends};
ghost use Rattle.ipx_router.specs.Sends.{rip_broadcast, sap_broadcast};
ghost use Rattle.ipx_router.specs.Told.{by_name, by_network, told, told_services};

use crate::advertising::broadcasts::{broadcast_routes, broadcast_services};
use crate::advertising::envelope::Envelope;
use crate::advertising::pages::{ENTRIES_A_PAGE, SERVICES_A_PAGE, add_item, send_rest};
use crate::advertising::told_routes::{ToldRoutes, list_direct};
use crate::advertising::told_services::ToldServices;
use crate::outbox::Outbox;
use crate::port::Port;
use crate::ports::addresses::port_of;
use crate::route_offer::RouteOffer;
use crate::service_offer::ServiceOffer;
use crate::withdrawing::ended::add_ended_before;
use arrayvec::ArrayVec;
use ipx_table::Table;
use ipx_wire::{RipEntry, Service};

/// Broadcasts on a port all routes, and among them those that ended, if any did.
pub(crate) fn broadcast_routes_with_ended<const R: usize>(
    outbox: &mut Outbox,
    ports: &[Port],
    up: &[u8],
    number: u8,
    table: &Table<RouteOffer, R>,
    ended: &[RouteOffer],
)
    requires port { number < length ports.now }
    requires ports { AllByRecursion (λ j. j < length ports.now) up.now }
    requires few { length up.now ≤ most_ports }
    requires ascends { RoutesAscend ended.now }
    requires room { Fits outbox.old (rip_broadcast ports.now number
        (by_network (told ports.now up.now (offers table.now.records) number ++ flat_map (ended_on number) ended.now))) }
    ensures { Appends outbox.old outbox.new (rip_broadcast ports.now number
        (by_network (told ports.now up.now (offers table.now.records) number ++ flat_map (ended_on number) ended.now))) }
{
    if ended.is_empty() {
        broadcast_routes(outbox, ports, up, table, number);
    } else {
        broadcast_merged_routes(outbox, ports, up, number, table, ended);
    }
}

/// Broadcasts on a port all services, and among them those that ended, if any did.
pub(crate) fn broadcast_services_with_ended<const S: usize>(
    outbox: &mut Outbox,
    ports: &[Port],
    number: u8,
    table: &Table<ServiceOffer, S>,
    ended_services: &[ServiceOffer],
)
    requires port { number < length ports.now }
    requires ascends { ServicesAscend ended_services.now }
    requires room { Fits outbox.old (sap_broadcast ports.now number
        (by_name (told_services (offers table.now.records) number ++ flat_map (service_ended_on number) ended_services.now))) }
    ensures { Appends outbox.old outbox.new (sap_broadcast ports.now number
        (by_name (told_services (offers table.now.records) number ++ flat_map (service_ended_on number) ended_services.now))) }
{
    if ended_services.is_empty() {
        broadcast_services(outbox, ports, table, number);
    } else {
        broadcast_merged_services(outbox, ports, number, table, ended_services);
    }
}

/// Broadcasts on a port all routes, merged with those that ended.
fn broadcast_merged_routes<const R: usize>(
    outbox: &mut Outbox,
    ports: &[Port],
    up: &[u8],
    number: u8,
    table: &Table<RouteOffer, R>,
    ended: &[RouteOffer],
)
    requires port { number < length ports.now }
    requires ports { AllByRecursion (λ j. j < length ports.now) up.now }
    requires few { length up.now ≤ most_ports }
    requires ascends { RoutesAscend ended.now }
    requires room { Fits outbox.old (rip_broadcast ports.now number
        (by_network (told ports.now up.now (offers table.now.records) number ++ flat_map (ended_on number) ended.now))) }
    ensures { Appends outbox.old outbox.new (rip_broadcast ports.now number
        (by_network (told ports.now up.now (offers table.now.records) number ++ flat_map (ended_on number) ended.now))) }
{
    let envelope = Envelope::routes_to_all(ports, number);
    let cost = port_of(ports, number).cost();
    let mut direct = ArrayVec::new();
    list_direct(&mut direct, ports, up, number, cost);
    let mut page: ArrayVec<RipEntry, ENTRIES_A_PAGE> = ArrayVec::new();
    let mut rest = ended;
    for entry in ToldRoutes::new(&direct, table, number, cost) {
        rest = add_ended_before(outbox, envelope, &mut page, rest, Some(&entry));
        add_item(outbox, envelope, &mut page, entry);
    }
    let _rest = add_ended_before(outbox, envelope, &mut page, rest, None);
    send_rest(outbox, envelope, &page);
}

/// Broadcasts on a port all services, merged with those that ended.
fn broadcast_merged_services<const S: usize>(
    outbox: &mut Outbox,
    ports: &[Port],
    number: u8,
    table: &Table<ServiceOffer, S>,
    ended_services: &[ServiceOffer],
)
    requires port { number < length ports.now }
    requires ascends { ServicesAscend ended_services.now }
    requires room { Fits outbox.old (sap_broadcast ports.now number
        (by_name (told_services (offers table.now.records) number ++ flat_map (service_ended_on number) ended_services.now))) }
    ensures { Appends outbox.old outbox.new (sap_broadcast ports.now number
        (by_name (told_services (offers table.now.records) number ++ flat_map (service_ended_on number) ended_services.now))) }
{
    let envelope = Envelope::services_to_all(ports, number);
    let mut page: ArrayVec<Service, SERVICES_A_PAGE> = ArrayVec::new();
    let mut rest = ended_services;
    for service in ToldServices::new(table, number) {
        rest = add_ended_before(outbox, envelope, &mut page, rest, Some(&service));
        add_item(outbox, envelope, &mut page, service);
    }
    let _rest = add_ended_before(outbox, envelope, &mut page, rest, None);
    send_rest(outbox, envelope, &page);
}
