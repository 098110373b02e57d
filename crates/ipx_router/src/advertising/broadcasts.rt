//! Whole broadcasts of one port: all that it advertises, or all of it as unreachable.
ghost use Rattle.std.specs.Prelude.{◌<◌, ◌≤◌, length, map};
ghost use Rattle.std.specs.List.{AllByRecursion};
ghost use Rattle.ipx_router.specs.Facts.{offers};
ghost use Rattle.ipx_router.specs.Numbers.{most_ports};
ghost use Rattle.ipx_router.specs.Outbox.{Fits, Appends};
ghost use Rattle.ipx_router.specs.Sends.{rip_broadcast, sap_broadcast};
ghost use Rattle.ipx_router.specs.Told.{told, told_services, dead, dead_service};

use crate::advertising::envelope::Envelope;
use crate::advertising::selection::{Selection, ServiceSelection};
use crate::advertising::told::{send_routes, send_services};
use crate::outbox::Outbox;
use crate::port::Port;
use crate::route_offer::RouteOffer;
use crate::service_offer::ServiceOffer;
use ipx_table::Table;

/// Broadcasts the routes that a port advertises.
pub(crate) fn broadcast_routes<const R: usize>(
    outbox: &mut Outbox,
    ports: &[Port],
    up: &[u8],
    routes: &Table<RouteOffer, R>,
    number: u8,
)
    requires port { number < length ports.now }
    requires ports { AllByRecursion (λ j. j < length ports.now) up.now }
    requires few { length up.now ≤ most_ports }
    requires room { Fits outbox.old (rip_broadcast ports.now number (told ports.now up.now (offers routes.now.records) number)) }
    ensures { Appends outbox.old outbox.new (rip_broadcast ports.now number (told ports.now up.now (offers routes.now.records) number)) }
{
    let envelope = Envelope::routes_to_all(ports, number);
    send_routes(outbox, envelope, ports, up, routes, Selection::All);
}

/// Broadcasts the routes that a port advertises, as unreachable.
pub(crate) fn withdraw_routes<const R: usize>(
    outbox: &mut Outbox,
    ports: &[Port],
    up: &[u8],
    routes: &Table<RouteOffer, R>,
    number: u8,
)
    requires port { number < length ports.now }
    requires ports { AllByRecursion (λ j. j < length ports.now) up.now }
    requires few { length up.now ≤ most_ports }
    requires room { Fits outbox.old (rip_broadcast ports.now number (map dead (told ports.now up.now (offers routes.now.records) number))) }
    ensures { Appends outbox.old outbox.new (rip_broadcast ports.now number (map dead (told ports.now up.now (offers routes.now.records) number))) }
{
    let envelope = Envelope::routes_to_all(ports, number);
    send_routes(outbox, envelope, ports, up, routes, Selection::Dead);
}

/// Broadcasts the services that a port advertises.
pub(crate) fn broadcast_services<const S: usize>(
    outbox: &mut Outbox,
    ports: &[Port],
    services: &Table<ServiceOffer, S>,
    number: u8,
)
    requires port { number < length ports.now }
    requires room { Fits outbox.old (sap_broadcast ports.now number (told_services (offers services.now.records) number)) }
    ensures { Appends outbox.old outbox.new (sap_broadcast ports.now number (told_services (offers services.now.records) number)) }
{
    let envelope = Envelope::services_to_all(ports, number);
    send_services(outbox, envelope, services, ServiceSelection::All);
}

/// Broadcasts the services that a port advertises, as unreachable.
pub(crate) fn withdraw_services<const S: usize>(
    outbox: &mut Outbox,
    ports: &[Port],
    services: &Table<ServiceOffer, S>,
    number: u8,
)
    requires port { number < length ports.now }
    requires room { Fits outbox.old (sap_broadcast ports.now number (map dead_service (told_services (offers services.now.records) number))) }
    ensures { Appends outbox.old outbox.new (sap_broadcast ports.now number (map dead_service (told_services (offers services.now.records) number))) }
{
    let envelope = Envelope::services_to_all(ports, number);
    send_services(outbox, envelope, services, ServiceSelection::Dead);
}
