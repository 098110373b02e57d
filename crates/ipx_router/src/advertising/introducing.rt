//! What is sent where ports come up: on the port itself what it advertises and asks for, on each other port its network.
ghost use Rattle.std.specs.Prelude.{◌<◌, ◌≤◌, [], ◌∷◌, length};
ghost use Rattle.std.specs.List.{AllByRecursion, flat_map};
ghost use Rattle.ipx_router.specs.Facts.{offers};
ghost use Rattle.ipx_router.specs.Numbers.{most_ports};
ghost use Rattle.ipx_router.specs.Outbox.{Fits, Appends};
ghost use Rattle.ipx_router.specs.Port.{port_at};
ghost use Rattle.ipx_router.specs.Sends.{introduction, port_up_on, rip_broadcast};
ghost use Rattle.ipx_router.specs.Told.{told_at, direct_entry};

use crate::advertising::broadcasts::{broadcast_routes, broadcast_services};
use crate::advertising::envelope::Envelope;
use crate::advertising::hops::{direct_entry, told_at};
use crate::advertising::item::Item;
use crate::advertising::requests::{query_services, request_routes};
use crate::outbox::Outbox;
use crate::port::Port;
use crate::ports::addresses::port_of;
use crate::route_offer::RouteOffer;
use crate::service_offer::ServiceOffer;
use ipx_table::Table;
use ipx_wire::RipEntry;

/// Sends what a port that comes up advertises, a request for all routes, and a query for all services.
pub(crate) fn introduce<const R: usize, const S: usize>(
    outbox: &mut Outbox,
    ports: &[Port],
    up: &[u8],
    routes: &Table<RouteOffer, R>,
    services: &Table<ServiceOffer, S>,
    number: u8,
)
    requires port { number < length ports.now }
    requires ports { AllByRecursion (λ j. j < length ports.now) up.now }
    requires few { length up.now ≤ most_ports }
    requires room { Fits outbox.old (introduction ports.now up.now (offers routes.now.records) (offers services.now.records) number) }
    ensures { Appends outbox.old outbox.new (introduction ports.now up.now (offers routes.now.records) (offers services.now.records) number) }
{
    broadcast_routes(outbox, ports, up, routes, number);
    request_routes(outbox, ports, number);
    broadcast_services(outbox, ports, services, number);
    query_services(outbox, ports, number);
}

/// Introduces all ports that are up.
pub(crate) fn introduce_all<const R: usize, const S: usize>(
    outbox: &mut Outbox,
    ports: &[Port],
    up: &[u8],
    routes: &Table<RouteOffer, R>,
    services: &Table<ServiceOffer, S>,
)
    requires ports { AllByRecursion (λ j. j < length ports.now) up.now }
    requires few { length up.now ≤ most_ports }
    requires room { Fits outbox.old (flat_map (introduction ports.now up.now (offers routes.now.records) (offers services.now.records)) up.now) }
    ensures { Appends outbox.old outbox.new (flat_map (introduction ports.now up.now (offers routes.now.records) (offers services.now.records)) up.now) }
{
    for &number in up {
        introduce(outbox, ports, up, routes, services, number);
    }
}

/// Broadcasts on a port the network of another one.
fn announce(outbox: &mut Outbox, ports: &[Port], port: u8, number: u8)
    requires port { port < length ports.now }
    requires number { number < length ports.now }
    requires room { Fits outbox.old (rip_broadcast ports.now number (told_at (port_at ports.now number).cost (direct_entry ports.now port) ∷ [])) }
    ensures { Appends outbox.old outbox.new (rip_broadcast ports.now number (told_at (port_at ports.now number).cost (direct_entry ports.now port) ∷ [])) }
{
    let envelope = Envelope::routes_to_all(ports, number);
    let entry = told_at(port_of(ports, number).cost(), direct_entry(ports, port));
    RipEntry::send_page(outbox, envelope, &[entry]);
}

/// Sends on a port what is sent where one comes up.
fn send_up_on<const R: usize, const S: usize>(
    outbox: &mut Outbox,
    ports: &[Port],
    up: &[u8],
    routes: &Table<RouteOffer, R>,
    services: &Table<ServiceOffer, S>,
    port: u8,
    number: u8,
)
    requires port { port < length ports.now }
    requires number { number < length ports.now }
    requires ports { AllByRecursion (λ j. j < length ports.now) up.now }
    requires few { length up.now ≤ most_ports }
    requires room { Fits outbox.old (port_up_on ports.now (record { up = up.now; routes = offers routes.now.records; services = offers services.now.records }) port number) }
    ensures { Appends outbox.old outbox.new (port_up_on ports.now (record { up = up.now; routes = offers routes.now.records; services = offers services.now.records }) port number) }
{
    if number == port {
        introduce(outbox, ports, up, routes, services, number);
    } else {
        announce(outbox, ports, port, number);
    }
}

/// Sends what is sent where a port came up, which is among those that are up.
pub(crate) fn send_port_up<const R: usize, const S: usize>(
    outbox: &mut Outbox,
    ports: &[Port],
    up: &[u8],
    routes: &Table<RouteOffer, R>,
    services: &Table<ServiceOffer, S>,
    port: u8,
)
    requires port { port < length ports.now }
    requires ports { AllByRecursion (λ j. j < length ports.now) up.now }
    requires few { length up.now ≤ most_ports }
    requires room { Fits outbox.old (flat_map (port_up_on ports.now (record { up = up.now; routes = offers routes.now.records; services = offers services.now.records }) port) up.now) }
    ensures { Appends outbox.old outbox.new (flat_map (port_up_on ports.now (record { up = up.now; routes = offers routes.now.records; services = offers services.now.records }) port) up.now) }
{
    for &number in up {
        send_up_on(outbox, ports, up, routes, services, port, number);
    }
}
