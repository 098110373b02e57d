//! What is sent at a stop: all that was advertised, as unreachable.
ghost use Rattle.std.specs.Prelude.{◌<◌, ◌≤◌, length};
ghost use Rattle.std.specs.List.{AllByRecursion, flat_map};
ghost use Rattle.ipx_router.specs.Facts.{offers};
ghost use Rattle.ipx_router.specs.Numbers.{most_ports};
ghost use Rattle.ipx_router.specs.Outbox.{Fits, Appends};
ghost use Rattle.ipx_router.specs.Sends.{stop_on};

use crate::advertising::broadcasts::{withdraw_routes, withdraw_services};
use crate::outbox::Outbox;
use crate::port::Port;
use crate::route_offer::RouteOffer;
use crate::service_offer::ServiceOffer;
use ipx_table::Table;

/// Sends on a port what is sent at a stop.
fn send_stop_on<const R: usize, const S: usize>(
    outbox: &mut Outbox,
    ports: &[Port],
    up: &[u8],
    routes: &Table<RouteOffer, R>,
    services: &Table<ServiceOffer, S>,
    number: u8,
)
    requires port { number < length ports.now }
    requires ports { AllByRecursion (λ j. j < length ports.now) up.now }
    requires few { length up.now ≤ most_ports }
    requires room { Fits outbox.old (stop_on ports.now (record { up = up.now; routes = offers routes.now.records; services = offers services.now.records }) number) }
    ensures { Appends outbox.old outbox.new (stop_on ports.now (record { up = up.now; routes = offers routes.now.records; services = offers services.now.records }) number) }
{
    withdraw_routes(outbox, ports, up, routes, number);
    withdraw_services(outbox, ports, services, number);
}

/// Sends what is sent at a stop, on all ports that are up.
pub(crate) fn send_stop<const R: usize, const S: usize>(
    outbox: &mut Outbox,
    ports: &[Port],
    up: &[u8],
    routes: &Table<RouteOffer, R>,
    services: &Table<ServiceOffer, S>,
)
    requires ports { AllByRecursion (λ j. j < length ports.now) up.now }
    requires few { length up.now ≤ most_ports }
    requires room { Fits outbox.old (flat_map (stop_on ports.now (record { up = up.now; routes = offers routes.now.records; services = offers services.now.records })) up.now) }
    ensures { Appends outbox.old outbox.new (flat_map (stop_on ports.now (record { up = up.now; routes = offers routes.now.records; services = offers services.now.records })) up.now) }
{
    for &number in up {
        send_stop_on(outbox, ports, up, routes, services, number);
    }
}
