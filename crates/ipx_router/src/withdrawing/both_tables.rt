//! Both tables at once: what a second or the end of a port ends in them, advertised on the ports that are up.
ghost use Rattle.std.specs.Prelude.{◌≡◌, ◌<◌, ◌≤◌, List, [], ◌∷◌, ◌++◌, length, true, false};
ghost use Rattle.std.specs.List.{AllByRecursion, flat_map, list_any};
ghost use Rattle.ipx_table.specs.Facts.{Fact, Second, PortEnd};
ghost use Rattle.ipx_table.specs.Reading.{rules_of};
ghost use Rattle.ipx_table.specs.Stands.{Stands, IsAscending, second_later, is_last, without_port};
ghost use Rattle.ipx_router.specs.inside.Ended.{RoutesAscend, ServicesAscend};
ghost use Rattle.ipx_router.specs.inside.EndedSends.{ended_sends, periodic_sends, all_sends, down_sends, second_sends, port_down_sends};
ghost use Rattle.ipx_router.specs.Facts.{offers};
ghost use Rattle.ipx_router.specs.Numbers.{most_ports};
ghost use Rattle.ipx_router.specs.Outbox.{Fits, Appends};
ghost use Rattle.ipx_router.specs.Routes.{network_order, route_reading, route_rules};
ghost use Rattle.ipx_router.specs.Services.{service_order, service_reading, service_rules};

use crate::advertising::hops::{dead, direct_entry};
use crate::outbox::Outbox;
use crate::port::Port;
use crate::route_offer::RouteOffer;
use crate::service_offer::ServiceOffer;
use crate::withdrawing::ended::{broadcast_ended, broadcast_ended_services, broadcast_ended_with};
use crate::withdrawing::periodic::{broadcast_routes_with_ended, broadcast_services_with_ended};
use ipx_table::Table;

/// Lets a second pass in both tables, and advertises on the ports that are up what expired: alone, or, at a periodic second,
/// among all that they advertise.
pub(crate) fn pass_second<const R: usize, const S: usize>(
    outbox: &mut Outbox,
    ports: &[Port],
    up: &[u8],
    routes: &mut Table<RouteOffer, R>,
    services: &mut Table<ServiceOffer, S>,
    periodic: bool,
)
    requires ports { AllByRecursion (λ j. j < length ports.now) up.now }
    requires few { length up.now ≤ most_ports }
    requires room { Fits outbox.old (second_sends ports.now up.now routes.old.records services.old.records periodic) }
    ensures routes { routes.new.records ≡ second_later routes.old.records }
    ensures services { services.new.records ≡ second_later services.old.records }
    ensures routes_stand { (facts : List (Fact RouteOffer)) → Stands (rules_of route_reading network_order R routes.old.shares) routes.old.records facts
        → Stands (rules_of route_reading network_order R routes.old.shares) routes.new.records (facts ++ Second ∷ []) }
    ensures services_stand { (facts : List (Fact ServiceOffer)) → Stands (rules_of service_reading service_order S services.old.shares) services.old.records facts
        → Stands (rules_of service_reading service_order S services.old.shares) services.new.records (facts ++ Second ∷ []) }
    ensures route_shares { routes.new.shares ≡ routes.old.shares }
    ensures service_shares { services.new.shares ≡ services.old.shares }
    ensures sends { Appends outbox.old outbox.new (second_sends ports.now up.now routes.old.records services.old.records periodic) }
{
    proves_by_key(routes, services);
    if is_quiet(routes, services, periodic) {
        routes.pass();
        services.pass();
        return;
    }
    routes.second_in_place();
    services.second_in_place();
    advertise_second(outbox, ports, up, routes, services, periodic);
    routes.clear_ended();
    services.clear_ended();
}

/// Whether nothing is advertised in the next second: it isn't a periodic one, and nothing expires in it.
fn is_quiet<const R: usize, const S: usize>(
    routes: &Table<RouteOffer, R>,
    services: &Table<ServiceOffer, S>,
    periodic: bool,
) -> bool
    ensures ordinary { result ≡ true → periodic ≡ false }
    ensures routes { result ≡ true → list_any is_last routes.now.records ≡ false }
    ensures services { result ≡ true → list_any is_last services.now.records ≡ false }
{
    !periodic && !routes.expires() && !services.expires()
}

/// Ends in both tables what came by a port that goes down, and advertises that, and the port's network as unreachable, on
/// the ports that stay up.
pub(crate) fn end_port<const R: usize, const S: usize>(
    outbox: &mut Outbox,
    ports: &[Port],
    up: &[u8],
    routes: &mut Table<RouteOffer, R>,
    services: &mut Table<ServiceOffer, S>,
    port: u8,
)
    requires port { port < length ports.now }
    requires ports { AllByRecursion (λ j. j < length ports.now) up.now }
    requires room { Fits outbox.old (port_down_sends ports.now up.now routes.old.records services.old.records port) }
    ensures routes { routes.new.records ≡ without_port (λ r. r.port) port routes.old.records }
    ensures services { services.new.records ≡ without_port (λ s. s.port) port services.old.records }
    ensures routes_stand { (facts : List (Fact RouteOffer)) → Stands (rules_of route_reading network_order R routes.old.shares) routes.old.records facts
        → Stands (rules_of route_reading network_order R routes.old.shares) routes.new.records (facts ++ PortEnd port ∷ []) }
    ensures services_stand { (facts : List (Fact ServiceOffer)) → Stands (rules_of service_reading service_order S services.old.shares) services.old.records facts
        → Stands (rules_of service_reading service_order S services.old.shares) services.new.records (facts ++ PortEnd port ∷ []) }
    ensures route_shares { routes.new.shares ≡ routes.old.shares }
    ensures service_shares { services.new.shares ≡ services.old.shares }
    ensures sends { Appends outbox.old outbox.new (port_down_sends ports.now up.now routes.old.records services.old.records port) }
{
    proves_by_key(routes, services);
    routes.end_port_in_place(port);
    services.end_port_in_place(port);
    advertise_down(outbox, ports, up, port, routes.ended(), services.ended());
    routes.clear_ended();
    services.clear_ended();
}

/// Advertises on the ports that are up what the tables' second ended: alone, or, at a periodic second, among all that they
/// advertise.
// (out of line, so that its room on the stack isn't there yet while the tables part what ends from what stays)
#[inline(never)]
fn advertise_second<const R: usize, const S: usize>(
    outbox: &mut Outbox,
    ports: &[Port],
    up: &[u8],
    routes: &Table<RouteOffer, R>,
    services: &Table<ServiceOffer, S>,
    periodic: bool,
)
    requires ports { AllByRecursion (λ j. j < length ports.now) up.now }
    requires few { length up.now ≤ most_ports }
    requires routes_ascend { RoutesAscend routes.now.ended }
    requires services_ascend { ServicesAscend services.now.ended }
    requires room { Fits outbox.old (all_sends ports.now routes.now.ended services.now.ended up.now (offers routes.now.records) (offers services.now.records) periodic) }
    ensures { Appends outbox.old outbox.new
        (all_sends ports.now routes.now.ended services.now.ended up.now (offers routes.now.records) (offers services.now.records) periodic) }
{
    let ended = routes.ended();
    let ended_services = services.ended();
    if periodic {
        advertise_all(outbox, ports, up, routes, services, ended, ended_services);
    } else {
        advertise_ended(outbox, ports, up, ended, ended_services);
    }
}

/// Advertises on the ports that are up what ended.
fn advertise_ended(
    outbox: &mut Outbox,
    ports: &[Port],
    up: &[u8],
    ended: &[RouteOffer],
    ended_services: &[ServiceOffer],
)
    requires ports { AllByRecursion (λ j. j < length ports.now) up.now }
    requires routes_ascend { RoutesAscend ended.now }
    requires services_ascend { ServicesAscend ended_services.now }
    requires room { Fits outbox.old (flat_map (ended_sends ports.now ended.now ended_services.now) up.now) }
    ensures { Appends outbox.old outbox.new (flat_map (ended_sends ports.now ended.now ended_services.now) up.now) }
{
    for &number in up {
        broadcast_ended(outbox, ports, number, ended);
        broadcast_ended_services(outbox, ports, number, ended_services);
    }
}

/// Advertises on the ports that are up all that they advertise, and among it what ended.
fn advertise_all<const R: usize, const S: usize>(
    outbox: &mut Outbox,
    ports: &[Port],
    up: &[u8],
    routes: &Table<RouteOffer, R>,
    services: &Table<ServiceOffer, S>,
    ended: &[RouteOffer],
    ended_services: &[ServiceOffer],
)
    requires ports { AllByRecursion (λ j. j < length ports.now) up.now }
    requires few { length up.now ≤ most_ports }
    requires routes_ascend { RoutesAscend ended.now }
    requires services_ascend { ServicesAscend ended_services.now }
    requires room { Fits outbox.old (flat_map (periodic_sends ports.now ended.now ended_services.now up.now (offers routes.now.records) (offers services.now.records)) up.now) }
    ensures { Appends outbox.old outbox.new (flat_map (periodic_sends ports.now ended.now ended_services.now up.now (offers routes.now.records) (offers services.now.records)) up.now) }
{
    for &number in up {
        broadcast_routes_with_ended(outbox, ports, up, number, routes, ended);
        broadcast_services_with_ended(outbox, ports, number, services, ended_services);
    }
}

/// Advertises on the ports that are up what ended, and the network of the port that went down as unreachable.
// (out of line, as `advertise_second` is)
#[inline(never)]
fn advertise_down(
    outbox: &mut Outbox,
    ports: &[Port],
    up: &[u8],
    port: u8,
    ended: &[RouteOffer],
    ended_services: &[ServiceOffer],
)
    requires port { port < length ports.now }
    requires ports { AllByRecursion (λ j. j < length ports.now) up.now }
    requires routes_ascend { RoutesAscend ended.now }
    requires services_ascend { ServicesAscend ended_services.now }
    requires room { Fits outbox.old (flat_map (down_sends ports.now ended.now ended_services.now port) up.now) }
    ensures { Appends outbox.old outbox.new (flat_map (down_sends ports.now ended.now ended_services.now port) up.now) }
{
    let network = dead(direct_entry(ports, port));
    for &number in up {
        broadcast_ended_with(outbox, ports, number, ended, network);
        broadcast_ended_services(outbox, ports, number, ended_services);
    }
}

/// The records of a table stand by key: its type says so, and a call of this says it to a proof.
fn proves_by_key<const R: usize, const S: usize>(
    routes: &Table<RouteOffer, R>,
    services: &Table<ServiceOffer, S>,
)
    ensures routes { IsAscending (route_rules [] R).by_key routes.now.records }
    ensures services { IsAscending (service_rules [] S).by_key services.now.records }
{
    let _routes = routes.len();
    let _services = services.len();
}
