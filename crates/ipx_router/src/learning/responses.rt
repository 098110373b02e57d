//! Learns what a response offers: its entries are offers to a table, and what they change of it is advertised at once.
ghost use Rattle.std.specs.Prelude.{◌≡◌, ◌*◌, ◌<◌, List, ◌++◌, length, map};
ghost use Rattle.std.specs.List.{AllByRecursion, flat_map};
ghost use Rattle.ipx_table.specs.Facts.{Fact};
ghost use Rattle.ipx_table.specs.Stands.{Stands};
ghost use Rattle.ipx_router.specs.Facts.{offers, routes_offered, services_offered};
ghost use Rattle.ipx_router.specs.Numbers.{most_own_length};
ghost use Rattle.ipx_router.specs.Outbox.{HasRoom, Appends};
ghost use Rattle.ipx_router.specs.Routes.{route_rules};
ghost use Rattle.ipx_router.specs.Sends.{news_on};
ghost use Rattle.ipx_router.specs.Services.{service_rules};

use crate::learning::changed::{keep_changed_routes, keep_changed_services};
use crate::learning::news::{advertise_route_changes, advertise_service_changes};
use crate::learning::offering::{offer_routes, offer_services};
use crate::learning::renewing::renew_services;
use crate::outbox::Outbox;
use crate::port::Port;
use crate::route_offer::RouteOffer;
use crate::service_offer::ServiceOffer;
use arrayvec::ArrayVec;
use ipx_table::Table;
use ipx_wire::{Node, Rip, SapEntries};

/// Learns from a response of routing information of a neighbour on a port. The services stay as they are.
pub(crate) fn learn_routes<const R: usize>(
    table: &mut Table<RouteOffer, R>,
    ports: &[Port],
    up: &[u8],
    number: u8,
    node: Node,
    rip: &Rip<'_>,
    outbox: &mut Outbox,
)
    requires shares { table.old.shares ≡ map (λ p. p.route_share) ports.now }
    requires ports { AllByRecursion (λ j. j < length ports.now) up.now }
    requires room { HasRoom outbox.old (length up.now) (length up.now * most_own_length) }
    ensures stands { (facts : List (Fact RouteOffer)) → Stands (route_rules ports.now R) table.old.records facts
        → Stands (route_rules ports.now R) table.new.records (facts ++ routes_offered ports.now number node rip.now.entries) }
    ensures shares { table.new.shares ≡ table.old.shares }
    ensures sent { (services : List ServiceOffer) → Appends outbox.old outbox.new (flat_map (news_on ports.now
        (record { up = up.now; routes = offers table.old.records; services = services })
        (record { up = up.now; routes = offers table.new.records; services = services })) up.now) }
{
    let mut touched = offer_routes(table, ports, number, node, rip);
    if touched.is_empty() {
        return;
    }
    keep_changed_routes(&mut touched);
    advertise_route_changes(outbox, ports, up, &touched);
}

/// Learns from a response of service advertising of a neighbour on a port. The routes stay as they are.
pub(crate) fn learn_services<const S: usize>(
    table: &mut Table<ServiceOffer, S>,
    ports: &[Port],
    up: &[u8],
    number: u8,
    node: Node,
    entries: &SapEntries<'_>,
    outbox: &mut Outbox,
)
    requires shares { table.old.shares ≡ map (λ p. p.service_share) ports.now }
    requires ports { AllByRecursion (λ j. j < length ports.now) up.now }
    requires room { HasRoom outbox.old (length up.now) (length up.now * most_own_length) }
    ensures stands { (facts : List (Fact ServiceOffer)) → Stands (service_rules ports.now S) table.old.records facts
        → Stands (service_rules ports.now S) table.new.records (facts ++ services_offered number node entries.now) }
    ensures shares { table.new.shares ≡ table.old.shares }
    ensures sent { (routes : List RouteOffer) → Appends outbox.old outbox.new (flat_map (news_on ports.now
        (record { up = up.now; routes = routes; services = offers table.old.records })
        (record { up = up.now; routes = routes; services = offers table.new.records })) up.now) }
{
    let renewed = renew_services(table, number, node, entries);
    if renewed >= entries.len() {
        return;
    }
    let mut touched = ArrayVec::new();
    offer_services(table, &mut touched, number, node, entries, renewed);
    if touched.is_empty() {
        return;
    }
    keep_changed_services(&mut touched);
    advertise_service_changes(outbox, ports, up, &touched);
}
