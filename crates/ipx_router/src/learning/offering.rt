//! Offers the entries of a response to the table, in order, and notes what each of them changes.
ghost use Rattle.std.specs.Prelude.{◌≡◌, ◌+◌, ◌<◌, ◌≤◌, List, ◌++◌, ◌∷◌, [], Some, length, map, slice_get, take as front};
ghost use Rattle.ipx_table.specs.Facts.{Fact};
ghost use Rattle.ipx_table.specs.Reading.{rules_of};
ghost use Rattle.ipx_table.specs.Stands.{Stands};
ghost use Rattle.ipx_router.specs.Facts.{offers, route_offer as offer_as_heard, routes_offered, services_offered};
ghost use Rattle.ipx_router.specs.Routes.{network_order, route_rules};
ghost use Rattle.ipx_router.specs.Services.{service_order, service_reading};
ghost use Rattle.ipx_wire.specs.Numbers.{most_entries, most_services};
ghost use Rattle.ipx_wire.specs.declared.sap_entries.SapEntry.{SapEntry as SapEntryValue};
ghost use Rattle.ipx_router.specs.inside.Touched.{Touches};

use crate::judging::outgoing::takes_no_route;
use crate::learning::renewing::renews;
use crate::learning::touched::{Touched, take};
use crate::port::Port;
use crate::route_offer::RouteOffer;
use crate::service_offer::ServiceOffer;
use arrayvec::ArrayVec;
use ipx_table::Table;
use ipx_wire::{Node, Rip, RipEntry, SapEntries, SapEntry, Service};

/// The routes that a response touches.
pub(crate) type TouchedRoutes = ArrayVec<Touched<RouteOffer>, { RipEntry::MOST }>;

/// The services that a response touches.
pub(crate) type TouchedServices = ArrayVec<Touched<ServiceOffer>, { SapEntry::MOST }>;

/// Offers the entries of a response from that port and neighbour to the table. Returns what they touch.
// (this and the next one stand out of line: what they fill isn't on the stack any more when the changes are advertised)
#[inline(never)]
pub(crate) fn offer_routes<const R: usize>(
    table: &mut Table<RouteOffer, R>,
    ports: &[Port],
    number: u8,
    node: Node,
    rip: &Rip<'_>,
) -> TouchedRoutes
    requires shares { table.old.shares ≡ map (λ p. p.route_share) ports.now }
    ensures stands { (facts : List (Fact RouteOffer)) → Stands (route_rules ports.now R) table.old.records facts
        → Stands (route_rules ports.now R) table.new.records (facts ++ routes_offered ports.now number node rip.now.entries) }
    ensures shares { table.new.shares ≡ table.old.shares }
    ensures touches { Touches (λ r. r.network) network_order (offers table.old.records) (offers table.new.records) result.items }
{
    let mut touched = ArrayVec::new();
    for k in 0..rip.len() {
        offer_route(table, &mut touched, ports, number, node, rip.entry(k));
    }
    touched
}

/// Offers an entry, unless no route leads to its network.
fn offer_route<const R: usize>(
    table: &mut Table<RouteOffer, R>,
    touched: &mut TouchedRoutes,
    ports: &[Port],
    number: u8,
    node: Node,
    entry: RipEntry,
)
    requires shares { table.old.shares ≡ map (λ p. p.route_share) ports.now }
    requires room { length touched.old.items < most_entries }
    ensures stands { (facts : List (Fact RouteOffer)) → Stands (route_rules ports.now R) table.old.records facts
        → Stands (route_rules ports.now R) table.new.records (facts ++ routes_offered ports.now number node (entry ∷ [])) }
    ensures shares { table.new.shares ≡ table.old.shares }
    ensures touches { (before : List RouteOffer) → Touches (λ r. r.network) network_order before (offers table.old.records) touched.old.items
        → Touches (λ r. r.network) network_order before (offers table.new.records) touched.new.items }
    ensures few { length touched.new.items ≤ length touched.old.items + 1 }
{
    if takes_no_route(ports, entry.network) {
        return;
    }
    take(table, touched, &route_offer(number, node, entry));
}

/// Offers the entries of a response from that port and neighbour to the table, but for those without a name, and for the `first`
/// ones, which were renewed; the one behind these couldn't be, so that isn't tried again. Puts down what they touch where the caller
/// keeps it, so that it isn't copied.
#[inline(never)]
pub(crate) fn offer_services<const S: usize>(
    table: &mut Table<ServiceOffer, S>,
    touched: &mut TouchedServices,
    number: u8,
    node: Node,
    entries: &SapEntries<'_>,
    first: usize,
)
    requires first { first ≤ length entries.now }
    requires none { touched.old.items ≡ [] }
    ensures stands { let rules = rules_of service_reading service_order S table.old.shares in (facts : List (Fact ServiceOffer))
        → Stands rules table.old.records (facts ++ services_offered number node (front first entries.now))
        → Stands rules table.new.records (facts ++ services_offered number node entries.now) }
    ensures shares { table.new.shares ≡ table.old.shares }
    ensures touches { Touches (λ s. (s.service.kind, s.service.name)) service_order (offers table.old.records) (offers table.new.records) touched.new.items }
{
    for k in first..entries.len() {
        take_entry(table, touched, number, node, entries, k, k > first);
    }
}

/// Renews the service of an entry, if the table may have just this one, or offers the entry.
fn take_entry<const S: usize>(
    table: &mut Table<ServiceOffer, S>,
    touched: &mut TouchedServices,
    number: u8,
    node: Node,
    entries: &SapEntries<'_>,
    k: usize,
    may_be_known: bool,
)
    requires within { k < length entries.now }
    requires room { length touched.old.items < most_services }
    ensures stands { (entry : SapEntryValue) → slice_get entries.now k ≡ Some entry
        → let rules = rules_of service_reading service_order S table.old.shares in (facts : List (Fact ServiceOffer))
        → Stands rules table.old.records facts → Stands rules table.new.records (facts ++ services_offered number node (entry ∷ [])) }
    ensures shares { table.new.shares ≡ table.old.shares }
    ensures touches { (before : List ServiceOffer)
        → Touches (λ s. (s.service.kind, s.service.name)) service_order before (offers table.old.records) touched.old.items
        → Touches (λ s. (s.service.kind, s.service.name)) service_order before (offers table.new.records) touched.new.items }
    ensures few { length touched.new.items ≤ length touched.old.items + 1 }
{
    if may_be_known && renews(table, number, node, entries.bytes_from(k)) {
        return;
    }
    offer_service(table, touched, number, node, &entries.entry(k));
}

/// Offers an entry, if it has a name.
fn offer_service<const S: usize>(
    table: &mut Table<ServiceOffer, S>,
    touched: &mut TouchedServices,
    number: u8,
    node: Node,
    entry: &SapEntry,
)
    requires room { length touched.old.items < most_services }
    ensures stands { let rules = rules_of service_reading service_order S table.old.shares in (facts : List (Fact ServiceOffer))
        → Stands rules table.old.records facts → Stands rules table.new.records (facts ++ services_offered number node (entry.now ∷ [])) }
    ensures shares { table.new.shares ≡ table.old.shares }
    ensures touches { (before : List ServiceOffer)
        → Touches (λ s. (s.service.kind, s.service.name)) service_order before (offers table.old.records) touched.old.items
        → Touches (λ s. (s.service.kind, s.service.name)) service_order before (offers table.new.records) touched.new.items }
    ensures few { length touched.new.items ≤ length touched.old.items + 1 }
{
    if let Some(name) = &entry.name {
        let offer = ServiceOffer {
            service: Service {
                kind: entry.kind,
                name: *name,
                address: entry.address,
                hops: entry.hops,
            },
            port: number,
            node,
        };
        take(table, touched, &offer);
    }
}

/// An entry as an offer, as it was heard.
fn route_offer(number: u8, node: Node, entry: RipEntry) -> RouteOffer
    ensures { result ≡ offer_as_heard number node entry }
{
    RouteOffer {
        network: entry.network,
        hops: entry.hops,
        ticks: entry.ticks,
        port: number,
        node,
    }
}
