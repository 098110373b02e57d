//! Advertises changes at once: each on every port that is up, but not on that of the route or service itself.
ghost use Rattle.std.specs.Prelude.{◌≡◌, ℕ, ◌+◌, ◌*◌, ◌<◌, ◌≤◌, ◌==◌, if◌then◌else◌, [], ◌∷◌, ◌++◌, length, map, take, drop, false};
ghost use Rattle.std.specs.List.{AllByRecursion, flat_map};
ghost use Rattle.std.specs.Option.{option_to_list};
ghost use Rattle.ipx_wire.specs.Put.{PutsAt};
ghost use Rattle.ipx_wire.specs.Write.{rip_packet};
ghost use Rattle.ipx_wire.specs.declared.rip.Operation.TheVariants.{Response};
ghost use Rattle.ipx_router.specs.News.{route_now, route_told, service_now, service_told};
ghost use Rattle.ipx_router.specs.Numbers.{entries_a_page, services_a_page, most_own_length};
ghost use Rattle.ipx_router.specs.Outbox.{HasRoom, Appends};
ghost use Rattle.ipx_router.specs.Port.{port_at};
ghost use Rattle.ipx_router.specs.Sends.{rip_broadcast, sap_broadcast};
ghost use Rattle.ipx_router.specs.inside.Putting.{IsPage, PutsAfter, PutsServices, no_port};
ghost use Rattle.ipx_router.specs.inside.Touched.{change_of};

use crate::advertising::envelope::Envelope;
use crate::advertising::hops::{dead, entry_of, is_reached_on, told_at};
use crate::advertising::item::Item;
use crate::advertising::pages::{ENTRIES_A_PAGE, SERVICES_A_PAGE, SERVICES_AT};
use crate::advertising::service_source::ServiceSource;
use crate::learning::touched::Touched;
use crate::outbox::Outbox;
use crate::port::Port;
use crate::ports::addresses::port_of;
use crate::route_offer::RouteOffer;
use crate::service_offer::ServiceOffer;
use arrayvec::ArrayVec;
use ipx_wire::{Address, RipEntry, SapEntry, put_service};

/// How many bytes a page of services has, with the place for a front.
const PAGE: usize = SERVICES_AT + SapEntry::SIZE * SERVICES_A_PAGE;

/// No port has this number.
const NO_PORT: u16 = 256;

/// Advertises changed routes on the ports that are up, in at most a packet each.
pub(crate) fn advertise_route_changes(
    outbox: &mut Outbox,
    ports: &[Port],
    up: &[u8],
    changes: &[Touched<RouteOffer>],
)
    requires ports { AllByRecursion (λ j. j < length ports.now) up.now }
    requires few { length changes.now ≤ entries_a_page }
    requires room { HasRoom outbox.old (length up.now) (length up.now * most_own_length) }
    ensures { Appends outbox.old outbox.new (flat_map (λ j. rip_broadcast ports.now j (flat_map (route_told ports.now j) (map change_of changes.now))) up.now) }
{
    if changes.is_empty() {
        return;
    }
    for &number in up {
        broadcast_route_changes(outbox, ports, number, changes);
    }
}

/// Advertises changed services on the ports that are up, in at most a packet each.
pub(crate) fn advertise_service_changes(
    outbox: &mut Outbox,
    ports: &[Port],
    up: &[u8],
    changes: &[Touched<ServiceOffer>],
)
    requires ports { AllByRecursion (λ j. j < length ports.now) up.now }
    requires few { length changes.now ≤ services_a_page }
    requires room { HasRoom outbox.old (length up.now) (length up.now * most_own_length) }
    ensures { Appends outbox.old outbox.new (flat_map (λ j. sap_broadcast ports.now j (flat_map (service_told j) (map change_of changes.now))) up.now) }
{
    if changes.is_empty() {
        return;
    }
    let mut page = [0; PAGE];
    let (count, _) = put_changes(changes, NO_PORT, &mut page);
    for &number in up {
        broadcast_service_changes(outbox, ports, number, changes, count, &page);
    }
}

/// Broadcasts changed routes on one port, in at most one packet.
fn broadcast_route_changes(
    outbox: &mut Outbox,
    ports: &[Port],
    number: u8,
    changes: &[Touched<RouteOffer>],
)
    requires port { number < length ports.now }
    requires few { length changes.now ≤ entries_a_page }
    requires room { HasRoom outbox.old 1 most_own_length }
    ensures sent { Appends outbox.old outbox.new (rip_broadcast ports.now number (flat_map (route_told ports.now number) (map change_of changes.now))) }
    ensures left { (packets bytes : ℕ) → HasRoom outbox.old (packets + 1) (bytes + most_own_length) → HasRoom outbox.new packets bytes }
{
    let page = news_routes(ports, number, changes);
    broadcast_page(outbox, ports, number, &page);
}

/// Broadcasts changed services on one port, in at most one packet. Unless one of them was learned there, this has all that `page` has.
fn broadcast_service_changes(
    outbox: &mut Outbox,
    ports: &[Port],
    number: u8,
    changes: &[Touched<ServiceOffer>],
    count: usize,
    page: &[u8],
)
    requires port { number < length ports.now }
    requires few { length changes.now ≤ services_a_page }
    requires page { IsPage (flat_map (service_told no_port) (map change_of changes.now)) count page.now }
    requires room { HasRoom outbox.old 1 most_own_length }
    ensures sent { Appends outbox.old outbox.new (sap_broadcast ports.now number (flat_map (service_told number) (map change_of changes.now))) }
    ensures left { (packets bytes : ℕ) → HasRoom outbox.old (packets + 1) (bytes + most_own_length) → HasRoom outbox.new packets bytes }
{
    let envelope = Envelope::services_to_all(ports, number);
    if has_learned(changes, number) {
        let number = u16::from(number);
        outbox.append_services(envelope, &mut Changed { changes, number });
    } else {
        let mut written = Written {
            changes,
            count,
            page,
        };
        outbox.append_services(envelope, &mut written);
    }
}

/// Whether one of the changed services was learned on a port.
fn has_learned(changes: &[Touched<ServiceOffer>], number: u8) -> bool
    ensures { result ≡ false → flat_map (service_told number) (map change_of changes.now) ≡ flat_map (service_told no_port) (map change_of changes.now) }
{
    for change in changes {
        if is_learned(change, number) {
            return true;
        }
    }
    false
}

/// Whether a changed service was learned on a port.
fn is_learned(change: &Touched<ServiceOffer>, number: u8) -> bool
    ensures { result ≡ false → service_told number (change_of change.now) ≡ service_told no_port (change_of change.now) }
{
    if let Some(offer) = &change.after {
        return offer.port == number;
    }
    if let Some(offer) = &change.before {
        return offer.port == number;
    }
    false
}

/// Broadcasts a page of entries on a port, if there is any.
fn broadcast_page(
    outbox: &mut Outbox,
    ports: &[Port],
    number: u8,
    page: &ArrayVec<RipEntry, ENTRIES_A_PAGE>,
)
    requires port { number < length ports.now }
    requires room { HasRoom outbox.old 1 most_own_length }
    ensures sent { Appends outbox.old outbox.new (rip_broadcast ports.now number page.now.items) }
    ensures left { (packets bytes : ℕ) → HasRoom outbox.old (packets + 1) (bytes + most_own_length) → HasRoom outbox.new packets bytes }
{
    if page.is_empty() {
        return;
    }
    let envelope = Envelope::routes_to_all(ports, number);
    proves_routes_fit(envelope.from, envelope.to, page);
    RipEntry::send_page(outbox, envelope, page);
}

/// A page of entries makes no packet that is longer than an own one may be.
fn proves_routes_fit(from: Address, to: Address, page: &[RipEntry])
    requires { length page.now ≤ entries_a_page }
    ensures { length (rip_packet from to Response page.now) ≤ most_own_length }
{
    ipx_wire::laws::sizes();
}

/// Changed routes as a port advertises them, by network.
fn news_routes(
    ports: &[Port],
    number: u8,
    changes: &[Touched<RouteOffer>],
) -> ArrayVec<RipEntry, ENTRIES_A_PAGE>
    requires port { number < length ports.now }
    requires few { length changes.now ≤ entries_a_page }
    ensures { result.items ≡ flat_map (route_told ports.now number) (map change_of changes.now) }
{
    let mut page = ArrayVec::new();
    for change in changes {
        push_some(&mut page, news_route(ports, number, change));
    }
    page
}

/// What is left of changed services, on a port.
#[derive(Drop)]
struct Changed<'a> {
    changes: &'a [Touched<ServiceOffer>],
    number: u16,
}

impl<'a> ServiceSource for Changed<'a> {
    ghost use Rattle.std.specs.Prelude.{map};
    ghost use Rattle.std.specs.List.{flat_map};
    ghost use Rattle.ipx_router.specs.News.{service_told};
    ghost use Rattle.ipx_router.specs.Numbers.{most_own_length};
    ghost use Rattle.ipx_router.specs.inside.Touched.{change_of};

    ghost left = { λ c. flat_map (service_told c.number) (map change_of c.changes.now) };

    ghost needs = { λ c. most_own_length };

    fn put(&mut self, out: &mut [u8]) -> usize {
        let (count, rest) = put_changes(self.changes, self.number, out);
        self.changes = rest;
        count
    }
}

/// What is left of changed services that stand on a page, as they are advertised on each port where none of them was learned.
#[derive(Drop)]
struct Written<'a> {
    changes: &'a [Touched<ServiceOffer>],
    count: usize,
    page: &'a [u8],
    ghost whole: { IsPage (flat_map (service_told no_port) (map change_of changes.now)) count page.now },
}

impl<'a> ServiceSource for Written<'a> {
    ghost use Rattle.std.specs.Prelude.{map};
    ghost use Rattle.std.specs.List.{flat_map};
    ghost use Rattle.ipx_router.specs.News.{service_told};
    ghost use Rattle.ipx_router.specs.Numbers.{most_own_length};
    ghost use Rattle.ipx_router.specs.inside.Putting.{no_port};
    ghost use Rattle.ipx_router.specs.inside.Touched.{change_of};

    ghost left = { λ w. flat_map (service_told no_port) (map change_of w.changes.now) };

    ghost needs = { λ w. most_own_length };

    fn put(&mut self, out: &mut [u8]) -> usize {
        let count = self.count;
        copy_page(out, self.page, count);
        self.changes = &[];
        self.count = 0;
        count
    }
}

/// Copies that many services from a page to a packet, behind the place for its front.
fn copy_page(out: &mut [u8], page: &[u8], count: usize)
    requires page { 32 + 64 * count ≤ length page.now }
    requires room { 32 + 64 * count ≤ length out.old }
    ensures { PutsAt out.old 32 (take (64 * count) (drop 32 page.now)) out.new }
{
    let (_, behind) = page.split_at(SERVICES_AT);
    let (services, _) = behind.split_at(SapEntry::SIZE * count);
    copy_bytes(out, SERVICES_AT, services);
}

/// Copies bytes to a place.
fn copy_bytes(out: &mut [u8], place: usize, bytes: &[u8])
    requires { place + length bytes.now ≤ length out.old }
    ensures { PutsAt out.old place bytes.now out.new }
{
    out[place..place + bytes.len()].copy_from_slice(bytes);
}

/// Writes changed services as a port advertises them, each to its place in a packet, until it is full. Returns how many they are, and
/// what is left of the changes.
fn put_changes<'a>(
    changes: &'a [Touched<ServiceOffer>],
    number: u16,
    out: &mut [u8],
) -> (usize, &'a [Touched<ServiceOffer>])
    requires room { most_own_length ≤ length out.old }
    ensures puts { PutsServices (flat_map (service_told number) (map change_of changes.entry.now)) (flat_map (service_told number) (map change_of result.1.now))
        result.0 out.old out.new }
    ensures few { result.0 ≤ services_a_page }
    ensures last { result.0 < services_a_page → result.1.now ≡ [] }
{
    let mut rest = changes;
    let mut count = 0;
    while count < SERVICES_A_PAGE {
        let Some((change, others)) = rest.split_first() else {
            return (count, rest);
        };
        count = put_change(out, count, number, change);
        rest = others;
    }
    (count, rest)
}

/// A changed route as a port advertises it: as it is now or, where it ended, as unreachable.
fn news_route(ports: &[Port], number: u8, change: &Touched<RouteOffer>) -> Option<RipEntry>
    requires { number < length ports.now }
    ensures { option_to_list result ≡ route_told ports.now number (change_of change.now) }
{
    if let Some(route) = change.after {
        return elsewhere(number, route.port, route_now(ports, number, route));
    }
    let route = change.before?;
    elsewhere(number, route.port, dead(entry_of(&route)))
}

/// Writes a changed service behind `count` others as a port advertises it, and returns how many there are then: as it is now or, where
/// it ended, as unreachable at the address that it had.
fn put_change(out: &mut [u8], count: usize, number: u16, change: &Touched<ServiceOffer>) -> usize
    requires room { most_own_length ≤ length out.old }
    requires few { count < services_a_page }
    ensures puts { PutsAfter count (service_told number (change_of change.now)) result out.old out.new }
{
    if let Some(offer) = &change.after {
        return put_elsewhere(out, count, number, offer, hops_now(offer));
    }
    if let Some(offer) = &change.before {
        return put_elsewhere(out, count, number, offer, RipEntry::UNREACHABLE);
    }
    count
}

/// Split horizon: writes a service with that number of hops, but not where the port is that of its offer.
fn put_elsewhere(
    out: &mut [u8],
    count: usize,
    number: u16,
    offer: &ServiceOffer,
    hops: u16,
) -> usize
    requires room { most_own_length ≤ length out.old }
    requires few { count < services_a_page }
    ensures puts { PutsAfter count (if offer.now.port == number then [] else (record offer.now.service { hops = hops }) ∷ []) result out.old out.new }
{
    if u16::from(offer.port) == number {
        return count;
    }
    let place = SERVICES_AT + SapEntry::SIZE * count;
    put_service(out, place, &offer.service, hops);
    count + 1
}

/// A route as a port advertises it; unreachable where the next router couldn't use it.
fn route_now(ports: &[Port], number: u8, route: RouteOffer) -> RipEntry
    requires { number < length ports.now }
    ensures { result ≡ route_now (port_at ports.now number) route }
{
    if is_reached_on(route.hops) {
        told_at(port_of(ports, number).cost(), entry_of(&route))
    } else {
        dead(entry_of(&route))
    }
}

/// The hops with which a service is advertised; unreachable where the next router couldn't use it.
fn hops_now(offer: &ServiceOffer) -> u16
    ensures { (record offer.now.service { hops = result }) ≡ service_now offer.now }
{
    if is_reached_on(offer.service.hops) {
        offer.service.hops + 1
    } else {
        RipEntry::UNREACHABLE
    }
}

/// Split horizon: nothing on the port where it was learned.
fn elsewhere<T: Drop>(number: u8, learned: u8, item: T) -> Option<T>
    ensures { option_to_list result ≡ (if learned == number then [] else item ∷ []) }
{
    if learned == number { None } else { Some(item) }
}

/// Puts an item on a page, if there is one.
fn push_some<T: Drop, const MOST: usize>(page: &mut ArrayVec<T, MOST>, item: Option<T>)
    requires room { length page.old.items < MOST }
    ensures value { page.new.items ≡ page.old.items ++ option_to_list item }
    ensures few { length page.new.items ≤ length page.old.items + 1 }
{
    if let Some(item) = item {
        page.push(item);
    }
}
