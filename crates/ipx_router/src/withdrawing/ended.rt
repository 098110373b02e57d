//! What ended, item by item: on a port where it wasn't learned, as unreachable, alone or in its place among other items.
ghost use Rattle.std.specs.Prelude.{◌≡◌, ◌<◌, ◌≤◌, List, [], ◌∷◌, ◌++◌, length, drop};
ghost use Rattle.std.specs.List.{flat_map, prefix_len};
ghost use Rattle.ipx_table.specs.Stands.{Ascends};
ghost use Rattle.ipx_router.specs.Outbox.{Fits, Appends};
ghost use Rattle.ipx_router.specs.Sends.{rip_broadcast, sap_broadcast};
ghost use Rattle.ipx_router.specs.Sorted.{put_all};
ghost use Rattle.ipx_router.specs.Told.{by_network};
ghost use Rattle.ipx_router.specs.inside.Ended.{AreInOrder, RoutesAscend, ServicesAscend, ended_as, ended_on, ends_before, lent, service_ended_on};
ghost use Rattle.ipx_router.specs.inside.Owed.{Pays, owed};
ghost use Rattle.ipx_router.specs.inside.Sources.{first_then};

use crate::advertising::envelope::Envelope;
use crate::advertising::item::Item;
use crate::advertising::pages::{ENTRIES_A_PAGE, SERVICES_A_PAGE, add_item, send_rest};
use crate::outbox::Outbox;
use crate::port::Port;
use crate::route_offer::RouteOffer;
use crate::service_offer::ServiceOffer;
use arrayvec::ArrayVec;
use ipx_wire::{RipEntry, Service};

/// Broadcasts on a port the routes that ended.
pub(crate) fn broadcast_ended(outbox: &mut Outbox, ports: &[Port], number: u8, ended: &[RouteOffer])
    requires port { number < length ports.now }
    requires ascends { RoutesAscend ended.now }
    requires room { Fits outbox.old (rip_broadcast ports.now number (flat_map (ended_on number) ended.now)) }
    ensures { Appends outbox.old outbox.new (rip_broadcast ports.now number (flat_map (ended_on number) ended.now)) }
{
    let envelope = Envelope::routes_to_all(ports, number);
    let mut page: ArrayVec<RipEntry, ENTRIES_A_PAGE> = ArrayVec::new();
    let _rest = add_ended_before(outbox, envelope, &mut page, ended, None);
    send_rest(outbox, envelope, &page);
}

/// Broadcasts on a port the services that ended.
pub(crate) fn broadcast_ended_services(
    outbox: &mut Outbox,
    ports: &[Port],
    number: u8,
    ended_services: &[ServiceOffer],
)
    requires port { number < length ports.now }
    requires ascends { ServicesAscend ended_services.now }
    requires room { Fits outbox.old (sap_broadcast ports.now number (flat_map (service_ended_on number) ended_services.now)) }
    ensures { Appends outbox.old outbox.new (sap_broadcast ports.now number (flat_map (service_ended_on number) ended_services.now)) }
{
    let envelope = Envelope::services_to_all(ports, number);
    let mut page: ArrayVec<Service, SERVICES_A_PAGE> = ArrayVec::new();
    let _rest = add_ended_before(outbox, envelope, &mut page, ended_services, None);
    send_rest(outbox, envelope, &page);
}

/// Broadcasts on a port the routes that ended, and in its place among them one entry more.
pub(crate) fn broadcast_ended_with(
    outbox: &mut Outbox,
    ports: &[Port],
    number: u8,
    ended: &[RouteOffer],
    entry: RipEntry,
)
    requires port { number < length ports.now }
    requires ascends { RoutesAscend ended.now }
    requires room { Fits outbox.old (rip_broadcast ports.now number (by_network (entry ∷ flat_map (ended_on number) ended.now))) }
    ensures { Appends outbox.old outbox.new (rip_broadcast ports.now number (by_network (entry ∷ flat_map (ended_on number) ended.now))) }
{
    let envelope = Envelope::routes_to_all(ports, number);
    let mut page: ArrayVec<RipEntry, ENTRIES_A_PAGE> = ArrayVec::new();
    let rest = add_ended_before(outbox, envelope, &mut page, ended, Some(&entry));
    add_item(outbox, envelope, &mut page, entry);
    let _rest = add_ended_before(outbox, envelope, &mut page, rest, None);
    send_rest(outbox, envelope, &page);
}

/// Adds what ended and comes before the item that waits; all of it, where none waits. Returns what is left of it.
pub(crate) fn add_ended_before<'a, X: Item, const PAGE: usize>(
    outbox: &mut Outbox,
    envelope: Envelope,
    page: &mut ArrayVec<X, PAGE>,
    ended: &'a [X::Kept],
    waiting: Option<&X>,
) -> &'a [X::Kept]
    requires some { 1 ≤ PAGE }
    requires most { PAGE ≤ X.most }
    requires order { AreInOrder X.by_key X.comes_before X.ended }
    requires ascends { Ascends X.by_key ended.now }
    requires room { (later : List X) × Fits outbox.old (owed PAGE (X.packet envelope) page.old.items
        (put_all X.comes_before (first_then (lent waiting) later) (flat_map (ended_as X.port X.ended envelope.port) ended.now))) }
    ensures pays { (later : List X) → Pays outbox.old outbox.new
        (owed PAGE (X.packet envelope) page.old.items
        (put_all X.comes_before (first_then (lent waiting.entry) later) (flat_map (ended_as X.port X.ended envelope.port) ended.now)))
        (owed PAGE (X.packet envelope) page.new.items
        (first_then (lent waiting.entry) (put_all X.comes_before later (flat_map (ended_as X.port X.ended envelope.port) result.now)))) }
    ensures left { result.now ≡ drop (prefix_len (ends_before X.comes_before X.ended (lent waiting.entry)) ended.now) ended.now }
    ensures ascends { Ascends X.by_key result.now }
{
    let mut rest = ended;
    while let Some((offer, others)) = rest.split_first() {
        if !is_next(offer, waiting) {
            return rest;
        }
        add_ended(outbox, envelope, page, offer);
        rest = others;
    }
    rest
}

/// Whether the offer comes before the item that waits; each does, where none waits.
fn is_next<X: Item>(offer: &X::Kept, waiting: Option<&X>) -> bool
    ensures { result ≡ ends_before X.comes_before X.ended (lent waiting.entry) offer.now }
{
    match waiting {
        None => true,
        Some(item) => X::is_before(offer, item),
    }
}

/// Adds the offer as unreachable, but on the port where it was learned.
fn add_ended<X: Item, const PAGE: usize>(
    outbox: &mut Outbox,
    envelope: Envelope,
    page: &mut ArrayVec<X, PAGE>,
    offer: &X::Kept,
)
    requires some { 1 ≤ PAGE }
    requires most { PAGE ≤ X.most }
    requires room { (rest : List X) × Fits outbox.old (owed PAGE (X.packet envelope) page.old.items (ended_as X.port X.ended envelope.port offer.now ++ rest)) }
    ensures { (rest : List X) → Pays outbox.old outbox.new
        (owed PAGE (X.packet envelope) page.old.items (ended_as X.port X.ended envelope.port offer.now ++ rest))
        (owed PAGE (X.packet envelope) page.new.items rest) }
{
    if X::port(offer) != envelope.port {
        add_item(outbox, envelope, page, X::ended(offer));
    }
}
