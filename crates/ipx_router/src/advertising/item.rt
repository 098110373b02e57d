//! The two kinds of item that are advertised: entries of routes, and services.
ghost use Rattle.std.specs.Prelude.{◌≡◌, ◌≤◌, [], ◌∷◌, length};
ghost use Rattle.ipx_router.specs.Outbox.{Fits, Appends};

use crate::advertising::envelope::Envelope;
use crate::advertising::hops::{dead, dead_service, entry_of};
use crate::outbox::Outbox;
use crate::route_offer::RouteOffer;
use crate::service_offer::ServiceOffer;
use ipx_table::Offer;
use ipx_wire::{Operation, RipEntry, Service};

/// What a response carries, a page a packet; in its order, which is that of the offers that tables keep of it.
pub(crate) trait Item: Copy + Default {
    ghost use Rattle.std.specs.Prelude.{ℕ, List, Bool};
    ghost use Rattle.std.specs.declared.cmp.Ordering.{Ordering};
    ghost use Rattle.ipx_router.specs.Relays.{Sent};
    ghost use Rattle.ipx_router.specs.declared.advertising.envelope.Envelope.{Envelope};

    /// What a table keeps of it.
    type Kept;

    /// How many items a packet has at most.
    ghost most: { ℕ };

    /// The packet with a page of them.
    ghost packet: { Envelope → List Self → Sent };

    /// The orders of offers and of items.
    ghost by_key: { Self.Kept → Self.Kept → Ordering };

    ghost comes_before: { Self → Self → Bool };

    /// The port where an offer was learned, and the item that it is once it ended.
    ghost port: { Self.Kept → ℕ };

    ghost ended: { Self.Kept → Self };

    /// Sends a page.
    fn send_page(outbox: &mut Outbox, envelope: Envelope, page: &[Self])
        requires some { 1 ≤ length page.now }
        requires most { length page.now ≤ most }
        requires room { Fits outbox.old (packet envelope page.now ∷ []) }
        ensures { Appends outbox.old outbox.new (packet envelope page.now ∷ []) };

    /// The number of the port where the offer was learned.
    fn port(offer: &Self::Kept) -> u8
        ensures { result ≡ port offer.now };

    /// The offer as an item that is unreachable.
    fn ended(offer: &Self::Kept) -> Self
        ensures { result ≡ ended offer.now };

    /// Whether the offer comes before that item.
    fn is_before(offer: &Self::Kept, item: &Self) -> bool
        ensures { result ≡ comes_before (ended offer.now) item.now };
}

impl Item for RipEntry {
    ghost use Rattle.ipx_router.specs.Numbers.{entries_a_page};
    ghost use Rattle.ipx_router.specs.Told.{network_before};
    ghost use Rattle.ipx_router.specs.inside.Ended.{by_route, dead_route};
    ghost use Rattle.ipx_router.specs.inside.Envelope.{entries_in};

    type Kept = RouteOffer;

    ghost most = { entries_a_page };

    ghost packet = { entries_in };

    ghost by_key = { by_route };

    ghost comes_before = { network_before };

    ghost port = { λ route. route.port };

    ghost ended = { dead_route };

    fn send_page(outbox: &mut Outbox, envelope: Envelope, page: &[RipEntry]) {
        outbox.append_rip(
            envelope.port,
            envelope.from,
            envelope.to,
            Operation::Response,
            page,
        );
    }

    fn port(route: &RouteOffer) -> u8 {
        route.port
    }

    fn ended(route: &RouteOffer) -> RipEntry {
        dead(entry_of(route))
    }

    fn is_before(route: &RouteOffer, entry: &RipEntry) -> bool {
        route.network < entry.network
    }
}

impl Item for Service {
    ghost use Rattle.std.specs.Prelude.{false};
    ghost use Rattle.ipx_router.specs.Numbers.{services_a_page};
    ghost use Rattle.ipx_router.specs.Told.{name_before};
    ghost use Rattle.ipx_router.specs.inside.Ended.{by_service, dead_offer};
    ghost use Rattle.ipx_router.specs.inside.Envelope.{services_in};

    type Kept = ServiceOffer;

    ghost most = { services_a_page };

    ghost packet = { services_in false };

    ghost by_key = { by_service };

    ghost comes_before = { name_before };

    ghost port = { λ offer. offer.port };

    ghost ended = { dead_offer };

    fn send_page(outbox: &mut Outbox, envelope: Envelope, page: &[Service]) {
        outbox.append_sap(envelope.port, envelope.from, envelope.to, false, page);
    }

    fn port(offer: &ServiceOffer) -> u8 {
        offer.port
    }

    fn ended(offer: &ServiceOffer) -> Service {
        dead_service(offer.service)
    }

    fn is_before(offer: &ServiceOffer, service: &Service) -> bool {
        offer.key() < (service.kind, service.name)
    }
}
