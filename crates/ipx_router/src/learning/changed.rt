//! What changed, of all that an event touched: the keys whose offers differ from those that they had before it.
ghost use Rattle.std.specs.Prelude.{◌≡◌, Bool, List, map};
ghost use Rattle.ipx_router.specs.Changes.{changes, same_or_none};
ghost use Rattle.ipx_router.specs.News.{same_route, same_service};
ghost use Rattle.ipx_router.specs.Routes.{network_order};
ghost use Rattle.ipx_router.specs.Services.{service_order};
ghost use Rattle.ipx_router.specs.inside.Touched.{Touches, change_of};

use crate::learning::offering::{TouchedRoutes, TouchedServices};
use crate::learning::touched::Touched;
use crate::route_offer::RouteOffer;
use crate::service_offer::ServiceOffer;
use arrayvec::ArrayVec;
use ipx_table::Offer;

/// Keeps what an event changed, of what it touched, by key.
pub(crate) fn keep_changes<O: Offer, const MOST: usize>(touched: &mut ArrayVec<Touched<O>, MOST>)
    ensures { (same : O → O → Bool) → ((a b : O) → O.eq a b ≡ same a b)
        → (before now : List O) → Touches O.reading.key O.Key.cmp before now touched.old.items
        → map change_of touched.new.items ≡ changes O.reading.key O.Key.cmp same before now }
{
    touched.retain(|one| !is_same(&one.before, &one.after));
}

/// Whether a key has the offer that it had.
fn is_same<O: Offer>(before: &Option<O>, after: &Option<O>) -> bool
    ensures { result ≡ same_or_none O.reading.key O.Key.cmp O.eq before.now after.now }
{
    match (before, after) {
        (None, None) => true,
        (Some(before), Some(after)) => *before == *after,
        _ => false,
    }
}

/// Keeps what a response changed of the routes, by network.
// (out of line, as `offer_routes` is, and so is the next one)
#[inline(never)]
pub(crate) fn keep_changed_routes(touched: &mut TouchedRoutes)
    ensures { (before now : List RouteOffer) → Touches (λ r. r.network) network_order before now touched.old.items
        → map change_of touched.new.items ≡ changes (λ r. r.network) network_order same_route before now }
{
    keep_changes(touched);
}

/// Keeps what a response changed of the services, by type and name.
#[inline(never)]
pub(crate) fn keep_changed_services(touched: &mut TouchedServices)
    ensures { (before now : List ServiceOffer) → Touches (λ s. (s.service.kind, s.service.name)) service_order before now touched.old.items
        → map change_of touched.new.items ≡ changes (λ s. (s.service.kind, s.service.name)) service_order same_service before now }
{
    keep_changes(touched);
}
