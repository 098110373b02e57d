//! The answer to a query for the nearest service: one service at most, found in one pass over the table.
ghost use Rattle.std.specs.Prelude.{◌≡◌, ◌<◌, true, List, [], ◌∷◌, ◌++◌};
ghost use Rattle.std.specs.Option.{option_to_list};
ghost use Rattle.std.specs.Ordering.{is_lt, nat_cmp, ordering_then};
ghost use Rattle.ipx_wire.specs.Name.{name_order};
ghost use Rattle.ipx_wire.specs.declared.service.Service.{Service};
ghost use Rattle.ipx_router.specs.Facts.{offers};
ghost use Rattle.ipx_router.specs.Numbers.{services_a_page, unreachable};
ghost use Rattle.ipx_router.specs.Outbox.{Fits, Appends};
ghost use Rattle.ipx_router.specs.Sends.{is_nearer, nearest_of, of_kind};
ghost use Rattle.ipx_router.specs.Told.{farther, told_services};
ghost use Rattle.ipx_router.specs.inside.Envelope.{services_in};
ghost use Rattle.ipx_router.specs.inside.Owed.{owed};
ghost use Rattle.ipx_router.specs.inside.Selection.{is_nearest_yet};

use crate::advertising::envelope::Envelope;
use crate::advertising::hops::farther;
use crate::advertising::selection::is_of_kind;
use crate::advertising::told_services::ToldServices;
use crate::outbox::Outbox;
use crate::service_offer::ServiceOffer;
use ipx_table::Table;
use ipx_wire::Service;
use std::cmp::Ordering;

/// Sends the nearest service of a type that a port advertises in an envelope of that port, if there is one.
pub(crate) fn answer_nearest<const S: usize>(
    outbox: &mut Outbox,
    envelope: Envelope,
    table: &Table<ServiceOffer, S>,
    kind: u16,
)
    requires room { Fits outbox.old (owed services_a_page (services_in true envelope) [] (nearest_of (of_kind kind (told_services (offers table.now.records) envelope.port)))) }
    ensures { Appends outbox.old outbox.new (owed services_a_page (services_in true envelope) [] (nearest_of (of_kind kind (told_services (offers table.now.records) envelope.port)))) }
{
    if let Some(service) = nearest_told(table, envelope.port, kind) {
        outbox.append_sap(envelope.port, envelope.from, envelope.to, true, &[service]);
    }
}

/// The nearest service of a type that the port advertises.
fn nearest_told<const S: usize>(
    table: &Table<ServiceOffer, S>,
    number: u8,
    kind: u16,
) -> Option<Service>
    ensures { option_to_list result ≡ nearest_of (of_kind kind (told_services (offers table.now.records) number)) }
{
    let mut services = ToldServices::new(table, number);
    let mut best = None;
    while let Some(offer) = services.next_offer() {
        keep_nearest(&mut best, kind, &offer.service);
    }
    best
}

/// Keeps the best service of the type so far, when another one is offered; it is copied only if it is the nearest.
fn keep_nearest(best: &mut Option<Service>, kind: u16, service: &Service)
    requires reached { service.now.hops < unreachable }
    ensures { (rest : List Service) → nearest_of (option_to_list best.new ++ of_kind kind rest)
        ≡ nearest_of (option_to_list best.old ++ of_kind kind (farther service.now ∷ rest)) }
{
    if !is_of_kind(kind, service) {
        return;
    }
    if is_nearest_yet(best, service) {
        *best = Some(farther(*service));
    }
}

/// Whether an offered service, one hop farther, is the first or nearer than the best so far.
fn is_nearest_yet(best: &Option<Service>, service: &Service) -> bool
    requires reached { service.now.hops < unreachable }
    ensures { result ≡ is_nearest_yet best.now (farther service.now) }
{
    match best {
        None => true,
        Some(other) => is_nearer(service, other),
    }
}

/// Whether an offered service, one hop farther, is nearer than another one: by hops, then by name, then by type. Names are
/// compared only where the hops are equal.
fn is_nearer(service: &Service, other: &Service) -> bool
    requires reached { service.now.hops < unreachable }
    ensures { result ≡ is_nearer (farther service.now) other.now }
{
    match (service.hops + 1).cmp(&other.hops) {
        Ordering::Less => true,
        Ordering::Greater => false,
        Ordering::Equal => is_named_before(service, other),
    }
}

/// Whether a service comes before another one by its name, or where both have one name by its type.
fn is_named_before(service: &Service, other: &Service) -> bool
    ensures { result ≡ is_lt (ordering_then (name_order service.now.name other.now.name) (nat_cmp service.now.kind other.now.kind)) }
{
    let by_name = service.name.cmp(&other.name);
    let by_kind = service.kind.cmp(&other.kind);
    by_name.then(by_kind).is_lt()
}
