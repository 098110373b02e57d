//! Answers: the routes that a request asks for, and the services of a type or the nearest one.
ghost use Rattle.std.specs.Prelude.{◌≡◌, ◌<◌, ◌≤◌, if◌then◌else◌, List, length};
ghost use Rattle.std.specs.List.{AllByRecursion, flat_map};
ghost use Rattle.ipx_wire.specs.declared.rip.RipEntry.{RipEntry};
ghost use Rattle.ipx_wire.specs.declared.rip.Operation.TheVariants.{Response};
ghost use Rattle.ipx_router.specs.Facts.{offers};
ghost use Rattle.ipx_router.specs.Numbers.{most_ports};
ghost use Rattle.ipx_router.specs.Outbox.{Fits, Appends};
ghost use Rattle.ipx_router.specs.Port.{port_at, reply_to};
ghost use Rattle.ipx_router.specs.Sends.{asked, nearest_of, of_kind, rip_sends, sap_sends};
ghost use Rattle.ipx_router.specs.inside.Selection.{selected_by};
ghost use Rattle.ipx_router.specs.Told.{told, told_services};

use crate::advertising::envelope::Envelope;
use crate::advertising::selection::{Selection, ServiceSelection};
use crate::advertising::told::{send_routes, send_services};
use crate::answering::nearest::answer_nearest;
use crate::outbox::Outbox;
use crate::port::Port;
use crate::route_offer::RouteOffer;
use crate::service_offer::ServiceOffer;
use ipx_table::Table;
use ipx_wire::{Address, Network, Rip};

/// Sends the routes that a request asks for to the one that asked.
pub(crate) fn answer_request<const R: usize>(
    outbox: &mut Outbox,
    ports: &[Port],
    up: &[u8],
    routes: &Table<RouteOffer, R>,
    number: u8,
    source: Address,
    request: &Rip<'_>,
)
    requires port { number < length ports.now }
    requires ports { AllByRecursion (λ j. j < length ports.now) up.now }
    requires few { length up.now ≤ most_ports }
    requires room { Fits outbox.old (rip_sends ports.now number (reply_to (port_at ports.now number) source) Response
        (asked request.now.entries (told ports.now up.now (offers routes.now.records) number))) }
    ensures { Appends outbox.old outbox.new (rip_sends ports.now number (reply_to (port_at ports.now number) source) Response
        (asked request.now.entries (told ports.now up.now (offers routes.now.records) number))) }
{
    let envelope = Envelope::routes_reply(ports, number, source);
    send_routes(outbox, envelope, ports, up, routes, selection_to(request));
}

/// Which routes answer a request: all, where it asks for all, so that no route is compared with its entries.
fn selection_to<'a>(request: &'a Rip<'a>) -> Selection<'a>
    ensures { (entries : List RipEntry) → flat_map (selected_by result) entries ≡ asked request.now.entries entries }
{
    for k in 0..request.len() {
        if request.entry(k).network.0 == Network::ALL_ROUTES.0 {
            return Selection::All;
        }
    }
    Selection::Asked(request)
}

/// Sends the services of a type to the one that asked, or the nearest of them.
pub(crate) fn answer_query<const S: usize>(
    outbox: &mut Outbox,
    ports: &[Port],
    services: &Table<ServiceOffer, S>,
    number: u8,
    source: Address,
    nearest: bool,
    kind: u16,
)
    requires port { number < length ports.now }
    requires room { let found = of_kind kind (told_services (offers services.now.records) number) in
        Fits outbox.old (sap_sends ports.now number (reply_to (port_at ports.now number) source) nearest (if nearest then nearest_of found else found)) }
    ensures { let found = of_kind kind (told_services (offers services.now.records) number) in
        Appends outbox.old outbox.new (sap_sends ports.now number (reply_to (port_at ports.now number) source) nearest (if nearest then nearest_of found else found)) }
{
    let envelope = Envelope::services_reply(ports, number, source);
    if nearest {
        answer_nearest(outbox, envelope, services, kind);
    } else {
        send_services(outbox, envelope, services, ServiceSelection::OfKind(kind));
    }
}
