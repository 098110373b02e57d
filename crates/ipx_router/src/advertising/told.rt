//! What a port advertises goes from tables and ports straight into pages of the outbox: no list of all of it is made.
ghost use Rattle.std.specs.Prelude.{◌≡◌, ℕ, ◌<◌, ◌≤◌, [], ◌++◌, length, take, false};
ghost use Rattle.std.specs.List.{AllByRecursion, flat_map};
ghost use Rattle.ipx_router.specs.Facts.{offers};
ghost use Rattle.ipx_router.specs.Numbers.{entries_a_page, services_a_page, most_ports};
ghost use Rattle.ipx_router.specs.Outbox.{Fits, Appends};
ghost use Rattle.ipx_router.specs.inside.Envelope.{entries_in, services_in};
ghost use Rattle.ipx_router.specs.inside.Owed.{owed};
ghost use Rattle.ipx_router.specs.inside.Selection.{service_selected_by, selected_by};
ghost use Rattle.ipx_router.specs.Told.{told, told_services};

use crate::advertising::envelope::Envelope;
use crate::advertising::item::Item;
use crate::advertising::pages::{ENTRIES_A_PAGE, SERVICES_A_PAGE};
use crate::advertising::selection::{Selection, ServiceSelection, select};
use crate::advertising::service_source::ServiceSource;
use crate::advertising::told_routes::{ToldRoutes, list_direct};
use crate::advertising::told_services::ToldServices;
use crate::outbox::Outbox;
use crate::port::Port;
use crate::ports::addresses::port_of;
use crate::route_offer::RouteOffer;
use crate::service_offer::ServiceOffer;
use arrayvec::ArrayVec;
use ipx_table::Table;
use ipx_wire::RipEntry;

/// Sends the routes that a port advertises, as they are selected, in an envelope of that port.
pub(crate) fn send_routes<const R: usize>(
    outbox: &mut Outbox,
    envelope: Envelope,
    ports: &[Port],
    up: &[u8],
    table: &Table<RouteOffer, R>,
    selection: Selection<'_>,
)
    requires port { envelope.port < length ports.now }
    requires ports { AllByRecursion (λ j. j < length ports.now) up.now }
    requires few { length up.now ≤ most_ports }
    requires room { Fits outbox.old (owed entries_a_page (entries_in envelope) [] (flat_map (selected_by selection) (told ports.now up.now (offers table.now.records) envelope.port))) }
    ensures { Appends outbox.old outbox.new (owed entries_a_page (entries_in envelope) [] (flat_map (selected_by selection.entry) (told ports.now up.now (offers table.now.records) envelope.port))) }
{
    let number = envelope.port;
    let cost = port_of(ports, number).cost();
    let mut direct = ArrayVec::new();
    list_direct(&mut direct, ports, up, number, cost);
    let mut routes = ToldRoutes::new(&direct, table, number, cost);
    let mut page = [RipEntry::default(); ENTRIES_A_PAGE];
    let mut count = ENTRIES_A_PAGE;
    while count == ENTRIES_A_PAGE {
        count = fill(&mut routes, selection, &mut page);
        let (filled, _) = page.split_at(count);
        send_filled(outbox, envelope, filled);
    }
}

/// Fills a page with the next entries to send, and returns their number: fewer than a page holds only where none is left.
fn fill(
    routes: &mut ToldRoutes<'_>,
    selection: Selection<'_>,
    page: &mut [RipEntry; ENTRIES_A_PAGE],
) -> usize
    ensures few { result ≤ entries_a_page }
    ensures entries { flat_map (selected_by selection.entry) routes.old ≡ take result page.new ++ flat_map (selected_by selection.entry) routes.new }
    ensures last { result < entries_a_page → flat_map (selected_by selection.entry) routes.new ≡ [] }
{
    match selection {
        Selection::All => routes.fill(page),
        _ => fill_selected(routes, selection, page),
    }
}

/// The same, entry by entry as they are selected.
fn fill_selected(
    routes: &mut ToldRoutes<'_>,
    selection: Selection<'_>,
    page: &mut [RipEntry; ENTRIES_A_PAGE],
) -> usize
    ensures few { result ≤ entries_a_page }
    ensures entries { flat_map (selected_by selection.entry) routes.old ≡ take result page.new ++ flat_map (selected_by selection.entry) routes.new }
    ensures last { result < entries_a_page → flat_map (selected_by selection.entry) routes.new ≡ [] }
{
    let mut count = 0;
    while count < ENTRIES_A_PAGE {
        let Some(entry) = routes.next() else {
            return count;
        };
        if let Some(entry) = select(selection, entry) {
            page[count] = entry;
            count += 1;
        }
    }
    count
}

/// Sends the items of a page, where there are any.
fn send_filled<X: Item>(outbox: &mut Outbox, envelope: Envelope, page: &[X])
    requires some { 1 ≤ X.most }
    requires few { length page.now ≤ X.most }
    requires room { Fits outbox.old (owed X.most (X.packet envelope) [] page.now) }
    ensures { Appends outbox.old outbox.new (owed X.most (X.packet envelope) [] page.now) }
{
    if !page.is_empty() {
        X::send_page(outbox, envelope, page);
    }
}

/// Sends the services that a port advertises, as they are selected, in an envelope of that port.
pub(crate) fn send_services<const S: usize>(
    outbox: &mut Outbox,
    envelope: Envelope,
    table: &Table<ServiceOffer, S>,
    selection: ServiceSelection,
)
    requires room { Fits outbox.old (owed services_a_page (services_in false envelope) [] (flat_map (service_selected_by selection) (told_services (offers table.now.records) envelope.port))) }
    ensures { Appends outbox.old outbox.new (owed services_a_page (services_in false envelope) [] (flat_map (service_selected_by selection) (told_services (offers table.now.records) envelope.port))) }
{
    let services = ToldServices::new(table, envelope.port);
    let mut selected = Selected {
        services,
        selection,
    };
    let mut count = SERVICES_A_PAGE;
    while count == SERVICES_A_PAGE {
        count = outbox.append_services(envelope, &mut selected);
    }
}

/// What is left of the services that are sent.
#[derive(Drop)]
struct Selected<'a> {
    services: ToldServices<'a>,
    selection: ServiceSelection,
}

impl<'a> ServiceSource for Selected<'a> {
    ghost use Rattle.std.specs.List.{flat_map};
    ghost use Rattle.ipx_router.specs.inside.Putting.{packet_size};
    ghost use Rattle.ipx_router.specs.inside.Selection.{service_selected_by};

    ghost left = { λ s. flat_map (service_selected_by s.selection) s.services };

    ghost needs = { λ s. packet_size (flat_map (service_selected_by s.selection) s.services) };

    fn put(&mut self, out: &mut [u8]) -> usize {
        self.services.put(self.selection, out)
    }
}
