//! The services that a port advertises, one after the other by type and name: those of the table, without a copy.
ghost use Rattle.std.specs.Prelude.{◌≡◌, ℕ, ◌<◌, ◌≤◌, ◌^◌, not, [], ◌∷◌, length, drop, IfNone, IfSome};
ghost use Rattle.std.specs.List.{flat_map, prefix_len};
ghost use Rattle.ipx_wire.specs.WriteServices.{service_bytes};
ghost use Rattle.ipx_router.specs.Facts.{offers};
ghost use Rattle.ipx_router.specs.Numbers.{services_a_page, unreachable};
ghost use Rattle.ipx_router.specs.Told.{farther, is_service_told, told_services};
ghost use Rattle.ipx_router.specs.inside.Ended.{ServicesAscend};
ghost use Rattle.ipx_router.specs.inside.Putting.{PutsServices, packet_size};
ghost use Rattle.ipx_router.specs.inside.Selection.{is_service_sent, service_selected_by};

use crate::advertising::hops::{farther, is_service_told};
use crate::advertising::pages::{SERVICES_A_PAGE, SERVICES_AT};
use crate::advertising::selection::{ServiceSelection, hops_sent, is_service_selected};
use crate::service_offer::ServiceOffer;
use ipx_table::Table;
use ipx_wire::{SapEntry, Service, put_service};
use std::marker::Model;
use std::slice::from_ref;

/// What is left of the services that a port advertises. A clause sees them as they are advertised, by type and name.
#[derive(Drop)]
pub(crate) struct ToldServices<'a> {
    // the services of the table, by type and name
    services: &'a [ServiceOffer],
    number: u8,
}

impl<'a> Model for ToldServices<'a> {
    ghost use Rattle.std.specs.Prelude.{List};
    ghost use Rattle.ipx_wire.specs.declared.service.Service.{Service};
    ghost use Rattle.ipx_router.specs.inside.Ended.{ServicesAscend};
    ghost use Rattle.ipx_router.specs.Told.{told_services};

    ghost Value = { List Service };

    ghost view = { λ t. told_services t.services.now t.number };

    ghost invariant = { λ t. ServicesAscend t.services.now };
}

impl<'a> ToldServices<'a> {
    /// All services of the table that the port advertises.
    pub(crate) fn new<const S: usize>(
        table: &'a Table<ServiceOffer, S>,
        number: u8,
    ) -> ToldServices<'a>
        ensures { result ≡ told_services (offers table.now.records) number }
    {
        ToldServices {
            services: table.offers(),
            number,
        }
    }

    /// The next of them as it stands in the table: it is advertised one hop farther away.
    pub(crate) fn next_offer(&mut self) -> Option<&'a ServiceOffer>
        ensures some { IfSome result (λ offer. self.old ≡ farther offer.now.service ∷ self.new) }
        ensures near { IfSome result (λ offer. offer.now.service.hops < unreachable) }
        ensures none { IfNone result ((self.old ≡ []) × (self.new ≡ [])) }
    {
        let (offer, others) = seek(self.services, self.number).split_first()?;
        self.services = others;
        Some(offer)
    }

    /// Writes the next of them that are selected, each from the table to its place in a packet, and returns their number: fewer than a
    /// packet has at most only where none is left.
    pub(crate) fn put(&mut self, selection: ServiceSelection, out: &mut [u8]) -> usize
        requires room { packet_size (flat_map (service_selected_by selection) self.old) ≤ length out.old }
        ensures puts { PutsServices (flat_map (service_selected_by selection) self.old) (flat_map (service_selected_by selection) self.new)
            result out.old out.new }
        ensures few { result ≤ services_a_page }
        ensures last { result < services_a_page → flat_map (service_selected_by selection) self.new ≡ [] }
    {
        let (count, rest) = put_sent(self.services, self.number, selection, out);
        self.services = rest;
        count
    }
}

impl<'a> Iterator for ToldServices<'a> {
    ghost use Rattle.std.specs.Iterator.{YieldsFirst, item_count};

    type Item = Service;

    ghost next_gives = { YieldsFirst (λ rest. rest) };

    ghost remaining = { item_count (λ rest. rest) };

    fn next(&mut self) -> Option<Service> {
        let offer = self.next_offer()?;
        Some(farther(offer.service))
    }
}

/// The services that are left, from the first on that the port advertises.
fn seek(services: &[ServiceOffer], number: u8) -> &[ServiceOffer]
    ensures { result.now ≡ drop (prefix_len (λ offer. not (is_service_told number offer)) services.now) services.now }
{
    let mut rest = services;
    while let Some((offer, others)) = rest.split_first() {
        if is_service_told(number, offer) {
            return rest;
        }
        rest = others;
    }
    &[]
}

/// The same of services of a table, which are returned from the first on that wasn't looked at. One loop goes over all of them.
fn put_sent<'a>(
    services: &'a [ServiceOffer],
    number: u8,
    selection: ServiceSelection,
    out: &mut [u8],
) -> (usize, &'a [ServiceOffer])
    requires ascend { ServicesAscend services.now }
    requires room { packet_size (flat_map (service_selected_by selection) (told_services services.now number)) ≤ length out.old }
    ensures ascend { ServicesAscend result.1.now }
    ensures puts { PutsServices (flat_map (service_selected_by selection) (told_services services.now number))
        (flat_map (service_selected_by selection) (told_services result.1.now number)) result.0 out.old out.new }
    ensures few { result.0 ≤ services_a_page }
    ensures last { result.0 < services_a_page → flat_map (service_selected_by selection) (told_services result.1.now number) ≡ [] }
{
    let mut rest = services;
    let mut count = 0;
    while count < SERVICES_A_PAGE {
        let Some((offer, others)) = rest.split_first() else {
            return (count, rest);
        };
        rest = others;
        if is_service_sent(number, selection, offer) {
            let service = &offer.service;
            proves_size(service);
            let place = SERVICES_AT + SapEntry::SIZE * count;
            put_service(out, place, service, hops_sent(selection, service));
            count += 1;
        }
    }
    (count, rest)
}

/// Whether the port advertises a service of the table, and it is selected.
fn is_service_sent(number: u8, selection: ServiceSelection, offer: &ServiceOffer) -> bool
    ensures { result ≡ is_service_sent number selection offer.now }
{
    is_service_told(number, offer) && is_service_selected(selection, &offer.service)
}

/// A service has 64 bytes in a packet.
fn proves_size(service: &Service)
    ensures { (hops : ℕ) → hops < 2 ^ 16 → length (service_bytes (record service.now { hops = hops })) ≡ 64 }
{
    ipx_wire::laws::in_range(from_ref(service));
}
