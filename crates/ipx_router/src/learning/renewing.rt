//! Renews the services that a neighbour advertises again just as the table has them, which nearly all responses do: the bytes of an
//! entry are compared with the service of the table, and neither is copied.
ghost use Rattle.std.specs.Prelude.{◌≡◌, ◌<◌, ◌≤◌, List, ◌++◌, ◌∷◌, [], Some, length, map, take, slice_get, true, false};
ghost use Rattle.ipx_table.specs.Facts.{Fact, Offered};
ghost use Rattle.ipx_table.specs.Reading.{rules_of};
ghost use Rattle.ipx_table.specs.Stands.{Stands};
ghost use Rattle.ipx_wire.specs.SapEntries.{sap_entry_at};
ghost use Rattle.ipx_router.specs.Facts.{offers, services_offered};
ghost use Rattle.ipx_router.specs.Services.{service_order, service_reading};
ghost use Rattle.ipx_router.specs.declared.service_offer.ServiceOffer.{ServiceOffer as Known};

use crate::service_offer::ServiceOffer;
use ipx_table::Table;
use ipx_wire::{Node, SapEntries};
use std::hint::select_unpredictable;

/// Renews the services of the first entries of a response, up to one that would change more than an age. Returns how many these are.
pub(crate) fn renew_services<const S: usize>(
    table: &mut Table<ServiceOffer, S>,
    number: u8,
    node: Node,
    entries: &SapEntries<'_>,
) -> usize
    ensures within { result ≤ length entries.now }
    ensures stands { let rules = rules_of service_reading service_order S table.old.shares in (facts : List (Fact ServiceOffer))
        → Stands rules table.old.records facts → Stands rules table.new.records (facts ++ services_offered number node (take result entries.now)) }
    ensures shares { table.new.shares ≡ table.old.shares }
    ensures offers { offers table.new.records ≡ offers table.old.records }
{
    for k in 0..entries.len() {
        if !renews(table, number, node, entries.bytes_from(k)) {
            return k;
        }
    }
    entries.len()
}

/// Renews the service of an entry, by the bytes of the entry, if the table has just this one from that port and neighbour. Returns
/// whether it has; if not, only where the next offer is sought first has changed.
pub(crate) fn renews<const S: usize>(
    table: &mut Table<ServiceOffer, S>,
    number: u8,
    node: Node,
    bytes: &[u8],
) -> bool
    requires { 64 ≤ length bytes.now }
    ensures stands { result ≡ true → let rules = rules_of service_reading service_order S table.old.shares in (facts : List (Fact ServiceOffer))
        → Stands rules table.old.records facts → Stands rules table.new.records (facts ++ services_offered number node (sap_entry_at bytes.now ∷ [])) }
    ensures shares { table.new.shares ≡ table.old.shares }
    ensures offers { offers table.new.records ≡ offers table.old.records }
    ensures kept { result ≡ false → table.new ≡ table.old }
{
    let place = place_of(table.offers(), bytes);
    if is_known(table.offers(), place, number, node, bytes) {
        table.renew_at(place);
        return true;
    }
    table.seek_at(place);
    false
}

/// Whether the offer at that place is what an entry from that port and neighbour offers, by the bytes of the entry.
// (this and the next one stand in line: they are asked about each entry of a response)
#[inline(always)]
fn is_known(offers: &[ServiceOffer], place: usize, number: u8, node: Node, bytes: &[u8]) -> bool
    requires { 64 ≤ length bytes.now }
    ensures { result ≡ true → (known : Known) × (slice_get offers.now place ≡ Some known)
        × (services_offered number node (sap_entry_at bytes.now ∷ []) ≡ Offered known ∷ []) }
{
    match offers.get(place) {
        Some(known) => is_offered(known, number, node, bytes),
        None => false,
    }
}

/// Whether an offer is what an entry from that port and neighbour offers, by the bytes of the entry.
#[inline(always)]
fn is_offered(known: &ServiceOffer, number: u8, node: Node, bytes: &[u8]) -> bool
    requires { 64 ≤ length bytes.now }
    ensures { result ≡ true → services_offered number node (sap_entry_at bytes.now ∷ []) ≡ Offered known.now ∷ [] }
{
    if known.port != number {
        return false;
    }
    if known.node != node {
        return false;
    }
    known.service.is_entry(bytes)
}

/// Where the service of an entry stands among services that ascend by type and name, by the bytes of the entry; if it is none of them,
/// or other bytes than zeros stand behind its name, any place.
fn place_of(offers: &[ServiceOffer], bytes: &[u8]) -> usize
    requires { 64 ≤ length bytes.now }
    ensures { result ≤ length offers.now }
{
    let mut low = 0;
    let mut size = offers.len();
    while size > 0 {
        let place = low + (size - 1) / 2;
        let answer = offers[place].service.cmp_entry(bytes);
        // no branch, as in the table's search
        low = select_unpredictable(answer.is_lt(), place + 1, low);
        size /= 2;
    }
    low
}
