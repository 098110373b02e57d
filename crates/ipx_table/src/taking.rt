//! What one offer does to the records.
ghost use Rattle.std.specs.Prelude.{◌≡◌, ℕ, ◌<◌, ◌≤◌, if◌then◌else◌, length, take, false, true, None, Some, slice_get, option_map, map};
ghost use Rattle.std.specs.List.{AllByRecursion, list_any, filter};
ghost use Rattle.std.specs.Ordering.{is_lt};
ghost use Rattle.ipx_table.specs.Accepted.{may_replace as allows_replacement};
ghost use Rattle.ipx_table.specs.inside.AfterOffer.{after_offer};
ghost use Rattle.ipx_table.specs.Alive.{lifetime};
ghost use Rattle.ipx_table.specs.Reading.{rules_of, same_key};
ghost use Rattle.ipx_table.specs.Slots.{seen, seen_at};
ghost use Rattle.ipx_table.specs.inside.Clock.{IsSorted};
ghost use Rattle.ipx_table.specs.inside.Sought.{answers_to};
ghost use Rattle.ipx_table.specs.Stands.{in_order};
ghost use Rattle.ipx_table.specs.Taken.{known_of, offer_left, taken_over, taken_beside};

use crate::asking::Found;
use crate::exchanged::{Exchanged, exchange_of};
use crate::offer::Offer;
use crate::ranking::{is_of_one_source, is_worse};
use crate::sharing::has_share;
use crate::slotted::Slotted;
use crate::taken::Taken;

/// Takes an offer, whose key was found there, at that slot of the clock, from ports with those shares. Returns what became of it, and the offer of its
/// key before and after.
pub(crate) fn take_offer<O: Offer, const CAP: usize>(
    records: &mut Slotted<O, CAP>,
    shares: &[u16],
    clock: u8,
    found: Found,
    offer: &O,
) -> Exchanged<O>
    requires sorted { IsSorted (rules_of O.reading O.Key.cmp CAP shares.now).by_key records.old clock }
    requires below { found.below ≡ (answers_to (λ o. O.Key.cmp (O.reading.key o) (O.reading.key offer.now)) (map (λ p. p.0) records.old)).below }
    requires held { found.held ≡ (answers_to (λ o. O.Key.cmp (O.reading.key o) (O.reading.key offer.now)) (map (λ p. p.0) records.old)).held }
    ensures records { let rules = rules_of O.reading O.Key.cmp CAP shares.now in
        seen clock records.new ≡ in_order rules.by_key (after_offer rules (seen clock records.old) offer.now) }
    ensures slots { AllByRecursion (λ p. p.1 < lifetime) records.new }
    ensures answer { result.taken ≡ taken_over (rules_of O.reading O.Key.cmp CAP shares.now) O.eq (seen clock records.old) offer.now }
    ensures before { result.before ≡ option_map (λ h. h.offer) (known_of (rules_of O.reading O.Key.cmp CAP shares.now) (seen clock records.old) offer.now) }
    ensures after { result.after ≡ offer_left result.taken result.before offer.now }
{
    match record_found(records, records.len(), found) {
        Some(known) => {
            let taken = take_known(records, shares, clock, found.below, &known, offer);
            exchange_of(taken, Some(known.0), offer)
        }
        None => {
            let taken = take_new(records, shares, clock, found.below, offer);
            exchange_of(taken, None, offer)
        }
    }
}

/// The record that was found among the first ones, if there is one.
pub(crate) fn record_found<O: Offer, const CAP: usize>(
    records: &Slotted<O, CAP>,
    live: usize,
    found: Found,
) -> Option<(O, u8)>
    requires { live ≤ length records.now }
    ensures { result ≡ (if found.held then slice_get (take live records.now) found.below else None) }
{
    if found.held {
        records.get(live, found.below)
    } else {
        None
    }
}

/// Takes an offer of a key that no record has; `below` records have a smaller one.
fn take_new<O: Offer, const CAP: usize>(
    records: &mut Slotted<O, CAP>,
    shares: &[u16],
    clock: u8,
    below: usize,
    offer: &O,
) -> Taken
    requires sorted { IsSorted (rules_of O.reading O.Key.cmp CAP shares.now).by_key records.old clock }
    requires none { let rules = rules_of O.reading O.Key.cmp CAP shares.now in
        list_any (λ h. same_key rules.by_key h.offer offer.now) (seen clock records.old) ≡ false }
    requires below { let rules = rules_of O.reading O.Key.cmp CAP shares.now in
        below ≡ length (filter (λ h. is_lt (rules.by_key h.offer offer.now)) (seen clock records.old)) }
    ensures records { let rules = rules_of O.reading O.Key.cmp CAP shares.now in
        seen clock records.new ≡ in_order rules.by_key (after_offer rules (seen clock records.old) offer.now) }
    ensures slots { AllByRecursion (λ p. p.1 < lifetime) records.new }
    ensures answer { result ≡ taken_beside (rules_of O.reading O.Key.cmp CAP shares.now) O.eq (seen clock records.old) offer.now None }
{
    if offer.is_down() {
        return Taken::Nothing;
    }
    if records.is_full() {
        return Taken::Full;
    }
    if !has_share(records.offers(), shares, CAP, offer.source().0) {
        return Taken::Full;
    }
    records.insert(below, *offer, clock);
    Taken::Admitted
}

/// Takes an offer of the key of the record at that place.
fn take_known<O: Offer, const CAP: usize>(
    records: &mut Slotted<O, CAP>,
    shares: &[u16],
    clock: u8,
    place: usize,
    known: &(O, u8),
    offer: &O,
) -> Taken
    requires sorted { IsSorted (rules_of O.reading O.Key.cmp CAP shares.now).by_key records.old clock }
    requires at { slice_get records.old place ≡ Some known.now }
    requires key { same_key (rules_of O.reading O.Key.cmp CAP shares.now).by_key known.now.0 offer.now ≡ true }
    ensures records { let rules = rules_of O.reading O.Key.cmp CAP shares.now in
        seen clock records.new ≡ in_order rules.by_key (after_offer rules (seen clock records.old) offer.now) }
    ensures slots { AllByRecursion (λ p. p.1 < lifetime) records.new }
    ensures answer { result ≡ taken_beside (rules_of O.reading O.Key.cmp CAP shares.now) O.eq (seen clock records.old) offer.now (Some (seen_at clock known.now)) }
{
    if is_of_one_source(&known.0, offer) {
        return take_own(records, shares, clock, place, known, offer);
    }
    if offer.is_down() {
        return Taken::Nothing;
    }
    if !is_worse(&known.0, offer) {
        return Taken::Worse;
    }
    if !may_replace(records, shares, place, known, offer) {
        return Taken::Full;
    }
    records.put(place, *offer, clock);
    Taken::Replaced
}

/// Takes an offer of the key and the source of the record at that place.
fn take_own<O: Offer, const CAP: usize>(
    records: &mut Slotted<O, CAP>,
    shares: &[u16],
    clock: u8,
    place: usize,
    known: &(O, u8),
    offer: &O,
) -> Taken
    requires sorted { IsSorted (rules_of O.reading O.Key.cmp CAP shares.now).by_key records.old clock }
    requires at { slice_get records.old place ≡ Some known.now }
    requires key { same_key (rules_of O.reading O.Key.cmp CAP shares.now).by_key known.now.0 offer.now ≡ true }
    requires source { (rules_of O.reading O.Key.cmp CAP shares.now).same_source known.now.0 offer.now ≡ true }
    ensures records { let rules = rules_of O.reading O.Key.cmp CAP shares.now in
        seen clock records.new ≡ in_order rules.by_key (after_offer rules (seen clock records.old) offer.now) }
    ensures slots { AllByRecursion (λ p. p.1 < lifetime) records.new }
    ensures answer { result ≡ taken_beside (rules_of O.reading O.Key.cmp CAP shares.now) O.eq (seen clock records.old) offer.now (Some (seen_at clock known.now)) }
{
    if offer.is_down() {
        records.remove(place);
        return Taken::Withdrawn;
    }
    records.put(place, *offer, clock);
    Taken::Refreshed {
        changed: known.0 != *offer,
    }
}

/// Whether an offer may take the place of that record, of another source: it came by the same port, or its own port is
/// below its share.
fn may_replace<O: Offer, const CAP: usize>(
    records: &Slotted<O, CAP>,
    shares: &[u16],
    place: usize,
    known: &(O, u8),
    offer: &O,
) -> bool
    requires at { slice_get records.now place ≡ Some known.now }
    ensures { (clock : ℕ) → result ≡ allows_replacement (rules_of O.reading O.Key.cmp CAP shares.now) offer.now (seen clock records.now) (seen_at clock known.now) }
{
    let port = offer.source().0;
    if known.0.source().0 == port {
        return true;
    }
    has_share(records.offers(), shares, CAP, port)
}
