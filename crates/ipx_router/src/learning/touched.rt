//! What an event touches of a table: each key whose offer it changes, with what it had before and has now. An offer that changes
//! nothing isn't noted, so a response that changes nothing costs one search of the table for each entry.
ghost use Rattle.std.specs.Prelude.{◌≡◌, ◌+◌, ◌-◌, ◌<◌, ◌≤◌, List, ◌++◌, ◌∷◌, [], length, get_or, insert, set, true, false, IfOk, IfErr};
ghost use Rattle.std.specs.Ordering.{is_eq, is_lt};
ghost use Rattle.std.specs.declared.cmp.Ordering.TheVariants.{Equal};
ghost use Rattle.ipx_table.specs.Facts.{Fact, Offered};
ghost use Rattle.ipx_table.specs.Reading.{rules_of};
ghost use Rattle.ipx_table.specs.Stands.{Ascends, Stands};
ghost use Rattle.ipx_router.specs.Facts.{offers};
ghost use Rattle.ipx_router.specs.inside.Touched.{IsExact, Touches, is_touched, offer_at};

use arrayvec::ArrayVec;
use ipx_table::{Offer, Table};

/// A key whose offer was changed, by the first offer that did; the offer that it had before the event, and the one that it has
/// now.
#[derive(Clone, Copy, Default)]
pub(crate) struct Touched<O> {
    pub offer: O,
    pub before: Option<O>,
    pub after: Option<O>,
}

/// Takes an offer, and notes what it changes.
// (this and the functions below stand in line, so that the offers before and after are copied once less)
#[inline(always)]
pub(crate) fn take<O: Offer, const CAP: usize, const MOST: usize>(
    table: &mut Table<O, CAP>,
    touched: &mut ArrayVec<Touched<O>, MOST>,
    offer: &O,
)
    requires room { length touched.old.items < MOST }
    ensures stands { (facts : List (Fact O)) → Stands (rules_of O.reading O.Key.cmp CAP table.old.shares) table.old.records facts
        → Stands (rules_of O.reading O.Key.cmp CAP table.old.shares) table.new.records (facts ++ Offered offer.now ∷ []) }
    ensures shares { table.new.shares ≡ table.old.shares }
    ensures touches { IsExact O.eq → (before : List O) → Touches O.reading.key O.Key.cmp before (offers table.old.records) touched.old.items
        → Touches O.reading.key O.Key.cmp before (offers table.new.records) touched.new.items }
    ensures few { length touched.new.items ≤ length touched.old.items + 1 }
{
    let exchanged = table.exchange(*offer);
    if !exchanged.taken.is_change() {
        return;
    }
    note(touched, offer, &exchanged.before, &exchanged.after);
}

/// Notes what an offer changed. Of a key that was noted before, only what it has now is new.
#[inline(always)]
fn note<O: Offer, const MOST: usize>(
    touched: &mut ArrayVec<Touched<O>, MOST>,
    offer: &O,
    before: &Option<O>,
    after: &Option<O>,
)
    requires room { length touched.old.items < MOST }
    ensures touches { (first now new : List O) → Touches O.reading.key O.Key.cmp first now touched.old.items
        → before.now ≡ offer_at O.reading.key O.Key.cmp (O.reading.key offer.now) now
        → after.now ≡ offer_at O.reading.key O.Key.cmp (O.reading.key offer.now) new
        → ((key : O.Key) → is_eq (O.Key.cmp (O.reading.key offer.now) key) ≡ false
        → offer_at O.reading.key O.Key.cmp key new ≡ offer_at O.reading.key O.Key.cmp key now)
        → Touches O.reading.key O.Key.cmp first new touched.new.items }
    ensures few { length touched.new.items ≤ length touched.old.items + 1 }
{
    match place_of(touched, &offer.key()) {
        Ok(place) => renew(touched, place, *after),
        Err(place) => touched.insert(
            place,
            Touched {
                offer: *offer,
                before: *before,
                after: *after,
            },
        ),
    }
}

/// Writes what a key has now.
#[inline(always)]
fn renew<O: Offer, const MOST: usize>(
    touched: &mut ArrayVec<Touched<O>, MOST>,
    place: usize,
    after: Option<O>,
)
    requires within { place < length touched.old.items }
    ensures size { length touched.new.items ≡ length touched.old.items }
    ensures value { (d : Touched O) → let known = get_or touched.old.items place d in
        touched.new.items ≡ set touched.old.items place (record { offer = known.offer; before = known.before; after = after }) }
{
    let known = touched[place];
    touched[place] = Touched {
        offer: known.offer,
        before: known.before,
        after,
    };
}

/// The place of a key among those that were touched, or the place where it would stand. The entries of a response mostly
/// ascend, so the last key is looked at first.
#[inline(always)]
fn place_of<O: Offer>(touched: &[Touched<O>], key: &O::Key) -> Result<usize, usize>
    ensures known { IfOk result (λ place. (place < length touched.now)
        × ((d : Touched O) → O.Key.cmp (O.reading.key (get_or touched.now place d).offer) key.now ≡ Equal)) }
    ensures within { IfErr result (λ place. place ≤ length touched.now) }
    ensures gap { (t : Touched O) → O.reading.key t.offer ≡ key.now → Ascends (λ a b. O.Key.cmp (O.reading.key a.offer) (O.reading.key b.offer)) touched.now
        → IfErr result (λ place. Ascends (λ a b. O.Key.cmp (O.reading.key a.offer) (O.reading.key b.offer)) (insert touched.now place t)
        × (is_touched O.reading.key O.Key.cmp key.now touched.now ≡ false)) }
{
    if is_behind(touched, key) {
        return Err(touched.len());
    }
    touched.binary_search_by_key(key, |touched| touched.offer.key())
}

/// Whether a key is greater than the last one that was touched, if there is any.
#[inline(always)]
fn is_behind<O: Offer>(touched: &[Touched<O>], key: &O::Key) -> bool
    ensures { result ≡ true → (d : Touched O) → 0 < length touched.now
        → is_lt (O.Key.cmp (O.reading.key (get_or touched.now (length touched.now - 1) d).offer) key.now) ≡ true }
{
    match touched.last() {
        Some(last) => last.offer.cmp_key(key).is_lt(),
        None => true,
    }
}
