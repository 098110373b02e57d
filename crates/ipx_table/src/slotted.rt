//! Offers with the slots at which they were accepted, each in an array of its own: so what reads slots alone reads one
//! byte a record.
ghost use Rattle.std.specs.Prelude.{◌≡◌, ◌==◌, ◌<◌, ◌≤◌, not, ℕ, List, [], length, map, insert, remove, set, slice_get, Some, take, drop};
ghost use Rattle.std.specs.List.{AllByRecursion, filter, list_any, zip};
ghost use Rattle.ipx_table.specs.Reading.{port_of};
ghost use Rattle.ipx_table.specs.Slots.{seen};
ghost use Rattle.ipx_table.specs.inside.Clock.{ends, parted};
ghost use Rattle.ipx_table.specs.Alive.{lifetime};

use crate::clock::has_slot;
use crate::ending::Ending;
use crate::offer::Offer;
use crate::parting::part;
use crate::table_entries::TableEntries;
use arrayvec::ArrayVec;
use std::marker::Model;

/// At most `CAP` offers, each with its slot. A clause sees the list of the pairs.
#[derive(Debug, Drop)]
pub(crate) struct Slotted<O: Offer, const CAP: usize> {
    offers: ArrayVec<O, CAP>,
    slots: ArrayVec<u8, CAP>,
}

impl<O: Offer, const CAP: usize> Model for Slotted<O, CAP> {
    ghost use Rattle.std.specs.Prelude.{List, ℕ, ◌≡◌, length};
    ghost use Rattle.std.specs.List.{zip};

    ghost Value = { List (O × ℕ) };

    ghost view = { λ s. zip s.offers.items s.slots.items };

    ghost invariant = { λ s. length s.slots.items ≡ length s.offers.items };
}

impl<O: Offer, const CAP: usize> Slotted<O, CAP> {
    #[inline(always)]
    pub(crate) fn new() -> Slotted<O, CAP>
        ensures { result ≡ [] }
    {
        Slotted {
            offers: ArrayVec::new(),
            slots: ArrayVec::new(),
        }
    }

    pub(crate) fn len(&self) -> usize
        ensures value { result ≡ length self.now }
        ensures fits { result ≤ CAP }
    {
        self.offers.len()
    }

    pub(crate) fn is_full(&self) -> bool
        ensures value { result ≡ (length self.now == CAP) }
        ensures fits { length self.now ≤ CAP }
    {
        self.offers.is_full()
    }

    pub(crate) fn offers(&self) -> &[O]
        ensures value { result.now ≡ map (λ p. p.0) self.now }
        ensures fits { length result.now ≤ CAP }
    {
        self.offers.as_slice()
    }

    /// The first offers.
    pub(crate) fn offers_before(&self, live: usize) -> &[O]
        requires { live ≤ length self.now }
        ensures value { result.now ≡ map (λ p. p.0) (take live self.now) }
        ensures fits { length result.now ≤ CAP }
    {
        front_of(&self.offers, live)
    }

    /// The offers behind the first ones.
    pub(crate) fn offers_behind(&self, live: usize) -> &[O]
        requires { live ≤ length self.now }
        ensures value { result.now ≡ map (λ p. p.0) (drop live self.now) }
        ensures fits { length result.now ≤ CAP }
    {
        rest_of(&self.offers, live)
    }

    /// The first records at that time of the clock, in order.
    pub(crate) fn entries(&self, live: usize, clock: u8) -> TableEntries<'_, O>
        requires within { live ≤ length self.now }
        requires slots { AllByRecursion (λ p. p.1 < lifetime) (take live self.now) }
        requires going { clock < lifetime }
        ensures { result ≡ seen clock (take live self.now) }
    {
        TableEntries::of(
            front_of(&self.offers, live),
            front_of(&self.slots, live),
            clock,
        )
    }

    /// The offer and the slot at that place of the first records, if there is such a place.
    pub(crate) fn get(&self, live: usize, place: usize) -> Option<(O, u8)>
        requires { live ≤ length self.now }
        ensures { result ≡ slice_get (take live self.now) place }
    {
        item_at(front_of(&self.offers, live), place).zip(item_at(
            front_of(&self.slots, live),
            place,
        ))
    }

    /// Puts an offer in at that place, before what stands there.
    pub(crate) fn insert(&mut self, place: usize, offer: O, slot: u8)
        requires within { place ≤ length self.old }
        requires room { length self.old < CAP }
        ensures { self.new ≡ insert self.old place (offer, slot) }
    {
        self.offers.insert(place, offer);
        self.slots.insert(place, slot);
    }

    /// Writes an offer over the one at that place.
    pub(crate) fn put(&mut self, place: usize, offer: O, slot: u8)
        requires within { place < length self.old }
        ensures { self.new ≡ set self.old place (offer, slot) }
    {
        write_at(&mut self.offers, place, offer);
        write_at(&mut self.slots, place, slot);
    }

    /// Writes a slot over that of the record at that place.
    pub(crate) fn renew(&mut self, place: usize, slot: u8)
        requires within { place < length self.old }
        ensures { (kept : O × ℕ) → slice_get self.old place ≡ Some kept → self.new ≡ set self.old place (kept.0, slot) }
    {
        write_at(&mut self.slots, place, slot);
    }

    /// Takes out what stands at that place.
    pub(crate) fn remove(&mut self, place: usize)
        requires within { place < length self.old }
        ensures { self.new ≡ remove self.old place }
    {
        self.offers.remove(place);
        self.slots.remove(place);
    }

    pub(crate) fn clear(&mut self)
        ensures { self.new ≡ [] }
    {
        self.offers.clear();
        self.slots.clear();
    }

    /// Cuts off what stands behind the first records.
    pub(crate) fn truncate(&mut self, live: usize)
        ensures { self.new ≡ take live self.old }
    {
        self.offers.truncate(live);
        self.slots.truncate(live);
    }

    /// Whether one of the first records has that slot.
    pub(crate) fn has_slot(&self, live: usize, slot: u8) -> bool
        requires { live ≤ length self.now }
        ensures { result ≡ list_any (λ p. p.1 == slot) (take live self.now) }
    {
        has_slot(front_of(&self.slots, live), slot)
    }

    /// Puts the records that end behind those that stay; either keep their order. Returns how many stay.
    pub(crate) fn part(&mut self, ending: Ending) -> usize
        ensures parted { self.new ≡ parted (port_of O.reading) ending self.old }
        ensures stay { result ≡ length (filter (λ p. not (ends (port_of O.reading) ending p)) self.old) }
    {
        part_arrays(&mut self.offers, &mut self.slots, ending)
    }
}

/// Parts the records of two arrays.
fn part_arrays<O: Offer, const CAP: usize>(
    offers: &mut ArrayVec<O, CAP>,
    slots: &mut ArrayVec<u8, CAP>,
    ending: Ending,
) -> usize
    requires lengths { length slots.old.items ≡ length offers.old.items }
    ensures lengths { length slots.new.items ≡ length offers.new.items }
    ensures parted { zip offers.new.items slots.new.items ≡ parted (port_of O.reading) ending (zip offers.old.items slots.old.items) }
    ensures stay { result ≡ length (filter (λ p. not (ends (port_of O.reading) ending p)) (zip offers.old.items slots.old.items)) }
{
    part(offers.as_mut_slice(), slots.as_mut_slice(), ending)
}

/// The first items.
fn front_of<T, const CAP: usize>(list: &ArrayVec<T, CAP>, count: usize) -> &[T]
    requires { count ≤ length list.now.items }
    ensures value { result.now ≡ take count list.now.items }
    ensures fits { length result.now ≤ CAP }
{
    &list.as_slice()[..count]
}

/// The items behind the first ones.
fn rest_of<T, const CAP: usize>(list: &ArrayVec<T, CAP>, count: usize) -> &[T]
    requires { count ≤ length list.now.items }
    ensures value { result.now ≡ drop count list.now.items }
    ensures fits { length result.now ≤ CAP }
{
    &list.as_slice()[count..]
}

/// The item at that place, if there is such a place.
fn item_at<T: Copy>(list: &[T], place: usize) -> Option<T>
    ensures { result ≡ slice_get list.now place }
{
    Some(*list.get(place)?)
}

/// Writes an item over the one at that place.
fn write_at<T: Copy, const CAP: usize>(list: &mut ArrayVec<T, CAP>, place: usize, item: T)
    requires { place < length list.old.items }
    ensures { list.new.items ≡ set list.old.items place item }
{
    list[place] = item;
}
