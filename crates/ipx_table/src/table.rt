//! The table.
ghost use Rattle.std.specs.Prelude.{◌≡◌, ◌<◌, ◌≤◌, ◌==◌, List, [], ◌∷◌, ◌++◌, length, map, slice_get, set, Some, option_map, IfSome, false, true};
ghost use Rattle.std.specs.List.{AllByRecursion, list_any};
ghost use Rattle.std.specs.Ordering.{is_eq};
ghost use Rattle.ipx_table.specs.Reading.{rules_of, port_of, count_by};
ghost use Rattle.ipx_table.specs.Shares.{most_shares};
ghost use Rattle.ipx_table.specs.Facts.{Fact, Offered, Second, PortEnd, End};
ghost use Rattle.ipx_table.specs.Alive.{lifetime};
ghost use Rattle.ipx_table.specs.Taken.{is_change, same_left, taken};
ghost use Rattle.ipx_table.specs.Stands.{Stands, Ascends, IsAscending, IsDistinct, record_of, smaller_than, second_later, is_last, ended as ended_of, without_port, ended_with_port};

use crate::clock::{next_slot, with_age};
use crate::ending::Ending;
use crate::exchanged::Exchanged;
use crate::held::Held;
use crate::offer::Offer;
use crate::sharing::count_by as counted_by;
use crate::slotted::Slotted;
use crate::sought::{place_in, place_near};
use crate::table_entries::TableEntries;
use crate::taken::Taken;
use crate::taking::{record_found, take_offer};
use arrayvec::ArrayVec;
use std::marker::Model;

/// How many ports may be given a share.
const MOST_SHARES: usize = 32;

/// At most `CAP` offers with their ages, one of a key, and the shares of the ports. A clause sees the list of its records
/// by key, and the shares. Its offers lie in one slice, by key, which `offers` lends; how their ages are kept, and how `Debug` shows
/// all this, is no promise.
///
/// With `TimeServer`, the type that the documentation of [`Offer`] shows:
///
/// ```
/// let mut table = Table::<TimeServer, 8>::new();
/// table.offer(server);
/// table.second();
/// for Held { offer, age } in table.entries() {
///     println!(rt; "server {}, of age {age}", offer.number)?;
/// }
/// // prints server 7, of age 1
/// ```
#[derive(Debug, Drop)]
pub struct Table<O: Offer, const CAP: usize> {
    /// The records of the table, and behind them what ended in place and isn't forgotten yet.
    records: Slotted<O, CAP>,
    /// How many of these are the table's.
    live: usize,
    clock: u8,
    shares: ArrayVec<u16, MOST_SHARES>,
    /// The place behind the key that was offered last. Who offers many offers them by key as a rule, so the next one is sought
    /// there first. It may be any number.
    next: usize,
}

impl<O: Offer, const CAP: usize> Model for Table<O, CAP> {
    ghost use Rattle.std.specs.Prelude.{map, take, drop};
    ghost use Rattle.ipx_table.specs.Slots.{seen};
    ghost use Rattle.ipx_table.specs.inside.Clock.{IsParted};
    ghost use Rattle.ipx_table.specs.Stands.{Contents};

    ghost Value = { Contents O };

    ghost view = { λ t. record { records = seen t.clock (take t.live t.records); shares = t.shares.items; ended = map (λ p. p.0) (drop t.live t.records) } };

    ghost invariant = { λ t. IsParted (λ a b. O.Key.cmp (O.reading.key a) (O.reading.key b)) t.records t.live t.clock };
}

impl<O: Offer, const CAP: usize> Table<O, CAP> {
    /// An empty table. Any port may fill it.
    pub fn new() -> Table<O, CAP>
        ensures empty { result.records ≡ [] }
        ensures forgotten { result.ended ≡ [] }
        ensures shares { result.shares ≡ [] }
        ensures stands { Stands (rules_of O.reading O.Key.cmp CAP []) result.records [] }
    {
        Table {
            records: Slotted::new(),
            live: 0,
            clock: 0,
            shares: ArrayVec::new(),
            next: 0,
        }
    }

    /// An empty table. `shares[k]` is the most records that port `k` may have; a port without an entry may fill the table.
    #[inline(always)]
    pub fn with_shares(shares: &[u16]) -> Table<O, CAP>
        requires few { length shares.now ≤ most_shares }
        ensures empty { result.records ≡ [] }
        ensures forgotten { result.ended ≡ [] }
        ensures shares { result.shares ≡ shares.now }
        ensures stands { Stands (rules_of O.reading O.Key.cmp CAP shares.now) result.records [] }
    {
        let shares = copy_of(shares);
        Table {
            records: Slotted::new(),
            live: 0,
            clock: 0,
            shares,
            next: 0,
        }
    }

    /// Takes an offer. Returns what became of it.
    pub fn offer(&mut self, offer: O) -> Taken
        ensures stands { (facts : List (Fact O)) → Stands (rules_of O.reading O.Key.cmp CAP self.old.shares) self.old.records facts
            → Stands (rules_of O.reading O.Key.cmp CAP self.old.shares) self.new.records (facts ++ Offered offer ∷ []) }
        ensures answer { (facts : List (Fact O)) → Stands (rules_of O.reading O.Key.cmp CAP self.old.shares) self.old.records facts
            → result ≡ taken (rules_of O.reading O.Key.cmp CAP self.old.shares) O.eq facts offer }
        // The records of other keys stay as they are.
        ensures others { (key : O.Key) → is_eq (O.Key.cmp (O.reading.key offer) key) ≡ false
            → record_of O.reading.key O.Key.cmp key self.new.records ≡ record_of O.reading.key O.Key.cmp key self.old.records }
        ensures shares { self.new.shares ≡ self.old.shares }
        ensures forgotten { self.new.ended ≡ [] }
    {
        self.exchange(offer).taken
    }

    /// Takes an offer, as `offer` does. Returns also the offer that its key had before and the one that it has now, found by
    /// the same search.
    pub fn exchange(&mut self, offer: O) -> Exchanged<O>
        ensures stands { (facts : List (Fact O)) → Stands (rules_of O.reading O.Key.cmp CAP self.old.shares) self.old.records facts
            → Stands (rules_of O.reading O.Key.cmp CAP self.old.shares) self.new.records (facts ++ Offered offer ∷ []) }
        ensures answer { (facts : List (Fact O)) → Stands (rules_of O.reading O.Key.cmp CAP self.old.shares) self.old.records facts
            → result.taken ≡ taken (rules_of O.reading O.Key.cmp CAP self.old.shares) O.eq facts offer }
        // The records of other keys stay as they are.
        ensures others { (key : O.Key) → is_eq (O.Key.cmp (O.reading.key offer) key) ≡ false
            → record_of O.reading.key O.Key.cmp key self.new.records ≡ record_of O.reading.key O.Key.cmp key self.old.records }
        ensures shares { self.new.shares ≡ self.old.shares }
        ensures forgotten { self.new.ended ≡ [] }
        ensures before { result.before ≡ option_map (λ h. h.offer) (record_of O.reading.key O.Key.cmp (O.reading.key offer) self.old.records) }
        ensures after { result.after ≡ option_map (λ h. h.offer) (record_of O.reading.key O.Key.cmp (O.reading.key offer) self.new.records) }
        // Where the answer tells no change, the type takes the offers before and after for the same.
        ensures unchanged { is_change result.taken ≡ false → same_left O.eq result.before result.after ≡ true }
    {
        self.records.truncate(self.live);
        let found = place_near(self.records.offers(), self.next, &offer.key());
        self.next = found.below.wrapping_add(1);
        let exchanged = take_offer(&mut self.records, &self.shares, self.clock, found, &offer);
        self.live = self.records.len();
        exchanged
    }

    /// Renews the record with exactly `place` smaller keys, as its own offer does that comes once more: its age is 0. The offer itself
    /// isn't needed, so who sees in a packet's bytes that it would come needn't make it.
    pub fn renew_at(&mut self, place: usize)
        requires { place < length self.old.records }
        ensures stands { (known : Held O) → slice_get self.old.records place ≡ Some known
            → (facts : List (Fact O)) → Stands (rules_of O.reading O.Key.cmp CAP self.old.shares) self.old.records facts
            → Stands (rules_of O.reading O.Key.cmp CAP self.old.shares) self.new.records (facts ++ Offered known.offer ∷ []) }
        ensures records { (known : Held O) → slice_get self.old.records place ≡ Some known
            → self.new.records ≡ set self.old.records place (record { offer = known.offer; age = 0 }) }
        ensures offers { map (λ h. h.offer) self.new.records ≡ map (λ h. h.offer) self.old.records }
        ensures shares { self.new.shares ≡ self.old.shares }
        ensures forgotten { self.new.ended ≡ [] }
    {
        self.records.truncate(self.live);
        self.records.renew(place, self.clock);
    }

    /// Has the next offer sought at that place first, which may be any number. No record changes.
    pub fn seek_at(&mut self, place: usize)
        ensures { self.new ≡ self.old }
    {
        self.next = place;
    }

    /// Lets a second pass: each record is a second older, and those that are 180 seconds old expire.
    /// Returns the offers that expired, by key.
    pub fn second(&mut self) -> ArrayVec<O, CAP>
        ensures stands { (facts : List (Fact O)) → Stands (rules_of O.reading O.Key.cmp CAP self.old.shares) self.old.records facts
            → Stands (rules_of O.reading O.Key.cmp CAP self.old.shares) self.new.records (facts ++ Second ∷ []) }
        ensures ended { result.items ≡ ended_of self.old.records }
        ensures by_key { Ascends (rules_of O.reading O.Key.cmp CAP self.old.shares).by_key result.items }
        // What did not expire is a second older, and nothing else changed.
        ensures records { self.new.records ≡ second_later self.old.records }
        ensures shares { self.new.shares ≡ self.old.shares }
        ensures forgotten { self.new.ended ≡ [] }
    {
        self.second_in_place();
        self.take_ended()
    }

    /// Lets a second pass, as `second` does. `ended` lends the offers that expired.
    pub fn second_in_place(&mut self)
        ensures stands { (facts : List (Fact O)) → Stands (rules_of O.reading O.Key.cmp CAP self.old.shares) self.old.records facts
            → Stands (rules_of O.reading O.Key.cmp CAP self.old.shares) self.new.records (facts ++ Second ∷ []) }
        ensures ended { self.new.ended ≡ ended_of self.old.records }
        ensures by_key { Ascends (rules_of O.reading O.Key.cmp CAP self.old.shares).by_key self.new.ended }
        // What did not expire is a second older, and nothing else changed.
        ensures records { self.new.records ≡ second_later self.old.records }
        ensures shares { self.new.shares ≡ self.old.shares }
    {
        self.records.truncate(self.live);
        self.clock = next_slot(self.clock);
        self.live = self.records.part(Ending::Slot(self.clock));
    }

    /// Whether the next second ends a record.
    pub fn expires(&self) -> bool
        ensures { result ≡ list_any is_last self.now.records }
    {
        self.records.has_slot(self.live, next_slot(self.clock))
    }

    /// Lets a second pass that ends no record: each is a second older.
    pub fn pass(&mut self)
        requires quiet { list_any is_last self.old.records ≡ false }
        ensures stands { (facts : List (Fact O)) → Stands (rules_of O.reading O.Key.cmp CAP self.old.shares) self.old.records facts
            → Stands (rules_of O.reading O.Key.cmp CAP self.old.shares) self.new.records (facts ++ Second ∷ []) }
        ensures records { self.new.records ≡ second_later self.old.records }
        ensures shares { self.new.shares ≡ self.old.shares }
    {
        self.clock = next_slot(self.clock);
    }

    /// Ends the offers that came by that port. Returns them, by key.
    pub fn end_port(&mut self, port: u8) -> ArrayVec<O, CAP>
        ensures stands { (facts : List (Fact O)) → Stands (rules_of O.reading O.Key.cmp CAP self.old.shares) self.old.records facts
            → Stands (rules_of O.reading O.Key.cmp CAP self.old.shares) self.new.records (facts ++ PortEnd port ∷ []) }
        ensures ended { result.items ≡ ended_with_port (port_of O.reading) port self.old.records }
        ensures by_key { Ascends (rules_of O.reading O.Key.cmp CAP self.old.shares).by_key result.items }
        // The other records stay as they are, with their ages.
        ensures records { self.new.records ≡ without_port (port_of O.reading) port self.old.records }
        ensures shares { self.new.shares ≡ self.old.shares }
        ensures forgotten { self.new.ended ≡ [] }
    {
        self.end_port_in_place(port);
        self.take_ended()
    }

    /// Ends the offers that came by that port, as `end_port` does. `ended` lends them.
    pub fn end_port_in_place(&mut self, port: u8)
        ensures stands { (facts : List (Fact O)) → Stands (rules_of O.reading O.Key.cmp CAP self.old.shares) self.old.records facts
            → Stands (rules_of O.reading O.Key.cmp CAP self.old.shares) self.new.records (facts ++ PortEnd port ∷ []) }
        ensures ended { self.new.ended ≡ ended_with_port (port_of O.reading) port self.old.records }
        ensures by_key { Ascends (rules_of O.reading O.Key.cmp CAP self.old.shares).by_key self.new.ended }
        // The other records stay as they are, with their ages.
        ensures records { self.new.records ≡ without_port (port_of O.reading) port self.old.records }
        ensures shares { self.new.shares ≡ self.old.shares }
    {
        self.records.truncate(self.live);
        self.live = self.records.part(Ending::Port(port));
    }

    /// The offers that ended in place last, by key, until they are forgotten: by `clear_ended`, or by any other call that takes
    /// an offer or ends some.
    pub fn ended(&self) -> &[O]
        ensures value { result.now ≡ self.now.ended }
        ensures fits { length result.now ≤ CAP }
    {
        self.records.offers_behind(self.live)
    }

    /// Forgets the offers that ended in place.
    pub fn clear_ended(&mut self)
        ensures forgotten { self.new.ended ≡ [] }
        ensures records { self.new.records ≡ self.old.records }
        ensures shares { self.new.shares ≡ self.old.shares }
    {
        self.records.truncate(self.live);
    }

    /// A copy of the offers that ended in place, which are then forgotten.
    fn take_ended(&mut self) -> ArrayVec<O, CAP>
        ensures ended { result.items ≡ self.old.ended }
        ensures records { self.new.records ≡ self.old.records }
        ensures shares { self.new.shares ≡ self.old.shares }
        ensures forgotten { self.new.ended ≡ [] }
    {
        let mut ended = ArrayVec::new();
        let _ = ended.try_extend_from_slice(self.ended());
        self.clear_ended();
        ended
    }

    /// Ends all offers.
    pub fn clear(&mut self)
        ensures empty { self.new.records ≡ [] }
        ensures stands { (facts : List (Fact O)) → Stands (rules_of O.reading O.Key.cmp CAP self.old.shares) self.new.records (facts ++ End ∷ []) }
        ensures shares { self.new.shares ≡ self.old.shares }
        ensures forgotten { self.new.ended ≡ [] }
    {
        self.records.clear();
        self.live = 0;
    }

    /// The record of that key; `None` where there is none.
    pub fn get(&self, key: &O::Key) -> Option<Held<O>>
        ensures value { result ≡ record_of O.reading.key O.Key.cmp key.now self.now.records }
        ensures young { IfSome result (λ h. h.age < lifetime) }
    {
        let found = place_in(self.records.offers_before(self.live), *key);
        with_age(self.clock, record_found(&self.records, self.live, found))
    }

    /// The record with exactly `k` smaller keys; `None` where `k` is `len()` or more.
    pub fn get_at(&self, k: usize) -> Option<Held<O>>
        ensures value { result ≡ slice_get self.now.records k }
        ensures smaller { IfSome result (λ h. smaller_than O.reading.key O.Key.cmp (O.reading.key h.offer) self.now.records ≡ k) }
        ensures young { IfSome result (λ h. h.age < lifetime) }
    {
        with_age(self.clock, self.records.get(self.live, k))
    }

    /// The records, by key.
    pub fn entries(&self) -> TableEntries<'_, O>
        ensures value { result ≡ self.now.records }
        ensures young { AllByRecursion (λ h. h.age < lifetime) result }
    {
        self.records.entries(self.live, self.clock)
    }

    /// The offers, by key.
    pub fn offers(&self) -> &[O]
        ensures value { result.now ≡ map (λ h. h.offer) self.now.records }
        ensures ascending { Ascends (rules_of O.reading O.Key.cmp CAP self.now.shares).by_key result.now }
    {
        self.records.offers_before(self.live)
    }

    /// How many records there are, at most `CAP`.
    pub fn len(&self) -> usize
        ensures value { result ≡ length self.now.records }
        ensures fits { result ≤ CAP }
        // The records stand by key, and no two are of one key.
        ensures ascending { IsAscending (rules_of O.reading O.Key.cmp CAP self.now.shares).by_key self.now.records }
        ensures distinct { IsDistinct (rules_of O.reading O.Key.cmp CAP self.now.shares).by_key self.now.records }
    {
        self.records.offers_before(self.live).len()
    }

    /// How many records came by that port.
    pub fn count(&self, port: u8) -> usize
        ensures { result ≡ count_by (port_of O.reading) port self.now.records }
    {
        counted_by(self.records.offers_before(self.live), port)
    }

    /// Whether there is no record.
    pub fn is_empty(&self) -> bool
        ensures { result ≡ (length self.now.records == 0) }
    {
        self.len() == 0
    }

    /// Whether there are as many records as there may be.
    pub fn is_full(&self) -> bool
        ensures { result ≡ (length self.now.records == CAP) }
    {
        self.len() == CAP
    }
}

/// The shares, in an array of their own.
fn copy_of(shares: &[u16]) -> ArrayVec<u16, MOST_SHARES>
    requires { length shares.now ≤ most_shares }
    ensures { result.items ≡ shares.now }
{
    let mut kept = ArrayVec::new();
    let _ = kept.try_extend_from_slice(shares);
    kept
}

/// An empty table.
impl<O: Offer, const CAP: usize> Default for Table<O, CAP> {
    ghost is_default = { λ table. table ≡ record { records = []; shares = []; ended = [] } };

    fn default() -> Table<O, CAP> {
        Table::new()
    }
}
