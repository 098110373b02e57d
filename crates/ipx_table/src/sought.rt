//! The search for a key among offers that ascend by their keys.
ghost use Rattle.std.specs.Prelude.{◌≡◌, ℕ, ◌<◌, length, get_or, true};
ghost use Rattle.ipx_table.specs.Answers.{places, answer_at};
ghost use Rattle.ipx_table.specs.inside.Sought.{answers_to};
ghost use Rattle.ipx_table.specs.Stands.{Ascends};

use crate::asking::{Asked, Found, find};
use crate::offer::Offer;
use std::cmp::Ordering;

/// Offers that ascend by their keys, a key that is sought among them, and how often they were asked.
#[derive(Drop)]
struct Sought<'a, O: Offer> {
    offers: &'a [O],
    key: O::Key,
    asks: u64,
    ghost all: { length offers.now ≡ places (answers_to (λ o. O.Key.cmp (O.reading.key o) key) offers.now) },
    ghost each: { (k : ℕ) (d : O) → k < length offers.now
        → O.Key.cmp (O.reading.key (get_or offers.now k d)) key ≡ answer_at (answers_to (λ o. O.Key.cmp (O.reading.key o) key) offers.now) k },
}

impl<'a, O: Offer> Asked for Sought<'a, O> {
    ghost answers = { λ s. answers_to (λ o. O.Key.cmp (O.reading.key o) s.key) s.offers.now };

    ghost asks = { λ s. s.asks };

    fn len(&self) -> usize {
        self.offers.len()
    }

    fn ask(&mut self, place: usize) -> Ordering {
        self.asks += 1;
        self.offers[place].cmp_key(&self.key)
    }

    fn asks(&self) -> u64 {
        self.asks
    }
}

/// Where a key stands among offers that ascend by their keys. The place `near` is asked before the others.
pub(crate) fn place_near<O: Offer>(offers: &[O], near: usize, key: &O::Key) -> Found
    requires { Ascends (λ a b. O.Key.cmp (O.reading.key a) (O.reading.key b)) offers.now }
    ensures below { result.below ≡ (answers_to (λ o. O.Key.cmp (O.reading.key o) key.now) offers.now).below }
    ensures held { result.held ≡ (answers_to (λ o. O.Key.cmp (O.reading.key o) key.now) offers.now).held }
{
    if is_at(offers, near, key) {
        return Found {
            below: near,
            held: true,
        };
    }
    place_in(offers, *key)
}

/// Whether a key stands at that place.
fn is_at<O: Offer>(offers: &[O], place: usize, key: &O::Key) -> bool
    requires { Ascends (λ a b. O.Key.cmp (O.reading.key a) (O.reading.key b)) offers.now }
    ensures below { result ≡ true → place ≡ (answers_to (λ o. O.Key.cmp (O.reading.key o) key.now) offers.now).below }
    ensures held { result ≡ true → true ≡ (answers_to (λ o. O.Key.cmp (O.reading.key o) key.now) offers.now).held }
{
    if place >= offers.len() {
        return false;
    }
    offers[place].cmp_key(key).is_eq()
}

/// Where a key stands among offers that ascend by their keys.
pub(crate) fn place_in<O: Offer>(offers: &[O], key: O::Key) -> Found
    requires { Ascends (λ a b. O.Key.cmp (O.reading.key a) (O.reading.key b)) offers.now }
    ensures below { result.below ≡ (answers_to (λ o. O.Key.cmp (O.reading.key o) key) offers.now).below }
    ensures held { result.held ≡ (answers_to (λ o. O.Key.cmp (O.reading.key o) key) offers.now).held }
{
    let mut sought = Sought {
        offers,
        key,
        asks: 0,
    };
    find(&mut sought)
}
