//! Parting the records that stay from those that end, where they lie.
ghost use Rattle.std.specs.Prelude.{◌≡◌, ◌≤◌, not, ◌++◌, length, take, drop};
ghost use Rattle.std.specs.List.{filter, zip};
ghost use Rattle.ipx_table.specs.Reading.{port_of};
ghost use Rattle.ipx_table.specs.inside.Clock.{ends, parted};

use crate::ending::{Ending, any_ends, any_stays};
use crate::offer::Offer;

/// Puts the records that end behind those that stay; either keep their order. Returns how many stay.
pub(crate) fn part<O: Offer>(offers: &mut [O], slots: &mut [u8], ending: Ending) -> usize
    requires lengths { length slots.old ≡ length offers.old }
    ensures offers { length offers.new ≡ length offers.old }
    ensures slots { length slots.new ≡ length slots.old }
    ensures parted { zip offers.new slots.new ≡ parted (port_of O.reading) ending (zip offers.old slots.old) }
    ensures stay { result ≡ length (filter (λ p. not (ends (port_of O.reading) ending p)) (zip offers.old slots.old)) }
    ensures within { result ≤ length offers.old }
{
    if !any_ends(ending, offers, slots) {
        return offers.len();
    }
    if !any_stays(ending, offers, slots) {
        return 0;
    }
    let half = offers.len() / 2;
    let (front_offers, back_offers) = offers.split_at_mut(half);
    let (front_slots, back_slots) = slots.split_at_mut(half);
    let front = part(front_offers, front_slots, ending);
    let back = part(back_offers, back_slots, ending);
    turn(offers, front, half, half + back);
    turn(slots, front, half, half + back);
    front + back
}

/// Changes the places of what stands before the middle and what stands behind it, from one place to another.
fn turn<T>(list: &mut [T], from: usize, middle: usize, to: usize)
    requires before { from ≤ middle }
    requires behind { middle ≤ to }
    requires within { to ≤ length list.old }
    ensures { list.new ≡ take from list.old ++ drop middle (take to list.old) ++ drop from (take middle list.old) ++ drop to list.old }
{
    list[from..to].rotate_left(middle - from);
}
