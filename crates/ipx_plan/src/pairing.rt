//! Which link of the old configuration each link of the new one continues.
ghost use Rattle.std.specs.Prelude.{◌≡◌, ◌≤◌, ◌<◌, length};
ghost use Rattle.ipx_plan.specs.Likeness.{distance_at};
ghost use Rattle.ipx_plan.specs.Pairing.{IsPairing, is_number, becomes};
ghost use Rattle.ipx_plan.specs.inside.Pairs.{is_free, first_below, with_link, with_links, paired};

use crate::likeness::{AT_PORT, SAME, distance_at};
use crate::link::Link;
use arrayvec::ArrayVec;

/// For each new link the number of the old one that it continues.
pub(crate) fn pairing<const N: usize>(old: &[Link], new: &[Link]) -> ArrayVec<Option<usize>, N>
    requires { length new.now ≤ N }
    ensures pairing { IsPairing old.now new.now result.items }
{
    let mut was = ArrayVec::new();
    for _ in 0..new.len() {
        was.push(None);
    }
    pair(old, new, SAME, &mut was);
    pair(old, new, AT_PORT, &mut was);
    was
}

/// Each new link that continues none yet continues the first old one at that distance which none continues.
fn pair(old: &[Link], new: &[Link], distance: u8, was: &mut [Option<usize>])
    requires { length was.old ≡ length new.now }
    ensures { was.new ≡ with_links (distance_at old.now new.now) (length old.now) distance was.old (length new.now) }
{
    for k in 0..new.len() {
        if was[k].is_none() {
            was[k] = first_free(old, new, distance, was, k);
        }
    }
}

/// The first old link at that distance of new link k which no new link continues.
fn first_free(
    old: &[Link],
    new: &[Link],
    distance: u8,
    was: &[Option<usize>],
    k: usize,
) -> Option<usize>
    requires { k < length new.now }
    ensures { result ≡ first_below (is_free (distance_at old.now new.now) distance was.now k) (length old.now) }
{
    for j in 0..old.len() {
        if is_free(old, new, distance, was, k, j) {
            return Some(j);
        }
    }
    None
}

/// Whether old link j is at that distance of new link k, and no new link continues it.
fn is_free(
    old: &[Link],
    new: &[Link],
    distance: u8,
    was: &[Option<usize>],
    k: usize,
    j: usize,
) -> bool
    requires old { j < length old.now }
    requires new { k < length new.now }
    ensures { result ≡ is_free (distance_at old.now new.now) distance was.now k j }
{
    distance_at(old, new, j, k) == distance && becomes(was, j).is_none()
}

/// The number of the new link that continues an old one.
pub(crate) fn becomes(was: &[Option<usize>], j: usize) -> Option<usize>
    ensures { result ≡ becomes was.now j }
{
    was.iter().position(|number| is_number(j, *number))
}

/// Whether a number is there.
pub(crate) fn is_number(j: usize, number: Option<usize>) -> bool
    ensures { result ≡ is_number j number }
{
    match number {
        Some(number) => number == j,
        None => false,
    }
}
