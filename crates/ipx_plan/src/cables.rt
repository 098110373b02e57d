//! What becomes of cables.
ghost use Rattle.std.specs.Prelude.{◌≡◌};
ghost use Rattle.std.specs.List.{list_any};
ghost use Rattle.ipx_plan.specs.Cables.{is_as_before, first_on, shared_cable, own_cable, cable, is_first_on_cable, is_kept_of, is_closed};

use crate::carrier::Carrier;
use crate::likeness::{is_card, is_shared, same_carrier, same_link};
use crate::link::Link;
use crate::origin::Cable;
use crate::pairing::is_number;

/// Whether a link is carried as the one that it continues.
pub(crate) fn is_as_before(before: Option<Link>, link: Link) -> bool
    ensures { result ≡ is_as_before before link }
{
    match before {
        Some(before) => {
            same_link(before, link)
                && (!is_card(link.carrier) || before.is_of_several == link.is_of_several)
        }
        None => false,
    }
}

/// The cable of new link k.
pub(crate) fn cable(
    old: &[Link],
    new: &[Link],
    was: Option<usize>,
    as_before: bool,
    k: usize,
    link: Link,
) -> Cable
    ensures { result ≡ cable old.now new.now was as_before k link }
{
    if is_shared(link.carrier) {
        shared_cable(first_on(link.carrier, old), first_on(link.carrier, new), k)
    } else {
        own_cable(was, as_before, k)
    }
}

fn first_on(carrier: Carrier, links: &[Link]) -> Option<usize>
    ensures { result ≡ first_on carrier links.now }
{
    links
        .iter()
        .position(|link| same_carrier(link.carrier, carrier))
}

fn shared_cable(kept: Option<usize>, first: Option<usize>, k: usize) -> Cable
    ensures { result ≡ shared_cable kept first k }
{
    match (kept, first) {
        (Some(j), _) => Cable::Kept(j),
        (None, Some(i)) => Cable::Opened(i),
        (None, None) => Cable::Opened(k),
    }
}

fn own_cable(was: Option<usize>, as_before: bool, k: usize) -> Cable
    ensures { result ≡ own_cable was as_before k }
{
    match was {
        Some(j) if as_before => Cable::Kept(j),
        _ => Cable::Opened(k),
    }
}

/// Whether the cable of old link j is closed.
pub(crate) fn is_closed(old: &[Link], cables: &[Cable], j: usize, link: Link) -> bool
    ensures { result ≡ is_closed old.now cables.now j link }
{
    is_first_on_cable(old, j, link) && !is_kept(cables, j)
}

/// Whether a new link has the cable of old link j.
fn is_kept(cables: &[Cable], j: usize) -> bool
    ensures { result ≡ list_any (is_kept_of j) cables.now }
{
    cables.iter().any(|cable| is_kept_of(j, *cable))
}

fn is_first_on_cable(links: &[Link], j: usize, link: Link) -> bool
    ensures { result ≡ is_first_on_cable links.now j link }
{
    !is_shared(link.carrier) || is_number(j, first_on(link.carrier, links))
}

fn is_kept_of(j: usize, cable: Cable) -> bool
    ensures { result ≡ is_kept_of j cable }
{
    match cable {
        Cable::Kept(i) => i == j,
        Cable::Opened(_) => false,
    }
}
