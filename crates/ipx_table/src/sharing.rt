//! How many records a port has, and how many it may have.
ghost use Rattle.std.specs.Prelude.{◌≡◌, ◌==◌, ◌<◌, nat_lt, length};
ghost use Rattle.std.specs.List.{filter};
ghost use Rattle.ipx_table.specs.Reading.{port_of, share_of};

use crate::offer::Offer;

/// How many of the offers came by that port.
pub(crate) fn count_by<O: Offer>(offers: &[O], port: u8) -> usize
    ensures { result ≡ length (filter (λ o. port_of O.reading o == port) offers.now) }
{
    offers.iter().filter(|offer| came_by(*offer, port)).count()
}

/// Whether an offer came by that port.
fn came_by<O: Offer>(offer: &O, port: u8) -> bool
    ensures { result ≡ (port_of O.reading offer.now == port) }
{
    offer.source().0 == port
}

/// The share of a port; `capacity`, where it was given none.
fn share_by(shares: &[u16], capacity: usize, port: u8) -> usize
    ensures { result ≡ share_of capacity shares.now port }
{
    match shares.get(usize::from(port)) {
        Some(share) => usize::from(*share),
        None => capacity,
    }
}

/// Whether a port that has fewer than `capacity` of the offers has fewer of them than its share. They are counted only
/// where the share is a limit at all.
pub(crate) fn has_share<O: Offer>(offers: &[O], shares: &[u16], capacity: usize, port: u8) -> bool
    requires below { length (filter (λ o. port_of O.reading o == port) offers.now) < capacity }
    ensures { result ≡ nat_lt (length (filter (λ o. port_of O.reading o == port) offers.now)) (share_of capacity shares.now port) }
{
    let share = share_by(shares, capacity, port);
    share >= capacity || count_by(offers, port) < share
}
