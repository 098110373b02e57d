//! Which records end at once.
ghost use Rattle.std.specs.Prelude.{◌≡◌, ◌==◌, not, length};
ghost use Rattle.std.specs.List.{list_any, zip};
ghost use Rattle.ipx_table.specs.Reading.{port_of};
ghost use Rattle.ipx_table.specs.inside.Clock.{ends};

use crate::clock::has_slot;
use crate::offer::Offer;

/// The records that end.
#[derive(Clone, Copy)]
pub(crate) enum Ending {
    /// Those that were accepted last at that slot of the clock.
    Slot(u8),
    /// Those that came by that port.
    Port(u8),
}

/// Whether one of these records ends.
pub(crate) fn any_ends<O: Offer>(ending: Ending, offers: &[O], slots: &[u8]) -> bool
    requires { length slots.now ≡ length offers.now }
    ensures { result ≡ list_any (ends (port_of O.reading) ending) (zip offers.now slots.now) }
{
    match ending {
        Ending::Slot(ended) => has_slot(slots, ended),
        Ending::Port(port) => came_by(offers, port),
    }
}

/// Whether one of these records stays.
pub(crate) fn any_stays<O: Offer>(ending: Ending, offers: &[O], slots: &[u8]) -> bool
    requires { length slots.now ≡ length offers.now }
    ensures { result ≡ list_any (λ p. not (ends (port_of O.reading) ending p)) (zip offers.now slots.now) }
{
    match ending {
        Ending::Slot(ended) => has_another_slot(slots, ended),
        Ending::Port(port) => came_by_another(offers, port),
    }
}

fn has_another_slot(slots: &[u8], slot: u8) -> bool
    ensures { result ≡ list_any (λ s. not (s == slot)) slots.now }
{
    slots.iter().any(|other| *other != slot)
}

fn came_by<O: Offer>(offers: &[O], port: u8) -> bool
    ensures { result ≡ list_any (λ o. port_of O.reading o == port) offers.now }
{
    offers.iter().any(|offer| offer.source().0 == port)
}

fn came_by_another<O: Offer>(offers: &[O], port: u8) -> bool
    ensures { result ≡ list_any (λ o. not (port_of O.reading o == port)) offers.now }
{
    offers.iter().any(|offer| offer.source().0 != port)
}
