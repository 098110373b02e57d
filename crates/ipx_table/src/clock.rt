//! The clock of a table: 180 slots, one a second.
ghost use Rattle.std.specs.Prelude.{◌≡◌, ◌==◌, ◌<◌, option_map, IfSome};
ghost use Rattle.std.specs.List.{list_any};
ghost use Rattle.ipx_table.specs.Alive.{lifetime};
ghost use Rattle.ipx_table.specs.Slots.{age_at, seen_at};
ghost use Rattle.ipx_table.specs.inside.Clock.{next};

use crate::held::Held;

/// How many seconds an offer lives that nobody refreshes, and so the number of slots.
const LIFETIME: u8 = 180;

/// The slot after that one.
pub(crate) fn next_slot(clock: u8) -> u8
    requires { clock < lifetime }
    ensures { result ≡ next clock }
{
    if clock == LIFETIME - 1 { 0 } else { clock + 1 }
}

/// How many seconds ago the clock was at that slot.
pub(crate) fn age_of(clock: u8, slot: u8) -> u8
    requires clock { clock < lifetime }
    requires slot { slot < lifetime }
    ensures { result ≡ age_at clock slot }
{
    if slot <= clock {
        clock - slot
    } else {
        clock + (LIFETIME - slot)
    }
}

/// A record with its age at that time of the clock.
pub(crate) fn with_age<O: Copy>(clock: u8, kept: Option<(O, u8)>) -> Option<Held<O>>
    requires clock { clock < lifetime }
    requires slot { IfSome kept (λ p. p.1 < lifetime) }
    ensures { result ≡ option_map (seen_at clock) kept }
{
    let (offer, slot) = kept?;
    Some(Held {
        offer,
        age: age_of(clock, slot),
    })
}

/// Whether one of the slots is that one. It looks at all of them: without an early exit this loop vectorises.
pub(crate) fn has_slot(slots: &[u8], slot: u8) -> bool
    ensures { result ≡ list_any (λ s. s == slot) slots.now }
{
    let mut any = false;
    for other in slots {
        any |= *other == slot;
    }
    any
}
