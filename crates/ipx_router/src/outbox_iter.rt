//! The packets of an outbox, one by one.
ghost use Rattle.std.specs.Prelude.{◌≡◌};

use crate::outbox::{Outbox, Sent};
use std::marker::Model;

/// The packets of an outbox that are still to come, in the order in which they were sent.
///
/// See the example of [`Outbox`].
#[derive(Debug, Drop)]
pub struct OutboxIter<'a> {
    outbox: &'a Outbox,
    /// How many packets it gave.
    given: usize,
}

impl<'a> Model for OutboxIter<'a> {
    ghost use Rattle.std.specs.Prelude.{List, drop};
    ghost use Rattle.ipx_router.specs.Relays.{Sent as Packet};

    ghost Value = { List Packet };

    ghost view = { λ o. drop o.given o.outbox.now.sent };
}

impl<'a> OutboxIter<'a> {
    /// All packets of that outbox.
    pub(crate) fn of(outbox: &'a Outbox) -> OutboxIter<'a>
        ensures { result ≡ outbox.entry.now.sent }
    {
        OutboxIter { outbox, given: 0 }
    }
}

impl<'a> Iterator for OutboxIter<'a> {
    ghost use Rattle.std.specs.Iterator.{YieldsFirstBy, item_count};
    ghost use Rattle.ipx_router.specs.Outbox.{lent};

    type Item = Sent<'a>;

    ghost next_gives = { YieldsFirstBy lent (λ rest. rest) };

    ghost remaining = { item_count (λ rest. rest) };

    fn next(&mut self) -> Option<Sent<'a>> {
        if self.outbox.len() <= self.given {
            return None;
        }
        let sent = self.outbox.get(self.given);
        self.given += 1;
        Some(sent)
    }
}

impl<'a> IntoIterator for &'a Outbox {
    type Item = Sent<'a>;

    type IntoIter = OutboxIter<'a>;

    ghost into_iter_gives = { λ outbox packets. packets ≡ outbox.now.sent };

    fn into_iter(self) -> OutboxIter<'a> {
        self.iter()
    }
}
