//! The records of a table, one by one.
ghost use Rattle.std.specs.Prelude.{◌≡◌};
ghost use Rattle.std.specs.List.{zip};
ghost use Rattle.ipx_table.specs.Slots.{seen};
ghost use Rattle.ipx_table.specs.inside.Clock.{AreKept};

use crate::clock::age_of;
use crate::held::Held;
use std::marker::Model;

/// The records of a table that are still to come, by key.
///
/// See the example of [`Table`](crate::Table).
#[derive(Debug, Drop)]
pub struct TableEntries<'a, O> {
    offers: &'a [O],
    slots: &'a [u8],
    clock: u8,
}

impl<'a, O> Model for TableEntries<'a, O> {
    ghost use Rattle.std.specs.Prelude.{List};
    ghost use Rattle.std.specs.List.{zip};
    ghost use Rattle.ipx_table.specs.declared.held.Held.{Held};
    ghost use Rattle.ipx_table.specs.Slots.{seen};
    ghost use Rattle.ipx_table.specs.inside.Clock.{AreKept};

    ghost Value = { List (Held O) };

    ghost view = { λ t. seen t.clock (zip t.offers.now t.slots.now) };

    ghost invariant = { λ t. AreKept t.offers.now t.slots.now t.clock };
}

impl<'a, O> TableEntries<'a, O> {
    /// The records of these offers, each with its slot, at that time of the clock.
    pub(crate) fn of(offers: &'a [O], slots: &'a [u8], clock: u8) -> TableEntries<'a, O>
        requires { AreKept offers.now slots.now clock }
        ensures { result ≡ seen clock (zip offers.entry.now slots.entry.now) }
    {
        TableEntries {
            offers,
            slots,
            clock,
        }
    }
}

impl<'a, O: Copy> Iterator for TableEntries<'a, O> {
    ghost use Rattle.std.specs.Iterator.{YieldsFirst, item_count};

    type Item = Held<O>;

    ghost next_gives = { YieldsFirst (λ rest. rest) };

    ghost remaining = { item_count (λ rest. rest) };

    fn next(&mut self) -> Option<Held<O>> {
        if self.offers.is_empty() {
            return None;
        }
        let offer = self.offers[0];
        let age = age_of(self.clock, self.slots[0]);
        let (_, offers) = self.offers.split_at(1);
        let (_, slots) = self.slots.split_at(1);
        self.offers = offers;
        self.slots = slots;
        Some(Held { offer, age })
    }
}
