//! The iterator over the entries of a response of services.
ghost use Rattle.ipx_wire.specs.SapEntries.{sap_entries_at};
ghost use Rattle.std.specs.Prelude.{◌≡◌, ◌*◌, ◌≤◌, length};

use crate::sap_entries::{SapEntry, entry_from};
use std::marker::Model;

/// The entries of a response that are still to come, in their order.
///
/// See the example of [`Sap`](crate::Sap).
#[derive(Debug, Drop)]
pub struct SapIter<'a> {
    count: usize,
    body: &'a [u8],
}

impl<'a> Model for SapIter<'a> {
    ghost use Rattle.std.specs.Prelude.{◌*◌, ◌≤◌, List, length};
    ghost use Rattle.ipx_wire.specs.declared.sap_entries.SapEntry.{SapEntry};
    ghost use Rattle.ipx_wire.specs.SapEntries.{sap_entries_at};

    ghost Value = { List SapEntry };

    ghost view = { λ s. sap_entries_at s.count s.body.now };

    ghost invariant = { λ s. 64 * s.count ≤ length s.body.now };
}

impl<'a> SapIter<'a> {
    /// The first `count` entries of bytes that have as many.
    pub(crate) fn of(count: usize, body: &'a [u8]) -> SapIter<'a>
        requires { 64 * count ≤ length body.now }
        ensures { result ≡ sap_entries_at count body.entry.now }
    {
        SapIter { count, body }
    }
}

impl<'a> Iterator for SapIter<'a> {
    ghost use Rattle.std.specs.Iterator.{YieldsFirst, item_count};

    type Item = SapEntry;

    ghost next_gives = { YieldsFirst (λ rest. rest) };

    ghost remaining = { item_count (λ rest. rest) };

    fn next(&mut self) -> Option<SapEntry> {
        if self.count == 0 {
            return None;
        }
        let entry = entry_from(self.body);
        let (_, rest) = self.body.split_at(SapEntry::SIZE);
        self.body = rest;
        self.count -= 1;
        Some(entry)
    }
}
