//! The entries of a routing information packet, one by one.
ghost use Rattle.ipx_wire.specs.Rip.{entries_at};
ghost use Rattle.std.specs.Prelude.{◌≡◌, ◌*◌, ◌≤◌, length};

use crate::rip::{RipEntry, entry_from};
use std::marker::Model;

/// The entries of a routing information packet that are still to come, in their order.
///
/// See the example of [`Rip`](crate::Rip).
#[derive(Debug, Drop)]
pub struct RipEntries<'a> {
    count: usize,
    body: &'a [u8],
}

impl<'a> Model for RipEntries<'a> {
    ghost use Rattle.std.specs.Prelude.{◌*◌, ◌≤◌, List, length};
    ghost use Rattle.ipx_wire.specs.declared.rip.RipEntry.{RipEntry};
    ghost use Rattle.ipx_wire.specs.Rip.{entries_at};

    ghost Value = { List RipEntry };

    ghost view = { λ r. entries_at r.count r.body.now };

    ghost invariant = { λ r. 8 * r.count ≤ length r.body.now };
}

impl<'a> RipEntries<'a> {
    /// The first `count` entries of bytes that have as many.
    pub(crate) fn of(count: usize, body: &'a [u8]) -> RipEntries<'a>
        requires { 8 * count ≤ length body.now }
        ensures { result ≡ entries_at count body.entry.now }
    {
        RipEntries { count, body }
    }
}

impl<'a> Iterator for RipEntries<'a> {
    ghost use Rattle.std.specs.Iterator.{YieldsFirst, item_count};

    type Item = RipEntry;

    ghost next_gives = { YieldsFirst (λ rest. rest) };

    ghost remaining = { item_count (λ rest. rest) };

    fn next(&mut self) -> Option<RipEntry> {
        if self.count == 0 {
            return None;
        }
        let entry = entry_from(self.body, 0);
        let (_, rest) = self.body.split_at(RipEntry::SIZE);
        self.body = rest;
        self.count -= 1;
        Some(entry)
    }
}
