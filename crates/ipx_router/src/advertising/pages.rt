//! Items in packets, a page a packet: a page is sent where one more item finds it full, and where the items end.
ghost use Rattle.std.specs.Prelude.{◌≤◌, List, [], ◌∷◌, length};
ghost use Rattle.ipx_router.specs.Outbox.{Fits, Appends};
ghost use Rattle.ipx_router.specs.inside.Owed.{Pays, owed};

use crate::advertising::envelope::Envelope;
use crate::advertising::item::Item;
use crate::outbox::Outbox;
use arrayvec::ArrayVec;
use ipx_wire::{Header, RipEntry, SapEntry};

/// How many entries a page has: as many as a packet may have.
pub(crate) const ENTRIES_A_PAGE: usize = RipEntry::MOST;

/// How many services a page has: as many as a packet may have.
pub(crate) const SERVICES_A_PAGE: usize = SapEntry::MOST;

/// Where the services of a packet begin: behind its header and the number of its operation.
pub(crate) const SERVICES_AT: usize = Header::SIZE + 2;

/// Adds an item to a page; a full page is sent first.
pub(crate) fn add_item<X: Item, const PAGE: usize>(
    outbox: &mut Outbox,
    envelope: Envelope,
    page: &mut ArrayVec<X, PAGE>,
    item: X,
)
    requires some { 1 ≤ PAGE }
    requires most { PAGE ≤ X.most }
    requires room { PAGE ≤ length page.old.items → Fits outbox.old (X.packet envelope page.old.items ∷ []) }
    ensures { (rest : List X) → Pays outbox.old outbox.new
        (owed PAGE (X.packet envelope) page.old.items (item ∷ rest)) (owed PAGE (X.packet envelope) page.new.items rest) }
{
    if page.is_full() {
        X::send_page(outbox, envelope, page);
        page.clear();
    }
    page.push(item);
}

/// Sends the page that is begun, where there is one.
pub(crate) fn send_rest<X: Item, const PAGE: usize>(
    outbox: &mut Outbox,
    envelope: Envelope,
    page: &ArrayVec<X, PAGE>,
)
    requires most { PAGE ≤ X.most }
    requires room { Fits outbox.old (owed PAGE (X.packet envelope) page.now.items []) }
    ensures { Appends outbox.old outbox.new (owed PAGE (X.packet envelope) page.now.items []) }
{
    if !page.is_empty() {
        X::send_page(outbox, envelope, page);
    }
}
