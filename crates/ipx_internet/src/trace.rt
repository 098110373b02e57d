//! Where a packet goes while nothing else happens.
ghost use Rattle.std.specs.Prelude.{◌≡◌, ◌↔◌, ◌<◌, ◌≤◌, ◌==◌, true, length, map, slice_get, Some, IfOk, OnOk, IfErr, IsErrOf};
ghost use Rattle.std.specs.List.{AllByRecursion};
ghost use Rattle.ipx_wire.specs.Piece.{IsBytes};
ghost use Rattle.ipx_internet.specs.Internet.{IsInternet, NodesDiffer, IsPlace};
ghost use Rattle.ipx_internet.specs.Listed.{IsCut};
ghost use Rattle.ipx_internet.specs.Moment.{net_at};
ghost use Rattle.ipx_internet.specs.inside.Simulated.{net_among};
ghost use Rattle.ipx_internet.specs.inside.Stations.{AreOf};
ghost use Rattle.ipx_internet.specs.TraceRoom.{no_memory, IsNoLess, HoldsNoLess};
ghost use Rattle.ipx_internet.specs.Traced.{traced, routers_of, tree, outcome_at};
ghost use Rattle.ipx_internet.specs.Tree.{IsRouter, root, IsTree};
ghost use Rattle.ipx_internet.specs.Weight.{weight};
ghost use Rattle.ipx_internet.specs.declared.fault.TraceFault.TheVariants.{NoSuchPort, Limit, Memory};

use crate::batch::{Coming, proves_sized};
use crate::fault::TraceFault;
use crate::internet::Internet;
use crate::listing::Listing;
use crate::stations::Stations;
use crate::trace_iter::TraceIter;
use crate::trace_room::{Lists, TraceRoom};
use ipx_router::{Outbox, Outcome, Router};
use std::marker::Model;
use std::mem::replace;

/// A reception of a packet: a port of a router receives what the router of the parent sent on.
///
/// See the example of [`Trace`].
#[derive(Clone, Copy, Debug)]
pub struct Reception<'a> {
    /// The number of the reception whose router sent it on; the first reception has none.
    pub parent: Option<usize>,
    pub router: usize,
    pub port: u8,
    pub bytes: &'a [u8],
    pub outcome: Outcome,
}

/// The tree of a packet: its receptions, level by level, children in the order of their parents and of delivery.
///
/// ```
/// match internet.trace(0, 0, bytes, 18) {
///     Ok(trace) => {
///         for it in trace.iter() {
///             println!(rt; "router {}, port {}: {}", it.router, it.port, it.outcome)?;
///         }
///     }
///     Err(TraceFault::Limit) => println!(rt; "over 18 receptions")?,
///     Err(fault) => println!(rt; "{fault}")?,
/// }
/// // prints router 1, port 0: forwarded
/// ```
#[derive(Debug, Drop)]
pub struct Trace<'a> {
    listing: Listing<'a>,
}

impl<'a> Model for Trace<'a> {
    ghost use Rattle.std.specs.Prelude.{◌≡◌, length};
    ghost use Rattle.ipx_internet.specs.Traced.{TracedTree};
    ghost use Rattle.ipx_internet.specs.Listed.{told};

    ghost Value = { TracedTree };

    ghost view = { λ t. record { receptions = told t.listing.copies t.listing.outcomes; memory = t.listing.memory } };

    ghost invariant = { λ t. length t.listing.copies ≡ length t.listing.outcomes };
}

impl<'a> Trace<'a> {
    /// How many receptions there are.
    pub fn len(&self) -> usize
        ensures { result ≡ length self.now.receptions }
    {
        self.listing.len()
    }

    /// Whether there is no reception: never, since there is always the first one.
    pub fn is_empty(&self) -> bool
        ensures { result ≡ (length self.now.receptions == 0) }
    {
        self.len() == 0
    }

    /// Reception number `k`, counted from 0.
    pub fn get(&self, k: usize) -> Reception<'_>
        requires { k < length self.now.receptions }
        ensures { slice_get self.now.receptions k ≡ Some (traced result) }
    {
        let lent = self.listing.get(k);
        Reception {
            parent: lent.parent,
            router: lent.router,
            port: lent.port,
            bytes: lent.bytes,
            outcome: self.listing.outcome(k),
        }
    }

    /// The receptions in their order.
    pub fn iter(&self) -> TraceIter<'_>
        ensures { result ≡ self.now.receptions }
    {
        TraceIter::of(self)
    }

    /// The lists of the trace, without their items.
    pub(crate) fn into_lists(self) -> Lists
        ensures memory { result ≡ self.entry.memory }
        ensures receptions { length self.entry.receptions ≤ result.receptions }
        ensures outcomes { length self.entry.receptions ≤ result.outcomes }
    {
        self.listing.into_lists()
    }
}

impl<const P: usize, const R: usize, const S: usize> Internet<P, R, S> {
    /// Lists the tree of a packet that comes to a port now, by the tables and the ports as they are. It changes nothing.
    pub fn trace<'a>(
        &self,
        router: usize,
        port: u8,
        bytes: &'a [u8],
        limit: usize,
    ) -> Result<Trace<'a>, TraceFault>
        ensures is_tree { IfOk result (λ t. map (λ r. r.copy) t.receptions ≡ tree (routers_of self.now.routers) (root (record { router = router; port = port }) bytes.entry.now)) }
        ensures whole { OnOk result (IsTree (routers_of self.now.routers) (root (record { router = router; port = port }) bytes.entry.now)
            (tree (routers_of self.now.routers) (root (record { router = router; port = port }) bytes.entry.now))) }
        ensures outcomes { IfOk result (λ t. AllByRecursion (λ r. r.outcome ≡ outcome_at (routers_of self.now.routers) r.copy) t.receptions) }
        ensures few { IfOk result (λ t. length t.receptions ≤ limit) }
        ensures bounded { IfOk result (λ t. length t.receptions ≤ weight (net_at self.now) (root (record { router = router; port = port }) bytes.entry.now)) }
        ensures missing { IsErrOf result NoSuchPort ↔ (IsPlace (net_at self.now) (record { router = router; port = port }) → ⊥) }
        ensures limit { IsErrOf result Limit → limit < length (tree (routers_of self.now.routers) (root (record { router = router; port = port }) bytes.entry.now)) }
        ensures memory { IsErrOf result Memory → 0 < limit }
        ensures enough { weight (net_at self.now) (root (record { router = router; port = port }) bytes.entry.now) ≤ limit → IsErrOf result Limit → ⊥ }
    {
        let mut room = TraceRoom::new(self.alloc);
        self.trace_in(&mut room, router, port, bytes, limit)
    }

    /// The same in the memory of a room, which grows if it is too small. The trace takes that memory, and [`TraceRoom::keep`] brings
    /// it back; it is lost if the trace is over its limit or out of memory. The outbox stays in the room, and never becomes smaller.
    pub fn trace_in<'a>(
        &self,
        room: &mut TraceRoom,
        router: usize,
        port: u8,
        bytes: &'a [u8],
        limit: usize,
    ) -> Result<Trace<'a>, TraceFault>
        ensures is_tree { IfOk result (λ t. map (λ r. r.copy) t.receptions ≡ tree (routers_of self.now.routers) (root (record { router = router; port = port }) bytes.entry.now)) }
        ensures whole { OnOk result (IsTree (routers_of self.now.routers) (root (record { router = router; port = port }) bytes.entry.now)
            (tree (routers_of self.now.routers) (root (record { router = router; port = port }) bytes.entry.now))) }
        ensures outcomes { IfOk result (λ t. AllByRecursion (λ r. r.outcome ≡ outcome_at (routers_of self.now.routers) r.copy) t.receptions) }
        ensures few { IfOk result (λ t. length t.receptions ≤ limit) }
        ensures bounded { IfOk result (λ t. length t.receptions ≤ weight (net_at self.now) (root (record { router = router; port = port }) bytes.entry.now)) }
        ensures missing { IsErrOf result NoSuchPort ↔ (IsPlace (net_at self.now) (record { router = router; port = port }) → ⊥) }
        ensures limit { IsErrOf result Limit → limit < length (tree (routers_of self.now.routers) (root (record { router = router; port = port }) bytes.entry.now)) }
        ensures memory { IsErrOf result Memory → 0 < limit }
        ensures enough { weight (net_at self.now) (root (record { router = router; port = port }) bytes.entry.now) ≤ limit → IsErrOf result Limit → ⊥ }
        ensures grown { IfOk result (λ t. IsNoLess room.old.lists t.memory) }
        ensures taken { (IsErrOf result NoSuchPort → ⊥) → room.new.lists ≡ no_memory }
        ensures untouched { IsErrOf result NoSuchPort → room.new ≡ room.old }
        ensures outbox { HoldsNoLess room.old.outbox room.new.outbox }
    {
        if !self.has_place(router, port) {
            return Err(TraceFault::NoSuchPort);
        }
        self.len();
        proves_sized(&self.routers);
        let coming = Coming {
            router,
            port,
            bytes,
        };
        let lists = replace(&mut room.lists, Lists::new(self.alloc));
        let listing = list_tree(
            lists,
            &mut room.outbox,
            &self.routers,
            &self.stations,
            coming,
            limit,
        )?;
        Ok(Trace { listing })
    }

    /// Whether there is such a port.
    fn has_place(&self, router: usize, port: u8) -> bool
        ensures { result ≡ true ↔ IsPlace (net_at self.now) (record { router = router; port = port }) }
    {
        if router >= self.routers.len() {
            return false;
        }
        proves_sized(&self.routers);
        is_place(&self.routers, router, port)
    }
}

/// Whether one of some routers has that port.
fn is_place<const P: usize, const R: usize, const S: usize>(
    routers: &[Router<P, R, S>],
    router: usize,
    port: u8,
) -> bool
    ensures { result ≡ true ↔ IsPlace (net_among routers.now) (record { router = router; port = port }) }
{
    match routers.get(router) {
        Some(router) => router.has_port(port),
        None => false,
    }
}

/// Lists the tree of a packet that comes to a port of one of some routers.
fn list_tree<'a, const P: usize, const R: usize, const S: usize>(
    lists: Lists,
    outbox: &mut Outbox,
    routers: &Vec<Router<P, R, S>>,
    stations: &Stations,
    coming: Coming<'a>,
    limit: usize,
) -> Result<Listing<'a>, TraceFault>
    requires internet { IsInternet (net_among routers.now.items) }
    requires nodes { NodesDiffer (net_among routers.now.items) }
    requires tables { AllByRecursion IsRouter (routers_of routers.now.items) }
    requires stationed { AreOf (net_among routers.now.items) stations.now.list }
    requires place { IsPlace (net_among routers.now.items) (record { router = coming.router; port = coming.port }) }
    ensures copies { IfOk result (λ l. l.copies ≡ tree (routers_of routers.now.items) (root (record { router = coming.entry.router; port = coming.entry.port }) coming.entry.bytes.now)) }
    ensures outcomes { IfOk result (λ l. l.outcomes ≡ map (outcome_at (routers_of routers.now.items))
        (tree (routers_of routers.now.items) (root (record { router = coming.entry.router; port = coming.entry.port }) coming.entry.bytes.now))) }
    ensures whole { OnOk result (IsTree (routers_of routers.now.items) (root (record { router = coming.entry.router; port = coming.entry.port }) coming.entry.bytes.now)
        (tree (routers_of routers.now.items) (root (record { router = coming.entry.router; port = coming.entry.port }) coming.entry.bytes.now))) }
    ensures memory { IfOk result (λ l. IsNoLess lists l.memory) }
    ensures outbox { HoldsNoLess outbox.old outbox.new }
    ensures few { IfOk result (λ l. length l.copies ≤ limit) }
    ensures bounded { IfOk result (λ l. length l.copies ≤ weight (net_among routers.now.items) (root (record { router = coming.entry.router; port = coming.entry.port }) coming.entry.bytes.now)) }
    ensures refused { IfErr result (IsCut limit (length (tree (routers_of routers.now.items) (root (record { router = coming.entry.router; port = coming.entry.port }) coming.entry.bytes.now)))) }
    ensures enough { IfErr result (IsCut limit (weight (net_among routers.now.items) (root (record { router = coming.entry.router; port = coming.entry.port }) coming.entry.bytes.now))) }
{
    crate::laws::trees();
    crate::laws::weights();
    proves_bytes(coming.bytes);
    let mut listing = Listing::new(lists, coming.router, coming.port, coming.bytes, limit)?;
    while listing.mark() < listing.len() {
        let at = listing.get(listing.mark()).router;
        listing = listing.go_on(&routers[at], stations, outbox, limit)?;
    }
    Ok(listing)
}

/// Bytes are numbers under 256. It is for proofs, and does nothing.
pub(crate) fn proves_bytes(bytes: &[u8])
    ensures { IsBytes bytes.now }
{
    let _ = bytes;
}
