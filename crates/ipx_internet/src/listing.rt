//! The receptions of a tree as they are listed, and what was sent on of them.
ghost use Rattle.std.specs.Prelude.{◌≡◌, ◌+◌, ◌<◌, ◌≤◌, [], ◌∷◌, ◌++◌, length, map, filter, slice_get, Some, IsOk, IfOk, OnOk, IfErr};
ghost use Rattle.std.specs.Vec.{vec_len, vec_capacity};
ghost use Rattle.ipx_router.specs.Facts.{offers};
ghost use Rattle.ipx_router.specs.Relay.{relay_outcome, relay_sends};
ghost use Rattle.ipx_internet.specs.Listed.{bytes_in, sent_bytes, IsIn, child, listed_from, copy_at, waits_next, children_by, GoesOn, IsCut};
ghost use Rattle.ipx_internet.specs.inside.Stations.{hears};
ghost use Rattle.ipx_internet.specs.TraceRoom.{IsNoLess, HoldsNoLess};
ghost use Rattle.ipx_internet.specs.Traced.{router_of, outcome_of};
ghost use Rattle.ipx_internet.specs.Tree.{root, sent_on};
ghost use Rattle.ipx_internet.specs.declared.fault.TraceFault.TheVariants.{Memory as NoMemory};

use crate::fault::TraceFault;
use crate::stations::{Station, Stations, network_of};
use crate::trace_room::Lists;
use ipx_router::{Outbox, Outcome, Router, Why};
use ipx_wire::{Node, Packet};
use std::marker::Model;

/// A reception of a tree.
#[derive(Clone, Copy, Debug)]
pub(crate) struct Listed {
    /// The number of the reception whose router sent it on; none of the first.
    pub parent: Option<usize>,
    pub router: usize,
    pub port: u8,
    /// Where its bytes begin among those that were sent on, and how many they are; the first one's stand with the caller.
    pub start: usize,
    pub size: usize,
}

/// A reception whose router sends on: its number and its router.
#[derive(Clone, Copy)]
pub(crate) struct Parent {
    pub number: usize,
    pub router: usize,
}

/// The receptions of a tree, as far as they are listed. Those that were asked what they send on have their outcomes: the
/// first of them, as many as there are outcomes.
#[derive(Debug, Drop)]
pub(crate) struct Listing<'a> {
    first: &'a [u8],
    /// The bytes of all packets that were sent on, one behind the other.
    store: Vec<u8>,
    list: Vec<Listed>,
    outcomes: Vec<Outcome>,
}

impl<'a> Model for Listing<'a> {
    ghost use Rattle.std.specs.Prelude.{map};
    ghost use Rattle.std.specs.Vec.{vec_capacity};
    ghost use Rattle.ipx_internet.specs.Listed.{Listing as Progress, copy_in, AreKept};

    ghost Value = { Progress };

    ghost view = { λ l. record { copies = map (copy_in l.first.now l.store.items) l.list.items; outcomes = l.outcomes.items; memory = record { receptions = vec_capacity l.list; outcomes = vec_capacity l.outcomes; bytes = vec_capacity l.store } } };

    ghost invariant = { λ l. AreKept l.store.items l.list.items };
}

/// A reception that is listed, lent.
#[derive(Clone, Copy)]
pub(crate) struct Lent<'a> {
    pub parent: Option<usize>,
    pub router: usize,
    pub port: u8,
    pub bytes: &'a [u8],
}

impl<'a> Listing<'a> {
    /// The first reception alone, in the memory of those lists.
    pub fn new(
        lists: Lists,
        router: usize,
        port: u8,
        first: &'a [u8],
        limit: usize,
    ) -> Result<Listing<'a>, TraceFault>
        ensures copies { IfOk result (λ l. l.copies ≡ root (record { router = router; port = port }) first.entry.now ∷ []) }
        ensures outcomes { IfOk result (λ l. l.outcomes ≡ []) }
        ensures memory { IfOk result (λ l. IsNoLess lists l.memory) }
        ensures few { OnOk result (1 ≤ limit) }
        ensures refused { IfErr result (IsCut limit 1) }
    {
        let Lists {
            store,
            mut list,
            outcomes,
        } = lists;
        let listed = Listed {
            parent: None,
            router,
            port,
            start: 0,
            size: 0,
        };
        add(&mut list, listed, limit)?;
        Ok(Listing {
            first,
            store,
            list,
            outcomes,
        })
    }

    /// The memory of what is listed, for another listing.
    pub fn into_lists(self) -> Lists
        ensures memory { result ≡ self.entry.memory }
        ensures receptions { length self.entry.copies ≤ result.receptions }
        ensures outcomes { length self.entry.outcomes ≤ result.outcomes }
    {
        let Listing {
            mut store,
            mut list,
            mut outcomes,
            ..
        } = self;
        store.clear();
        list.clear();
        outcomes.clear();
        Lists {
            store,
            list,
            outcomes,
        }
    }

    /// How many receptions are listed.
    pub fn len(&self) -> usize
        ensures { result ≡ length self.now.copies }
    {
        self.list.len()
    }

    /// How many of them were asked what they send on.
    pub fn mark(&self) -> usize
        ensures { result ≡ length self.now.outcomes }
    {
        self.outcomes.len()
    }

    /// The reception with exactly `k` others before it.
    pub fn get(&self, k: usize) -> Lent<'_>
        requires { k < length self.now.copies }
        ensures { copy_at self.now.copies k ≡ record { parent = result.parent; to = record { router = result.router; port = result.port }; bytes = result.bytes.now } }
    {
        let listed = self.list[k];
        Lent {
            parent: listed.parent,
            router: listed.router,
            port: listed.port,
            bytes: bytes_of(self.first, &self.store, listed),
        }
    }

    /// What became of the packet there.
    pub fn outcome(&self, k: usize) -> Outcome
        requires { k < length self.now.outcomes }
        ensures { slice_get self.now.outcomes k ≡ Some result }
    {
        self.outcomes[k]
    }

    /// The router of the reception that waits next sends on what it received, and those that receive it are listed. The outbox
    /// serves from one reception to the next, and what stands in it is removed first.
    pub fn go_on<const P: usize, const R: usize, const S: usize>(
        self,
        router: &Router<P, R, S>,
        stations: &Stations,
        outbox: &mut Outbox,
        limit: usize,
    ) -> Result<Listing<'a>, TraceFault>
        requires waits { length self.outcomes < length self.copies }
        requires few { length self.copies ≤ limit }
        requires port { (waits_next self).to.port < length router.now.ports }
        ensures goes_on { IfOk result (GoesOn (router_of router.now) stations.now.list self.entry) }
        ensures memory { IfOk result (λ l. IsNoLess self.entry.memory l.memory) }
        ensures outbox { HoldsNoLess outbox.old outbox.new }
        ensures few { IfOk result (λ l. length l.copies ≤ limit) }
        ensures refused { IfErr result (IsCut limit (length self.entry.copies
            + length (children_by (router_of router.now) stations.now.list (length self.entry.outcomes) (waits_next self.entry)))) }
    {
        let Listing {
            first,
            mut store,
            mut list,
            mut outcomes,
        } = self;
        let number = outcomes.len();
        let at = list[number];
        let parent = Parent {
            number,
            router: at.router,
        };
        outbox.clear();
        let outcome = relay(router, at.port, bytes_of(first, &store, at), outbox)?;
        list_children(
            &mut list, &mut store, stations, router, outbox, parent, limit,
        )?;
        keep(&mut outcomes, outcome)?;
        Ok(Listing {
            first,
            store,
            list,
            outcomes,
        })
    }
}

/// The bytes of a reception.
fn bytes_of<'a>(first: &'a [u8], store: &'a [u8], listed: Listed) -> &'a [u8]
    requires { IsIn store.now listed }
    ensures { result.now ≡ bytes_in first.entry.now store.entry.now listed }
{
    match listed.parent {
        None => first,
        Some(_) => &store[listed.start..listed.start + listed.size],
    }
}

/// Sends on what came on a port of a router, and nothing else happens to it.
fn relay<const P: usize, const R: usize, const S: usize>(
    router: &Router<P, R, S>,
    port: u8,
    bytes: &[u8],
    outbox: &mut Outbox,
) -> Result<Outcome, TraceFault>
    requires { port < length router.now.ports }
    ensures sent { OnOk result (outbox.new.sent ≡ outbox.old.sent ++ sent_on (router_of router.now) port bytes.now) }
    ensures outcome { IfOk result (λ o. o ≡ outcome_of (router_of router.now) port bytes.now) }
    ensures refused { IfErr result (λ fault. fault ≡ NoMemory) }
    ensures room { HoldsNoLess outbox.old outbox.new }
{
    match Packet::read(bytes) {
        Ok(packet) => relay_packet(router, port, &packet, outbox),
        Err(fault) => Ok(Outcome::Dropped(if router.is_running() {
            Why::Malformed(fault)
        } else {
            Why::NotRunning
        })),
    }
}

/// The same of a packet.
fn relay_packet<const P: usize, const R: usize, const S: usize>(
    router: &Router<P, R, S>,
    port: u8,
    packet: &Packet<'_>,
    outbox: &mut Outbox,
) -> Result<Outcome, TraceFault>
    requires { port < length router.now.ports }
    ensures sent { OnOk result (outbox.new.sent ≡ outbox.old.sent ++ relay_sends router.now.ports router.now.up (offers router.now.routes) router.now.running port packet.now) }
    ensures outcome { IfOk result (λ o. o ≡ relay_outcome router.now.ports router.now.up (offers router.now.routes) router.now.running port packet.now) }
    ensures refused { IfErr result (λ fault. fault ≡ NoMemory) }
    ensures room { HoldsNoLess outbox.old outbox.new }
{
    match outbox.reserve(router.relay_need(packet)) {
        Ok(()) => Ok(router.relay(port, packet, outbox)),
        Err(_) => Err(TraceFault::Memory),
    }
}

/// Lists those that receive what was sent on of a reception, and keeps its bytes.
fn list_children<const P: usize, const R: usize, const S: usize>(
    list: &mut Vec<Listed>,
    store: &mut Vec<u8>,
    stations: &Stations,
    router: &Router<P, R, S>,
    outbox: &Outbox,
    parent: Parent,
    limit: usize,
) -> Result<(), TraceFault>
    requires { 0 < limit }
    ensures listed { OnOk result (list.new.items ≡ list.old.items ++ listed_from stations.now.list router.now.ports parent (length store.old.items) outbox.now.sent) }
    ensures stored { OnOk result (store.new.items ≡ store.old.items ++ sent_bytes outbox.now.sent) }
    ensures few { OnOk result (length list.old.items ≤ limit → length list.new.items ≤ limit) }
    ensures refused { IfErr result (IsCut limit (length list.old.items
        + length (listed_from stations.now.list router.now.ports parent (length store.old.items) outbox.now.sent))) }
    ensures list_capacity { vec_capacity list.old ≤ vec_capacity list.new }
    ensures store_capacity { vec_capacity store.old ≤ vec_capacity store.new }
{
    for packet in 0..outbox.len() {
        let sent = outbox.get(packet);
        let near = stations.on(network_of(router, sent.port));
        list_receivers(
            list,
            near,
            sent.link,
            parent,
            store.len(),
            sent.bytes.len(),
            limit,
        )?;
        append(store, sent.bytes)?;
    }
    Ok(())
}

/// Lists those of some stations that receive a packet.
fn list_receivers(
    list: &mut Vec<Listed>,
    stations: &[Station],
    link: Node,
    parent: Parent,
    start: usize,
    size: usize,
    limit: usize,
) -> Result<(), TraceFault>
    ensures listed { OnOk result (list.new.items ≡ list.old.items ++ map (child parent start size) (filter (hears parent.router link) stations.now)) }
    ensures few { OnOk result (length list.old.items ≤ limit → length list.new.items ≤ limit) }
    ensures refused { IfErr result (IsCut limit (length list.old.items + length (map (child parent start size) (filter (hears parent.router link) stations.now)))) }
    ensures capacity { vec_capacity list.old ≤ vec_capacity list.new }
{
    for station in stations {
        if station.hears(parent.router, link) {
            add(list, child(parent, start, size, station), limit)?;
        }
    }
    Ok(())
}

/// The reception of a packet by a station.
fn child(parent: Parent, start: usize, size: usize, station: &Station) -> Listed
    ensures { result ≡ child parent start size station.now }
{
    Listed {
        parent: Some(parent.number),
        router: station.router,
        port: station.port,
        start,
        size,
    }
}

/// Lists one more, where one more is allowed.
fn add(list: &mut Vec<Listed>, listed: Listed, limit: usize) -> Result<(), TraceFault>
    ensures added { OnOk result (list.new.items ≡ list.old.items ++ listed ∷ []) }
    ensures few { OnOk result (length list.old.items < limit) }
    ensures refused { IfErr result (IsCut limit (length list.old.items + 1)) }
    ensures there { length list.old.items < limit → vec_len list.old < vec_capacity list.old → IsOk result }
    ensures capacity { vec_capacity list.old ≤ vec_capacity list.new }
{
    if list.len() >= limit {
        return Err(TraceFault::Limit);
    }
    match list.push(listed) {
        Ok(()) => Ok(()),
        Err(_) => Err(TraceFault::Memory),
    }
}

/// Keeps an outcome behind the others.
fn keep(outcomes: &mut Vec<Outcome>, outcome: Outcome) -> Result<(), TraceFault>
    ensures kept { OnOk result (outcomes.new.items ≡ outcomes.old.items ++ outcome ∷ []) }
    ensures refused { IfErr result (λ fault. fault ≡ NoMemory) }
    ensures there { vec_len outcomes.old < vec_capacity outcomes.old → IsOk result }
    ensures capacity { vec_capacity outcomes.old ≤ vec_capacity outcomes.new }
{
    match outcomes.push(outcome) {
        Ok(()) => Ok(()),
        Err(_) => Err(TraceFault::Memory),
    }
}

/// Appends the bytes of a packet.
fn append(store: &mut Vec<u8>, bytes: &[u8]) -> Result<(), TraceFault>
    ensures appended { OnOk result (store.new.items ≡ store.old.items ++ bytes.now) }
    ensures refused { IfErr result (λ fault. fault ≡ NoMemory) }
    ensures there { vec_len store.old + length bytes.now ≤ vec_capacity store.old → IsOk result }
    ensures capacity { vec_capacity store.old ≤ vec_capacity store.new }
{
    match store.extend_from_slice(bytes) {
        Ok(()) => Ok(()),
        Err(_) => Err(TraceFault::Memory),
    }
}
