//! Packets that routers sent, with their deliveries.
ghost use Rattle.std.specs.Prelude.{◌≡◌, ℕ, ◌+◌, ◌-◌, ◌*◌, ◌^◌, ◌<◌, ◌≤◌, [], ◌∷◌, ◌++◌, length, map, drop, slice_get, Some, OnOk};
ghost use Rattle.std.specs.List.{filter, flat_map};
ghost use Rattle.std.specs.Vec.{vec_len, vec_capacity};
ghost use Rattle.std.specs.Mem.{FitsInMemory};
ghost use Rattle.ipx_router.specs.Happened.{happened};
ghost use Rattle.ipx_router.specs.History.{History, IsOnPort};
ghost use Rattle.ipx_router.specs.Needs.{HasRoomFor, packets_needed};
ghost use Rattle.ipx_router.specs.Outbox.{HasRoom};
ghost use Rattle.ipx_router.specs.Outcomes.{outcome};
ghost use Rattle.ipx_router.specs.RouterOf.{HasPast};
ghost use Rattle.ipx_router.specs.Sends.{sends};
ghost use Rattle.ipx_router.specs.Stands.{StandsFor};
ghost use Rattle.ipx_internet.specs.Batches.{AreWithin, deliveries_in, delivery_of, heard, pending_at};
ghost use Rattle.ipx_internet.specs.inside.Stations.{hears};

use crate::stations::{Station, Stations, network_of};
use ipx_router::{Event, Need, Outbox, Outcome, Router};
use ipx_wire::{Node, OutOfMemory};
use std::alloc::Global;
use std::marker::Model;

/// A port that receives a packet: the port of that number of a router, and the number of the packet.
#[derive(Clone, Copy)]
pub(crate) struct Pending {
    pub router: usize,
    pub port: u8,
    pub packet: usize,
}

/// Bytes that come to a port.
#[derive(Clone, Copy)]
pub(crate) struct Coming<'a> {
    pub router: usize,
    pub port: u8,
    pub bytes: &'a [u8],
}

/// Packets that routers sent, and who receives them. A packet that several ports receive stands there once.
#[derive(Drop)]
pub(crate) struct Batch {
    outbox: Outbox,
    pending: Vec<Pending>,
}

impl Model for Batch {
    ghost use Rattle.std.specs.Prelude.{◌-◌};
    ghost use Rattle.std.specs.Vec.{vec_len, vec_capacity};
    ghost use Rattle.ipx_internet.specs.Batches.{Pile, AreWithin, deliveries_in};

    ghost Value = { Pile };

    ghost view = { λ b. record { deliveries = deliveries_in b.outbox.sent b.pending.items; outbox = b.outbox; places = vec_capacity b.pending - vec_len b.pending } };

    ghost invariant = { λ b. AreWithin b.outbox.sent b.pending.items };
}

impl Batch {
    pub fn new(alloc: Global) -> Batch
        ensures { result.deliveries ≡ [] }
    {
        Batch {
            outbox: Outbox::new(alloc),
            pending: Vec::new(alloc),
        }
    }

    /// How many deliveries there are.
    pub fn len(&self) -> usize
        ensures value { result ≡ length self.now.deliveries }
        ensures few { result < 2 ^ 63 }
    {
        self.pending.len()
    }

    /// The delivery with exactly `k` others before it.
    pub fn get(&self, k: usize) -> Coming<'_>
        requires { k < length self.now.deliveries }
        ensures { slice_get self.now.deliveries k ≡ Some (delivery_of result) }
    {
        let pending = self.pending[k];
        Coming {
            router: pending.router,
            port: pending.port,
            bytes: self.outbox.get(pending.packet).bytes,
        }
    }

    /// Takes all out, the packets too, and leaves the room.
    pub fn clear(&mut self)
        ensures deliveries { self.new.deliveries ≡ [] }
        ensures packets { self.new.outbox.sent ≡ [] }
        ensures room { (packets bytes : ℕ) → HasRoom self.old.outbox packets bytes → HasRoom self.new.outbox packets bytes }
        ensures places { self.old.places ≤ self.new.places }
    {
        self.outbox.clear();
        self.pending.clear();
    }

    /// Makes the room for what an event sends, where at most that many receive one packet. Packets that nobody receives
    /// are kept no longer than until nothing waits.
    pub fn make_room(&mut self, need: Need, most: usize) -> Result<(), OutOfMemory>
        ensures deliveries { self.new.deliveries ≡ self.old.deliveries }
        ensures packets { self.old.deliveries ≡ [] → self.new.outbox.sent ≡ [] }
        ensures room { OnOk result (HasRoom self.new.outbox need.packets need.bytes) }
        ensures places { OnOk result (need.packets * most ≤ self.new.places) }
    {
        if self.pending.is_empty() {
            self.clear();
        }
        self.outbox.reserve(need)?;
        self.pending.reserve(need.packets.saturating_mul(most))?;
        Ok(())
    }

    /// An event happens to a router, and the deliveries of what it sends are appended, into the room that is there.
    pub fn happen<const P: usize, const R: usize, const S: usize>(
        &mut self,
        stations: &Stations,
        number: usize,
        router: &mut Router<P, R, S>,
        event: Event<'_>,
    ) -> Outcome
        requires port { IsOnPort router.old.ports (happened event) }
        requires room { HasRoomFor router.old (happened event) self.old.outbox }
        requires places { packets_needed router.old (happened event) * stations.now.most ≤ self.old.places }
        ensures ports { router.new.ports ≡ router.old.ports }
        ensures past { HasPast R S router.new }
        ensures stands { (h : History) → StandsFor R S router.old h → StandsFor R S router.new (h ++ happened event.entry ∷ []) }
        ensures outcome { (h : History) → StandsFor R S router.old h → result ≡ outcome router.old.ports R h (happened event.entry) }
        ensures deliveries { (h : History) → StandsFor R S router.old h → self.new.deliveries ≡ self.old.deliveries ++ flat_map (heard stations.now.list router.old.ports number) (sends router.old.ports R S h (happened event.entry)) }
    {
        let before = self.outbox.len();
        let outcome = router.handle(event, &mut self.outbox);
        deliver(
            &mut self.pending,
            stations,
            number,
            router,
            &self.outbox,
            before,
        );
        router.is_router();
        outcome
    }
}

/// Appends the deliveries of what a router sent: the packets of the outbox from one number on.
fn deliver<const P: usize, const R: usize, const S: usize>(
    pending: &mut Vec<Pending>,
    stations: &Stations,
    number: usize,
    router: &Router<P, R, S>,
    outbox: &Outbox,
    before: usize,
)
    requires { vec_len pending.old + (length outbox.now.sent - before) * stations.now.most ≤ vec_capacity pending.old }
    ensures deliveries { deliveries_in outbox.now.sent pending.new.items ≡ deliveries_in outbox.now.sent pending.old.items ++ flat_map (heard stations.now.list router.now.ports number) (drop before outbox.now.sent) }
    ensures within { AreWithin outbox.now.sent pending.old.items → AreWithin outbox.now.sent pending.new.items }
{
    for packet in before..outbox.len() {
        let sent = outbox.get(packet);
        let near = stations.on(network_of(router, sent.port));
        deliver_one(pending, near, number, sent.link, packet);
    }
}

/// Appends the deliveries of one packet to those of some stations that receive it.
fn deliver_one(
    pending: &mut Vec<Pending>,
    stations: &[Station],
    number: usize,
    link: Node,
    packet: usize,
)
    requires { vec_len pending.old + length stations.now ≤ vec_capacity pending.old }
    ensures items { pending.new.items ≡ pending.old.items ++ map (pending_at packet) (filter (hears number link) stations.now) }
    ensures len { vec_len pending.new ≤ vec_len pending.old + length stations.now }
    ensures capacity { vec_capacity pending.new ≡ vec_capacity pending.old }
{
    for station in stations {
        if station.hears(number, link) {
            pending.push_reserved(Pending {
                router: station.router,
                port: station.port,
                packet,
            });
        }
    }
}

/// A value of the type of some elements is smaller than memory, where there is one. It is for proofs, and does nothing.
pub(crate) fn proves_sized<T>(items: &[T])
    requires { 0 < length items.now }
    ensures { FitsInMemory T.row }
{
    let _ = items.len();
}
