//! The outbox: what a router sends goes into room that its caller made before, and taking it out leaves that room.
ghost use Rattle.std.specs.Prelude.{◌≡◌, ◌↔◌, ◌==◌, false, true, ℕ, ◌+◌, ◌-◌, ◌<◌, ◌≤◌, List, [], ◌∷◌, ◌++◌, length, take, drop, slice_get, Some, IsOk, OnOk, OnErr, max, ◌*◌};
ghost use Rattle.std.specs.List.{flat_map};
ghost use Rattle.std.specs.Vec.{vec_len, vec_capacity};
ghost use Rattle.ipx_wire.specs.Forward.{forwarded, propagated};
ghost use Rattle.ipx_wire.specs.Numbers.{crossed_bytes, crossed_places, most_entries, most_services};
ghost use Rattle.ipx_wire.specs.Write.{packet_bytes, rip_packet, query_packet};
ghost use Rattle.ipx_wire.specs.WriteServices.{sap_front, sap_packet, service_bytes};
ghost use Rattle.ipx_wire.specs.declared.service.Service.{Service as ServiceValue};
ghost use Rattle.ipx_wire.specs.declared.network.Network.{Network};
ghost use Rattle.ipx_router.specs.Outbox.{Memory, HasRoom, Fits, Appends, KeepsMemory, KeepsRoom, TakesRoom, total};
ghost use Rattle.ipx_router.specs.Numbers.{services_a_page};
ghost use Rattle.ipx_router.specs.Port.{broadcast};
ghost use Rattle.ipx_router.specs.Relays.{Sent};
ghost use Rattle.ipx_router.specs.inside.Putting.{PutsServices, SendsServices};

use crate::advertising::envelope::Envelope;
use crate::advertising::service_source::ServiceSource;
use crate::outbox_iter::OutboxIter;
use ipx_wire::{
    Address, Network, Node, Operation, OutOfMemory, Packet, RipEntry, Service, write_crossed,
    write_forwarded, write_query, write_rip, write_sap, write_sap_front,
};
use std::alloc::Global;
use std::marker::Model;

/// A packet that a router sent, lent from its outbox.
///
/// See the example of [`Outbox`].
#[derive(Clone, Copy, Debug)]
pub struct Sent<'a> {
    /// The number of the port on which it leaves.
    pub port: u8,
    /// The node of the next hop on that port's network, or the broadcast.
    pub link: Node,
    pub bytes: &'a [u8],
}

/// Room in an outbox.
///
/// ```
/// outbox.reserve(router.need(&Event::Second))?;
/// // From here on no memory is taken.
/// let outcome = router.handle(Event::Second, outbox);
/// println!(rt; "{outcome}")?;
/// // prints ticked
/// ```
#[derive(Clone, Copy, Debug, PartialEq, Eq)]
pub struct Need {
    pub packets: usize,
    /// The bytes of all these packets together.
    pub bytes: usize,
}

/// Where the bytes of a packet stand.
#[derive(Clone, Copy, Debug)]
struct Slot {
    port: u8,
    link: Node,
    start: usize,
    size: usize,
}

/// The packets that a router sent, in order, and room for more.
///
/// ```
/// for Sent { port, link, bytes } in outbox.iter() {
///     println!(rt; "port {port}, to {link}: {} bytes", bytes.len())?;
/// }
/// outbox.clear();
/// // prints port 0, to FFFFFFFFFFFF: 40 bytes
/// ```
#[derive(Debug, Drop)]
pub struct Outbox {
    slots: Vec<Slot>,
    /// The whole room for the packets' bytes: each packet is written where it will lie, so only `reserve` makes it longer.
    bytes: Vec<u8>,
    /// How many bytes at its beginning are the packets'.
    used: usize,
}

impl Model for Outbox {
    ghost use Rattle.std.specs.Prelude.{◌-◌, map, take};
    ghost use Rattle.std.specs.Vec.{vec_len, vec_capacity};
    ghost use Rattle.ipx_router.specs.Outbox.{Contents};
    ghost use Rattle.ipx_router.specs.Slots.{sent_in, IsFlat};

    ghost Value = { Contents };

    ghost view = { λ o. record { sent = map (sent_in (take o.used o.bytes.items)) o.slots.items; places = vec_capacity o.slots - vec_len o.slots; spare = vec_len o.bytes - o.used; memory = record { packets = vec_capacity o.slots; bytes = vec_capacity o.bytes } } };

    ghost invariant = { λ o. IsFlat o.bytes.items o.used o.slots.items };
}

impl Outbox {
    /// An outbox without packets and without room, which holds no memory.
    pub fn new(alloc: Global) -> Outbox
        ensures sent { result.sent ≡ [] }
        ensures memory { result.memory ≡ record { packets = 0; bytes = 0 } }
    {
        Outbox {
            slots: Vec::new(alloc),
            bytes: Vec::new(alloc),
            used: 0,
        }
    }

    /// Makes room for this many more packets and bytes. The packets and the room that was there stay, even if memory
    /// is refused. It takes memory only if room was missing, and is refused only then. Afterwards it holds at most
    /// twice what it held, or just what is needed.
    pub fn reserve(&mut self, need: Need) -> Result<(), OutOfMemory>
        ensures room { OnOk result (HasRoom self.new need.packets need.bytes) }
        ensures there { HasRoom self.old need.packets need.bytes → IsOk result }
        ensures refused { OnErr result (HasRoom self.old need.packets need.bytes → ⊥) }
        ensures sent { self.new.sent ≡ self.old.sent }
        ensures kept { KeepsRoom self.old self.new }
        ensures still { HasRoom self.old need.packets need.bytes → KeepsMemory self.old self.new }
        ensures takes { TakesRoom self.old self.new need.packets need.bytes }
    {
        add_places(&mut self.slots, need.packets)?;
        add_bytes(&mut self.bytes, self.used, need.bytes)
    }

    /// Whether this many more packets and bytes fit into the room that is there.
    pub fn has_room(&self, need: Need) -> bool
        ensures { result ≡ true ↔ HasRoom self.now need.packets need.bytes }
    {
        need.packets <= self.slots.capacity() - self.slots.len()
            && need.bytes <= self.bytes.len() - self.used
    }

    /// How many packets there are.
    pub fn len(&self) -> usize
        ensures { result ≡ length self.now.sent }
    {
        self.slots.len()
    }

    pub fn is_empty(&self) -> bool
        ensures { result ≡ (length self.now.sent == 0) }
    {
        self.slots.is_empty()
    }

    /// Packet number `k`, counted from 0.
    pub fn get(&self, k: usize) -> Sent<'_>
        requires { k < length self.now.sent }
        ensures { slice_get self.now.sent k ≡ Some (record { port = result.port; link = result.link; bytes = result.bytes.now }) }
    {
        let slot = self.slots[k];
        let (written, _) = self.bytes.split_at(self.used);
        Sent {
            port: slot.port,
            link: slot.link,
            bytes: &written[slot.start..slot.start + slot.size],
        }
    }

    /// The packets, in the order in which they were sent.
    pub fn iter(&self) -> OutboxIter<'_>
        ensures { result ≡ self.now.sent }
    {
        OutboxIter::of(self)
    }

    /// Removes all packets. Their room is free again, beside all the room that was left.
    pub fn clear(&mut self)
        ensures sent { self.new.sent ≡ [] }
        ensures room { (packets bytes : ℕ) → HasRoom self.old packets bytes
            → HasRoom self.new (packets + length self.old.sent) (bytes + total self.old.sent) }
        ensures kept { (packets bytes : ℕ) → HasRoom self.old packets bytes → HasRoom self.new packets bytes }
        ensures memory { KeepsMemory self.old self.new }
    {
        self.slots.clear();
        self.used = 0;
    }

    /// Appends a packet of routing information, to the node that it is for.
    pub(crate) fn append_rip(
        &mut self,
        port: u8,
        from: Address,
        to: Address,
        operation: Operation,
        page: &[RipEntry],
    )
        requires some { 1 ≤ length page.now }
        requires most { length page.now ≤ most_entries }
        requires room { Fits self.old (record { port = port; link = to.node; bytes = rip_packet from to operation page.now } ∷ []) }
        ensures { Appends self.old self.new (record { port = port; link = to.node; bytes = rip_packet from to operation page.now } ∷ []) }
    {
        let size = put_rip(&mut self.bytes, self.used, from, to, operation, page);
        add_slot(&mut self.slots, port, to.node, self.used, size);
        self.used += size;
    }

    /// Appends a response of services, to the node that it is for.
    pub(crate) fn append_sap(
        &mut self,
        port: u8,
        from: Address,
        to: Address,
        nearest: bool,
        page: &[Service],
    )
        requires some { 1 ≤ length page.now }
        requires most { length page.now ≤ most_services }
        requires room { Fits self.old (record { port = port; link = to.node; bytes = sap_packet from to nearest page.now } ∷ []) }
        ensures { Appends self.old self.new (record { port = port; link = to.node; bytes = sap_packet from to nearest page.now } ∷ []) }
    {
        let size = put_sap(&mut self.bytes, self.used, from, to, nearest, page);
        add_slot(&mut self.slots, port, to.node, self.used, size);
        self.used += size;
    }

    /// Appends a response of the next services of a source, to the node that it is for; nothing, where none is left. Returns how many
    /// they are. Each is written once, to its place in the packet.
    pub(crate) fn append_services<S: ServiceSource>(
        &mut self,
        envelope: Envelope,
        source: &mut S,
    ) -> usize
        requires places { 1 ≤ length (S.left source.old) → 1 ≤ self.old.places }
        requires spare { S.needs source.old ≤ self.old.spare }
        ensures sends { SendsServices envelope (S.left source.old) (S.left source.new) result self.old self.new }
        ensures few { result ≤ services_a_page }
        ensures last { result < services_a_page → S.left source.new ≡ [] }
    {
        let Envelope { port, from, to } = envelope;
        let count = put_next(&mut self.bytes, self.used, source);
        if count > 0 {
            let size = put_front(&mut self.bytes, self.used, from, to, count);
            add_slot(&mut self.slots, port, to.node, self.used, size);
            self.used += size;
        }
        count
    }

    /// Appends a query for services, to the node that it is for.
    pub(crate) fn append_query(
        &mut self,
        port: u8,
        from: Address,
        to: Address,
        nearest: bool,
        kind: u16,
    )
        requires room { Fits self.old (record { port = port; link = to.node; bytes = query_packet from to nearest kind } ∷ []) }
        ensures { Appends self.old self.new (record { port = port; link = to.node; bytes = query_packet from to nearest kind } ∷ []) }
    {
        let size = put_query(&mut self.bytes, self.used, from, to, nearest, kind);
        add_slot(&mut self.slots, port, to.node, self.used, size);
        self.used += size;
    }

    /// Appends a packet that goes on towards its network, with its transport control one higher.
    pub(crate) fn append_forwarded(&mut self, port: u8, link: Node, packet: &Packet<'_>)
        requires control { packet.now.header.control < 255 }
        requires room { Fits self.old (record { port = port; link = link; bytes = packet_bytes (forwarded packet.now) } ∷ []) }
        ensures { Appends self.old self.new (record { port = port; link = link; bytes = packet_bytes (forwarded packet.now) } ∷ []) }
    {
        let size = put_forwarded(&mut self.bytes, self.used, packet);
        add_slot(&mut self.slots, port, link, self.used, size);
        self.used += size;
    }

    /// Appends a packet of type 20 that goes on to another network, to all its nodes.
    pub(crate) fn append_crossed(
        &mut self,
        port: u8,
        packet: &Packet<'_>,
        arrived: Network,
        outgoing: Network,
    )
        requires free { packet.now.header.control < crossed_places }
        requires eight { crossed_bytes ≤ length packet.now.payload }
        requires room { Fits self.old (record { port = port; link = broadcast; bytes = packet_bytes (propagated arrived outgoing packet.now) } ∷ []) }
        ensures { Appends self.old self.new (record { port = port; link = broadcast; bytes = packet_bytes (propagated arrived outgoing packet.now) } ∷ []) }
    {
        let size = put_crossed(&mut self.bytes, self.used, packet, arrived, outgoing);
        add_slot(&mut self.slots, port, Node::BROADCAST, self.used, size);
        self.used += size;
    }
}

/// Makes places for that many more packets, where fewer are left.
fn add_places(slots: &mut Vec<Slot>, more: usize) -> Result<(), OutOfMemory>
    ensures items { slots.new.items ≡ slots.old.items }
    ensures len { vec_len slots.new ≡ vec_len slots.old }
    ensures larger { vec_capacity slots.old ≤ vec_capacity slots.new }
    ensures room { OnOk result (vec_len slots.new + more ≤ vec_capacity slots.new) }
    ensures there { vec_len slots.old + more ≤ vec_capacity slots.old → IsOk result }
    ensures still { vec_len slots.old + more ≤ vec_capacity slots.old → vec_capacity slots.new ≡ vec_capacity slots.old }
    ensures most { vec_capacity slots.new ≤ max (2 * vec_capacity slots.old) (vec_len slots.old + more) }
{
    let left = slots.capacity() - slots.len();
    if left < more {
        slots.reserve_exact(more.max(left.saturating_add(slots.capacity())))?;
    }
    Ok(())
}

/// Makes the room longer where fewer than that many bytes of it are left behind those that are used.
fn add_bytes(bytes: &mut Vec<u8>, used: usize, more: usize) -> Result<(), OutOfMemory>
    requires { used ≤ vec_len bytes.old }
    ensures kept { take (vec_len bytes.old) bytes.new.items ≡ bytes.old.items }
    ensures longer { vec_len bytes.old ≤ vec_len bytes.new }
    ensures room { OnOk result (used + more ≤ vec_len bytes.new) }
    ensures there { used + more ≤ vec_len bytes.old → IsOk result }
    ensures still { used + more ≤ vec_len bytes.old → vec_capacity bytes.new ≡ vec_capacity bytes.old }
    ensures most { vec_capacity bytes.new ≤ max (2 * vec_capacity bytes.old) (used + more) }
{
    let left = bytes.len() - used;
    if left < more {
        let grown = bytes.capacity().max(more - left);
        bytes.reserve_exact(grown)?;
        lengthen(bytes);
    }
    Ok(())
}

/// Puts zeros behind the bytes, as many as there is memory for.
fn lengthen(bytes: &mut Vec<u8>)
    ensures len { vec_len bytes.new ≡ vec_capacity bytes.old }
    ensures front { take (vec_len bytes.old) bytes.new.items ≡ bytes.old.items }
    ensures capacity { vec_capacity bytes.new ≡ vec_capacity bytes.old }
{
    while bytes.len() < bytes.capacity() {
        bytes.push_reserved(0);
    }
}

/// Writes a packet into the room, from `start` on, and returns its length.
fn put_rip(
    bytes: &mut Vec<u8>,
    start: usize,
    from: Address,
    to: Address,
    operation: Operation,
    page: &[RipEntry],
) -> usize
    requires some { 1 ≤ length page.now }
    requires most { length page.now ≤ most_entries }
    requires room { start + length (rip_packet from to operation page.now) ≤ vec_len bytes.old }
    ensures front { take (start + result) bytes.new.items ≡ take start bytes.old.items ++ rip_packet from to operation page.now }
    ensures size { result ≡ length (rip_packet from to operation page.now) }
    ensures there { start + result ≤ length bytes.new.items }
    ensures len { vec_len bytes.new ≡ vec_len bytes.old }
    ensures capacity { vec_capacity bytes.new ≡ vec_capacity bytes.old }
{
    ipx_wire::laws::sizes();
    write_rip(from, to, operation, page, &mut bytes[start..])
}

fn put_sap(
    bytes: &mut Vec<u8>,
    start: usize,
    from: Address,
    to: Address,
    nearest: bool,
    page: &[Service],
) -> usize
    requires some { 1 ≤ length page.now }
    requires most { length page.now ≤ most_services }
    requires room { start + length (sap_packet from to nearest page.now) ≤ vec_len bytes.old }
    ensures front { take (start + result) bytes.new.items ≡ take start bytes.old.items ++ sap_packet from to nearest page.now }
    ensures size { result ≡ length (sap_packet from to nearest page.now) }
    ensures there { start + result ≤ length bytes.new.items }
    ensures len { vec_len bytes.new ≡ vec_len bytes.old }
    ensures capacity { vec_capacity bytes.new ≡ vec_capacity bytes.old }
{
    ipx_wire::laws::sizes();
    ipx_wire::laws::in_range(page);
    write_sap(from, to, nearest, page, &mut bytes[start..])
}

/// Writes the next services of a source into the room, behind the place for a front from `start` on, and returns how many they are.
fn put_next<S: ServiceSource>(bytes: &mut Vec<u8>, start: usize, source: &mut S) -> usize
    requires start { start ≤ vec_len bytes.old }
    requires room { start + S.needs source.old ≤ vec_len bytes.old }
    ensures puts { PutsServices (S.left source.old) (S.left source.new) result (drop start bytes.old.items) (drop start bytes.new.items) }
    ensures few { result ≤ services_a_page }
    ensures last { result < services_a_page → S.left source.new ≡ [] }
    ensures before { take start bytes.new.items ≡ take start bytes.old.items }
    ensures len { vec_len bytes.new ≡ vec_len bytes.old }
    ensures capacity { vec_capacity bytes.new ≡ vec_capacity bytes.old }
{
    source.put(&mut bytes[start..])
}

/// Writes the front of a response of that many services into the room, from `start` on, and returns the length of the whole response.
fn put_front(bytes: &mut Vec<u8>, start: usize, from: Address, to: Address, count: usize) -> usize
    requires most { count ≤ most_services }
    requires room { start + 32 ≤ vec_len bytes.old }
    ensures size { result ≡ 32 + 64 * count }
    ensures front { length (sap_front from to false count) ≡ 32 }
    ensures packet { (services : List ServiceValue) → length services ≡ count
        → sap_packet from to false services ≡ sap_front from to false count ++ flat_map service_bytes services }
    ensures before { take start bytes.new.items ≡ take start bytes.old.items }
    ensures behind { drop start bytes.new.items ≡ sap_front from to false count ++ drop 32 (drop start bytes.old.items) }
    ensures len { vec_len bytes.new ≡ vec_len bytes.old }
    ensures capacity { vec_capacity bytes.new ≡ vec_capacity bytes.old }
{
    write_sap_front(from, to, false, count, &mut bytes[start..])
}

fn put_query(
    bytes: &mut Vec<u8>,
    start: usize,
    from: Address,
    to: Address,
    nearest: bool,
    kind: u16,
) -> usize
    requires room { start + length (query_packet from to nearest kind) ≤ vec_len bytes.old }
    ensures front { take (start + result) bytes.new.items ≡ take start bytes.old.items ++ query_packet from to nearest kind }
    ensures size { result ≡ length (query_packet from to nearest kind) }
    ensures there { start + result ≤ length bytes.new.items }
    ensures len { vec_len bytes.new ≡ vec_len bytes.old }
    ensures capacity { vec_capacity bytes.new ≡ vec_capacity bytes.old }
{
    ipx_wire::laws::sizes();
    write_query(from, to, nearest, kind, &mut bytes[start..])
}

fn put_forwarded(bytes: &mut Vec<u8>, start: usize, packet: &Packet<'_>) -> usize
    requires control { packet.now.header.control < 255 }
    requires room { start + length (packet_bytes (forwarded packet.now)) ≤ vec_len bytes.old }
    ensures front { take (start + result) bytes.new.items ≡ take start bytes.old.items ++ packet_bytes (forwarded packet.now) }
    ensures size { result ≡ length (packet_bytes (forwarded packet.now)) }
    ensures there { start + result ≤ length bytes.new.items }
    ensures len { vec_len bytes.new ≡ vec_len bytes.old }
    ensures capacity { vec_capacity bytes.new ≡ vec_capacity bytes.old }
{
    proves_lengths(packet);
    write_forwarded(packet, &mut bytes[start..])
}

fn put_crossed(
    bytes: &mut Vec<u8>,
    start: usize,
    packet: &Packet<'_>,
    arrived: Network,
    outgoing: Network,
) -> usize
    requires free { packet.now.header.control < crossed_places }
    requires eight { crossed_bytes ≤ length packet.now.payload }
    requires room { start + length (packet_bytes (propagated arrived outgoing packet.now)) ≤ vec_len bytes.old }
    ensures front { take (start + result) bytes.new.items ≡ take start bytes.old.items ++ packet_bytes (propagated arrived outgoing packet.now) }
    ensures size { result ≡ length (packet_bytes (propagated arrived outgoing packet.now)) }
    ensures there { start + result ≤ length bytes.new.items }
    ensures len { vec_len bytes.new ≡ vec_len bytes.old }
    ensures capacity { vec_capacity bytes.new ≡ vec_capacity bytes.old }
{
    proves_lengths(packet);
    write_crossed(packet, arrived, outgoing, &mut bytes[start..])
}

/// A packet that is sent on is as long as it came.
pub(crate) fn proves_lengths(packet: &Packet<'_>)
    ensures forwarded { length (packet_bytes (forwarded packet.now)) ≡ packet.now.header.length }
    ensures propagated { (arrived outgoing : Network) → packet.now.header.control < crossed_places → crossed_bytes ≤ length packet.now.payload
        → length (packet_bytes (propagated arrived outgoing packet.now)) ≡ packet.now.header.length }
{
    ipx_wire::laws::sizes();
    packet.bytes();
}

/// Counts that many bytes from `start` on as one more packet.
fn add_slot(slots: &mut Vec<Slot>, port: u8, link: Node, start: usize, size: usize)
    requires { vec_len slots.old < vec_capacity slots.old }
    ensures items { slots.new.items ≡ slots.old.items ++ record { port = port; link = link; start = start; size = size } ∷ [] }
    ensures len { vec_len slots.new ≡ vec_len slots.old + 1 }
    ensures capacity { vec_capacity slots.new ≡ vec_capacity slots.old }
{
    slots.push_reserved(Slot {
        port,
        link,
        start,
        size,
    });
}
