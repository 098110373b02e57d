//! `handle` and `step`, by which a router takes an event, and the calls that tell their room.
ghost use Rattle.std.specs.Prelude.{◌≡◌, ℕ, ◌≤◌, length, List, [], ◌∷◌, ◌++◌, IsOk, IfOk, OnOk, OnErr};
ghost use Rattle.ipx_table.specs.Shares.{IsSharedBy};
ghost use Rattle.ipx_router.specs.Bounds.{most_length};
ghost use Rattle.ipx_router.specs.Facts.{route_facts, route_facts_of, service_facts, service_facts_of};
ghost use Rattle.ipx_router.specs.Happened.{happened};
ghost use Rattle.ipx_router.specs.History.{Event as Happening, Packet, History, IsOnPort, IsOfBytes};
ghost use Rattle.ipx_router.specs.inside.Following.{Follows, sends_between, outcome_at};
ghost use Rattle.ipx_router.specs.Needs.{HasRoomFor, TakesRoomFor, IsUpTo, packets_needed, bytes_needed, packets_ever, bytes_ever};
ghost use Rattle.ipx_router.specs.Outbox.{Contents, HasRoom, Appends, AppendsAtMost, KeepsMemory, KeepsRoom, LeavesRoom};
ghost use Rattle.ipx_router.specs.Outcomes.{outcome};
ghost use Rattle.ipx_router.specs.Routes.{route_rules};
ghost use Rattle.ipx_router.specs.Sends.{sends};
ghost use Rattle.ipx_router.specs.Services.{service_rules};
ghost use Rattle.ipx_router.specs.Shares.{IsWithinCapacity, WithinRouteShares, WithinServiceShares, KeepsNew};
ghost use Rattle.ipx_router.specs.Stands.{State, StandsFor};
ghost use Rattle.ipx_router.specs.inside.Within.{StaysWithin};

use crate::event::Event;
use crate::events::need::{most_need_of, need_of};
use crate::outbox::{Need, Outbox};
use crate::outcome::Outcome;
use crate::port::proves_bytes;
use crate::router::Router;
use ipx_wire::OutOfMemory;

impl<const P: usize, const R: usize, const S: usize> Router<P, R, S> {
    /// The room that an event needs in an outbox: the most packets that it sends, and as many times the bytes of the
    /// longest.
    pub fn need(&self, event: &Event<'_>) -> Need
        ensures packets { result.packets ≡ packets_needed self.now (happened event.now) }
        ensures bytes { result.bytes ≡ bytes_needed self.now (happened event.now) }
    {
        need_of(
            self.ports.len(),
            self.routes.len(),
            self.services.len(),
            *event,
        )
    }

    /// Room enough for any event, as long as no arriving packet is longer than `longest`. An outbox that has it when
    /// it is empty needs no more memory: its room is free again after each `clear`.
    pub fn most_need(&self, longest: u16) -> Need
        ensures packets { result.packets ≡ packets_ever (length self.now.ports) R S }
        ensures bytes { result.bytes ≡ bytes_ever (length self.now.ports) R S longest }
        ensures enough { (later : State) (event : Happening) (outbox : Contents) → later.ports ≡ self.now.ports → IsWithinCapacity R S later
            → IsUpTo longest event → HasRoom outbox result.packets result.bytes → HasRoomFor later event outbox }
        // A packet is no longer than the bytes that it came in, and never longer than 65,535 bytes.
        ensures came { (port : ℕ) (bytes : List ℕ) → length bytes ≤ longest → IsUpTo longest (Packet port bytes) }
        ensures any { longest ≡ 65535 → (event : Happening) → IsOfBytes event → IsUpTo longest event }
    {
        ipx_wire::laws::readings();
        most_need_of(self.ports.len(), R, S, longest)
    }

    /// Takes an event on an existing port: changes the router, and appends the packets that it sends to the outbox.
    /// The outbox has the room that the event needs, and as much memory afterwards as before.
    pub fn handle(&mut self, event: Event<'_>, outbox: &mut Outbox) -> Outcome
        requires port { IsOnPort self.old.ports (happened event) }
        requires room { HasRoomFor self.old (happened event) outbox.old }
        ensures ports { self.new.ports ≡ self.old.ports }
        ensures stands { (h : History) → StandsFor R S self.old h → StandsFor R S self.new (h ++ happened event.entry ∷ []) }
        ensures sends { (h : History) → StandsFor R S self.old h → Appends outbox.old outbox.new (sends self.old.ports R S h (happened event.entry)) }
        ensures memory { KeepsMemory outbox.old outbox.new }
        ensures outcome { (h : History) → StandsFor R S self.old h → result ≡ outcome self.old.ports R h (happened event.entry) }
        ensures bounds { AppendsAtMost (packets_needed self.old (happened event.entry)) (most_length (happened event.entry)) outbox.old.sent outbox.new.sent }
        ensures capacity { IsWithinCapacity R S self.new }
        ensures route_shares { WithinRouteShares self.new.ports self.new.routes }
        ensures service_shares { WithinServiceShares self.new.ports self.new.services }
        ensures route_room { (h : History) (sharers : List ℕ) → StandsFor R S self.old h
            → IsSharedBy (route_rules self.old.ports R) sharers (route_facts self.old.ports (h ++ happened event.entry ∷ []))
            → KeepsNew (route_rules self.old.ports R) (route_facts self.old.ports h) (route_facts_of self.old.ports h (happened event.entry)) self.new.routes }
        ensures service_room { (h : History) (sharers : List ℕ) → StandsFor R S self.old h
            → IsSharedBy (service_rules self.old.ports S) sharers (service_facts self.old.ports (h ++ happened event.entry ∷ []))
            → KeepsNew (service_rules self.old.ports S) (service_facts self.old.ports h) (service_facts_of self.old.ports h (happened event.entry)) self.new.services }
    {
        self.proves_within(&event);
        self.dispatch(event, outbox)
    }

    /// Whatever the event makes of the router, it stays within its bounds.
    fn proves_within(&self, event: &Event<'_>)
        requires port { IsOnPort self.now.ports (happened event.now) }
        ensures { (after : State) → Follows R S self.now after (happened event.now) → StaysWithin R S self.now after (happened event.now) }
    {
        crate::laws::bounds();
        crate::laws::within_capacity();
        crate::laws::shares_hold();
        crate::laws::room_within_a_share();
        proves_of_bytes(event);
        let _ = &self.running;
    }

    fn dispatch(&mut self, event: Event<'_>, outbox: &mut Outbox) -> Outcome
        requires port { IsOnPort self.old.ports (happened event) }
        requires room { HasRoomFor self.old (happened event) outbox.old }
        ensures follows { Follows R S self.old self.new (happened event.entry) }
        ensures sends { Appends outbox.old outbox.new (sends_between self.old self.new (happened event.entry)) }
        ensures outcome { result ≡ outcome_at self.old (happened event.entry) }
    {
        match event {
            Event::Start => self.start(outbox),
            Event::Stop => self.stop(outbox),
            Event::Second => self.second(outbox),
            Event::Packet { port, bytes } => self.packet(port, bytes, outbox),
            Event::PortDown { port } => self.port_down(port, outbox),
            Event::PortUp { port } => self.port_up(port, outbox),
        }
    }

    /// Makes the room that the event needs, if it is missing, then handles the event. The packets that it sends take
    /// only the room that they need. If room can't be made, the router and what the outbox has stay as they were, and
    /// so does the room that was there.
    pub fn step(&mut self, event: Event<'_>, outbox: &mut Outbox) -> Result<Outcome, OutOfMemory>
        requires port { IsOnPort self.old.ports (happened event) }
        ensures ports { self.new.ports ≡ self.old.ports }
        ensures there { HasRoomFor self.old (happened event.entry) outbox.old → IsOk result }
        ensures stands { OnOk result ((h : History) → StandsFor R S self.old h → StandsFor R S self.new (h ++ happened event.entry ∷ [])) }
        ensures sends { OnOk result ((h : History) → StandsFor R S self.old h → outbox.new.sent ≡ outbox.old.sent ++ sends self.old.ports R S h (happened event.entry)) }
        ensures room { OnOk result ((h : History) → StandsFor R S self.old h → LeavesRoom outbox.old outbox.new (sends self.old.ports R S h (happened event.entry))) }
        ensures outcome { IfOk result (λ o. (h : History) → StandsFor R S self.old h → o ≡ outcome self.old.ports R h (happened event.entry)) }
        ensures bounds { OnOk result (AppendsAtMost (packets_needed self.old (happened event.entry)) (most_length (happened event.entry)) outbox.old.sent outbox.new.sent) }
        ensures capacity { OnOk result (IsWithinCapacity R S self.new) }
        ensures route_shares { OnOk result (WithinRouteShares self.new.ports self.new.routes) }
        ensures service_shares { OnOk result (WithinServiceShares self.new.ports self.new.services) }
        ensures route_room { OnOk result ((h : History) (sharers : List ℕ) → StandsFor R S self.old h
            → IsSharedBy (route_rules self.old.ports R) sharers (route_facts self.old.ports (h ++ happened event.entry ∷ []))
            → KeepsNew (route_rules self.old.ports R) (route_facts self.old.ports h) (route_facts_of self.old.ports h (happened event.entry)) self.new.routes) }
        ensures service_room { OnOk result ((h : History) (sharers : List ℕ) → StandsFor R S self.old h
            → IsSharedBy (service_rules self.old.ports S) sharers (service_facts self.old.ports (h ++ happened event.entry ∷ []))
            → KeepsNew (service_rules self.old.ports S) (service_facts self.old.ports h) (service_facts_of self.old.ports h (happened event.entry)) self.new.services) }
        ensures router { OnErr result (self.new ≡ self.old) }
        ensures outbox { OnErr result (outbox.new.sent ≡ outbox.old.sent) }
        ensures kept { OnErr result (KeepsRoom outbox.old outbox.new) }
        ensures still { HasRoomFor self.old (happened event.entry) outbox.old → KeepsMemory outbox.old outbox.new }
        ensures takes { TakesRoomFor self.old (happened event.entry) outbox.old outbox.new }
    {
        let need = self.need(&event);
        outbox.reserve(need)?;
        Ok(self.handle(event, outbox))
    }
}

/// What comes on a port are bytes.
fn proves_of_bytes(event: &Event<'_>)
    ensures { IsOfBytes (happened event.now) }
{
    if let Event::Packet { bytes, .. } = event {
        proves_bytes(bytes);
    }
}
