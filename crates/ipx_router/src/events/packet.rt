//! The event of a packet: judged, and then learned from, answered or sent on.
ghost use Rattle.std.specs.Prelude.{◌≡◌, ◌<◌, Bool, length, IfOk, IfErr};
ghost use Rattle.ipx_wire.specs.declared.rip.Operation.TheVariants.{Request, Response};
ghost use Rattle.ipx_wire.specs.declared.sap.Sap.TheVariants.{Query, Response as SapResponse};
ghost use Rattle.ipx_router.specs.Facts.{offers};
ghost use Rattle.ipx_router.specs.inside.Following.{Follows, sends_between, outcome_at};
ghost use Rattle.ipx_router.specs.Heard.{HeardRip, HeardSap};
ghost use Rattle.ipx_router.specs.History.{Packet as Came};
ghost use Rattle.ipx_router.specs.inside.Judged.{IsVerdict};
ghost use Rattle.ipx_router.specs.Needs.{HasRoomFor};
ghost use Rattle.ipx_router.specs.Outbox.{Appends};
ghost use Rattle.ipx_router.specs.inside.Received.{IsPassed, IsDropped, IsHeard, IsSentOn, IsSentOnTo};

use crate::answering::answers::{answer_query, answer_request};
use crate::forwarding::propagation::propagate;
use crate::judging::checks::Onward;
use crate::judging::judge::{Verdict, judge};
use crate::learning::responses::{learn_routes, learn_services};
use crate::outbox::Outbox;
use crate::outcome::Outcome;
use crate::port::proves_bytes;
use crate::router::Router;
use crate::why::Why;
use ipx_wire::{Address, Crossed, Node, Operation, Packet, Rip, Sap, SapEntries};

impl<const P: usize, const R: usize, const S: usize> Router<P, R, S> {
    /// A packet on a port.
    pub(crate) fn packet(&mut self, port: u8, bytes: &[u8], outbox: &mut Outbox) -> Outcome
        requires port { port < length self.old.ports }
        requires room { HasRoomFor self.old (Came port bytes.now) outbox.old }
        ensures follows { Follows R S self.old self.new (Came port bytes.now) }
        ensures sends { Appends outbox.old outbox.new (sends_between self.old self.new (Came port bytes.now)) }
        ensures outcome { result ≡ outcome_at self.old (Came port bytes.now) }
    {
        match self.judge(port, bytes) {
            Ok(Verdict::Rip { source, rip }) => match rip.operation() {
                Operation::Response => {
                    self.learn_routes(port, bytes, source, &rip, outbox);
                    Outcome::Learned
                }
                Operation::Request => {
                    self.answer_routes(port, bytes, source, &rip, outbox);
                    Outcome::Answered
                }
            },
            Ok(Verdict::Sap { source, sap }) => match sap {
                Sap::Response { entries, .. } => {
                    self.learn_services(port, bytes, source, &entries, outbox);
                    Outcome::Learned
                }
                Sap::Query { nearest, kind } => {
                    self.answer_services(port, bytes, source, nearest, kind, outbox);
                    Outcome::Answered
                }
            },
            Ok(Verdict::Goes { onward, packet }) => match onward {
                Onward::Propagate(crossed) => {
                    self.propagate(port, bytes, &packet, &crossed, outbox);
                    Outcome::Propagated
                }
                Onward::Forward { port: out, link } => {
                    self.forward(port, bytes, &packet, out, link, outbox);
                    Outcome::Forwarded
                }
            },
            Err(why) => Outcome::Dropped(why),
        }
    }

    /// What is to be done with bytes that came on a port.
    fn judge<'a>(&self, port: u8, bytes: &'a [u8]) -> Result<Verdict<'a>, Why>
        requires { port < length self.now.ports }
        ensures refused { IfErr result (IsDropped self.now port bytes.entry.now) }
        ensures verdict { IfOk result (IsVerdict self.now.ports self.now.up (offers self.now.routes) self.now.running port bytes.entry.now) }
    {
        judge(
            &self.ports,
            &self.up,
            &self.routes,
            self.running,
            port,
            bytes,
        )
    }

    /// A response of routing information: what it offers, and what that changes.
    // (this and the next three stand out of line: no other packet shall pay for their room on the stack)
    #[inline(never)]
    fn learn_routes(
        &mut self,
        port: u8,
        bytes: &[u8],
        source: Address,
        rip: &Rip<'_>,
        outbox: &mut Outbox,
    )
        requires port { port < length self.old.ports }
        requires passes { IsPassed self.old port bytes.now }
        requires heard { IsHeard self.old port bytes.now (HeardRip source rip.now) }
        requires response { rip.now.operation ≡ Response }
        requires room { HasRoomFor self.old (Came port bytes.now) outbox.old }
        ensures follows { Follows R S self.old self.new (Came port bytes.now) }
        ensures sends { Appends outbox.old outbox.new (sends_between self.old self.new (Came port bytes.now)) }
    {
        proves_bytes(bytes);
        learn_routes(
            &mut self.routes,
            &self.ports,
            &self.up,
            port,
            source.node,
            rip,
            outbox,
        );
    }

    /// A response of service advertising: what it offers, and what that changes.
    #[inline(never)]
    fn learn_services(
        &mut self,
        port: u8,
        bytes: &[u8],
        source: Address,
        entries: &SapEntries<'_>,
        outbox: &mut Outbox,
    )
        requires port { port < length self.old.ports }
        requires passes { IsPassed self.old port bytes.now }
        requires heard { (nearest : Bool) × IsHeard self.old port bytes.now (HeardSap source (SapResponse nearest entries.now)) }
        requires room { HasRoomFor self.old (Came port bytes.now) outbox.old }
        ensures follows { Follows R S self.old self.new (Came port bytes.now) }
        ensures sends { Appends outbox.old outbox.new (sends_between self.old self.new (Came port bytes.now)) }
    {
        proves_bytes(bytes);
        learn_services(
            &mut self.services,
            &self.ports,
            &self.up,
            port,
            source.node,
            entries,
            outbox,
        );
    }

    /// A request: the routes that it asks for.
    #[inline(never)]
    fn answer_routes(
        &self,
        port: u8,
        bytes: &[u8],
        source: Address,
        rip: &Rip<'_>,
        outbox: &mut Outbox,
    )
        requires port { port < length self.now.ports }
        requires passes { IsPassed self.now port bytes.now }
        requires heard { IsHeard self.now port bytes.now (HeardRip source rip.now) }
        requires request { rip.now.operation ≡ Request }
        requires room { HasRoomFor self.now (Came port bytes.now) outbox.old }
        ensures follows { Follows R S self.now self.now (Came port bytes.now) }
        ensures sends { Appends outbox.old outbox.new (sends_between self.now self.now (Came port bytes.now)) }
    {
        crate::laws::bounds();
        proves_bytes(bytes);
        answer_request(
            outbox,
            &self.ports,
            &self.up,
            &self.routes,
            port,
            source,
            rip,
        );
    }

    /// A query: the services that it asks for.
    #[inline(never)]
    fn answer_services(
        &self,
        port: u8,
        bytes: &[u8],
        source: Address,
        nearest: bool,
        kind: u16,
        outbox: &mut Outbox,
    )
        requires port { port < length self.now.ports }
        requires passes { IsPassed self.now port bytes.now }
        requires heard { IsHeard self.now port bytes.now (HeardSap source (Query nearest kind)) }
        requires room { HasRoomFor self.now (Came port bytes.now) outbox.old }
        ensures follows { Follows R S self.now self.now (Came port bytes.now) }
        ensures sends { Appends outbox.old outbox.new (sends_between self.now self.now (Came port bytes.now)) }
    {
        crate::laws::bounds();
        proves_bytes(bytes);
        answer_query(
            outbox,
            &self.ports,
            &self.services,
            port,
            source,
            nearest,
            kind,
        );
    }

    /// A packet for all networks: to each that it hasn't crossed.
    fn propagate(
        &self,
        port: u8,
        bytes: &[u8],
        packet: &Packet<'_>,
        crossed: &Crossed<'_>,
        outbox: &mut Outbox,
    )
        requires port { port < length self.now.ports }
        requires on { IsSentOn self.now port bytes.now packet.now crossed.now }
        requires room { HasRoomFor self.now (Came port bytes.now) outbox.old }
        ensures follows { Follows R S self.now self.now (Came port bytes.now) }
        ensures sends { Appends outbox.old outbox.new (sends_between self.now self.now (Came port bytes.now)) }
    {
        crate::laws::bounds();
        proves_bytes(bytes);
        propagate(outbox, &self.ports, &self.up, port, packet, crossed);
    }

    /// A packet for another network: by its way.
    fn forward(
        &self,
        port: u8,
        bytes: &[u8],
        packet: &Packet<'_>,
        out: u8,
        link: Node,
        outbox: &mut Outbox,
    )
        requires port { port < length self.now.ports }
        requires on { IsSentOnTo self.now port bytes.now packet.now out link }
        requires room { HasRoomFor self.now (Came port bytes.now) outbox.old }
        ensures follows { Follows R S self.now self.now (Came port bytes.now) }
        ensures sends { Appends outbox.old outbox.new (sends_between self.now self.now (Came port bytes.now)) }
    {
        let _ = &self.running;
        crate::laws::bounds();
        proves_bytes(bytes);
        outbox.append_forwarded(out, link, packet);
    }
}
