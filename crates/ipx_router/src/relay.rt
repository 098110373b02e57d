//! The calls by which a packet is only sent on, and the room that it needs: the router's own processes hear nothing of it.
ghost use Rattle.std.specs.Prelude.{◌≡◌, ◌*◌, ◌<◌, length};
ghost use Rattle.ipx_router.specs.Facts.{offers};
ghost use Rattle.ipx_router.specs.Outbox.{HasRoom, Appends, AppendsAtMost};
ghost use Rattle.ipx_router.specs.Relay.{relay_outcome, relay_sends, relay_places};

use crate::forwarding::sending_on::{relay, relay_need};
use crate::outbox::{Need, Outbox};
use crate::outcome::Outcome;
use crate::router::Router;
use ipx_wire::Packet;

impl<const P: usize, const R: usize, const S: usize> Router<P, R, S> {
    /// The room that `relay` needs for a packet: one of its length for each other port, and for one at least.
    pub fn relay_need(&self, packet: &Packet<'_>) -> Need
        ensures packets { result.packets ≡ relay_places self.now.ports }
        ensures bytes { result.bytes ≡ relay_places self.now.ports * packet.now.header.length }
    {
        relay_need(&self.ports, packet)
    }

    /// Forwards or propagates a packet that came on a port, or drops it, by the routes and the ports as they are now.
    /// A packet for the port's own network is `Local`: nothing is learned or answered.
    pub fn relay(&self, port: u8, packet: &Packet<'_>, outbox: &mut Outbox) -> Outcome
        requires port { port < length self.now.ports }
        requires room { HasRoom outbox.old (relay_places self.now.ports) (relay_places self.now.ports * packet.now.header.length) }
        ensures outcome { result ≡ relay_outcome self.now.ports self.now.up (offers self.now.routes) self.now.running port packet.now }
        ensures sends { Appends outbox.old outbox.new (relay_sends self.now.ports self.now.up (offers self.now.routes) self.now.running port packet.now) }
        // No more than the room that it needs.
        ensures bounds { AppendsAtMost (relay_places self.now.ports) packet.now.header.length outbox.old.sent outbox.new.sent }
    {
        relay(
            self.running,
            &self.ports,
            &self.up,
            &self.routes,
            port,
            packet,
            outbox,
        )
    }
}
