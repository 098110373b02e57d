//! What a handle has: a router of one size, and what it sends.
ghost use Rattle.std.specs.Prelude.{◌≡◌, ◌↔◌, true};
ghost use Rattle.ipx_router.specs.Happened.{happened};
ghost use Rattle.ipx_router.specs.History.{IsOnPort};
ghost use Rattle.ipx_c.specs.Happens.{Meets};

use crate::fault::Fault;
use crate::sizes::{MOST_PORTS, MOST_ROUTES, MOST_SERVICES};
use ipx_router::{Event, Outbox, Outcome, Router};

/// The router of this library.
pub(crate) type SizedRouter = Router<MOST_PORTS, MOST_ROUTES, MOST_SERVICES>;

/// A router and the packets that it sends.
#[derive(Drop)]
pub struct Machine {
    pub router: SizedRouter,
    pub outbox: Outbox,
}

impl Machine {
    /// Takes an event, or refuses it: then the router and what is to be sent are as they were.
    pub(crate) fn take(&mut self, event: Event<'_>) -> Result<Outcome, Fault>
        ensures { Meets self.old self.new (happened event.entry) result }
    {
        if !self.has_port(&event) {
            return Err(Fault::NoPort);
        }
        match self.router.step(event, &mut self.outbox) {
            Ok(outcome) => Ok(outcome),
            Err(_) => Err(Fault::OutOfMemory),
        }
    }

    /// Whether the port that the event names, if it names one, is there.
    fn has_port(&self, event: &Event<'_>) -> bool
        ensures { result ≡ true ↔ IsOnPort self.now.router.ports (happened event.now) }
    {
        match *event {
            Event::Packet { port, .. } | Event::PortDown { port } | Event::PortUp { port } => {
                self.router.has_port(port)
            }
            Event::Start | Event::Stop | Event::Second => true,
        }
    }
}
