//! Routers of eight ports that are measured, whatever their table of routes can hold.
ghost use Rattle.std.specs.Prelude.{◌≡◌, ◌≤◌, true};
ghost use Rattle.ipx_router.specs.Happened.{happened};
ghost use Rattle.ipx_router.specs.History.{IsOnPort};

use crate::traffic::network_of;
use ipx_router::{Event, Outbox, Port, PortFault, Router};
use ipx_wire::Node;

/// The ticks and the longest packet of each port.
const COST: u16 = 1;

const LONGEST_PACKET: u16 = 1500;

/// The node of a port.
fn node_of(port: u8) -> Node {
    Node([0, 0, 0, 0, 0, port.wrapping_add(1)])
}

/// A router of eight ports, whose networks follow one another.
#[inline(never)]
pub fn new_router<const R: usize>() -> Result<Router<8, R, 64>, PortFault>
    requires some { 1 ≤ R }
    requires few { R ≤ 65535 }
{
    let mut ports = [Port::default(); 8];
    for number in 0..8u8 {
        ports[usize::from(number)] = Port::new(
            network_of(number),
            node_of(number),
            COST,
            LONGEST_PACKET,
        )?;
    }
    Router::new(&ports).map_err(|_| PortFault::Network)
}

/// Hands a packet to the router.
pub fn hear<S: Stepped>(router: &mut S, outbox: &mut Outbox, port: u8, bytes: &[u8]) -> u64 {
    router.hand(outbox, Event::Packet { port, bytes })
}

/// A router that is measured, whatever its table of routes can hold.
pub trait Stepped {
    /// Hands an event to the router, with an empty outbox. The answer depends on what is sent.
    fn hand(&mut self, outbox: &mut Outbox, event: Event<'_>) -> u64;

    /// Whether the table of routes has as many as it can hold.
    fn is_full(&self) -> bool;
}

impl<const R: usize> Stepped for Router<8, R, 64> {
    fn hand(&mut self, outbox: &mut Outbox, event: Event<'_>) -> u64 {
        if !is_on_port(self, event) {
            return 0;
        }
        outbox.clear();
        match self.step(event, outbox) {
            Ok(_) => any_of(outbox),
            Err(_) => 0,
        }
    }

    fn is_full(&self) -> bool {
        R <= self.routes()
    }
}

/// Whether an event is one of a port that there is.
fn is_on_port<const R: usize>(router: &Router<8, R, 64>, event: Event<'_>) -> bool
    ensures { result ≡ true → IsOnPort router.now.ports (happened event.entry) }
{
    match event {
        Event::Packet { port, .. } | Event::PortDown { port } | Event::PortUp { port } => {
            router.has_port(port)
        }
        _ => true,
    }
}

/// How many packets were sent, and a byte of the last.
fn any_of(outbox: &Outbox) -> u64 {
    let len = outbox.len();
    if len == 0 {
        return 0;
    }
    let last = outbox.get(len - 1).bytes.last();
    len as u64 ^ u64::from(*last.unwrap_or(&0))
}
