//! How `Router::relay` judges and sends, given a router's parts.
ghost use Rattle.std.specs.Prelude.{◌≡◌, ◌*◌, ◌<◌, ◌≤◌, true, length, IfOk, IfErr, Some, None};
ghost use Rattle.std.specs.List.{AllByRecursion};
ghost use Rattle.ipx_router.specs.inside.CheckGroups.{GoesAs};
ghost use Rattle.ipx_router.specs.Facts.{offers};
ghost use Rattle.ipx_router.specs.Numbers.{most_ports};
ghost use Rattle.ipx_router.specs.Outbox.{HasRoom, Appends, AppendsAtMost};
ghost use Rattle.ipx_router.specs.Port.{port_at, is_up};
ghost use Rattle.ipx_router.specs.Relay.{relay_why, relay_outcome, relay_sends, passed_outcome, relay_places};
ghost use Rattle.ipx_router.specs.Relays.{relayed};

use crate::forwarding::propagation::propagate;
use crate::judging::checks::{Onward, check};
use crate::outbox::{Need, Outbox, proves_lengths};
use crate::outcome::Outcome;
use crate::port::Port;
use crate::ports::addresses::port_of;
use crate::ports::up_ports::is_up;
use crate::route_offer::RouteOffer;
use crate::why::Why;
use ipx_table::Table;
use ipx_wire::Packet;

/// The room that sending a packet on takes at most.
pub(crate) fn relay_need(ports: &[Port], packet: &Packet<'_>) -> Need
    requires few { length ports.now ≤ most_ports }
    ensures packets { result.packets ≡ relay_places ports.now }
    ensures bytes { result.bytes ≡ relay_places ports.now * packet.now.header.length }
{
    let packets = ports.len().saturating_sub(1).max(1);
    Need {
        packets,
        bytes: packets * packet.bytes().len(),
    }
}

/// Sends a packet on that came on a port, or drops it; the router's own processes don't hear it. `ports`, `up` and `routes`
/// are the router's.
pub(crate) fn relay<const R: usize>(
    running: bool,
    ports: &[Port],
    up: &[u8],
    routes: &Table<RouteOffer, R>,
    number: u8,
    packet: &Packet<'_>,
    outbox: &mut Outbox,
) -> Outcome
    requires port { number < length ports.now }
    requires few { length up.now ≤ length ports.now }
    requires ups { AllByRecursion (λ j. j < length ports.now) up.now }
    requires by_ups { AllByRecursion (λ r. is_up up.now r.port ≡ true) (offers routes.now.records) }
    requires room { HasRoom outbox.old (relay_places ports.now) (relay_places ports.now * packet.now.header.length) }
    ensures outcome { result ≡ relay_outcome ports.now up.now (offers routes.now.records) running number packet.now }
    ensures sends { Appends outbox.old outbox.new (relay_sends ports.now up.now (offers routes.now.records) running number packet.now) }
    ensures bounds { AppendsAtMost (relay_places ports.now) packet.now.header.length outbox.old.sent outbox.new.sent }
{
    if !running {
        return Outcome::Dropped(Why::NotRunning);
    }
    match pass(ports, up, routes, number, packet) {
        Ok(onward) => send_on(outbox, ports, up, routes, number, packet, onward),
        Err(why) => Outcome::Dropped(why),
    }
}

/// How a packet that came on a port goes on, if it does, or why it is dropped; a port that is down drops what nothing else
/// does.
fn pass<'a, const R: usize>(
    ports: &[Port],
    up: &[u8],
    routes: &Table<RouteOffer, R>,
    number: u8,
    packet: &Packet<'a>,
) -> Result<Option<Onward<'a>>, Why>
    requires port { number < length ports.now }
    requires ups { AllByRecursion (λ j. j < length ports.now) up.now }
    requires by_ups { AllByRecursion (λ r. is_up up.now r.port ≡ true) (offers routes.now.records) }
    ensures refused { IfErr result (λ why. relay_why ports.now up.now (offers routes.now.records) true number packet.now ≡ Some why) }
    ensures cleared { IfOk result (λ onward. relay_why ports.now up.now (offers routes.now.records) true number packet.now ≡ None) }
    ensures onward { IfOk result (GoesAs ports.now up.now (offers routes.now.records) (port_at ports.now number) packet.now) }
    ensures up { IfOk result (λ onward. is_up up.now number ≡ true) }
{
    let onward = check(ports, up, routes, &port_of(ports, number), packet)?;
    if is_up(up, number) {
        Ok(onward)
    } else {
        Err(Why::DownPort)
    }
}

/// Sends on a packet that passed its checks, if it goes on. `routes` are those that they asked.
fn send_on<const R: usize>(
    outbox: &mut Outbox,
    ports: &[Port],
    up: &[u8],
    routes: &Table<RouteOffer, R>,
    number: u8,
    packet: &Packet<'_>,
    onward: Option<Onward<'_>>,
) -> Outcome
    requires onward { GoesAs ports.now up.now (offers routes.now.records) (port_at ports.now number) packet.now onward }
    requires port { number < length ports.now }
    requires up { is_up up.now number ≡ true }
    requires few { length up.now ≤ length ports.now }
    requires ups { AllByRecursion (λ j. j < length ports.now) up.now }
    requires room { HasRoom outbox.old (relay_places ports.now) (relay_places ports.now * packet.now.header.length) }
    ensures outcome { result ≡ passed_outcome (port_at ports.now number) packet.now.header }
    ensures sends { Appends outbox.old outbox.new (relayed ports.now up.now (offers routes.now.records) number packet.now) }
    ensures bounds { AppendsAtMost (relay_places ports.now) packet.now.header.length outbox.old.sent outbox.new.sent }
{
    proves_lengths(packet);
    match onward {
        Some(Onward::Propagate(crossed)) => {
            propagate(outbox, ports, up, number, packet, &crossed);
            Outcome::Propagated
        }
        Some(Onward::Forward { port, link }) => {
            outbox.append_forwarded(port, link, packet);
            Outcome::Forwarded
        }
        None => Outcome::Local,
    }
}
