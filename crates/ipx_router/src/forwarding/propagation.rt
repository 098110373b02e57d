//! Propagated packets: each leaves on every port that is up and whose network it hasn't crossed.
ghost use Rattle.std.specs.Prelude.{◌≡◌, ◌<◌, length};
ghost use Rattle.std.specs.List.{AllByRecursion, flat_map};
ghost use Rattle.ipx_wire.specs.Forward.{propagated};
ghost use Rattle.ipx_router.specs.inside.CheckGroups.{IsListed};
ghost use Rattle.ipx_router.specs.Outbox.{Fits, Appends};
ghost use Rattle.ipx_router.specs.Relays.{goes_out, propagated_on};

use crate::outbox::Outbox;
use crate::port::Port;
use crate::ports::addresses::port_of;
use ipx_wire::{Crossed, Packet};

/// Sends a propagated packet to the other networks, ports in order.
pub(crate) fn propagate(
    outbox: &mut Outbox,
    ports: &[Port],
    up: &[u8],
    number: u8,
    packet: &Packet<'_>,
    crossed: &Crossed<'_>,
)
    requires port { number < length ports.now }
    requires ups { AllByRecursion (λ j. j < length ports.now) up.now }
    requires listed { IsListed packet.now crossed.now }
    requires room { Fits outbox.old (flat_map (propagated_on ports.now number packet.now) up.now) }
    ensures { Appends outbox.old outbox.new (flat_map (propagated_on ports.now number packet.now) up.now) }
{
    for &out in up {
        propagate_on(outbox, ports, number, out, packet, crossed);
    }
}

/// The same on one port, if the packet goes out there.
fn propagate_on(
    outbox: &mut Outbox,
    ports: &[Port],
    number: u8,
    out: u8,
    packet: &Packet<'_>,
    crossed: &Crossed<'_>,
)
    requires port { number < length ports.now }
    requires out { out < length ports.now }
    requires listed { IsListed packet.now crossed.now }
    requires room { Fits outbox.old (propagated_on ports.now number packet.now out) }
    ensures { Appends outbox.old outbox.new (propagated_on ports.now number packet.now out) }
{
    if goes_out(ports, number, out, packet, crossed) {
        let arrived = port_of(ports, number).network();
        outbox.append_crossed(out, packet, arrived, port_of(ports, out).network());
    }
}

/// Whether a propagated packet goes out on that port: it is another one, the packet has not crossed its network, and it is
/// short enough.
fn goes_out(ports: &[Port], number: u8, out: u8, packet: &Packet<'_>, crossed: &Crossed<'_>) -> bool
    requires out { out < length ports.now }
    requires listed { IsListed packet.now crossed.now }
    ensures { result ≡ goes_out ports.now number packet.now out }
{
    let outgoing = port_of(ports, out);
    out != number
        && !crossed.contains(outgoing.network())
        && packet.header().length <= outgoing.longest()
}
