//! When two links are alike.
ghost use Rattle.std.specs.Prelude.{◌≡◌, ◌<◌, length};
ghost use Rattle.ipx_plan.specs.Carriers.{same_carrier, is_tunnel, is_card, tunnel_port, is_shared};
ghost use Rattle.ipx_plan.specs.Likeness.{same_link, is_same, is_at_same_port, distance, distance_at};

use crate::carrier::Carrier;
use crate::link::Link;

/// The distance of two links that are the same.
pub(crate) const SAME: u8 = 0;

/// The distance of two tunnels at the same port.
pub(crate) const AT_PORT: u8 = 1;

/// The distance of two links that aren't alike.
const APART: u8 = 2;

pub(crate) fn same_carrier(a: Carrier, b: Carrier) -> bool
    ensures { result ≡ same_carrier a b }
{
    match (a, b) {
        (
            Carrier::Tunnel { port, address },
            Carrier::Tunnel {
                port: other,
                address: elsewhere,
            },
        ) => port == other && address == elsewhere,
        (Carrier::Card(card), Carrier::Card(other)) => card == other,
        (Carrier::Shared(number), Carrier::Shared(other))
        | (Carrier::Own(number), Carrier::Own(other)) => number == other,
        _ => false,
    }
}

pub(crate) fn is_tunnel(carrier: Carrier) -> bool
    ensures { result ≡ is_tunnel carrier }
{
    match carrier {
        Carrier::Tunnel { .. } => true,
        Carrier::Card(_) | Carrier::Shared(_) | Carrier::Own(_) => false,
    }
}

pub(crate) fn is_card(carrier: Carrier) -> bool
    ensures { result ≡ is_card carrier }
{
    match carrier {
        Carrier::Card(_) => true,
        Carrier::Tunnel { .. } | Carrier::Shared(_) | Carrier::Own(_) => false,
    }
}

/// The UDP port of a tunnel, 0 where it takes whichever is free; 0 of all else.
pub(crate) fn tunnel_port(carrier: Carrier) -> u16
    ensures { result ≡ tunnel_port carrier }
{
    match carrier {
        Carrier::Tunnel { port, .. } => port,
        Carrier::Card(_) | Carrier::Shared(_) | Carrier::Own(_) => 0,
    }
}

/// Whether all links on it share one cable.
pub(crate) fn is_shared(carrier: Carrier) -> bool
    ensures { result ≡ is_shared carrier }
{
    match carrier {
        Carrier::Tunnel { port, .. } => port != 0,
        Carrier::Shared(_) => true,
        Carrier::Card(_) | Carrier::Own(_) => false,
    }
}

/// Whether two links are carried alike, in the same kind of frames.
pub(crate) fn same_link(a: Link, b: Link) -> bool
    ensures { result ≡ same_link a b }
{
    same_carrier(a.carrier, b.carrier) && a.frames == b.frames
}

/// Whether two links are the only ones of the same network; or carried alike, where it has several links or had.
fn is_same(a: Link, b: Link) -> bool
    ensures { result ≡ is_same a b }
{
    a.network == b.network && (!(a.is_of_several || b.is_of_several) || same_link(a, b))
}

/// Whether two links are tunnels of the same network at the same port.
fn is_at_same_port(a: Link, b: Link) -> bool
    ensures { result ≡ is_at_same_port a b }
{
    let port = tunnel_port(a.carrier);
    a.network == b.network && port != 0 && port == tunnel_port(b.carrier)
}

fn distance(a: Link, b: Link) -> u8
    ensures { result ≡ distance a b }
{
    if is_same(a, b) {
        SAME
    } else if is_at_same_port(a, b) {
        AT_PORT
    } else {
        APART
    }
}

/// How far two links are from each other, by their numbers.
pub(crate) fn distance_at(old: &[Link], new: &[Link], j: usize, k: usize) -> u8
    requires old { j < length old.now }
    requires new { k < length new.now }
    ensures { result ≡ distance_at old.now new.now j k }
{
    distance(old[j], new[k])
}
