//! What becomes of tunnels and of their clients.
ghost use Rattle.std.specs.Prelude.{◌≡◌};
ghost use Rattle.ipx_plan.specs.Tunnels.{same_node, is_found, is_same_tunnel, tunnel, ends_tunnel, has_other_clients, has_other_sockets};

use crate::likeness::{is_tunnel, same_link, tunnel_port};
use crate::link::Link;
use crate::origin::Tunnel;
use ipx_wire::Node;

pub(crate) fn same_node(a: Option<Node>, b: Option<Node>) -> bool
    ensures { result ≡ same_node a b }
{
    match (a, b) {
        (Some(a), Some(b)) => a == b,
        (None, None) => true,
        (Some(_), None) | (None, Some(_)) => false,
    }
}

/// Whether the clients of the one find the other where it was.
fn is_found(a: Link, b: Link) -> bool
    ensures { result ≡ is_found a b }
{
    let port = tunnel_port(a.carrier);
    is_tunnel(a.carrier)
        && is_tunnel(b.carrier)
        && port == tunnel_port(b.carrier)
        && (port != 0 || same_link(a, b))
}

/// Whether a tunnel stays as it is.
fn is_same_tunnel(keeps_router: bool, a: Link, b: Link) -> bool
    ensures { result ≡ is_same_tunnel keeps_router a b }
{
    same_link(a, b) && a.clients == b.clients && (keeps_router || same_node(a.node, b.node))
}

/// The tunnel of a new link, by what the link continues.
pub(crate) fn tunnel(keeps_router: bool, before: Option<Link>, link: Link) -> Tunnel
    ensures { result ≡ tunnel keeps_router before link }
{
    if !is_tunnel(link.carrier) {
        return Tunnel::Absent;
    }
    match before {
        Some(before) if is_found(before, link) => {
            if is_same_tunnel(keeps_router, before, link) {
                Tunnel::Stays
            } else {
                Tunnel::Again
            }
        }
        _ => Tunnel::New,
    }
}

/// Whether the tunnel of an old link ends, by what continues the link.
pub(crate) fn ends_tunnel(link: Link, after: Option<Link>) -> bool
    ensures { result ≡ ends_tunnel link after }
{
    match after {
        Some(after) => is_tunnel(link.carrier) && !is_found(link, after),
        None => is_tunnel(link.carrier),
    }
}

/// Whether the rules for clients are others than before.
pub(crate) fn has_other_clients(before: Option<Link>, link: Link) -> bool
    ensures { result ≡ has_other_clients before link }
{
    match before {
        Some(before) => {
            is_tunnel(before.carrier) == is_tunnel(link.carrier) && before.clients != link.clients
        }
        None => false,
    }
}

pub(crate) fn has_other_sockets(before: Option<Link>, link: Link) -> bool
    ensures { result ≡ has_other_sockets before link }
{
    match before {
        Some(before) => before.sockets != link.sockets,
        None => false,
    }
}
