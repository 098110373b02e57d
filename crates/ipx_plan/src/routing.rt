//! Whether the router stays.
ghost use Rattle.std.specs.Prelude.{◌≡◌, ◌≤◌, length};
ghost use Rattle.ipx_plan.specs.Routing.{same_sort, has_other_card, same_port, keeps_router};
ghost use Rattle.ipx_plan.specs.inside.Ports.{IsNextPort, is_port_like};
ghost use Rattle.std.specs.List.{slice_get};

use crate::likeness::{is_card, is_tunnel};
use crate::link::Link;
use crate::tunnels::same_node;

/// Whether the router has the same ports, in the same order.
pub(crate) fn keeps_router(old: &[Link], new: &[Link]) -> bool
    ensures { result ≡ keeps_router old.now new.now }
{
    let mut k = next_port(new, 0);
    for j in 0..old.len() {
        if old[j].is_first {
            if !is_port_like(old[j], new, k) {
                return false;
            }
            k = next_port(new, k + 1);
        }
    }
    k == new.len()
}

/// Whether new link k is there, with a port as that one's was.
fn is_port_like(before: Link, new: &[Link], k: usize) -> bool
    ensures { result ≡ is_port_like before (slice_get new.now k) }
{
    match new.get(k) {
        Some(link) => same_port(before, *link),
        None => false,
    }
}

/// The number of the first link from that one on that is the first of its network; how many there are, if none is.
fn next_port(links: &[Link], from: usize) -> usize
    requires { from ≤ length links.now }
    ensures { IsNextPort links.now from result }
{
    for k in from..links.len() {
        if links[k].is_first {
            return k;
        }
    }
    links.len()
}

fn same_port(a: Link, b: Link) -> bool
    ensures { result ≡ same_port a b }
{
    a.network == b.network
        && a.port == b.port
        && a.is_of_several == b.is_of_several
        && (a.is_of_several || (same_sort(a, b) && !has_other_card(a, b)))
}

/// Whether they give the router a node of the same sort.
fn same_sort(a: Link, b: Link) -> bool
    ensures { result ≡ same_sort a b }
{
    is_tunnel(a.carrier) == is_tunnel(b.carrier) && is_card(a.carrier) == is_card(b.carrier)
}

/// Whether the router's node is the address of another card now.
fn has_other_card(a: Link, b: Link) -> bool
    ensures { result ≡ has_other_card a b }
{
    is_card(b.carrier) && b.node.is_some() && !same_node(a.node, b.node)
}
