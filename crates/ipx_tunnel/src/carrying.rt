//! Who gets what a place said, or what the router sends.
ghost use Rattle.std.specs.Prelude.{◌≡◌, ◌≤◌, List, length};
ghost use Rattle.std.specs.List.{filter};
ghost use Rattle.ipx_tunnel.specs.Places.{is_among};
ghost use Rattle.ipx_tunnel.specs.Receivers.{is_for, to_for, is_for_router, is_heard_of};
ghost use Rattle.ipx_tunnel.specs.inside.Kept.{places_of};

use crate::answering::is_ping;
use crate::client::Client;
use crate::reading::is_here;
use crate::said::Said;
use crate::sender::Sender;
use crate::setting::Setting;
use arrayvec::ArrayVec;
use ipx_wire::{Header, Node};

/// Fills `to`, which is emptied first, with the clients that get what a place said.
pub(crate) fn put_to<const C: usize>(
    setting: Setting,
    clients: &[Client],
    from: Sender,
    said: Said,
    is_client: bool,
    to: &mut ArrayVec<Node, C>,
)
    requires fits { length clients.now ≤ C }
    requires known { is_client ≡ is_among from.place (places_of clients.now) }
    ensures { to.new.items ≡ to_for setting (places_of clients.now) from said }
{
    if let Said::Speaks(header) = said {
        if is_client && is_here(setting.network, header.destination.network) {
            put_receivers(header.destination.node, from.place, clients, to);
            return;
        }
    }
    to.clear();
}

/// Fills `receivers`, which is emptied first, with the clients for which a packet is.
pub(crate) fn put_receivers<const C: usize>(
    to: Node,
    sender: Node,
    clients: &[Client],
    receivers: &mut ArrayVec<Node, C>,
)
    requires { length clients.now ≤ C }
    ensures { receivers.new.items ≡ filter (is_for to sender) (places_of clients.now) }
{
    receivers.clear();
    for client in clients {
        if is_for(to, sender, client.place) {
            receivers.push(client.place);
        }
    }
}

/// Whether a packet from one node to another, or to all, is for the client of that node.
pub fn is_for(to: Node, sender: Node, place: Node) -> bool
    ensures { result ≡ is_for to sender place }
{
    if to == Node::BROADCAST {
        place != sender
    } else {
        place == to
    }
}

/// Whether the router hears what a place said.
pub(crate) fn is_heard_of(setting: Setting, said: Said, is_client: bool) -> bool
    ensures { (clients : List Node) (from : Sender) → is_client ≡ is_among from.place clients → result ≡ is_heard_of setting clients from said }
{
    match said {
        Said::Speaks(header) => is_client && is_for_router(setting, header),
        _ => false,
    }
}

fn is_for_router(setting: Setting, header: Header) -> bool
    ensures { result ≡ is_for_router setting header }
{
    let to = header.destination;
    if !is_here(setting.network, to.network) {
        return true;
    }
    to.node == setting.node || to.node == Node::BROADCAST && !is_ping(setting.network, header)
}
