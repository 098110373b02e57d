//! Who gets what a place said, or what the router sends.
ghost use Rattle.std.specs.Prelude.{◌≡◌, ◌≤◌, List, length};
ghost use Rattle.ipx_keyed.specs.Says.{node_in};
ghost use Rattle.ipx_keyed.specs.Members.{is_client_as};
ghost use Rattle.ipx_keyed.specs.Receivers.{for_whom, to_for, is_for_router, is_heard_of};

use crate::client::Client;
use crate::said::Said;
use crate::sender::Sender;
use crate::setting::Setting;
use arrayvec::ArrayVec;
use ipx_tunnel::{is_for, is_here, is_ping};
use ipx_wire::{Header, Node};

/// Fills `to`, which is emptied first, with the places that get what a place said.
pub(crate) fn put_to<const C: usize>(
    setting: Setting,
    clients: &[Client],
    from: Sender,
    said: Said,
    is_client: bool,
    to: &mut ArrayVec<Node, C>,
)
    requires fits { length clients.now ≤ C }
    requires known { is_client ≡ is_client_as from.place (node_in from said) clients.now }
    ensures { to.new.items ≡ to_for setting clients.now from said }
{
    if let Said::Speaks(header) = said {
        if is_client && is_here(setting.network, header.destination.network) {
            put_receivers(header.destination.node, header.source.node, clients, to);
            return;
        }
    }
    to.clear();
}

/// Fills `receivers`, which is emptied first, with the places of the clients for which a packet is.
pub(crate) fn put_receivers<const C: usize>(
    to: Node,
    sender: Node,
    clients: &[Client],
    receivers: &mut ArrayVec<Node, C>,
)
    requires { length clients.now ≤ C }
    ensures { receivers.new.items ≡ for_whom to sender clients.now }
{
    receivers.clear();
    for client in clients {
        if is_for(to, sender, client.node) {
            receivers.push(client.place);
        }
    }
}

/// Whether the router hears what a place said.
pub(crate) fn is_heard_of(setting: Setting, said: Said, is_client: bool) -> bool
    ensures { (clients : List Client) (from : Sender) → is_client ≡ is_client_as from.place (node_in from said) clients → result ≡ is_heard_of setting clients from said }
{
    match said {
        Said::Speaks(header) => is_client && is_for_router(setting, header),
        _ => false,
    }
}

fn is_for_router(setting: Setting, header: Header) -> bool
    ensures { result ≡ is_for_router setting header }
{
    let to = header.destination;
    if !is_here(setting.network, to.network) {
        return true;
    }
    to.node == setting.node || to.node == Node::BROADCAST && !is_ping(setting.network, header)
}
