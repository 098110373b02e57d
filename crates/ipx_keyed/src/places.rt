//! Who is in a list, and whether there is room for one more.
ghost use Rattle.std.specs.Prelude.{◌≡◌, length};
ghost use Rattle.std.specs.List.{list_any};
ghost use Rattle.ipx_tunnel.specs.Places.{is_among, of_address};
ghost use Rattle.ipx_keyed.specs.Members.{places_of, nodes_of, is_it, is_client_as, is_taken, is_open, is_welcome, is_kept};

use crate::client::Client;
use crate::sender::Sender;
use crate::setting::Setting;
use ipx_tunnel::same_address;
use ipx_wire::Node;

/// Whether somebody in the list has this place.
pub(crate) fn is_place(place: Node, clients: &[Client]) -> bool
    ensures { result ≡ is_among place (places_of clients.now) }
{
    clients.iter().any(|client| client.place == place)
}

/// Whether somebody in the list has this node.
fn is_node(node: Node, clients: &[Client]) -> bool
    ensures { result ≡ is_among node (nodes_of clients.now) }
{
    clients.iter().any(|client| client.node == node)
}

/// Whether somebody in the list has this place and this node.
pub(crate) fn is_client_as(place: Node, node: Node, clients: &[Client]) -> bool
    ensures { result ≡ is_client_as place node clients.now }
{
    clients
        .iter()
        .any(|client| client.place == place && client.node == node)
}

/// Whether the node is the tunnel's own, the one that stands for all, or a client's.
fn is_taken(setting: Setting, node: Node, clients: &[Client]) -> bool
    ensures { result ≡ is_taken setting node clients.now }
{
    node == setting.node || node == Node::BROADCAST || is_node(node, clients)
}

/// Whether there is room for one client more, at this place and under this node.
pub(crate) fn is_open(setting: Setting, place: Node, node: Node, clients: &[Client]) -> bool
    ensures { result ≡ is_open setting place node clients.now }
{
    !is_place(place, clients)
        && !is_taken(setting, node, clients)
        && clients.len() < usize::from(setting.capacity)
        && of_address(place, clients) < usize::from(setting.share)
}

/// Whether a registration is answered.
pub(crate) fn is_welcome(setting: Setting, from: Sender, clients: &[Client]) -> bool
    ensures { result ≡ is_welcome setting from clients.now }
{
    is_client_as(from.place, from.node, clients) || is_open(setting, from.place, from.node, clients)
}

/// Whether there is room to remember one more, who isn't remembered yet.
pub(crate) fn is_kept(setting: Setting, place: Node, waiting: &[Client]) -> bool
    ensures { result ≡ is_kept setting place waiting.now }
{
    !is_place(place, waiting)
        && waiting.len() < usize::from(setting.remembered)
        && of_address(place, waiting) < usize::from(setting.remembered_share)
}

/// How many in the list have the address of that place.
fn of_address(place: Node, clients: &[Client]) -> usize
    ensures { result ≡ of_address place (places_of clients.now) }
{
    clients
        .iter()
        .filter(|client| same_address(client.place, place))
        .count()
}
