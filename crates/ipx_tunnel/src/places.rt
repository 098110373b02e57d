//! Places among the clients, and room for more.
ghost use Rattle.std.specs.Prelude.{◌≡◌, ◌==◌, length, map};
ghost use Rattle.ipx_tunnel.specs.Places.{same_node, same_address, is_among, of_address, broadcast};
ghost use Rattle.ipx_tunnel.specs.Clients.{is_open};
ghost use Rattle.ipx_tunnel.specs.inside.Kept.{places_of};

use crate::client::Client;
use crate::setting::Setting;
use ipx_wire::Node;

/// How many bytes of a place are its IPv4 address.
const ADDRESS_SIZE: usize = 4;

/// Whether a client is there.
pub(crate) fn is_among(place: Node, clients: &[Client]) -> bool
    ensures { result ≡ is_among place (places_of clients.now) }
{
    clients.iter().any(|client| client.place == place)
}

/// Whether there is room for a client at that place.
pub(crate) fn is_open(setting: Setting, place: Node, clients: &[Client]) -> bool
    ensures { result ≡ is_open setting place (places_of clients.now) }
{
    !is_among(place, clients)
        && clients.len() < usize::from(setting.capacity)
        && of_address(place, clients) < usize::from(setting.share)
}

/// How many clients have the address of that place.
fn of_address(place: Node, clients: &[Client]) -> usize
    ensures { result ≡ of_address place (places_of clients.now) }
{
    clients
        .iter()
        .filter(|client| same_address(client.place, place))
        .count()
}

/// Whether two places have one IPv4 address.
pub fn same_address(one: Node, other: Node) -> bool
    ensures { result ≡ same_address one other }
{
    one.0[..ADDRESS_SIZE] == other.0[..ADDRESS_SIZE]
}
