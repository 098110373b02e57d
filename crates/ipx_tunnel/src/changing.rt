//! What becomes of the clients.
ghost use Rattle.std.specs.Prelude.{◌≡◌, ◌≤◌, not, map, length};
ghost use Rattle.std.specs.List.{filter};
ghost use Rattle.ipx_tunnel.specs.inside.Kept.{places_of, refreshed, later, stays};

use crate::client::Client;
use crate::sender::Sender;
use arrayvec::ArrayVec;
use ipx_wire::Node;

/// The client at the sender's place has so many seconds from now on, if there is one.
pub(crate) fn refresh(clients: &mut [Client], from: Sender, lasts: u8)
    ensures { clients.new ≡ map (refreshed from lasts) clients.old }
{
    for client in clients.iter_mut() {
        *client = refreshed(*client, from, lasts);
    }
}

fn refreshed(client: Client, from: Sender, lasts: u8) -> Client
    ensures { result ≡ refreshed from lasts client }
{
    if client.place != from.place {
        return client;
    }
    Client {
        place: client.place,
        cookie: from.cookies.current,
        seconds_left: lasts,
    }
}

/// A second passes for each client.
pub(crate) fn pass(clients: &mut [Client])
    ensures { clients.new ≡ map later clients.old }
{
    for client in clients.iter_mut() {
        *client = a_second_later(*client);
    }
}

fn a_second_later(client: Client) -> Client
    ensures { result ≡ later client }
{
    Client {
        seconds_left: client.seconds_left.saturating_sub(1),
        ..client
    }
}

/// Fills `left`, which is emptied first, with the places of the clients that have no seconds left.
pub(crate) fn put_leaving<const C: usize>(clients: &[Client], left: &mut ArrayVec<Node, C>)
    requires { length clients.now ≤ C }
    ensures { left.new.items ≡ places_of (filter (λ c. not (stays c)) clients.now) }
{
    left.clear();
    for client in clients {
        if client.seconds_left == 0 {
            left.push(client.place);
        }
    }
}
