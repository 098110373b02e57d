//! The tunnel's own datagrams: answers and pings.
ghost use Rattle.std.specs.Prelude.{◌≡◌, ◌≤◌, length, map};
ghost use Rattle.std.specs.List.{filter};
ghost use Rattle.ipx_tunnel.specs.declared.said.Said.TheVariants.{Registers, Speaks};
ghost use Rattle.ipx_tunnel.specs.Places.{is_among};
ghost use Rattle.ipx_tunnel.specs.Own.{at_node, answer_to, ping_to, own_for, is_ping};
ghost use Rattle.ipx_tunnel.specs.inside.Kept.{places_of, pings_now};

use crate::client::Client;
use crate::own::{MOST_OWN, Own};
use crate::places::is_open;
use crate::reading::{TUNNEL, is_here, is_to};
use crate::said::Said;
use crate::sender::Sender;
use crate::setting::Setting;
use arrayvec::ArrayVec;
use ipx_wire::{Address, Header, Network, Node};

/// A client is pinged after every so many seconds of silence.
const PING_EVERY: u8 = 5;

/// The tunnel's own datagrams for what a place said.
pub(crate) fn own_for(
    setting: Setting,
    clients: &[Client],
    from: Sender,
    said: Said,
    is_client: bool,
) -> ArrayVec<Own, MOST_OWN>
    requires known { is_client ≡ is_among from.place (places_of clients.now) }
    ensures { result.items ≡ own_for setting (places_of clients.now) from said }
{
    match said {
        Said::Nothing | Said::Answers => ArrayVec::new(),
        Said::Registers => for_registration(setting, clients, from, is_client),
        Said::Speaks(header) => for_packet(setting, clients, from, header, is_client),
    }
}

fn for_registration(
    setting: Setting,
    clients: &[Client],
    from: Sender,
    is_client: bool,
) -> ArrayVec<Own, MOST_OWN>
    requires known { is_client ≡ is_among from.place (places_of clients.now) }
    ensures { result.items ≡ own_for setting (places_of clients.now) from Registers }
{
    let mut own = ArrayVec::new();
    if is_client || is_open(setting, from.place, clients) {
        own.push(answer_to(setting, from.place));
        own.push(ping_to(setting.network, from.place, from.cookies.current));
    }
    own
}

fn for_packet(
    setting: Setting,
    clients: &[Client],
    from: Sender,
    header: Header,
    is_client: bool,
) -> ArrayVec<Own, MOST_OWN>
    requires known { is_client ≡ is_among from.place (places_of clients.now) }
    ensures { result.items ≡ own_for setting (places_of clients.now) from (Speaks header) }
{
    let mut own = ArrayVec::new();
    if is_client {
        if is_ping(setting.network, header) {
            own.push(answer_to(setting, from.place));
        }
    } else if is_open(setting, from.place, clients) {
        own.push(ping_to(setting.network, from.place, from.cookies.current));
    }
    own
}

/// Fills `pings`, which is emptied first, with the pings of the clients that were silent.
pub(crate) fn put_pings<const C: usize>(
    network: Network,
    clients: &[Client],
    pings: &mut ArrayVec<Own, C>,
)
    requires { length clients.now ≤ C }
    ensures { pings.new.items ≡ map (λ c. ping_to network c.place c.cookie) (filter pings_now clients.now) }
{
    pings.clear();
    for client in clients {
        if client.seconds_left % PING_EVERY == 0 {
            pings.push(ping_to(network, client.place, client.cookie));
        }
    }
}

fn answer_to(setting: Setting, place: Node) -> Own
    ensures { result ≡ answer_to setting place }
{
    Own {
        place,
        destination: at_node(setting.network, place),
        source: at_node(setting.network, setting.node),
    }
}

/// A ping for one place alone, though for all by its destination; the answer goes to the cookie.
pub fn ping_to(network: Network, place: Node, cookie: Node) -> Own
    ensures { result ≡ ping_to network place cookie }
{
    Own {
        place,
        destination: at_node(network, Node::BROADCAST),
        source: at_node(network, cookie),
    }
}

/// The tunnel's socket on a node.
pub fn at_node(network: Network, node: Node) -> Address
    ensures { result ≡ at_node network node }
{
    Address {
        network,
        node,
        socket: TUNNEL,
    }
}

/// Whether a packet is a ping of a client's, for all on this network.
pub fn is_ping(network: Network, header: Header) -> bool
    ensures { result ≡ is_ping network header }
{
    is_here(network, header.destination.network) && is_to(header, Node::BROADCAST)
}
