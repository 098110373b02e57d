//! The tunnel's own datagrams: answers and pings.
ghost use Rattle.std.specs.Prelude.{◌≡◌, ◌≤◌, List, length};
ghost use Rattle.ipx_keyed.specs.declared.said.Said.TheVariants.{Registers, Speaks};
ghost use Rattle.ipx_keyed.specs.Says.{node_in};
ghost use Rattle.ipx_keyed.specs.Members.{is_client_as};
ghost use Rattle.ipx_keyed.specs.Own.{answer_to, own_for, pings_now, pings_of, is_due, due_to, due_of};

use crate::client::Client;
use crate::dispatch::MOST_OWN;
use crate::places::{is_open, is_place};
use crate::said::Said;
use crate::sender::Sender;
use crate::setting::Setting;
use arrayvec::ArrayVec;
use ipx_tunnel::{Own, at_node, is_ping, ping_to};
use ipx_wire::{Header, Node};

/// A client is pinged after every so many seconds of silence.
const PING_EVERY: u8 = 5;

/// How many seconds are left to somebody remembered when he is answered again.
const ANSWERED_AT: u8 = 8;

/// How many are left when he is pinged first; the second time none is.
const PINGED_AT: u8 = 2;

/// The tunnel's own datagrams for what a place said.
pub(crate) fn own_for(
    setting: Setting,
    clients: &[Client],
    waiting: &[Client],
    from: Sender,
    said: Said,
    is_client: bool,
) -> ArrayVec<Own, MOST_OWN>
    requires known { is_client ≡ is_client_as from.place (node_in from said) clients.now }
    ensures { result.items ≡ own_for setting clients.now waiting.now from said }
{
    match said {
        Said::Nothing | Said::Answers(_) => ArrayVec::new(),
        Said::Registers => for_registration(setting, clients, from, is_client),
        Said::Speaks(header) => for_packet(setting, clients, waiting, from, header, is_client),
    }
}

fn for_registration(
    setting: Setting,
    clients: &[Client],
    from: Sender,
    is_client: bool,
) -> ArrayVec<Own, MOST_OWN>
    requires known { is_client ≡ is_client_as from.place from.node clients.now }
    ensures { (waiting : List Client) → result.items ≡ own_for setting clients.now waiting from Registers }
{
    let mut own = ArrayVec::new();
    if is_client || is_open(setting, from.place, from.node, clients) {
        own.push(answer_to(setting, from.place, from.node));
    }
    own
}

fn for_packet(
    setting: Setting,
    clients: &[Client],
    waiting: &[Client],
    from: Sender,
    header: Header,
    is_client: bool,
) -> ArrayVec<Own, MOST_OWN>
    requires known { is_client ≡ is_client_as from.place header.source.node clients.now }
    ensures { result.items ≡ own_for setting clients.now waiting.now from (Speaks header) }
{
    let mut own = ArrayVec::new();
    let node = header.source.node;
    if is_client {
        if is_ping(setting.network, header) {
            own.push(answer_to(setting, from.place, node));
        }
    } else if is_open(setting, from.place, node, clients) && !is_place(from.place, waiting) {
        own.push(ping_to(setting.network, from.place, from.cookies.current));
    }
    own
}

/// Fills `pings`, which is emptied first, with the pings of the clients that were silent.
pub(crate) fn put_pings<const C: usize>(
    setting: Setting,
    clients: &[Client],
    waiting: &[Client],
    pings: &mut ArrayVec<Own, C>,
)
    requires { length clients.now ≤ C }
    ensures { pings.new.items ≡ pings_of setting clients.now waiting.now }
{
    pings.clear();
    for client in clients {
        if pings_now(waiting, *client) {
            pings.push(ping_to(setting.network, client.place, client.cookie));
        }
    }
}

fn pings_now(waiting: &[Client], client: Client) -> bool
    ensures { result ≡ pings_now waiting.now client }
{
    client.seconds_left % PING_EVERY == 0 && !is_place(client.place, waiting)
}

/// Fills `due`, which is emptied first, with the answers and pings of those who are remembered.
pub(crate) fn put_due<const W: usize>(
    setting: Setting,
    waiting: &[Client],
    due: &mut ArrayVec<Own, W>,
)
    requires { length waiting.now ≤ W }
    ensures { due.new.items ≡ due_of setting waiting.now }
{
    due.clear();
    for client in waiting {
        if is_due(*client) {
            due.push(due_to(setting, *client));
        }
    }
}

fn is_due(client: Client) -> bool
    ensures { result ≡ is_due client }
{
    let left = client.seconds_left;
    left == ANSWERED_AT || left == PINGED_AT || left == 0
}

fn due_to(setting: Setting, client: Client) -> Own
    ensures { result ≡ due_to setting client }
{
    if client.seconds_left == ANSWERED_AT {
        answer_to(setting, client.place, client.node)
    } else {
        ping_to(setting.network, client.place, client.cookie)
    }
}

fn answer_to(setting: Setting, place: Node, node: Node) -> Own
    ensures { result ≡ answer_to setting place node }
{
    Own {
        place,
        destination: at_node(setting.network, node),
        source: at_node(setting.network, setting.node),
    }
}
