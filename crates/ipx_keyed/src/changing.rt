//! What becomes of the clients, and of those who are remembered.
ghost use Rattle.std.specs.Prelude.{◌≡◌, ◌≤◌, not, map, length};
ghost use Rattle.std.specs.List.{filter};
ghost use Rattle.ipx_keyed.specs.Members.{stays, later, fresh};
ghost use Rattle.ipx_keyed.specs.Tables.{proves, prolongs, lasts, refreshed};

use crate::client::Client;
use crate::places::is_client_as;
use crate::reading::node_in;
use crate::said::Said;
use crate::sender::Sender;
use arrayvec::ArrayVec;
use ipx_wire::Node;

/// For how many seconds the answer to a cookie counts.
const ANSWER_LASTS: u8 = 30;

/// For how many seconds counts what somebody trusted says.
const TRUST_LASTS: u8 = 180;

/// Whether what was said lets a newcomer in.
pub(crate) fn proves(from: Sender, waiting: &[Client], said: Said) -> bool
    ensures { result ≡ proves from waiting.now said }
{
    match said {
        Said::Nothing | Said::Registers => false,
        Said::Answers(_) => true,
        Said::Speaks(header) => {
            from.is_trusted
                || header.source.node == from.node && is_client_as(from.place, from.node, waiting)
        }
    }
}

/// Whether what was said keeps a client in.
pub(crate) fn prolongs(from: Sender, said: Said) -> bool
    ensures { result ≡ prolongs from said }
{
    match said {
        Said::Nothing => false,
        Said::Answers(_) => true,
        Said::Registers | Said::Speaks(_) => from.is_trusted,
    }
}

/// For how many seconds it does.
pub(crate) fn lasts(from: Sender) -> u8
    ensures { result ≡ lasts from }
{
    if from.is_trusted {
        TRUST_LASTS
    } else {
        ANSWER_LASTS
    }
}

/// Somebody who was heard now, under a node, for so many seconds.
pub(crate) fn fresh(from: Sender, node: Node, seconds: u8) -> Client
    ensures { result ≡ fresh from node seconds }
{
    Client {
        place: from.place,
        node,
        cookie: from.cookies.current,
        seconds_left: seconds,
    }
}

/// What was said keeps its sender in, if it is a client.
pub(crate) fn refresh(clients: &mut [Client], from: Sender, said: Said)
    ensures { clients.new ≡ map (refreshed from said) clients.old }
{
    if !prolongs(from, said) {
        return;
    }
    for client in clients.iter_mut() {
        *client = refreshed(*client, from, said);
    }
}

fn refreshed(client: Client, from: Sender, said: Said) -> Client
    ensures { result ≡ refreshed from said client }
{
    let is_sender = client.place == from.place && client.node == node_in(from, said);
    if prolongs(from, said) && is_sender {
        fresh(from, client.node, lasts(from))
    } else {
        client
    }
}

/// A second passes for each.
pub(crate) fn pass(clients: &mut [Client])
    ensures { clients.new ≡ map later clients.old }
{
    for client in clients.iter_mut() {
        *client = a_second_later(*client);
    }
}

fn a_second_later(client: Client) -> Client
    ensures { result ≡ later client }
{
    Client {
        seconds_left: client.seconds_left.saturating_sub(1),
        ..client
    }
}

/// Fills `left`, which is emptied first, with the clients that have no seconds left after this one.
pub(crate) fn put_leaving<const C: usize>(clients: &[Client], left: &mut ArrayVec<Client, C>)
    requires { length clients.now ≤ C }
    ensures { left.new.items ≡ filter (λ c. not (stays c)) clients.now }
{
    left.clear();
    for client in clients {
        if client.seconds_left == 0 {
            left.push(*client);
        }
    }
}
