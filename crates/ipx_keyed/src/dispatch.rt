//! What is sent after a datagram.
ghost use Rattle.std.specs.Prelude.{◌≡◌, ◌≤◌, length};
ghost use Rattle.ipx_wire.specs.Packet.{packet_of};
ghost use Rattle.ipx_tunnel.specs.Says.{packet_in};
ghost use Rattle.ipx_keyed.specs.Own.{own_for};
ghost use Rattle.ipx_keyed.specs.Receivers.{to_for, is_heard_of};

use crate::answering::own_for;
use crate::carrying::{is_heard_of, put_to};
use crate::client::Client;
use crate::places::is_client_as;
use crate::reading::node_in;
use crate::said::Said;
use crate::sender::Sender;
use crate::setting::Setting;
use arrayvec::ArrayVec;
use ipx_tunnel::{Own, packet_in};
use ipx_wire::Node;

/// The most datagrams of the tunnel's own after one datagram: an answer or a ping.
pub const MOST_OWN: usize = 1;

/// What is sent after a datagram: first the tunnel's own datagram, if there is one, then the packet that came.
///
/// See the example of [`Tunnel`](crate::Tunnel).
#[derive(Debug, Drop)]
pub struct Dispatch<'a> {
    /// What the datagram said.
    pub said: Said,
    /// The tunnel's own datagrams, one at most.
    pub own: ArrayVec<Own, MOST_OWN>,
    /// The packet that came, without what stood behind it. It goes to each place that `hear` put into its list, and to the router where
    /// `is_heard` says so.
    pub packet: &'a [u8],
    /// Whether the router hears the packet.
    pub is_heard: bool,
}

impl<'a> Dispatch<'a> {
    /// What is sent for what a place said, once it is a client or isn't.
    pub(crate) fn of<const C: usize>(
        setting: Setting,
        clients: &[Client],
        waiting: &[Client],
        from: Sender,
        said: Said,
        bytes: &'a [u8],
        to: &mut ArrayVec<Node, C>,
    ) -> Dispatch<'a>
        requires fits { length clients.now ≤ C }
        ensures said { result.said ≡ said }
        ensures own { result.own.items ≡ own_for setting clients.now waiting.now from said }
        ensures packet { result.packet.now ≡ packet_in bytes.entry.now (packet_of bytes.entry.now) }
        ensures to { to.new.items ≡ to_for setting clients.now from said }
        ensures heard { result.is_heard ≡ is_heard_of setting clients.now from said }
    {
        let is_client = is_client_as(from.place, node_in(from, said), clients);
        put_to(setting, clients, from, said, is_client, to);
        Dispatch {
            said,
            own: own_for(setting, clients, waiting, from, said, is_client),
            packet: packet_in(bytes),
            is_heard: is_heard_of(setting, said, is_client),
        }
    }
}
