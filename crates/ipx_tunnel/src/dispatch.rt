//! What is sent after a datagram.
ghost use Rattle.std.specs.Prelude.{◌≡◌, ◌≤◌, length};
ghost use Rattle.ipx_wire.specs.Packet.{packet_of};
ghost use Rattle.ipx_tunnel.specs.Says.{packet_in};
ghost use Rattle.ipx_tunnel.specs.Own.{own_for};
ghost use Rattle.ipx_tunnel.specs.Receivers.{to_for, is_heard_of};
ghost use Rattle.ipx_tunnel.specs.inside.Kept.{places_of};

use crate::answering::own_for;
use crate::carrying::{is_heard_of, put_to};
use crate::client::Client;
use crate::own::{MOST_OWN, Own};
use crate::places::is_among;
use crate::reading::packet_in;
use crate::said::Said;
use crate::sender::Sender;
use crate::setting::Setting;
use arrayvec::ArrayVec;
use ipx_wire::Node;

/// What is sent after a datagram: first the tunnel's own datagrams, then the packet that came.
///
/// See the example of [`Tunnel`](crate::Tunnel).
#[derive(Debug, Drop)]
pub struct Dispatch<'a> {
    /// What the datagram said.
    pub said: Said,
    /// The tunnel's own datagrams, one after another.
    pub own: ArrayVec<Own, MOST_OWN>,
    /// The packet that came, without what stood behind it. It goes to each place that `hear` put into its list, and to the router where
    /// `is_heard` says so.
    pub packet: &'a [u8],
    /// Whether the router hears the packet.
    pub is_heard: bool,
}

impl<'a> Dispatch<'a> {
    /// What is sent for what a place said, once it is a client or isn't.
    pub(crate) fn of<const C: usize>(
        setting: Setting,
        clients: &[Client],
        from: Sender,
        said: Said,
        bytes: &'a [u8],
        to: &mut ArrayVec<Node, C>,
    ) -> Dispatch<'a>
        requires fits { length clients.now ≤ C }
        ensures said { result.said ≡ said }
        ensures own { result.own.items ≡ own_for setting (places_of clients.now) from said }
        ensures packet { result.packet.now ≡ packet_in bytes.entry.now (packet_of bytes.entry.now) }
        ensures to { to.new.items ≡ to_for setting (places_of clients.now) from said }
        ensures heard { result.is_heard ≡ is_heard_of setting (places_of clients.now) from said }
    {
        let is_client = is_among(from.place, clients);
        put_to(setting, clients, from, said, is_client, to);
        Dispatch {
            said,
            own: own_for(setting, clients, from, said, is_client),
            packet: packet_in(bytes),
            is_heard: is_heard_of(setting, said, is_client),
        }
    }
}
