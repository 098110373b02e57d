//! What a handle of a tunnel has: a tunnel of one size, and what came of its last event.
ghost use Rattle.std.specs.Prelude.{◌≡◌};
ghost use Rattle.ipx_tunnel.specs.Events.{Datagram, Second};
ghost use Rattle.ipx_tunnel.specs.Says.{said};
ghost use Rattle.ipx_c.specs.TunnelEvents.{CameOf, Sent};

use crate::sizes::MOST_CLIENTS;
use arrayvec::ArrayVec;
use ipx_tunnel::{MOST_OWN, Own, Said, Sender, Tunnel};
use ipx_wire::Node;

/// A tunnel, and what came of its last event. Its lists are filled where they lie.
#[derive(Drop)]
pub struct TunnelMachine {
    pub tunnel: Tunnel<MOST_CLIENTS>,
    /// The tunnel's own datagrams.
    pub own: ArrayVec<Own, MOST_CLIENTS>,
    /// The places that get the packet.
    pub to: ArrayVec<Node, MOST_CLIENTS>,
    /// The places of the clients that left.
    pub left: ArrayVec<Node, MOST_CLIENTS>,
    /// How many bytes of the datagram are the packet.
    pub carried: usize,
    /// Whether the router hears the packet.
    pub is_heard: bool,
}

impl TunnelMachine {
    /// Takes a datagram. Returns what it said.
    pub(crate) fn hear(&mut self, from: Sender, bytes: &[u8]) -> Said
        ensures came { CameOf self.old self.new (Datagram from bytes.now) }
        ensures said { result ≡ said self.old.tunnel.setting.network from bytes.now }
    {
        let dispatch = self.tunnel.hear(from, bytes, &mut self.to);
        put_own(&mut self.own, &dispatch.own);
        self.left.clear();
        self.carried = dispatch.packet.len();
        self.is_heard = dispatch.is_heard;
        dispatch.said
    }

    /// A second passes.
    pub(crate) fn second(&mut self)
        ensures { CameOf self.old self.new Second }
    {
        self.tunnel.second(&mut self.own, &mut self.left);
        self.to.clear();
        self.carried = 0;
        self.is_heard = false;
    }

    /// The router sends a packet to a node, or to all.
    pub(crate) fn send(&mut self, to: Node)
        ensures { Sent self.old self.new to }
    {
        self.tunnel.send(to, &mut self.to);
        self.own.clear();
        self.left.clear();
        self.carried = 0;
        self.is_heard = false;
    }
}

/// Puts the tunnel's own datagrams for one datagram into the list.
fn put_own(list: &mut ArrayVec<Own, MOST_CLIENTS>, own: &ArrayVec<Own, MOST_OWN>)
    ensures { list.new.items ≡ own.now.items }
{
    list.clear();
    for datagram in own.as_slice() {
        list.push(*datagram);
    }
}
