//! What a handle of a tunnel with keyed nodes has: a tunnel of one size, and what came of its last event.
ghost use Rattle.std.specs.Prelude.{◌≡◌};
ghost use Rattle.ipx_keyed.specs.Events.{Datagram, Second};
ghost use Rattle.ipx_keyed.specs.Says.{said};
ghost use Rattle.ipx_c.specs.KeyedEvents.{CameOf, Sent};

use crate::sizes::MOST_CLIENTS;
use arrayvec::ArrayVec;
use ipx_keyed::{Client, MOST_OWN, Said, Sender, Tunnel};
use ipx_tunnel::Own;
use ipx_wire::Node;

/// A tunnel, and what came of its last event. Its lists are filled where they lie.
#[derive(Drop)]
pub struct KeyedMachine {
    pub tunnel: Tunnel<MOST_CLIENTS, MOST_CLIENTS>,
    /// After a second, the pings of clients.
    pub pings: ArrayVec<Own, MOST_CLIENTS>,
    /// All other datagrams of the tunnel's own.
    pub due: ArrayVec<Own, MOST_CLIENTS>,
    /// The places that get the packet.
    pub to: ArrayVec<Node, MOST_CLIENTS>,
    /// The clients that left.
    pub left: ArrayVec<Client, MOST_CLIENTS>,
    /// How many bytes of the datagram are the packet.
    pub carried: usize,
    /// Whether the router hears the packet.
    pub is_heard: bool,
}

impl KeyedMachine {
    /// Takes a datagram. Returns what it said.
    pub(crate) fn hear(&mut self, from: Sender, bytes: &[u8]) -> Said
        ensures came { CameOf self.old self.new (Datagram from bytes.now) }
        ensures said { result ≡ said self.old.tunnel.setting.network from bytes.now }
    {
        let dispatch = self.tunnel.hear(from, bytes, &mut self.to);
        self.pings.clear();
        put_own(&mut self.due, &dispatch.own);
        self.left.clear();
        self.carried = dispatch.packet.len();
        self.is_heard = dispatch.is_heard;
        dispatch.said
    }

    /// A second passes.
    pub(crate) fn second(&mut self)
        ensures { CameOf self.old self.new Second }
    {
        self.tunnel
            .second(&mut self.pings, &mut self.due, &mut self.left);
        self.to.clear();
        self.carried = 0;
        self.is_heard = false;
    }

    /// The router sends a packet to a node, or to all.
    pub(crate) fn send(&mut self, to: Node)
        ensures { Sent self.old self.new to }
    {
        self.tunnel.send(to, &mut self.to);
        self.pings.clear();
        self.due.clear();
        self.left.clear();
        self.carried = 0;
        self.is_heard = false;
    }
}

/// Puts the tunnel's own datagrams for one datagram into the list.
fn put_own(list: &mut ArrayVec<Own, MOST_CLIENTS>, own: &ArrayVec<Own, MOST_OWN>)
    ensures { list.new.items ≡ own.now.items }
{
    list.clear();
    for datagram in own.as_slice() {
        list.push(*datagram);
    }
}
