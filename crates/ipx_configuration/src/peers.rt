//! The other places of a network, as memory of C has them.
ghost use Rattle.std.specs.Prelude.{◌≡◌};
ghost use Rattle.std.specs.List.{position};
ghost use Rattle.ipx_configuration.specs.Peers.{no_peer, peer_said, no_peers, peers_in, with_peer, is_there, first_peer, unlike, more_peers, peer_fault, peer_taken};

use crate::carrier::{has_same_bytes, place_at, place_name};
use crate::clash::line_fault;
use crate::endpoint::Endpoint;
use crate::fault::Fault;
use crate::said::NetworkSetting;
use ipx_settings::{Expected, Host, Place};

/// The most other places of a network.
const MOST_PEERS: usize = 32;

/// Another place of a network, as its line says it.
///
/// See the example of [`Configuration`](crate::Configuration).
#[repr(C)]
#[derive(Clone, Copy)]
pub struct PeerSaid {
    /// The number of the line.
    pub line: usize,
    /// Where it is,
    pub at: Endpoint,
    /// or the name of the host there, with zeros behind it.
    pub host: [u8; 254],
}

/// Other places, in the order of their lines.
///
/// See the example of [`Configuration`](crate::Configuration).
#[repr(C)]
#[derive(Clone, Copy)]
pub struct Peers {
    pub list: [PeerSaid; 32],
    pub count: usize,
}

fn no_peer() -> PeerSaid
    ensures { result ≡ no_peer }
{
    PeerSaid {
        line: 0,
        at: Endpoint::none(),
        host: [0; 254],
    }
}

/// Another place, as its line says it.
fn peer_said(line: usize, place: Place) -> PeerSaid
    ensures { result ≡ peer_said line place }
{
    PeerSaid {
        line,
        at: place_at(place),
        host: place_name(place),
    }
}

impl Peers {
    pub(crate) fn none() -> Peers
        ensures { result ≡ no_peers }
    {
        Peers {
            list: [no_peer(); 32],
            count: 0,
        }
    }

    fn listed(&self) -> &[PeerSaid]
        ensures { result.now ≡ peers_in self.now }
    {
        if self.count < MOST_PEERS {
            let (listed, _) = self.list.split_at(self.count);
            listed
        } else {
            &self.list
        }
    }

    /// One more, if there is room.
    fn with(self, peer: PeerSaid) -> Peers
        ensures { result ≡ with_peer self peer }
    {
        let mut it = self;
        if it.count < MOST_PEERS {
            it.list[it.count] = peer;
            it.count += 1;
        }
        it
    }

    fn with_line(self, line: usize, begun: Option<Place>) -> Peers
        ensures { result ≡ more_peers self line begun }
    {
        match begun {
            Some(place) => self.with(peer_said(line, place)),
            None => self,
        }
    }

    /// The line of the one that is there.
    fn line_of(&self, place: Place) -> Option<usize>
        ensures { result ≡ first_peer place self.now }
    {
        let peers = self.listed();
        match number_of(place, peers) {
            Some(number) => match peers.get(number) {
                Some(peer) => Some(peer.line),
                None => None,
            },
            None => None,
        }
    }
}

fn is_there(place: Place, peer: PeerSaid) -> bool
    ensures { result ≡ is_there place peer }
{
    peer.at.is_same(&place_at(place)) && has_same_bytes(&peer.host, &place_name(place))
}

fn number_of(place: Place, peers: &[PeerSaid]) -> Option<usize>
    ensures { result ≡ position (is_there place) peers.now }
{
    peers.iter().position(|peer| is_there(place, *peer))
}

/// What is wrong with a place that a link at an address can't reach: names may be of either kind.
pub(crate) fn unlike(local: Endpoint, place: Place) -> Option<Fault>
    ensures { result ≡ unlike local place }
{
    match place {
        Place::At(address) => match address.host {
            Host::Four(_) if local.is_six => Some(Fault::PeerOfSix),
            Host::Six(_) if !local.is_six => Some(Fault::PeerOfFour),
            _ => None,
        },
        Place::Named(_, _) => None,
    }
}

/// What is wrong with one more other place of a network.
fn peer_fault(peers: &Peers, begun: Option<Place>, own: Option<Expected>) -> Option<Fault>
    ensures { result ≡ peer_fault peers.now begun own }
{
    if peers.count >= MOST_PEERS {
        return Some(Fault::ManyPeers);
    }
    match begun {
        Some(place) => match peers.line_of(place) {
            Some(line) => Some(Fault::OtherPeer(line)),
            None => line_fault(own),
        },
        None => line_fault(own),
    }
}

/// A network behind the line of another place, and what is wrong with that.
pub(crate) fn peer_taken(
    line: usize,
    network: NetworkSetting,
    begun: Option<Place>,
    own: Option<Expected>,
) -> (NetworkSetting, Option<Fault>)
    ensures { result ≡ peer_taken line network begun own }
{
    let fault = peer_fault(&network.peers, begun, own);
    let mut taken = network;
    if fault.is_none() {
        taken.peers = taken.peers.with_line(line, begun);
    }
    (taken, fault)
}
