//! What is known of links and nodes.
ghost use Rattle.std.specs.Prelude.{◌≡◌, ◌==◌, not, length};
ghost use Rattle.std.specs.List.{filter};
ghost use Rattle.ipx_segment.specs.Nodes.{same_node, is_ordinary, is_here, next_node};
ghost use Rattle.ipx_segment.specs.Links.{is_up, link_at};
ghost use Rattle.ipx_segment.specs.Stations.{station_of, is_at, is_elsewhere, is_taken, at_link, has_room};

use crate::link::Link;
use crate::setting::Setting;
use crate::station::Station;
use ipx_wire::{Address, Network, Node};

/// The number that stands for all networks.
const ALL: Network = Network(0xFFFF_FFFF);

/// The number that stands for the network at hand.
const LOCAL: Network = Network(0);

/// What is known of a node.
pub(crate) fn station_of(node: Node, stations: &[Station]) -> Option<Station>
    ensures { result ≡ station_of node stations.now }
{
    stations
        .iter()
        .find(|station| station.node == node)
        .copied()
}

/// The link of that number.
pub(crate) fn link_at(link: u8, links: &[Link]) -> Link
    ensures { result ≡ link_at link links.now }
{
    let place = usize::from(link);
    if place < links.len() {
        links[place]
    } else {
        Link::Down
    }
}

pub(crate) fn is_up(link: Link) -> bool
    ensures { result ≡ is_up link }
{
    match link {
        Link::Down => false,
        Link::Cable(_) | Link::Sure(_) => true,
    }
}

/// Whether that link is where a node is known to be.
pub(crate) fn is_at(link: u8, known: Option<Station>) -> bool
    ensures { result ≡ is_at link known }
{
    match known {
        Some(station) => station.link == link,
        None => false,
    }
}

/// Whether another link proved that a node is there.
fn is_elsewhere(link: u8, known: Option<Station>) -> bool
    ensures { result ≡ is_elsewhere link known }
{
    match known {
        Some(station) => station.is_sure && station.link != link,
        None => false,
    }
}

/// Whether a station may have this node.
pub(crate) fn is_ordinary(setting: Setting, node: Node) -> bool
    ensures { result ≡ is_ordinary setting node }
{
    node != Node::BROADCAST && node != setting.node
}

/// Whether a packet from a link counts.
pub(crate) fn is_taken(
    setting: Setting,
    kind: Link,
    link: u8,
    source: Node,
    known: Option<Station>,
) -> bool
    ensures { result ≡ is_taken setting kind link source known }
{
    is_up(kind) && is_ordinary(setting, source) && !is_elsewhere(link, known)
}

/// Whether there is room for one station more at a link.
pub(crate) fn has_room(setting: Setting, share: u16, link: u8, stations: &[Station]) -> bool
    ensures { result ≡ has_room setting share link stations.now }
{
    stations.len() < usize::from(setting.capacity) && count_at(link, stations) < usize::from(share)
}

fn count_at(link: u8, stations: &[Station]) -> usize
    ensures { result ≡ length (at_link link stations.now) }
{
    stations
        .iter()
        .filter(|station| station.link == link)
        .count()
}

/// The node of a segment's network to which a packet with that destination goes, if no frame names one: the
/// destination's own if it is on this network, otherwise the router's.
pub fn next_node(setting: Setting, destination: Address) -> Node
    ensures { result ≡ next_node setting destination }
{
    if is_here(setting.network, destination.network) {
        destination.node
    } else {
        setting.node
    }
}

fn is_here(network: Network, to: Network) -> bool
    ensures { result ≡ is_here network to }
{
    to == LOCAL || to == ALL || to == network
}
