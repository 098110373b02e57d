//! Which links get a packet.
ghost use Rattle.std.specs.Prelude.{◌≡◌, ◌≤◌, length};
ghost use Rattle.std.specs.List.{filter};
ghost use Rattle.ipx_segment.specs.Links.{link_at};
ghost use Rattle.ipx_segment.specs.Receivers.{numbers, sought, is_towards, is_back, gets, links_for};

use crate::link::Link;
use crate::looking::{is_up, link_at, station_of};
use crate::setting::Setting;
use crate::station::Station;
use arrayvec::ArrayVec;
use ipx_wire::Node;

/// Fills `to`, which is emptied first, with the links that get a packet for a node or for all.
pub(crate) fn put_links<const L: usize>(
    setting: Setting,
    links: &[Link],
    stations: &[Station],
    came: Option<u8>,
    destination: Node,
    to: &mut ArrayVec<u8, L>,
)
    requires { setting.links ≤ L }
    ensures { to.new.items ≡ links_for setting links.now stations.now came destination }
{
    if destination == setting.node {
        to.clear();
    } else {
        put_towards(
            setting.links,
            links,
            sought(destination, stations),
            came,
            to,
        );
    }
}

fn put_towards<const L: usize>(
    count: u8,
    links: &[Link],
    sought: Option<Station>,
    came: Option<u8>,
    to: &mut ArrayVec<u8, L>,
)
    requires { count ≤ L }
    ensures { to.new.items ≡ filter (gets links.now sought came) (numbers count) }
{
    to.clear();
    for link in 0..count {
        if gets(links, sought, came, link) {
            to.push(link);
        }
    }
}

/// What is known of a packet's destination.
fn sought(destination: Node, stations: &[Station]) -> Option<Station>
    ensures { result ≡ sought destination stations.now }
{
    if destination == Node::BROADCAST {
        return None;
    }
    station_of(destination, stations)
}

fn gets(links: &[Link], sought: Option<Station>, came: Option<u8>, link: u8) -> bool
    ensures { result ≡ gets links.now sought came link }
{
    is_up(link_at(link, links)) && !is_back(came, link) && is_towards(sought, link)
}

fn is_towards(sought: Option<Station>, link: u8) -> bool
    ensures { result ≡ is_towards sought link }
{
    match sought {
        Some(station) => station.link == link,
        None => true,
    }
}

fn is_back(came: Option<u8>, link: u8) -> bool
    ensures { result ≡ is_back came link }
{
    match came {
        Some(came) => link == came,
        None => false,
    }
}
