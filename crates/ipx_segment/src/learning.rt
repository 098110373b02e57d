//! What becomes of the stations.
ghost use Rattle.std.specs.Prelude.{◌≡◌, ◌≤◌, ◌==◌, ◌&&◌, not, map, length};
ghost use Rattle.std.specs.List.{filter};
ghost use Rattle.ipx_segment.specs.Nodes.{same_node};
ghost use Rattle.ipx_segment.specs.Stations.{station_of, without, placed, refreshed, learned, came, later, stays, heard_at, sure_at};

use crate::link::Link;
use crate::looking::{has_room, is_at, is_ordinary};
use crate::setting::Setting;
use crate::station::Station;
use arrayvec::ArrayVec;
use ipx_wire::Node;

/// For how many seconds a station is known after it was heard.
const STATION_LASTS: u16 = 300;

/// A node was heard at a link: at a cable it is known from now on, if there is room.
pub(crate) fn learn<const C: usize>(
    setting: Setting,
    kind: Link,
    link: u8,
    node: Node,
    known: Option<Station>,
    stations: &mut ArrayVec<Station, C>,
)
    requires capacity { setting.capacity ≤ C }
    requires known { known ≡ station_of node stations.old.items }
    ensures { stations.new.items ≡ learned setting kind link node stations.old.items }
{
    if let Link::Cable(share) = kind {
        if is_at(link, known) {
            refresh(link, node, stations);
        } else {
            place(setting, share, heard_at(link, node), stations);
        }
    }
}

/// A node came to a link that proves it.
pub(crate) fn come<const C: usize>(
    setting: Setting,
    kind: Link,
    link: u8,
    node: Node,
    stations: &mut ArrayVec<Station, C>,
)
    requires { setting.capacity ≤ C }
    ensures { stations.new.items ≡ came setting kind link node stations.old.items }
{
    if let Link::Sure(share) = kind {
        if is_ordinary(setting, node) {
            place(setting, share, sure_at(link, node), stations);
        }
    }
}

/// A station comes to its link, if there is room.
fn place<const C: usize>(
    setting: Setting,
    share: u16,
    new: Station,
    stations: &mut ArrayVec<Station, C>,
)
    requires { setting.capacity ≤ C }
    ensures { stations.new.items ≡ placed setting share new stations.old.items }
{
    remove(new.node, stations);
    if has_room(setting, share, new.link, stations) {
        stations.push(new);
    }
}

fn remove<const C: usize>(node: Node, stations: &mut ArrayVec<Station, C>)
    ensures { stations.new.items ≡ without node stations.old.items }
{
    stations.retain(|station| station.node != node);
}

/// What is known of a link's stations is forgotten.
pub(crate) fn remove_all<const C: usize>(link: u8, stations: &mut ArrayVec<Station, C>)
    ensures { stations.new.items ≡ filter (λ s. not (s.link == link)) stations.old.items }
{
    stations.retain(|station| station.link != link);
}

/// A node left a link.
pub(crate) fn leave<const C: usize>(link: u8, node: Node, stations: &mut ArrayVec<Station, C>)
    ensures { stations.new.items ≡ filter (λ s. not (same_node s.node node && (s.link == link))) stations.old.items }
{
    stations.retain(|station| !(station.node == node && station.link == link));
}

/// A station that was heard at a link now.
fn heard_at(link: u8, node: Node) -> Station
    ensures { result ≡ heard_at link node }
{
    Station {
        node,
        link,
        is_sure: false,
        seconds_left: STATION_LASTS,
    }
}

/// A station that came to a link which proves it.
fn sure_at(link: u8, node: Node) -> Station
    ensures { result ≡ sure_at link node }
{
    Station {
        node,
        link,
        is_sure: true,
        seconds_left: STATION_LASTS,
    }
}

/// The node's station, which is at that link, counts for all its seconds again.
fn refresh(link: u8, node: Node, stations: &mut [Station])
    ensures { stations.new ≡ map (refreshed link node) stations.old }
{
    for station in stations.iter_mut() {
        *station = refreshed(link, node, *station);
    }
}

fn refreshed(link: u8, node: Node, station: Station) -> Station
    ensures { result ≡ refreshed link node station }
{
    if station.node == node {
        heard_at(link, node)
    } else {
        station
    }
}

/// A second passes: stations that haven't been heard for too long are forgotten.
pub(crate) fn pass<const C: usize>(stations: &mut ArrayVec<Station, C>)
    ensures { stations.new.items ≡ filter stays (map later stations.old.items) }
{
    age(stations);
    stations.retain(|station| station.is_sure || station.seconds_left > 0);
}

fn age(stations: &mut [Station])
    ensures { stations.new ≡ map later stations.old }
{
    for station in stations.iter_mut() {
        *station = a_second_later(*station);
    }
}

fn a_second_later(station: Station) -> Station
    ensures { result ≡ later station }
{
    if station.is_sure {
        return station;
    }
    Station {
        seconds_left: station.seconds_left.saturating_sub(1),
        ..station
    }
}
