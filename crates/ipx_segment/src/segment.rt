//! The segment.
ghost use Rattle.std.specs.Prelude.{◌≡◌, ◌≤◌, List, ◌∷◌, [], length};
ghost use Rattle.ipx_segment.specs.Events.{Changes, Heard, Comes, Leaves, Second, Sends, History};
ghost use Rattle.ipx_segment.specs.Stations.{counts, heard};
ghost use Rattle.ipx_segment.specs.Receivers.{receivers, is_heard};
ghost use Rattle.ipx_segment.specs.Stands.{State, Stands};

use crate::changing::{all_down, put_at};
use crate::learning::{come, learn, leave, pass, remove_all};
use crate::link::Link;
use crate::looking::{is_taken, link_at, station_of};
use crate::reaching::put_links;
use crate::setting::Setting;
use crate::station::Station;
use arrayvec::ArrayVec;
use ipx_wire::Node;
use std::marker::Model;

/// A network over at most `L` links that are one cable, with at most `C` stations that are known.
///
/// ```
/// let setting = Setting {
///     network: Network(0x10),
///     node: Node([0, 0, 0, 0, 0, 1]),
///     links: 3,
///     capacity: 1024,
/// };
/// let mut segment = Segment::<8, 1024>::new(setting);
/// segment.change(0, Link::Cable(256));
/// segment.change(1, Link::Cable(256));
/// segment.change(2, Link::Sure(512));
/// segment.come(2, player);
/// let mut to = ArrayVec::new();
/// let is_heard = segment.hear(0, pc, Node::BROADCAST, &mut to);
/// println!(rt;
///     "a call goes to {} links, and to the router: {is_heard}",
///     to.len()
/// )?;
/// segment.hear(2, player, pc, &mut to);
/// for link in to.iter() {
///     let number = *link;
///     println!(rt; "the answer goes to link {number}")?;
/// }
/// for station in segment.stations() {
///     println!(rt; "{} is at link {}", station.node, station.link)?;
/// }
/// // prints a call goes to 2 links, and to the router: true
/// // prints the answer goes to link 0
/// // prints 000000000002 is at link 2
/// // prints 0000000000AA is at link 0
/// ```
#[derive(Debug, Drop)]
pub struct Segment<const L: usize, const C: usize> {
    setting: Setting,
    links: ArrayVec<Link, L>,
    stations: ArrayVec<Station, C>,
}

impl<const L: usize, const C: usize> Model for Segment<L, C> {
    ghost use Rattle.std.specs.Prelude.{◌≡◌, ◌≤◌, length};
    ghost use Rattle.ipx_segment.specs.Stands.{State};

    ghost Value = { State };

    ghost view = { λ s. record { setting = s.setting; links = s.links.items; stations = s.stations.items } };

    ghost invariant = { λ s. (s.setting.links ≤ L) × (s.setting.capacity ≤ C) × (length s.links.items ≡ s.setting.links) };
}

impl<const L: usize, const C: usize> Segment<L, C> {
    /// A segment of which no link is up.
    pub fn new(setting: Setting) -> Segment<L, C>
        requires links { setting.links ≤ L }
        requires capacity { setting.capacity ≤ C }
        ensures setting { result.setting ≡ setting }
        ensures stands { Stands result [] }
    {
        Segment {
            setting,
            links: all_down(setting.links),
            stations: ArrayVec::new(),
        }
    }

    /// Its setting.
    pub fn setting(&self) -> Setting
        ensures { result ≡ self.now.setting }
    {
        self.setting
    }

    /// Its links, by their numbers.
    pub fn links(&self) -> &[Link]
        ensures { result.now ≡ self.now.links }
    {
        &self.links
    }

    /// The stations that are known, in the order in which they came to their links.
    pub fn stations(&self) -> &[Station]
        ensures { result.now ≡ self.now.stations }
    {
        &self.stations
    }

    /// A link goes up or down. Its stations are forgotten.
    pub fn change(&mut self, link: u8, to: Link)
        ensures setting { self.new.setting ≡ self.old.setting }
        ensures stands { (h : History) → Stands self.old h → Stands self.new (Changes link to ∷ h) }
    {
        remove_all(link, &mut self.stations);
        put_at(link, to, &mut self.links);
    }

    /// A packet was heard at a link, from a node for a node or for all. Fills `to`, which is emptied first, with the links that get it.
    /// Returns whether the router hears it.
    pub fn hear(
        &mut self,
        link: u8,
        source: Node,
        destination: Node,
        to: &mut ArrayVec<u8, L>,
    ) -> bool
        ensures setting { self.new.setting ≡ self.old.setting }
        ensures stands { (h : History) → Stands self.old h → Stands self.new (Heard link source destination ∷ h) }
        ensures to { (h : History) → Stands self.old h → to.new.items ≡ receivers self.old.setting (Heard link source destination ∷ h) }
        ensures heard { (h : History) → Stands self.old h → result ≡ is_heard self.old.setting (Heard link source destination ∷ h) }
    {
        if !self.take(link, source) {
            to.clear();
            return false;
        }
        put_links(
            self.setting,
            &self.links,
            &self.stations,
            Some(link),
            destination,
            to,
        );
        destination == self.setting.node || destination == Node::BROADCAST
    }

    /// Returns whether a packet that was heard at a link, from that node, counts. If so, the segment learns where the node is.
    fn take(&mut self, link: u8, source: Node) -> bool
        ensures setting { self.new.setting ≡ self.old.setting }
        ensures links { self.new.links ≡ self.old.links }
        ensures counts { result ≡ counts self.old.setting self.old.links self.old.stations link source }
        ensures stations { self.new.stations ≡ heard self.old.setting self.old.links link source self.old.stations }
    {
        let kind = link_at(link, &self.links);
        let known = station_of(source, &self.stations);
        if !is_taken(self.setting, kind, link, source, known) {
            return false;
        }
        learn(self.setting, kind, link, source, known, &mut self.stations);
        true
    }

    /// A node came to a link that proves its stations.
    pub fn come(&mut self, link: u8, node: Node)
        ensures setting { self.new.setting ≡ self.old.setting }
        ensures stands { (h : History) → Stands self.old h → Stands self.new (Comes link node ∷ h) }
    {
        let kind = link_at(link, &self.links);
        come(self.setting, kind, link, node, &mut self.stations);
    }

    /// A node left a link.
    pub fn leave(&mut self, link: u8, node: Node)
        ensures setting { self.new.setting ≡ self.old.setting }
        ensures stands { (h : History) → Stands self.old h → Stands self.new (Leaves link node ∷ h) }
    {
        leave(link, node, &mut self.stations);
    }

    /// A second passes: stations that haven't been heard for too long are forgotten.
    pub fn second(&mut self)
        ensures setting { self.new.setting ≡ self.old.setting }
        ensures stands { (h : History) → Stands self.old h → Stands self.new (Second ∷ h) }
    {
        pass(&mut self.stations);
    }

    /// Fills `to`, which is emptied first, with the links that get what the router sends to a node or to all.
    pub fn send(&self, destination: Node, to: &mut ArrayVec<u8, L>)
        ensures stands { (h : History) → Stands self.now h → Stands self.now (Sends destination ∷ h) }
        ensures to { (h : History) → Stands self.now h → to.new.items ≡ receivers self.now.setting (Sends destination ∷ h) }
    {
        put_links(
            self.setting,
            &self.links,
            &self.stations,
            None,
            destination,
            to,
        );
    }
}
