//! What a handle of a segment has: a segment of one size, and the links that get the packet of its last event.
ghost use Rattle.std.specs.Prelude.{◌≡◌, OnOk, IfErr};
ghost use Rattle.ipx_segment.specs.Events.{Heard, Comes, Leaves, Second};
ghost use Rattle.ipx_c.specs.SegmentEvents.{HasLink, IsNoLink, MeetsChange, MeetsHeard, MeetsNode, Took, Sent};
ghost use Rattle.ipx_c.specs.SegmentValues.{link_of};

use crate::fault::Fault;
use crate::segment_values::LinkValues;
use crate::sizes::{MOST_LINKS, MOST_STATIONS};
use arrayvec::ArrayVec;
use ipx_segment::{Link, Segment};
use ipx_wire::Node;

/// A segment, and what came of its last event. Its list is filled where it lies.
#[derive(Drop)]
pub struct SegmentMachine {
    pub segment: Segment<MOST_LINKS, MOST_STATIONS>,
    /// The links that get the packet.
    pub to: ArrayVec<u8, MOST_LINKS>,
}

impl SegmentMachine {
    /// A link goes up or down.
    pub(crate) fn change(&mut self, link: u8, values: &LinkValues) -> Result<(), Fault>
        ensures { MeetsChange self.old self.new link values.now result }
    {
        self.check_link(link)?;
        let to = link_of(values).ok_or(Fault::BadLink)?;
        self.segment.change(link, to);
        self.to.clear();
        Ok(())
    }

    /// A packet was heard at a link, from a node for a node or for all. Returns whether the router hears it.
    pub(crate) fn hear(&mut self, link: u8, source: Node, destination: Node) -> Result<bool, Fault>
        ensures { MeetsHeard self.old self.new link (Heard link source destination) result }
    {
        self.check_link(link)?;
        Ok(self.segment.hear(link, source, destination, &mut self.to))
    }

    /// A node came to a link that proves its stations.
    pub(crate) fn come(&mut self, link: u8, node: Node) -> Result<(), Fault>
        ensures { MeetsNode self.old self.new link (Comes link node) result }
    {
        self.check_link(link)?;
        self.segment.come(link, node);
        self.to.clear();
        Ok(())
    }

    /// A node left a link.
    pub(crate) fn leave(&mut self, link: u8, node: Node) -> Result<(), Fault>
        ensures { MeetsNode self.old self.new link (Leaves link node) result }
    {
        self.check_link(link)?;
        self.segment.leave(link, node);
        self.to.clear();
        Ok(())
    }

    /// A second passes.
    pub(crate) fn second(&mut self)
        ensures { Took self.old self.new Second }
    {
        self.segment.second();
        self.to.clear();
    }

    /// The router sends a packet to a node, or to all.
    pub(crate) fn send(&mut self, to: Node)
        ensures { Sent self.old self.new to }
    {
        self.segment.send(to, &mut self.to);
    }

    /// Whether there is a link of that number.
    fn check_link(&self, link: u8) -> Result<(), Fault>
        ensures there { OnOk result (HasLink self.now link) }
        ensures missing { IfErr result (IsNoLink self.now link) }
    {
        if link < self.segment.setting().links {
            Ok(())
        } else {
            Err(Fault::NoLink)
        }
    }
}

fn link_of(values: &LinkValues) -> Option<Link>
    ensures { result ≡ link_of values.now }
{
    match values.kind {
        0 => Some(Link::Down),
        1 => Some(Link::Cable(values.share)),
        2 => Some(Link::Sure(values.share)),
        _ => None,
    }
}
