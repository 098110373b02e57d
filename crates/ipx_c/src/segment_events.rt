//! The events of a segment, as C gives them.
ghost use Rattle.std.specs.Prelude.{◌≡◌};
ghost use Rattle.ipx_segment.specs.Events.{Comes, Leaves, Second};
ghost use Rattle.ipx_c.specs.SegmentEvents.{ChangesLink, Hears, TakesNode, Takes, SendsTo, done_code, heard_code};
ghost use Rattle.ipx_c.specs.TunnelValues.{node_of};

use crate::code::{DONE, fault_code};
use crate::fault::Fault;
use crate::handle::{SegmentHandle, put_in, taken_out};
use crate::segment_values::LinkValues;
use ipx_wire::Node;
use std::alloc::Global;

/// A link goes up or down.
#[unsafe(no_mangle)]
pub extern "C" fn ipxr_segment_change(
    alloc: Global,
    handle: &mut SegmentHandle,
    link: u8,
    to: &LinkValues,
) -> i32
    ensures { ChangesLink handle.old.cell.machine handle.new.cell.machine link to.now result }
{
    let Some(mut machine) = taken_out(alloc, handle) else {
        return fault_code(Fault::NoSegment);
    };
    let became = machine.change(link, to);
    put_in(handle, machine);
    done_code(became)
}

/// A packet was heard at a link, from a node for a node or for all. Returns 1 where the router hears it, else 0.
#[unsafe(no_mangle)]
pub extern "C" fn ipxr_segment_hear(
    alloc: Global,
    handle: &mut SegmentHandle,
    link: u8,
    source: &[u8; 6],
    destination: &[u8; 6],
) -> i32
    ensures { Hears handle.old.cell.machine handle.new.cell.machine link (node_of source.now) (node_of destination.now) result }
{
    let Some(mut machine) = taken_out(alloc, handle) else {
        return fault_code(Fault::NoSegment);
    };
    let became = machine.hear(link, Node(*source), Node(*destination));
    put_in(handle, machine);
    heard_code(became)
}

/// A node came to a link that proves its stations.
#[unsafe(no_mangle)]
pub extern "C" fn ipxr_segment_come(
    alloc: Global,
    handle: &mut SegmentHandle,
    link: u8,
    node: &[u8; 6],
) -> i32
    ensures { TakesNode handle.old.cell.machine handle.new.cell.machine link (Comes link (node_of node.now)) result }
{
    let Some(mut machine) = taken_out(alloc, handle) else {
        return fault_code(Fault::NoSegment);
    };
    let became = machine.come(link, Node(*node));
    put_in(handle, machine);
    done_code(became)
}

/// A node left a link.
#[unsafe(no_mangle)]
pub extern "C" fn ipxr_segment_leave(
    alloc: Global,
    handle: &mut SegmentHandle,
    link: u8,
    node: &[u8; 6],
) -> i32
    ensures { TakesNode handle.old.cell.machine handle.new.cell.machine link (Leaves link (node_of node.now)) result }
{
    let Some(mut machine) = taken_out(alloc, handle) else {
        return fault_code(Fault::NoSegment);
    };
    let became = machine.leave(link, Node(*node));
    put_in(handle, machine);
    done_code(became)
}

/// Lets a second pass.
#[unsafe(no_mangle)]
pub extern "C" fn ipxr_segment_second(alloc: Global, handle: &mut SegmentHandle) -> i32
    ensures { Takes handle.old.cell.machine handle.new.cell.machine Second result }
{
    let Some(mut machine) = taken_out(alloc, handle) else {
        return fault_code(Fault::NoSegment);
    };
    machine.second();
    put_in(handle, machine);
    DONE
}

/// The router sends a packet to a node, or to all.
#[unsafe(no_mangle)]
pub extern "C" fn ipxr_segment_send(
    alloc: Global,
    handle: &mut SegmentHandle,
    node: &[u8; 6],
) -> i32
    ensures { SendsTo handle.old.cell.machine handle.new.cell.machine (node_of node.now) result }
{
    let Some(mut machine) = taken_out(alloc, handle) else {
        return fault_code(Fault::NoSegment);
    };
    machine.send(Node(*node));
    put_in(handle, machine);
    DONE
}

fn done_code(became: Result<(), Fault>) -> i32
    ensures { result ≡ done_code became }
{
    match became {
        Ok(()) => DONE,
        Err(fault) => fault_code(fault),
    }
}

fn heard_code(became: Result<bool, Fault>) -> i32
    ensures { result ≡ heard_code became }
{
    match became {
        Ok(heard) => i32::from(heard),
        Err(fault) => fault_code(fault),
    }
}
