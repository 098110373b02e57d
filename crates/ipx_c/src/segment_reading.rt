//! What C reads of a segment: the links that get the packet of its last event, its links and its stations.
ghost use Rattle.std.specs.Prelude.{◌≡◌};
ghost use Rattle.ipx_c.specs.Reads.{read_code};
ghost use Rattle.ipx_c.specs.SegmentReads.{receiver_count, receiver_at, receiver_after, link_at, link_after, station_count, station_at, station_after, next_at};
ghost use Rattle.ipx_c.specs.SegmentValues.{link_record, station_record};
ghost use Rattle.ipx_c.specs.TunnelReads.{place_after};
ghost use Rattle.ipx_c.specs.Writes.{address_of};

use crate::code::{DONE, fault_code};
use crate::fault::Fault;
use crate::handle::{SegmentHandle, put_in, taken_out};
use crate::item::item_at;
use crate::segment_values::{LinkValues, StationRecord};
use crate::values::AddressValues;
use crate::writing::address_of;
use ipx_segment::{Link, Station, next_node};
use std::alloc::Global;

/// How many links get the packet.
#[unsafe(no_mangle)]
pub extern "C" fn ipxr_segment_receivers(alloc: Global, handle: &mut SegmentHandle) -> usize
    ensures kept { handle.new.cell.machine ≡ handle.old.cell.machine }
    ensures count { result ≡ receiver_count handle.old.cell.machine }
{
    let Some(machine) = taken_out(alloc, handle) else {
        return 0;
    };
    let count = machine.to.len();
    put_in(handle, machine);
    count
}

/// Copies the number of a link that gets the packet.
#[unsafe(no_mangle)]
pub extern "C" fn ipxr_segment_receiver(
    alloc: Global,
    handle: &mut SegmentHandle,
    index: usize,
    link: &mut u8,
) -> i32
    ensures kept { handle.new.cell.machine ≡ handle.old.cell.machine }
    ensures copied { link.new ≡ receiver_after (receiver_at handle.old.cell.machine index) link.old }
    ensures code { result ≡ read_code (receiver_at handle.old.cell.machine index) }
{
    let Some(machine) = taken_out(alloc, handle) else {
        return fault_code(Fault::NoSegment);
    };
    let found = item_at(&machine.to, index);
    put_in(handle, machine);
    let Some(number) = found else {
        return fault_code(Fault::NoRecord);
    };
    *link = number;
    DONE
}

/// Copies what a link is.
#[unsafe(no_mangle)]
pub extern "C" fn ipxr_segment_link(
    alloc: Global,
    handle: &mut SegmentHandle,
    link: u8,
    values: &mut LinkValues,
) -> i32
    ensures kept { handle.new.cell.machine ≡ handle.old.cell.machine }
    ensures copied { values.new ≡ link_after (link_at handle.old.cell.machine link) values.old }
    ensures code { result ≡ read_code (link_at handle.old.cell.machine link) }
{
    let Some(machine) = taken_out(alloc, handle) else {
        return fault_code(Fault::NoSegment);
    };
    let found = item_at(machine.segment.links(), usize::from(link));
    put_in(handle, machine);
    let Some(one) = found else {
        return fault_code(Fault::NoLink);
    };
    *values = link_record(one);
    DONE
}

/// How many stations are known.
#[unsafe(no_mangle)]
pub extern "C" fn ipxr_segment_stations(alloc: Global, handle: &mut SegmentHandle) -> usize
    ensures kept { handle.new.cell.machine ≡ handle.old.cell.machine }
    ensures count { result ≡ station_count handle.old.cell.machine }
{
    let Some(machine) = taken_out(alloc, handle) else {
        return 0;
    };
    let count = machine.segment.stations().len();
    put_in(handle, machine);
    count
}

/// Copies a station.
#[unsafe(no_mangle)]
pub extern "C" fn ipxr_segment_station(
    alloc: Global,
    handle: &mut SegmentHandle,
    index: usize,
    station: &mut StationRecord,
) -> i32
    ensures kept { handle.new.cell.machine ≡ handle.old.cell.machine }
    ensures copied { station.new ≡ station_after (station_at handle.old.cell.machine index) station.old }
    ensures code { result ≡ read_code (station_at handle.old.cell.machine index) }
{
    let Some(machine) = taken_out(alloc, handle) else {
        return fault_code(Fault::NoSegment);
    };
    let found = item_at(machine.segment.stations(), index);
    put_in(handle, machine);
    let Some(one) = found else {
        return fault_code(Fault::NoRecord);
    };
    *station = station_record(one);
    DONE
}

/// Copies the node that a packet for a destination goes to on the segment's network, where no frame says it.
#[unsafe(no_mangle)]
pub extern "C" fn ipxr_segment_next_node(
    alloc: Global,
    handle: &mut SegmentHandle,
    destination: &AddressValues,
    node: &mut [u8; 6],
) -> i32
    ensures kept { handle.new.cell.machine ≡ handle.old.cell.machine }
    ensures copied { node.new ≡ place_after (next_at handle.old.cell.machine (address_of destination.now)) node.old }
    ensures code { result ≡ read_code (next_at handle.old.cell.machine (address_of destination.now)) }
{
    let Some(machine) = taken_out(alloc, handle) else {
        return fault_code(Fault::NoSegment);
    };
    let next = next_node(machine.segment.setting(), address_of(destination)).0;
    put_in(handle, machine);
    *node = next;
    DONE
}

fn link_record(link: Link) -> LinkValues
    ensures { result ≡ link_record link }
{
    match link {
        Link::Down => LinkValues { kind: 0, share: 0 },
        Link::Cable(share) => LinkValues { kind: 1, share },
        Link::Sure(share) => LinkValues { kind: 2, share },
    }
}

fn station_record(station: Station) -> StationRecord
    ensures { result ≡ station_record station }
{
    let node = station.node.0;
    StationRecord {
        node,
        link: station.link,
        is_sure: station.is_sure,
        seconds_left: station.seconds_left,
    }
}
