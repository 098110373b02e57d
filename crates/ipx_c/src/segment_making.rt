//! Making and freeing a segment, as C asks for it.
ghost use Rattle.std.specs.Prelude.{◌≡◌, None, IfOk, IfErr};
ghost use Rattle.ipx_c.specs.SegmentMakes.{IsSegmentMade, IsSegmentUnmade, MakesSegment};
ghost use Rattle.ipx_c.specs.SegmentValues.{setting_of};

use crate::code::{DONE, fault_code};
use crate::fault::Fault;
use crate::handle::{SegmentHandle, put_in, taken_out};
use crate::segment_machine::SegmentMachine;
use crate::segment_values::SegmentSetting;
use crate::sizes::{MOST_LINKS, MOST_STATIONS};
use arrayvec::ArrayVec;
use ipx_segment::{Segment, Setting};
use ipx_wire::{Network, Node};
use std::alloc::Global;

/// Makes a segment, and frees the one that the handle had. Where none can be made, that one stays.
#[unsafe(no_mangle)]
pub extern "C" fn ipxr_segment_make(
    alloc: Global,
    handle: &mut SegmentHandle,
    setting: &SegmentSetting,
) -> i32
    ensures { MakesSegment handle.old.cell.machine handle.new.cell.machine setting.now result }
{
    match made(alloc, setting) {
        Ok(machine) => {
            free(alloc, handle);
            put_in(handle, machine);
            DONE
        }
        Err(fault) => fault_code(fault),
    }
}

/// Frees the segment, if there is one.
#[unsafe(no_mangle)]
pub extern "C" fn ipxr_segment_free(alloc: Global, handle: &mut SegmentHandle)
    ensures { handle.new.cell.machine ≡ None }
{
    free(alloc, handle);
}

/// Frees the machine of a handle, if it has one. That it is freed, and not forgotten, is `drop`'s doing: no clause says it.
fn free(alloc: Global, handle: &mut SegmentHandle)
    ensures { handle.new.cell.machine ≡ None }
{
    if let Some(machine) = taken_out(alloc, handle) {
        drop(machine);
    }
}

/// A segment with that setting.
fn made(alloc: Global, values: &SegmentSetting) -> Result<Box<SegmentMachine>, Fault>
    ensures made { IfOk result (λ machine. IsSegmentMade values.now machine.value) }
    ensures unmade { IfErr result (IsSegmentUnmade values.now) }
{
    if usize::from(values.links) > MOST_LINKS {
        return Err(Fault::ManyLinks);
    }
    if usize::from(values.capacity) > MOST_STATIONS {
        return Err(Fault::ManyStations);
    }
    // (neither the segment nor the machine has a name here: what has one would lie on the stack)
    match Box::new(
        alloc,
        SegmentMachine {
            segment: Segment::new(setting_of(values)),
            to: ArrayVec::new(),
        },
    ) {
        Ok(boxed) => Ok(boxed),
        Err(_) => Err(Fault::OutOfMemory),
    }
}

fn setting_of(values: &SegmentSetting) -> Setting
    ensures { result ≡ setting_of values.now }
{
    Setting {
        network: Network(values.network),
        node: Node(values.node),
        links: values.links,
        capacity: values.capacity,
    }
}
