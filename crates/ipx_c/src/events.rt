//! The events, as C gives them.
ghost use Rattle.ipx_router.specs.Happened.{happened};
ghost use Rattle.ipx_router.specs.History.{Start as Started, Stop as Halted, Second as Passed, Packet as Came, PortDown as Down, PortUp as Up};
ghost use Rattle.ipx_c.specs.Happens.{Happens};

use crate::code::{code_of, fault_code};
use crate::fault::Fault;
use crate::handle::{RouterHandle, put_in, taken_out};
use ipx_router::Event;
use std::alloc::Global;

/// Starts the router.
#[unsafe(no_mangle)]
pub extern "C" fn ipxr_start(alloc: Global, handle: &mut RouterHandle) -> i32
    ensures { Happens handle.old.cell.machine handle.new.cell.machine Started result }
{
    give(alloc, handle, Event::Start)
}

/// Stops the router.
#[unsafe(no_mangle)]
pub extern "C" fn ipxr_stop(alloc: Global, handle: &mut RouterHandle) -> i32
    ensures { Happens handle.old.cell.machine handle.new.cell.machine Halted result }
{
    give(alloc, handle, Event::Stop)
}

/// Lets a second pass.
#[unsafe(no_mangle)]
pub extern "C" fn ipxr_second(alloc: Global, handle: &mut RouterHandle) -> i32
    ensures { Happens handle.old.cell.machine handle.new.cell.machine Passed result }
{
    give(alloc, handle, Event::Second)
}

/// Takes a packet that came in on a port.
#[unsafe(no_mangle)]
pub extern "C" fn ipxr_packet(
    alloc: Global,
    handle: &mut RouterHandle,
    port: u8,
    bytes: &[u8],
) -> i32
    ensures { Happens handle.old.cell.machine handle.new.cell.machine (Came port bytes.now) result }
{
    give(alloc, handle, Event::Packet { port, bytes })
}

/// Takes a port down.
#[unsafe(no_mangle)]
pub extern "C" fn ipxr_port_down(alloc: Global, handle: &mut RouterHandle, port: u8) -> i32
    ensures { Happens handle.old.cell.machine handle.new.cell.machine (Down port) result }
{
    give(alloc, handle, Event::PortDown { port })
}

/// Brings a port up.
#[unsafe(no_mangle)]
pub extern "C" fn ipxr_port_up(alloc: Global, handle: &mut RouterHandle, port: u8) -> i32
    ensures { Happens handle.old.cell.machine handle.new.cell.machine (Up port) result }
{
    give(alloc, handle, Event::PortUp { port })
}

/// Gives an event to the router of a handle. Returns the number of what became of it.
fn give(alloc: Global, handle: &mut RouterHandle, event: Event<'_>) -> i32
    ensures { Happens handle.old.cell.machine handle.new.cell.machine (happened event.entry) result }
{
    let Some(mut machine) = taken_out(alloc, handle) else {
        return fault_code(Fault::NoRouter);
    };
    let became = machine.take(event);
    put_in(handle, machine);
    code_of(became)
}
