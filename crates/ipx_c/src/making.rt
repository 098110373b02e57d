//! Making and freeing, as C asks for it.
ghost use Rattle.std.specs.Prelude.{◌≡◌, ◌≤◌, map, length, None, IfOk, IfErr};
ghost use Rattle.std.specs.List.{AllByRecursion};
ghost use Rattle.ipx_router.specs.Port.{IsPort};
ghost use Rattle.ipx_c.specs.Codes.{fault_code};
ghost use Rattle.ipx_c.specs.Makes.{IsBad, IsFirstBad, IsMade, IsUnmade, Makes};
ghost use Rattle.ipx_c.specs.Sizes.{most_ports, version};
ghost use Rattle.ipx_c.specs.Values.{port_of};

use crate::code::{DONE, fault_code};
use crate::fault::Fault;
use crate::handle::{RouterHandle, put_in, taken_out};
use crate::machine::{Machine, SizedRouter};
use crate::sizes::MOST_PORTS;
use crate::values::PortValues;
use arrayvec::ArrayVec;
use ipx_router::{Outbox, Port, PortFault, PortsFault};
use ipx_wire::{Network, Node};
use std::alloc::Global;

/// The version of the interface: its major number times 65536, plus its minor number.
const VERSION: u32 = (1 << 16) + 2;

/// Makes a router, and frees the one that the handle had. Where none can be made, that one stays.
#[unsafe(no_mangle)]
pub extern "C" fn ipxr_make(alloc: Global, handle: &mut RouterHandle, ports: &[PortValues]) -> i32
    ensures { Makes handle.old.cell.machine handle.new.cell.machine ports.now result }
{
    match made(alloc, ports) {
        Ok(machine) => {
            free(alloc, handle);
            put_in(handle, machine);
            DONE
        }
        Err(fault) => fault_code(fault),
    }
}

/// Frees the router, if there is one.
#[unsafe(no_mangle)]
pub extern "C" fn ipxr_free(alloc: Global, handle: &mut RouterHandle)
    ensures { handle.new.cell.machine ≡ None }
{
    free(alloc, handle);
}

/// The version of the interface.
#[unsafe(no_mangle)]
pub extern "C" fn ipxr_version() -> u32
    ensures { result ≡ version }
{
    VERSION
}

/// Frees the machine of a handle, if it has one. That it is freed, and not forgotten, is `drop`'s doing: no clause says it.
fn free(alloc: Global, handle: &mut RouterHandle)
    ensures { handle.new.cell.machine ≡ None }
{
    if let Some(machine) = taken_out(alloc, handle) {
        drop(machine);
    }
}

/// A router of the ports that have these values.
#[tactic(auto, using(crate::proofs::Unmade::unmade))]
fn made(alloc: Global, values: &[PortValues]) -> Result<Box<Machine>, Fault>
    ensures made { IfOk result (λ machine. IsMade values.now machine.value) }
    ensures unmade { IfErr result (IsUnmade values.now) }
{
    if values.is_empty() {
        return Err(Fault::Ports(PortsFault::NoPort));
    }
    if values.len() > MOST_PORTS {
        return Err(Fault::Ports(PortsFault::TooMany));
    }
    let ports = ports_of(values).map_err(Fault::Port)?;
    SizedRouter::check(&ports).map_err(Fault::Ports)?;
    // (neither the router nor the machine has a name here: what has one would lie on the stack)
    match Box::new(
        alloc,
        Machine {
            router: SizedRouter::of(&ports),
            outbox: Outbox::new(alloc),
        },
    ) {
        Ok(boxed) => Ok(boxed),
        Err(_) => Err(Fault::OutOfMemory),
    }
}

/// The ports that have these values, or why the first that is none is none.
fn ports_of(values: &[PortValues]) -> Result<ArrayVec<Port, MOST_PORTS>, PortFault>
    requires { length values.now ≤ most_ports }
    ensures ports { IfOk result (λ ports. ports.items ≡ map port_of values.now) }
    ensures each { IfOk result (λ ports. AllByRecursion IsPort (map port_of values.now)) }
    ensures bad { IfErr result (IsFirstBad values.now) }
{
    let mut ports = ArrayVec::new();
    for value in values {
        ports.push(port_of(value)?);
    }
    Ok(ports)
}

pub(crate) fn port_of(values: &PortValues) -> Result<Port, PortFault>
    ensures port { IfOk result (λ port. port ≡ port_of values.now) }
    ensures is { IfOk result IsPort }
    ensures bad { IfErr result (IsBad values.now) }
{
    let port = Port::new(
        Network(values.network),
        Node(values.node),
        values.cost,
        values.longest,
    )?;
    Ok(port.with_shares(values.routes, values.services))
}
