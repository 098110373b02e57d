//! Making and freeing a tunnel with keyed nodes, as C asks for it.
ghost use Rattle.std.specs.Prelude.{◌≡◌, None, IfOk, IfErr};
ghost use Rattle.ipx_c.specs.KeyedMakes.{IsKeyedMade, IsKeyedUnmade, MakesKeyed};
ghost use Rattle.ipx_c.specs.KeyedValues.{setting_of};

use crate::code::{DONE, fault_code};
use crate::fault::Fault;
use crate::handle::{KeyedHandle, put_in, taken_out};
use crate::keyed_machine::KeyedMachine;
use crate::keyed_values::KeyedSetting;
use crate::sizes::MOST_CLIENTS;
use arrayvec::ArrayVec;
use ipx_keyed::{Setting, Tunnel};
use ipx_wire::{Network, Node};
use std::alloc::Global;

/// Makes a tunnel, and frees the one that the handle had. Where none can be made, that one stays.
#[unsafe(no_mangle)]
pub extern "C" fn ipxr_keyed_make(
    alloc: Global,
    handle: &mut KeyedHandle,
    setting: &KeyedSetting,
) -> i32
    ensures { MakesKeyed handle.old.cell.machine handle.new.cell.machine setting.now result }
{
    match made(alloc, setting) {
        Ok(machine) => {
            free(alloc, handle);
            put_in(handle, machine);
            DONE
        }
        Err(fault) => fault_code(fault),
    }
}

/// Frees the tunnel, if there is one.
#[unsafe(no_mangle)]
pub extern "C" fn ipxr_keyed_free(alloc: Global, handle: &mut KeyedHandle)
    ensures { handle.new.cell.machine ≡ None }
{
    free(alloc, handle);
}

/// Frees the machine of a handle, if it has one. That it is freed, and not forgotten, is `drop`'s doing: no clause says it.
fn free(alloc: Global, handle: &mut KeyedHandle)
    ensures { handle.new.cell.machine ≡ None }
{
    if let Some(machine) = taken_out(alloc, handle) {
        drop(machine);
    }
}

/// A tunnel with that setting.
fn made(alloc: Global, values: &KeyedSetting) -> Result<Box<KeyedMachine>, Fault>
    ensures made { IfOk result (λ machine. IsKeyedMade values.now machine.value) }
    ensures unmade { IfErr result (IsKeyedUnmade values.now) }
{
    if usize::from(values.capacity.max(values.remembered)) > MOST_CLIENTS {
        return Err(Fault::ManyClients);
    }
    // (neither the tunnel nor the machine has a name here: what has one would lie on the stack)
    match Box::new(
        alloc,
        KeyedMachine {
            tunnel: Tunnel::new(setting_of(values)),
            pings: ArrayVec::new(),
            due: ArrayVec::new(),
            to: ArrayVec::new(),
            left: ArrayVec::new(),
            carried: 0,
            is_heard: false,
        },
    ) {
        Ok(boxed) => Ok(boxed),
        Err(_) => Err(Fault::OutOfMemory),
    }
}

fn setting_of(values: &KeyedSetting) -> Setting
    ensures { result ≡ setting_of values.now }
{
    Setting {
        network: Network(values.network),
        node: Node(values.node),
        capacity: values.capacity,
        share: values.share,
        remembered: values.remembered,
        remembered_share: values.remembered_share,
    }
}
