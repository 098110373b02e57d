//! The events of a tunnel with keyed nodes, as C gives them.
ghost use Rattle.std.specs.Prelude.{◌≡◌};
ghost use Rattle.ipx_c.specs.KeyedEvents.{Hears, Passes, Sends, said_code};
ghost use Rattle.ipx_c.specs.KeyedValues.{sender_of};
ghost use Rattle.ipx_c.specs.TunnelValues.{node_of};

use crate::code::{DONE, fault_code};
use crate::fault::Fault;
use crate::handle::{KeyedHandle, put_in, taken_out};
use crate::keyed_values::KeyedSender;
use ipx_keyed::{Said, Sender};
use ipx_tunnel::Cookies;
use ipx_wire::Node;
use std::alloc::Global;

/// Takes a datagram that came from a place. Returns the number of what it said.
#[unsafe(no_mangle)]
pub extern "C" fn ipxr_keyed_hear(
    alloc: Global,
    handle: &mut KeyedHandle,
    sender: &KeyedSender,
    bytes: &[u8],
) -> i32
    ensures { Hears handle.old.cell.machine handle.new.cell.machine (sender_of sender.now) bytes.now result }
{
    let Some(mut machine) = taken_out(alloc, handle) else {
        return fault_code(Fault::NoTunnel);
    };
    let said = machine.hear(sender_of(sender), bytes);
    put_in(handle, machine);
    said_code(said)
}

/// Lets a second pass.
#[unsafe(no_mangle)]
pub extern "C" fn ipxr_keyed_second(alloc: Global, handle: &mut KeyedHandle) -> i32
    ensures { Passes handle.old.cell.machine handle.new.cell.machine result }
{
    let Some(mut machine) = taken_out(alloc, handle) else {
        return fault_code(Fault::NoTunnel);
    };
    machine.second();
    put_in(handle, machine);
    DONE
}

/// The router sends a packet to a node, or to all.
#[unsafe(no_mangle)]
pub extern "C" fn ipxr_keyed_send(alloc: Global, handle: &mut KeyedHandle, node: &[u8; 6]) -> i32
    ensures { Sends handle.old.cell.machine handle.new.cell.machine (node_of node.now) result }
{
    let Some(mut machine) = taken_out(alloc, handle) else {
        return fault_code(Fault::NoTunnel);
    };
    machine.send(Node(*node));
    put_in(handle, machine);
    DONE
}

fn sender_of(values: &KeyedSender) -> Sender
    ensures { result ≡ sender_of values.now }
{
    Sender {
        place: Node(values.place),
        node: Node(values.node),
        former: Node(values.former),
        cookies: Cookies {
            current: Node(values.current),
            previous: Node(values.previous),
        },
        is_trusted: values.is_trusted,
        may_register: values.may_register,
    }
}

fn said_code(said: Said) -> i32
    ensures { result ≡ said_code said }
{
    match said {
        Said::Nothing => 0,
        Said::Registers => 1,
        Said::Answers(_) => 2,
        Said::Speaks(_) => 3,
    }
}
