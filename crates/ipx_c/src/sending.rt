//! What is to be sent, as C takes it out.
ghost use Rattle.std.specs.Prelude.{◌≡◌, ◌≤◌, ◌++◌, length, drop};
ghost use Rattle.ipx_c.specs.Copies.{IsCleared, sent_count, packet_at, told_after, buffer_after, copy_code};

use crate::code::{DONE, fault_code};
use crate::fault::Fault;
use crate::handle::{RouterHandle, put_in, taken_out};
use crate::machine::Machine;
use crate::values::PacketSent;
use std::alloc::Global;

/// How many packets are to be sent.
#[unsafe(no_mangle)]
pub extern "C" fn ipxr_sent(alloc: Global, handle: &mut RouterHandle) -> usize
    ensures kept { handle.new.cell.machine ≡ handle.old.cell.machine }
    ensures count { result ≡ sent_count handle.old.cell.machine }
{
    let Some(machine) = taken_out(alloc, handle) else {
        return 0;
    };
    let count = machine.outbox.len();
    put_in(handle, machine);
    count
}

/// Copies a packet out.
#[unsafe(no_mangle)]
pub extern "C" fn ipxr_get(
    alloc: Global,
    handle: &mut RouterHandle,
    index: usize,
    sent: &mut PacketSent,
    buffer: &mut [u8],
) -> i32
    ensures kept { handle.new.cell.machine ≡ handle.old.cell.machine }
    ensures told { sent.new ≡ told_after (packet_at handle.old.cell.machine index) sent.old }
    ensures bytes { buffer.new ≡ buffer_after (packet_at handle.old.cell.machine index) buffer.old }
    ensures code { result ≡ copy_code (packet_at handle.old.cell.machine index) (length buffer.old) }
{
    let Some(machine) = taken_out(alloc, handle) else {
        return fault_code(Fault::NoRouter);
    };
    let answer = copy_out(&machine, index, sent, buffer);
    put_in(handle, machine);
    answer
}

fn copy_out(machine: &Machine, index: usize, sent: &mut PacketSent, buffer: &mut [u8]) -> i32
    ensures told { sent.new ≡ told_after (packet_at (Some machine.now) index) sent.old }
    ensures bytes { buffer.new ≡ buffer_after (packet_at (Some machine.now) index) buffer.old }
    ensures code { result ≡ copy_code (packet_at (Some machine.now) index) (length buffer.old) }
{
    if index >= machine.outbox.len() {
        return fault_code(Fault::NoPacket);
    }
    let packet = machine.outbox.get(index);
    *sent = PacketSent {
        length: packet.bytes.len(),
        port: packet.port,
        node: packet.link.0,
    };
    if packet.bytes.len() > buffer.len() {
        return fault_code(Fault::ShortBuffer);
    }
    put(buffer, packet.bytes);
    DONE
}

/// Copies bytes to the front of a buffer that has room for them.
pub(crate) fn put(buffer: &mut [u8], bytes: &[u8])
    requires { length bytes.now ≤ length buffer.old }
    ensures { buffer.new ≡ bytes.now ++ drop (length bytes.now) buffer.old }
{
    let (front, _) = buffer.split_at_mut(bytes.len());
    front.copy_from_slice(bytes);
}

/// Takes all packets out.
#[unsafe(no_mangle)]
pub extern "C" fn ipxr_clear(alloc: Global, handle: &mut RouterHandle)
    ensures { IsCleared handle.old.cell.machine handle.new.cell.machine }
{
    let Some(mut machine) = taken_out(alloc, handle) else {
        return;
    };
    machine.outbox.clear();
    put_in(handle, machine);
}
