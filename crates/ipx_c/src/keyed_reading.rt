//! What C reads of a tunnel with keyed nodes: what came of its last event, its clients, and who is remembered.
ghost use Rattle.std.specs.Prelude.{◌≡◌, ◌++◌, slice_get};
ghost use Rattle.ipx_c.specs.Reads.{read_code};
ghost use Rattle.ipx_c.specs.KeyedReads.{found_or, own_count, ping_count, own_at, receiver_count, receiver_at, carried_size, heard_flag, leaver_count, leaver_at, client_count, client_at, waiter_count, waiter_at, member_after};
ghost use Rattle.ipx_c.specs.KeyedValues.{member_of};
ghost use Rattle.ipx_c.specs.TunnelReads.{own_after, place_after};

use crate::code::{DONE, fault_code};
use crate::fault::Fault;
use crate::handle::{KeyedHandle, put_in, taken_out};
use crate::item::item_at;
use crate::keyed_values::KeyedMember;
use crate::tunnel_reading::{own_record, put_place};
use crate::tunnel_values::OwnRecord;
use ipx_keyed::Client;
use ipx_tunnel::Own;
use std::alloc::Global;

/// How many datagrams of the tunnel's own are to be sent.
#[unsafe(no_mangle)]
pub extern "C" fn ipxr_keyed_owns(alloc: Global, handle: &mut KeyedHandle) -> usize
    ensures kept { handle.new.cell.machine ≡ handle.old.cell.machine }
    ensures count { result ≡ own_count handle.old.cell.machine }
{
    let Some(machine) = taken_out(alloc, handle) else {
        return 0;
    };
    let count = machine.pings.len() + machine.due.len();
    put_in(handle, machine);
    count
}

/// How many of them, the first ones, are pings of clients after a second.
#[unsafe(no_mangle)]
pub extern "C" fn ipxr_keyed_pings(alloc: Global, handle: &mut KeyedHandle) -> usize
    ensures kept { handle.new.cell.machine ≡ handle.old.cell.machine }
    ensures count { result ≡ ping_count handle.old.cell.machine }
{
    let Some(machine) = taken_out(alloc, handle) else {
        return 0;
    };
    let count = machine.pings.len();
    put_in(handle, machine);
    count
}

/// Copies a datagram of the tunnel's own.
#[unsafe(no_mangle)]
pub extern "C" fn ipxr_keyed_own(
    alloc: Global,
    handle: &mut KeyedHandle,
    index: usize,
    own: &mut OwnRecord,
) -> i32
    ensures kept { handle.new.cell.machine ≡ handle.old.cell.machine }
    ensures copied { own.new ≡ own_after (own_at handle.old.cell.machine index) own.old }
    ensures code { result ≡ read_code (own_at handle.old.cell.machine index) }
{
    let Some(machine) = taken_out(alloc, handle) else {
        return fault_code(Fault::NoTunnel);
    };
    let found = own_at(&machine.pings, &machine.due, index);
    put_in(handle, machine);
    let Some(datagram) = found else {
        return fault_code(Fault::NoRecord);
    };
    *own = own_record(datagram);
    DONE
}

/// The datagram of that number in both lists, one behind the other.
fn own_at(pings: &[Own], due: &[Own], index: usize) -> Option<Own>
    ensures { result ≡ slice_get (pings.now ++ due.now) index }
{
    if index < pings.len() {
        item_at(pings, index)
    } else {
        item_at(due, index - pings.len())
    }
}

/// How many places get the packet.
#[unsafe(no_mangle)]
pub extern "C" fn ipxr_keyed_receivers(alloc: Global, handle: &mut KeyedHandle) -> usize
    ensures kept { handle.new.cell.machine ≡ handle.old.cell.machine }
    ensures count { result ≡ receiver_count handle.old.cell.machine }
{
    let Some(machine) = taken_out(alloc, handle) else {
        return 0;
    };
    let count = machine.to.len();
    put_in(handle, machine);
    count
}

/// Copies a place that gets the packet.
#[unsafe(no_mangle)]
pub extern "C" fn ipxr_keyed_receiver(
    alloc: Global,
    handle: &mut KeyedHandle,
    index: usize,
    place: &mut [u8; 6],
) -> i32
    ensures kept { handle.new.cell.machine ≡ handle.old.cell.machine }
    ensures copied { place.new ≡ place_after (receiver_at handle.old.cell.machine index) place.old }
    ensures code { result ≡ read_code (receiver_at handle.old.cell.machine index) }
{
    let Some(machine) = taken_out(alloc, handle) else {
        return fault_code(Fault::NoTunnel);
    };
    let found = item_at(&machine.to, index);
    put_in(handle, machine);
    put_place(place, found)
}

/// How many bytes of what was heard are the packet.
#[unsafe(no_mangle)]
pub extern "C" fn ipxr_keyed_carried(alloc: Global, handle: &mut KeyedHandle) -> usize
    ensures kept { handle.new.cell.machine ≡ handle.old.cell.machine }
    ensures size { result ≡ carried_size handle.old.cell.machine }
{
    let Some(machine) = taken_out(alloc, handle) else {
        return 0;
    };
    let size = machine.carried;
    put_in(handle, machine);
    size
}

/// Whether the router hears the packet.
#[unsafe(no_mangle)]
pub extern "C" fn ipxr_keyed_is_heard(alloc: Global, handle: &mut KeyedHandle) -> u8
    ensures kept { handle.new.cell.machine ≡ handle.old.cell.machine }
    ensures heard { result ≡ heard_flag handle.old.cell.machine }
{
    let Some(machine) = taken_out(alloc, handle) else {
        return 0;
    };
    let is_heard = machine.is_heard;
    put_in(handle, machine);
    u8::from(is_heard)
}

/// How many clients left.
#[unsafe(no_mangle)]
pub extern "C" fn ipxr_keyed_leavers(alloc: Global, handle: &mut KeyedHandle) -> usize
    ensures kept { handle.new.cell.machine ≡ handle.old.cell.machine }
    ensures count { result ≡ leaver_count handle.old.cell.machine }
{
    let Some(machine) = taken_out(alloc, handle) else {
        return 0;
    };
    let count = machine.left.len();
    put_in(handle, machine);
    count
}

/// Copies a client that left.
#[unsafe(no_mangle)]
pub extern "C" fn ipxr_keyed_leaver(
    alloc: Global,
    handle: &mut KeyedHandle,
    index: usize,
    member: &mut KeyedMember,
) -> i32
    ensures kept { handle.new.cell.machine ≡ handle.old.cell.machine }
    ensures copied { member.new ≡ member_after (leaver_at handle.old.cell.machine index) member.old }
    ensures code { result ≡ read_code (leaver_at handle.old.cell.machine index) }
{
    let Some(machine) = taken_out(alloc, handle) else {
        return fault_code(Fault::NoTunnel);
    };
    let found = item_at(&machine.left, index);
    put_in(handle, machine);
    put_member(member, found)
}

/// How many clients there are.
#[unsafe(no_mangle)]
pub extern "C" fn ipxr_keyed_clients(alloc: Global, handle: &mut KeyedHandle) -> usize
    ensures kept { handle.new.cell.machine ≡ handle.old.cell.machine }
    ensures count { result ≡ client_count handle.old.cell.machine }
{
    let Some(machine) = taken_out(alloc, handle) else {
        return 0;
    };
    let count = machine.tunnel.clients().len();
    put_in(handle, machine);
    count
}

/// Copies a client.
#[unsafe(no_mangle)]
pub extern "C" fn ipxr_keyed_client(
    alloc: Global,
    handle: &mut KeyedHandle,
    index: usize,
    member: &mut KeyedMember,
) -> i32
    ensures kept { handle.new.cell.machine ≡ handle.old.cell.machine }
    ensures copied { member.new ≡ member_after (client_at handle.old.cell.machine index) member.old }
    ensures code { result ≡ read_code (client_at handle.old.cell.machine index) }
{
    let Some(machine) = taken_out(alloc, handle) else {
        return fault_code(Fault::NoTunnel);
    };
    let found = item_at(machine.tunnel.clients(), index);
    put_in(handle, machine);
    put_member(member, found)
}

/// How many are remembered because they registered.
#[unsafe(no_mangle)]
pub extern "C" fn ipxr_keyed_waiters(alloc: Global, handle: &mut KeyedHandle) -> usize
    ensures kept { handle.new.cell.machine ≡ handle.old.cell.machine }
    ensures count { result ≡ waiter_count handle.old.cell.machine }
{
    let Some(machine) = taken_out(alloc, handle) else {
        return 0;
    };
    let count = machine.tunnel.waiting().len();
    put_in(handle, machine);
    count
}

/// Copies one of them.
#[unsafe(no_mangle)]
pub extern "C" fn ipxr_keyed_waiter(
    alloc: Global,
    handle: &mut KeyedHandle,
    index: usize,
    member: &mut KeyedMember,
) -> i32
    ensures kept { handle.new.cell.machine ≡ handle.old.cell.machine }
    ensures copied { member.new ≡ member_after (waiter_at handle.old.cell.machine index) member.old }
    ensures code { result ≡ read_code (waiter_at handle.old.cell.machine index) }
{
    let Some(machine) = taken_out(alloc, handle) else {
        return fault_code(Fault::NoTunnel);
    };
    let found = item_at(machine.tunnel.waiting(), index);
    put_in(handle, machine);
    put_member(member, found)
}

/// Copies a client that was found, or one who is remembered. Returns the number that C hears.
fn put_member(member: &mut KeyedMember, found: Option<Client>) -> i32
    ensures copied { member.new ≡ member_after (found_or found) member.old }
    ensures code { result ≡ read_code (found_or found) }
{
    let Some(client) = found else {
        return fault_code(Fault::NoRecord);
    };
    *member = member_of(client);
    DONE
}

fn member_of(client: Client) -> KeyedMember
    ensures { result ≡ member_of client }
{
    let place = client.place.0;
    let node = client.node.0;
    KeyedMember {
        place,
        node,
        seconds_left: client.seconds_left,
    }
}
