//! What C reads of a tunnel: what came of its last event, and its clients.
ghost use Rattle.std.specs.Prelude.{◌≡◌};
ghost use Rattle.ipx_c.specs.Reads.{read_code};
ghost use Rattle.ipx_c.specs.TunnelReads.{found_or, own_count, own_at, own_after, receiver_count, receiver_at, carried_size, heard_flag, leaver_count, leaver_at, place_after, client_count, client_at, client_after};
ghost use Rattle.ipx_c.specs.TunnelValues.{own_record, client_record};

use crate::code::{DONE, fault_code};
use crate::fault::Fault;
use crate::handle::{TunnelHandle, put_in, taken_out};
use crate::item::item_at;
use crate::tunnel_values::{ClientRecord, OwnRecord};
use ipx_tunnel::{Client, Own};
use ipx_wire::Node;
use std::alloc::Global;

/// How many datagrams of the tunnel's own are to be sent.
#[unsafe(no_mangle)]
pub extern "C" fn ipxr_tunnel_owns(alloc: Global, handle: &mut TunnelHandle) -> usize
    ensures kept { handle.new.cell.machine ≡ handle.old.cell.machine }
    ensures count { result ≡ own_count handle.old.cell.machine }
{
    let Some(machine) = taken_out(alloc, handle) else {
        return 0;
    };
    let count = machine.own.len();
    put_in(handle, machine);
    count
}

/// Copies a datagram of the tunnel's own.
#[unsafe(no_mangle)]
pub extern "C" fn ipxr_tunnel_own(
    alloc: Global,
    handle: &mut TunnelHandle,
    index: usize,
    own: &mut OwnRecord,
) -> i32
    ensures kept { handle.new.cell.machine ≡ handle.old.cell.machine }
    ensures copied { own.new ≡ own_after (own_at handle.old.cell.machine index) own.old }
    ensures code { result ≡ read_code (own_at handle.old.cell.machine index) }
{
    let Some(machine) = taken_out(alloc, handle) else {
        return fault_code(Fault::NoTunnel);
    };
    let found = item_at(&machine.own, index);
    put_in(handle, machine);
    let Some(datagram) = found else {
        return fault_code(Fault::NoRecord);
    };
    *own = own_record(datagram);
    DONE
}

/// How many places get the packet.
#[unsafe(no_mangle)]
pub extern "C" fn ipxr_tunnel_receivers(alloc: Global, handle: &mut TunnelHandle) -> usize
    ensures kept { handle.new.cell.machine ≡ handle.old.cell.machine }
    ensures count { result ≡ receiver_count handle.old.cell.machine }
{
    let Some(machine) = taken_out(alloc, handle) else {
        return 0;
    };
    let count = machine.to.len();
    put_in(handle, machine);
    count
}

/// Copies a place that gets the packet.
#[unsafe(no_mangle)]
pub extern "C" fn ipxr_tunnel_receiver(
    alloc: Global,
    handle: &mut TunnelHandle,
    index: usize,
    place: &mut [u8; 6],
) -> i32
    ensures kept { handle.new.cell.machine ≡ handle.old.cell.machine }
    ensures copied { place.new ≡ place_after (receiver_at handle.old.cell.machine index) place.old }
    ensures code { result ≡ read_code (receiver_at handle.old.cell.machine index) }
{
    let Some(machine) = taken_out(alloc, handle) else {
        return fault_code(Fault::NoTunnel);
    };
    let found = item_at(&machine.to, index);
    put_in(handle, machine);
    put_place(place, found)
}

/// How many bytes of what was heard are the packet.
#[unsafe(no_mangle)]
pub extern "C" fn ipxr_tunnel_carried(alloc: Global, handle: &mut TunnelHandle) -> usize
    ensures kept { handle.new.cell.machine ≡ handle.old.cell.machine }
    ensures size { result ≡ carried_size handle.old.cell.machine }
{
    let Some(machine) = taken_out(alloc, handle) else {
        return 0;
    };
    let size = machine.carried;
    put_in(handle, machine);
    size
}

/// Whether the router hears the packet.
#[unsafe(no_mangle)]
pub extern "C" fn ipxr_tunnel_is_heard(alloc: Global, handle: &mut TunnelHandle) -> u8
    ensures kept { handle.new.cell.machine ≡ handle.old.cell.machine }
    ensures heard { result ≡ heard_flag handle.old.cell.machine }
{
    let Some(machine) = taken_out(alloc, handle) else {
        return 0;
    };
    let is_heard = machine.is_heard;
    put_in(handle, machine);
    u8::from(is_heard)
}

/// How many clients left.
#[unsafe(no_mangle)]
pub extern "C" fn ipxr_tunnel_leavers(alloc: Global, handle: &mut TunnelHandle) -> usize
    ensures kept { handle.new.cell.machine ≡ handle.old.cell.machine }
    ensures count { result ≡ leaver_count handle.old.cell.machine }
{
    let Some(machine) = taken_out(alloc, handle) else {
        return 0;
    };
    let count = machine.left.len();
    put_in(handle, machine);
    count
}

/// Copies the place of a client that left.
#[unsafe(no_mangle)]
pub extern "C" fn ipxr_tunnel_leaver(
    alloc: Global,
    handle: &mut TunnelHandle,
    index: usize,
    place: &mut [u8; 6],
) -> i32
    ensures kept { handle.new.cell.machine ≡ handle.old.cell.machine }
    ensures copied { place.new ≡ place_after (leaver_at handle.old.cell.machine index) place.old }
    ensures code { result ≡ read_code (leaver_at handle.old.cell.machine index) }
{
    let Some(machine) = taken_out(alloc, handle) else {
        return fault_code(Fault::NoTunnel);
    };
    let found = item_at(&machine.left, index);
    put_in(handle, machine);
    put_place(place, found)
}

/// How many clients there are.
#[unsafe(no_mangle)]
pub extern "C" fn ipxr_tunnel_clients(alloc: Global, handle: &mut TunnelHandle) -> usize
    ensures kept { handle.new.cell.machine ≡ handle.old.cell.machine }
    ensures count { result ≡ client_count handle.old.cell.machine }
{
    let Some(machine) = taken_out(alloc, handle) else {
        return 0;
    };
    let count = machine.tunnel.clients().len();
    put_in(handle, machine);
    count
}

/// Copies a client.
#[unsafe(no_mangle)]
pub extern "C" fn ipxr_tunnel_client(
    alloc: Global,
    handle: &mut TunnelHandle,
    index: usize,
    client: &mut ClientRecord,
) -> i32
    ensures kept { handle.new.cell.machine ≡ handle.old.cell.machine }
    ensures copied { client.new ≡ client_after (client_at handle.old.cell.machine index) client.old }
    ensures code { result ≡ read_code (client_at handle.old.cell.machine index) }
{
    let Some(machine) = taken_out(alloc, handle) else {
        return fault_code(Fault::NoTunnel);
    };
    let found = item_at(machine.tunnel.clients(), index);
    put_in(handle, machine);
    let Some(one) = found else {
        return fault_code(Fault::NoRecord);
    };
    *client = client_record(one);
    DONE
}

/// Copies a place that was found. Returns the number that C hears.
pub(crate) fn put_place(place: &mut [u8; 6], found: Option<Node>) -> i32
    ensures copied { place.new ≡ place_after (found_or found) place.old }
    ensures code { result ≡ read_code (found_or found) }
{
    let Some(node) = found else {
        return fault_code(Fault::NoRecord);
    };
    let bytes = node.0;
    *place = bytes;
    DONE
}

pub(crate) fn own_record(datagram: Own) -> OwnRecord
    ensures { result ≡ own_record datagram }
{
    let place = datagram.place.0;
    let bytes = datagram.bytes();
    OwnRecord { place, bytes }
}

fn client_record(client: Client) -> ClientRecord
    ensures { result ≡ client_record client }
{
    let place = client.place.0;
    ClientRecord {
        place,
        seconds_left: client.seconds_left,
    }
}
