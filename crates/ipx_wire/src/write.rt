//! Packets of routing information, and queries for services, written whole to the beginning of a slice.
ghost use Rattle.std.specs.Prelude.{◌≡◌, ◌+◌, ◌*◌, ◌^◌, ◌<◌, ◌≤◌, ◌++◌, length, drop};
ghost use Rattle.std.specs.Int.{to_be_bytes, w64};
ghost use Rattle.std.specs.List.{flat_map};
ghost use Rattle.ipx_wire.specs.Numbers.{most_entries};
ghost use Rattle.ipx_wire.specs.Packet.{IsPacket};
ghost use Rattle.ipx_wire.specs.Put.{PutsAt};
ghost use Rattle.ipx_wire.specs.Rip.{entry_bytes};
ghost use Rattle.ipx_wire.specs.Write.{own_header, rip_packet, rip_packet_parts, query_packet, query_packet_parts};

use crate::address::Address;
use crate::fields::put_u16;
use crate::header::Header;
use crate::rip::{Operation, RipEntry};
use byteorder::{BigEndian, ByteOrder};

/// Writes a routing information packet of 1 to 50 entries to the beginning of `out`, and returns its number of bytes: 32, and 8
/// for each entry. `out` has room for as many.
///
/// In the header the type is 1, the checksum FFFFh and the transport control 0.
pub fn write_rip(
    from: Address,
    to: Address,
    operation: Operation,
    entries: &[RipEntry],
    out: &mut [u8],
) -> usize
    requires some { 1 ≤ length entries.now }
    requires most { length entries.now ≤ most_entries }
    requires room { 32 + 8 * length entries.now ≤ length out.old }
    ensures count { result ≡ 32 + 8 * length entries.now }
    ensures bytes { out.new ≡ rip_packet from to operation entries.now ++ drop (32 + 8 * length entries.now) out.old }
    ensures size { length (rip_packet from to operation entries.now) ≡ 32 + 8 * length entries.now }
    // What was written is a packet.
    ensures packet { IsPacket (rip_packet from to operation entries.now) (rip_packet_parts from to operation entries.now) }
{
    let size = 2 + RipEntry::SIZE * entries.len();
    own(Header::RIP, from, to, size as u16).write(out);
    put_u16(out, Header::SIZE, operation.number());
    put_entries(out, Header::SIZE + 2, entries);
    Header::SIZE + size
}

/// Writes a query for services of a type, all or the nearest, to the beginning of `out`, and returns its number of bytes, which
/// is 34. `out` has room for as many.
///
/// In the header the type is 4, the checksum FFFFh and the transport control 0. A `kind` of FFFFh stands for every
/// type.
pub fn write_query(from: Address, to: Address, nearest: bool, kind: u16, out: &mut [u8]) -> usize
    requires { 34 ≤ length out.old }
    ensures count { result ≡ 34 }
    ensures bytes { out.new ≡ query_packet from to nearest kind ++ drop 34 out.old }
    ensures size { length (query_packet from to nearest kind) ≡ 34 }
    // What was written is a packet.
    ensures packet { IsPacket (query_packet from to nearest kind) (query_packet_parts from to nearest kind) }
{
    let operation = if nearest { 3 } else { 1 };
    own(Header::SAP, from, to, 4).write(out);
    put_u16(out, Header::SIZE, operation);
    put_u16(out, Header::SIZE + 2, kind);
    Header::SIZE + 4
}

/// The header of a router's own packet with `size` bytes of data.
pub fn own(kind: u8, from: Address, to: Address, size: u16) -> Header
    requires { size < 2 ^ 15 }
    ensures { result ≡ own_header kind from to size }
{
    Header {
        checksum: Header::NO_CHECKSUM,
        length: 30 + size,
        control: 0,
        kind,
        destination: to,
        source: from,
    }
}

fn put_entries(out: &mut [u8], place: usize, entries: &[RipEntry])
    requires { place + 8 * length entries.now ≤ length out.old }
    ensures { PutsAt out.old place (flat_map entry_bytes entries.now) out.new }
{
    let mut next = place;
    for entry in entries {
        put_entry(out, next, *entry);
        next += RipEntry::SIZE;
    }
}

// (one store of eight bytes: three of fewer bytes take longer)
fn put_entry(out: &mut [u8], place: usize, entry: RipEntry)
    requires { place + 8 ≤ length out.old }
    ensures { PutsAt out.old place (entry_bytes entry) out.new }
{
    BigEndian::write_u64(&mut out[place..place + 8], number_of(entry));
}

/// The eight bytes of an entry as one number.
fn number_of(entry: RipEntry) -> u64
    ensures { to_be_bytes w64 result ≡ entry_bytes entry }
{
    (u64::from(entry.network.0) << 16 | u64::from(entry.hops)) << 16 | u64::from(entry.ticks)
}
