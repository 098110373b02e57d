//! The line of a service, put together from the bytes of its entry: to read the entry first would copy its name and its node.
ghost use Rattle.std.specs.Prelude.{◌≡◌, ◌+◌, ◌==◌, ◌<◌, ◌≤◌, ◌++◌, length, take};
ghost use Rattle.std.specs.Int.{from_be_bytes, w16};
ghost use Rattle.std.specs.List.{position_or_len};
ghost use Rattle.ipx_wire.specs.Address.{address_at};
ghost use Rattle.ipx_wire.specs.Piece.{piece};
ghost use Rattle.ipx_wire.specs.SapEntries.{sap_entry_at};
ghost use Rattle.ipx_cmd.specs.SapText.{service_entry_text};
ghost use Rattle.ipx_cmd.specs.ServiceWords.{offered_words};

use crate::texts::put::{
    number_at, put_hex, put_hex_16, put_hex_32, put_name, put_number, put_text,
};
use crate::texts::service_words::LONGEST_OFFERED;
use ipx_wire::ServiceName;

/// How many bytes the line of an entry has at most.
pub(crate) const LONGEST_ENTRY: usize = 188;

/// Where the name of an entry stands.
const NAME: usize = 2;

/// Where its address stands, and behind that its hops.
const ADDRESS: usize = 50;

/// Puts the line of a service by the bytes of its entry.
pub(crate) fn put_service_line(room: &mut [u8], at: usize, entry: &[u8]) -> usize
    requires room { at + LONGEST_ENTRY ≤ length room.old }
    requires whole { 64 ≤ length entry.now }
    ensures room { take result room.new ≡ take at room.old ++ service_entry_text (sap_entry_at entry.now) }
    ensures most { result ≤ at + LONGEST_ENTRY }
    ensures size { length room.new ≡ length room.old }
{
    let field = &entry[NAME..ADDRESS];
    let count = before_zero(field);
    if count == 0 || count == ServiceName::SIZE {
        return put_text(room, at, b"service bad\n");
    }
    let at = put_text(room, at, b"service ");
    let at = put_hex_16(room, at, &entry[..NAME]);
    let at = put_text(room, at, b" ");
    let at = put_name(room, at, &field[..count]);
    let (_, offered) = entry.split_at(ADDRESS);
    let at = put_offered(room, at, offered);
    put_text(room, at, b"\n")
}

/// Puts where a service is offered, and how far away.
#[tactic(auto, unfolding(crate::specs::ServiceWords::offered_words, ipx_wire::specs::Address::address_at))]
#[inline(always)]
fn put_offered(room: &mut [u8], at: usize, bytes: &[u8]) -> usize
    requires room { at + LONGEST_OFFERED ≤ length room.old }
    requires whole { 14 ≤ length bytes.now }
    ensures room { take result room.new ≡ take at room.old ++ offered_words (address_at bytes.now 0) (from_be_bytes w16 (piece bytes.now 12 2)) }
    ensures most { result ≤ at + LONGEST_OFFERED }
    ensures size { length room.new ≡ length room.old }
{
    let at = put_text(room, at, b" ");
    let at = put_hex_32(room, at, &bytes[..4]);
    let at = put_text(room, at, b" ");
    let at = put_hex(room, at, &bytes[4..10]);
    let at = put_text(room, at, b" ");
    let at = put_hex_16(room, at, &bytes[10..12]);
    let at = put_text(room, at, b" ");
    put_number(room, at, number_at(bytes, 12))
}

/// How many bytes stand before the first zero; all of them, where there is none.
#[inline(always)]
fn before_zero(bytes: &[u8]) -> usize
    ensures { result ≡ position_or_len (λ byte. byte == 0) bytes.now }
{
    bytes
        .iter()
        .position(|byte| *byte == 0)
        .unwrap_or(bytes.len())
}
