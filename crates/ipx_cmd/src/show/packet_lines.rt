//! The line of a packet's header, and which lines of its data follow.
ghost use Rattle.std.specs.Prelude.{◌≡◌, ◌++◌, ◌+◌, ◌≤◌, length, take};
ghost use Rattle.ipx_wire.specs.Header.{header_at};
ghost use Rattle.ipx_wire.specs.Packet.{packet_of};
ghost use Rattle.ipx_cmd.specs.PacketText.{counts_text, data_text, ends_text, header_text, packet_text};
ghost use Rattle.ipx_router.specs.WhyWord.{packet_word};

use crate::show::crossed_line::put_crossed;
use crate::show::rip_lines::put_rip;
use crate::show::sap_lines::put_sap;
use crate::texts::draft::{Draft, HEAD};
use crate::texts::put::{number_at, put_address, put_number, put_text};
use ipx_wire::{Header, Packet, PacketFault, Socket};

/// Where the length of a packet stands.
const LENGTH: usize = 2;

/// Where its transport control stands.
const CONTROL: usize = 4;

/// Where its type stands.
const KIND: usize = 5;

/// Where its destination stands.
const DESTINATION: usize = 6;

/// Where its source stands.
const SOURCE: usize = 18;

/// How many bytes source and destination have.
const ENDS: usize = 53;

/// How many bytes the numbers of a header have at most, with their words.
const LONGEST_COUNTS: usize = 34;

/// How many bytes the line of a header has at most.
pub(crate) const LONGEST_HEADER: usize = 87;

/// Puts the lines of the packet that the bytes are, behind the words of its record; or why they are none.
#[tactic(auto, unfolding(crate::specs::PacketText::packet_text))]
pub(crate) fn put_packet(draft: &mut Draft, bytes: &[u8])
    requires { length draft.old + LONGEST_HEADER ≤ HEAD }
    ensures { draft.new ≡ draft.old ++ packet_text (packet_of bytes.now) }
{
    match Packet::read(bytes) {
        Ok(packet) => {
            let header = packet.header();
            draft.count = put_header(&mut draft.bytes, draft.count, bytes);
            put_data(draft, &header, packet.payload());
        }
        Err(fault) => {
            draft.put(b"bad ");
            draft.put(word(fault).as_bytes());
            draft.put(b"\n");
        }
    }
}

/// Puts the line of the header that stands at the front of bytes.
#[inline(always)]
#[tactic(auto, unfolding(crate::specs::PacketText::header_text))]
fn put_header(room: &mut [u8], at: usize, bytes: &[u8]) -> usize
    requires room { at + LONGEST_HEADER ≤ length room.old }
    requires whole { 30 ≤ length bytes.now }
    ensures room { take result room.new ≡ take at room.old ++ header_text (header_at bytes.now) }
    ensures most { result ≤ at + LONGEST_HEADER }
    ensures size { length room.new ≡ length room.old }
{
    let at = put_ends(room, at, bytes);
    put_counts(room, at, bytes)
}

/// Puts source and destination.
#[inline(always)]
fn put_ends(room: &mut [u8], at: usize, bytes: &[u8]) -> usize
    requires room { at + ENDS ≤ length room.old }
    requires whole { 30 ≤ length bytes.now }
    ensures room { take result room.new ≡ take at room.old ++ ends_text (header_at bytes.now) }
    ensures end { result ≡ at + ENDS }
    ensures size { length room.new ≡ length room.old }
{
    let (_, source) = bytes.split_at(SOURCE);
    let (_, destination) = bytes.split_at(DESTINATION);
    let at = put_address(room, at, source);
    let at = put_text(room, at, b" ");
    put_address(room, at, destination)
}

/// Puts the numbers of the header, and ends the line.
#[inline(always)]
#[tactic(auto, unfolding(crate::specs::PacketText::counts_text, ipx_wire::specs::Header::header_at))]
fn put_counts(room: &mut [u8], at: usize, bytes: &[u8]) -> usize
    requires room { at + LONGEST_COUNTS ≤ length room.old }
    requires whole { 30 ≤ length bytes.now }
    ensures room { take result room.new ≡ take at room.old ++ counts_text (header_at bytes.now) }
    ensures most { result ≤ at + LONGEST_COUNTS }
    ensures size { length room.new ≡ length room.old }
{
    let at = put_text(room, at, b" tc ");
    let at = put_number(room, at, u16::from(bytes[CONTROL]));
    let at = put_text(room, at, b" type ");
    let at = put_number(room, at, u16::from(bytes[KIND]));
    let at = put_text(room, at, b" length ");
    let at = put_number(room, at, number_at(bytes, LENGTH));
    put_text(room, at, b"\n")
}

/// Puts the lines of a packet's data: what they are is told by the type, then by the sockets.
#[tactic(auto, unfolding(crate::specs::PacketText::data_text))]
fn put_data(draft: &mut Draft, header: &Header, payload: &[u8])
    requires { length draft.old ≤ HEAD }
    ensures { draft.new ≡ draft.old ++ data_text header.now payload.now }
{
    if header.kind == Header::PROPAGATED {
        return put_crossed(draft, header.control, payload);
    }
    if header.destination.socket == Socket::RIP {
        return put_rip(draft, payload);
    }
    if header.destination.socket == Socket::SAP {
        return put_sap(draft, payload);
    }
    if header.source.socket == Socket::RIP {
        return put_rip(draft, payload);
    }
    if header.source.socket == Socket::SAP {
        put_sap(draft, payload);
    }
}

fn word(fault: PacketFault) -> &'static str
    ensures word { result.now ≡ packet_word fault }
    ensures most { length result.now ≤ 12 }
{
    match fault {
        PacketFault::Short => "Short",
        PacketFault::LengthSmall => "LengthSmall",
        PacketFault::LengthBeyond => "LengthBeyond",
    }
}
