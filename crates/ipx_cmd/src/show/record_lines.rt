//! The lines of a record: what its frame carries, or why it shows no packet.
ghost use Rattle.std.specs.Prelude.{◌≡◌, ◌++◌, OnOk, [], codes, ◌+◌, ◌<◌, ◌≤◌, ℕ, decimal, length, OnErr};
ghost use Rattle.std.specs.Vec.{vec_capacity};
ghost use Rattle.ipx_capture.specs.Framed.{framed};
ghost use Rattle.ipx_capture.specs.Place.{record_of};
ghost use Rattle.ipx_wire.specs.Packet.{packet_of};
ghost use Rattle.ipx_cmd.specs.PacketText.{packet_text};
ghost use Rattle.ipx_recording.specs.Carried.{carried_by};
ghost use Rattle.ipx_cmd.specs.RecordText.{frame_text, record_text};
ghost use Rattle.ipx_cmd.specs.RecordedText.{carried_text, recorded_text};

use crate::show::packet_lines::put_packet;
use crate::texts::draft::Draft;
use ipx_capture::{Captured, Frame, frame};
use ipx_recording::{Carried, carried};
use std::alloc::AllocError;

/// How many bytes the number of a record has at most, with its word.
const LONGEST_RECORD: usize = 28;

/// How many bytes the word of a frame's kind has at most.
const LONGEST_KIND: usize = 10;

/// Appends the lines of a record, put together in a draft whose text is given up.
///
/// An error is out of memory.
pub(crate) fn record_lines(
    text: &mut Vec<u8>,
    draft: &mut Draft,
    captured: Captured<'_>,
) -> Result<(), AllocError>
    ensures text { OnOk result (text.new.items ≡ text.old.items ++ record_text (record_of captured.entry)) }
    ensures room { OnErr result (vec_capacity text.old < length text.old.items + length (record_text (record_of captured.entry))) }
    ensures kept { vec_capacity text.old ≤ vec_capacity text.new }
{
    draft.clear();
    put_record(draft, captured);
    append(text, draft)
}

#[tactic(auto, unfolding(crate::specs::RecordText::record_text))]
fn put_record(draft: &mut Draft, captured: Captured<'_>)
    requires { draft.old ≡ [] }
    ensures { draft.new ≡ record_text (record_of captured.entry) }
{
    let Captured { number, bytes, .. } = captured;
    draft.put(b"record ");
    draft.put_count(number);
    draft.put(b" ");
    put_frame(draft, frame(bytes));
}

/// Appends the lines of a packet of a recording, put together in a draft whose text is given up.
///
/// An error is out of memory.
#[tactic(auto, unfolding(crate::specs::RecordedText::recorded_text))]
pub(crate) fn recorded_lines(
    text: &mut Vec<u8>,
    draft: &mut Draft,
    number: u64,
    link: u16,
    bytes: &[u8],
) -> Result<(), AllocError>
    ensures text { OnOk result ((wire : ℕ) → text.new.items ≡ text.old.items ++ recorded_text (record { number = number; link = link; wire = wire; bytes = bytes.now })) }
    ensures room { OnErr result ((wire : ℕ) → vec_capacity text.old < length text.old.items + length (recorded_text (record { number = number; link = link; wire = wire; bytes = bytes.now }))) }
    ensures kept { vec_capacity text.old ≤ vec_capacity text.new }
{
    draft.clear();
    put_recorded(draft, number, carried(link, bytes));
    append(text, draft)
}

/// Appends the text of a draft.
fn append(text: &mut Vec<u8>, draft: &Draft) -> Result<(), AllocError>
    ensures text { OnOk result (text.new.items ≡ text.old.items ++ draft.now) }
    ensures room { OnErr result (vec_capacity text.old < length text.old.items + length draft.now) }
    ensures kept { vec_capacity text.old ≤ vec_capacity text.new }
{
    text.extend_from_slice(draft.text())
}

fn put_recorded(draft: &mut Draft, number: u64, carried: Carried<'_>)
    requires { draft.old ≡ [] }
    ensures { draft.new ≡ codes "record " ++ decimal number ++ codes " " ++ carried_text (carried_by carried.entry) }
{
    draft.put(b"record ");
    draft.put_count(number);
    draft.put(b" ");
    put_carrier(draft, carried);
}

#[tactic(auto, unfolding(crate::specs::RecordText::frame_text, crate::specs::RecordedText::carried_text))]
fn put_carrier(draft: &mut Draft, carried: Carried<'_>)
    requires { length draft.old ≤ LONGEST_RECORD }
    ensures { draft.new ≡ draft.old ++ carried_text (carried_by carried.entry) }
{
    match carried {
        Carried::Framed(frame) => put_frame(draft, frame),
        Carried::Ppp(packet) => put_carried(draft, "Ppp", packet),
        Carried::Udp(packet) => put_carried(draft, "Udp", packet),
    }
}

#[tactic(auto, unfolding(crate::specs::RecordText::frame_text))]
fn put_frame(draft: &mut Draft, frame: Frame<'_>)
    requires { length draft.old ≤ LONGEST_RECORD }
    ensures { draft.new ≡ draft.old ++ frame_text (framed frame.entry) }
{
    match frame {
        Frame::EthernetII(packet) => put_carried(draft, "EthernetII", packet),
        Frame::Raw(packet) => put_carried(draft, "Raw", packet),
        Frame::Llc(packet) => put_carried(draft, "Llc", packet),
        Frame::Snap(packet) => put_carried(draft, "Snap", packet),
        Frame::Other => draft.put(b"Other\n"),
    }
}

/// Puts the word of the frame's kind, and the lines of what it carries.
#[inline(always)]
fn put_carried(draft: &mut Draft, kind: &str, packet: &[u8])
    requires before { length draft.old ≤ LONGEST_RECORD }
    requires word { length kind.now ≤ LONGEST_KIND }
    ensures { draft.new ≡ draft.old ++ kind.now ++ codes " " ++ packet_text (packet_of packet.now) }
{
    draft.put(kind.as_bytes());
    draft.put(b" ");
    put_packet(draft, packet);
}
