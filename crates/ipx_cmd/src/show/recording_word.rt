//! The line of the fault that ends a recording.
ghost use Rattle.std.specs.Prelude.{◌≡◌, ◌++◌, OnOk, ◌+◌, ◌<◌, ◌≤◌, length, OnErr};
ghost use Rattle.std.specs.Vec.{vec_capacity};
ghost use Rattle.ipx_cmd.specs.RecordedText.{recording_fault_text, recording_word};

use crate::texts::text::put_decimal;
use ipx_recording::RecordingFault;
use std::alloc::AllocError;

/// Appends the line of the fault that ends a recording: at the record of this number, or at the first section's header with 0.
///
/// An error is out of memory.
#[tactic(auto, unfolding(crate::specs::RecordedText::recording_fault_text))]
pub(crate) fn recording_fault_line(
    text: &mut Vec<u8>,
    number: u64,
    fault: RecordingFault,
) -> Result<(), AllocError>
    ensures text { OnOk result (text.new.items ≡ text.old.items ++ recording_fault_text number fault) }
    ensures room { OnErr result (vec_capacity text.old < length text.old.items + length (recording_fault_text number fault)) }
    ensures kept { vec_capacity text.old ≤ vec_capacity text.new }
{
    text.extend_from_slice(b"record ")?;
    put_decimal(text, number)?;
    text.extend_from_slice(b": ")?;
    text.extend_from_slice(word(fault).as_bytes())?;
    text.extend_from_slice(b"\n")
}

/// A fault of a recording as one word.
fn word(fault: RecordingFault) -> &'static str
    ensures { result.now ≡ recording_word fault }
{
    match fault {
        RecordingFault::CutHeader => "CutHeader",
        RecordingFault::Magic => "Magic",
        RecordingFault::Version => "Version",
        RecordingFault::BlockLength => "BlockLength",
        RecordingFault::NoInterface => "NoInterface",
        RecordingFault::ManyInterfaces => "ManyInterfaces",
        RecordingFault::RecordLong => "RecordLong",
        RecordingFault::LengthAgain => "LengthAgain",
        RecordingFault::CutBlock => "CutBlock",
    }
}
