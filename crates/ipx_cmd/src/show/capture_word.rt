//! The line of the fault that ends a capture.
ghost use Rattle.std.specs.Prelude.{◌≡◌, ◌++◌, OnOk, ◌+◌, ◌<◌, ◌≤◌, length, OnErr};
ghost use Rattle.std.specs.Vec.{vec_capacity};
ghost use Rattle.ipx_cmd.specs.CaptureWord.{capture_word};
ghost use Rattle.ipx_cmd.specs.Shown.{capture_fault_text};

use crate::texts::text::put_decimal;
use ipx_capture::CaptureFault;
use std::alloc::AllocError;

/// Appends the line of the fault that ends a capture: at the record of this number, or at the header with 0.
///
/// An error is out of memory.
#[tactic(auto, unfolding(crate::specs::Shown::capture_fault_text))]
pub(crate) fn fault_line(
    text: &mut Vec<u8>,
    number: u64,
    fault: CaptureFault,
) -> Result<(), AllocError>
    ensures text { OnOk result (text.new.items ≡ text.old.items ++ capture_fault_text number fault) }
    ensures room { OnErr result (vec_capacity text.old < length text.old.items + length (capture_fault_text number fault)) }
    ensures kept { vec_capacity text.old ≤ vec_capacity text.new }
{
    text.extend_from_slice(b"record ")?;
    put_decimal(text, number)?;
    text.extend_from_slice(b": ")?;
    text.extend_from_slice(word(fault).as_bytes())?;
    text.extend_from_slice(b"\n")
}

/// A fault of a capture file as one word.
fn word(fault: CaptureFault) -> &'static str
    ensures { result.now ≡ capture_word fault }
{
    match fault {
        CaptureFault::CutHeader => "CutHeader",
        CaptureFault::Magic => "Magic",
        CaptureFault::Version => "Version",
        CaptureFault::Link => "Link",
        CaptureFault::RecordLong => "RecordLong",
        CaptureFault::CutRecord => "CutRecord",
        CaptureFault::Read => "Read",
        CaptureFault::Memory => "Memory",
    }
}
