//! A run of `decode`: records are read one by one, and their text is written in large pieces, but always before the reader is
//! asked again.
ghost use Rattle.std.specs.Prelude.{◌≡◌, [], false, IfErr, IfOk, OnErr, OnOk};
ghost use Rattle.ipx_wire.specs.Ends.{Input};
ghost use Rattle.ipx_capture.specs.Place.{Opened, keeps, place};
ghost use Rattle.ipx_cmd.specs.Decoded.{CutOff, Decoded};
ghost use Rattle.ipx_recording.specs.Recorded as spec;
ghost use Rattle.ipx_cmd.specs.inside.Moved.{Moved, Refuses, Tells};
ghost use Rattle.ipx_cmd.specs.inside.Recording.{HasRead};
ghost use Rattle.ipx_cmd.specs.WroteFront.{IsFaultOf, WroteFront};

use crate::ended::{Ended, RunFault};
use crate::show::capture_word::fault_line;
use crate::show::record_lines::record_lines;
use crate::show::recording::show_recording;
use crate::texts::draft::Draft;
use crate::texts::flushing::{LARGE, flush};
use ipx_capture::{Capture, CaptureFault, HEADER_SIZE, Window, file_order, read_front};
use ipx_recording::is_recording;
use ipx_wire::{Intake, Outlet};
use std::alloc::Global;
use std::io::{Read, Write};

/// Shows the records of a capture file: reads it from the intake, and writes its text to the outlet.
///
/// `BadInput` if the file has a fault, as the last line of the text says. After a fault of the run what was written
/// is a prefix of the text.
pub fn decode<R: Read, W: Write>(
    alloc: Global,
    intake: &mut Intake<R>,
    outlet: &mut Outlet<W>,
) -> Result<Ended, RunFault>
    requires intake { intake.old.failed ≡ false }
    requires outlet { outlet.old.failed ≡ false }
    ensures ok { IfOk result (Decoded intake.old intake.new outlet.old outlet.new) }
    ensures err { OnErr result (CutOff intake.old intake.new outlet.old outlet.new) }
    ensures fault { IfErr result (IsFaultOf intake.new.failed outlet.new.failed) }
{
    let mut header = [0; HEADER_SIZE];
    let Ok(count) = read_front(intake, &mut header) else {
        return Err(RunFault::Read);
    };
    let (front, _) = header.split_at(count);
    if is_recording(front) {
        return show_recording(alloc, front, intake, outlet);
    }
    show_capture(alloc, front, intake, outlet)
}

/// Shows the records of a capture that begins with bytes which have been read.
fn show_capture<R: Read, W: Write>(
    alloc: Global,
    front: &[u8],
    intake: &mut Intake<R>,
    outlet: &mut Outlet<W>,
) -> Result<Ended, RunFault>
    requires front { (before : Input) × HasRead before intake.old front.now }
    requires capture { spec.is_recording front.now ≡ false }
    requires intake { intake.old.failed ≡ false }
    requires outlet { outlet.old.failed ≡ false }
    ensures ok { IfOk result (λ ended. (before : Input) → HasRead before intake.old front.now → Decoded before intake.new outlet.old outlet.new ended) }
    ensures err { OnErr result ((before : Input) → HasRead before intake.old front.now → CutOff before intake.new outlet.old outlet.new) }
    ensures fault { IfErr result (IsFaultOf intake.new.failed outlet.new.failed) }
{
    let mut text = Vec::new(alloc);
    match file_order(front) {
        Ok(order) => {
            let window = Window::new(alloc)?;
            let mut capture = Capture::begun(intake, order, window);
            let answer = show_records(&mut capture, &mut text, outlet);
            let _intake = capture.into_inner();
            answer
        }
        Err(fault) => refused(&mut text, outlet, 0, fault),
    }
}

/// Shows the records behind the header.
fn show_records<R: Read, W: Write>(
    capture: &mut Capture<'_, R>,
    text: &mut Vec<u8>,
    outlet: &mut Outlet<W>,
) -> Result<Ended, RunFault>
    requires text { text.old.items ≡ [] }
    requires capture { (before : Input) × Opened before (place capture.old) }
    requires outlet { outlet.old.failed ≡ false }
    ensures same_reference { keeps capture.new ≡ keeps capture.old }
    ensures ok { IfOk result (λ ended. (before : Input) → Opened before (place capture.old) → Decoded before (place capture.new).input outlet.old outlet.new ended) }
    ensures err { OnErr result ((before : Input) → Opened before (place capture.old) → CutOff before (place capture.new).input outlet.old outlet.new) }
    ensures fault { IfErr result (IsFaultOf (place capture.new).input.failed outlet.new.failed) }
{
    let mut shown = 0;
    let mut draft = Draft::new();
    loop {
        write_some(capture.is_ready(), text, outlet)?;
        match capture.next() {
            Ok(Some(captured)) => {
                record_lines(text, &mut draft, captured)?;
                shown = captured.number;
            }
            Ok(None) => {
                flush(text, outlet)?;
                return Ok(Ended::Done);
            }
            Err(fault) => return refused(text, outlet, shown + 1, fault),
        }
    }
}

/// Writes the text where much has gathered, or where the reader will be asked next.
fn write_some<W: Write>(
    is_ready: bool,
    text: &mut Vec<u8>,
    outlet: &mut Outlet<W>,
) -> Result<(), RunFault>
    requires { outlet.old.failed ≡ false }
    ensures ok { OnOk result (Moved outlet.old outlet.new text.old.items text.new.items) }
    ensures err { OnErr result (WroteFront outlet.old outlet.new text.old.items) }
    ensures fault { IfErr result (IsFaultOf false outlet.new.failed) }
{
    if is_ready && text.len() < LARGE {
        return Ok(());
    }
    flush(text, outlet)
}

/// Ends a run at a fault of its capture.
fn refused<W: Write>(
    text: &mut Vec<u8>,
    outlet: &mut Outlet<W>,
    number: u64,
    fault: CaptureFault,
) -> Result<Ended, RunFault>
    requires { outlet.old.failed ≡ false }
    ensures { Refuses fault number outlet.old outlet.new text.old.items result }
{
    match fault {
        CaptureFault::Read => Err(RunFault::Read),
        CaptureFault::Memory => Err(RunFault::Memory),
        _ => tell(text, outlet, number, fault),
    }
}

/// Writes the text and the line of the fault behind it.
fn tell<W: Write>(
    text: &mut Vec<u8>,
    outlet: &mut Outlet<W>,
    number: u64,
    fault: CaptureFault,
) -> Result<Ended, RunFault>
    requires { outlet.old.failed ≡ false }
    ensures { Tells number fault outlet.old outlet.new text.old.items result }
{
    fault_line(text, number, fault)?;
    flush(text, outlet)?;
    Ok(Ended::BadInput)
}
