//! A run of `decode` over a recording: it is read part by part, and the text is written before the reader is asked again.
ghost use Rattle.std.specs.Prelude.{◌≡◌, ◌+◌, ◌≤◌, ◌++◌, [], ◌∷◌, false, true, IfErr, IfOk, OnErr, OnOk, length};
ghost use Rattle.std.specs.Io.KnownBytes.{Consumes};
ghost use Rattle.ipx_wire.specs.Ends.{Input};
ghost use Rattle.ipx_capture.specs.Reads.{most_calls};
ghost use Rattle.ipx_capture.specs.Window.{most_room};
ghost use Rattle.ipx_recording.specs.Recorded.{is_recording, Recorded};
ghost use Rattle.ipx_cmd.specs.Decoded.{CutOff, Decoded};
ghost use Rattle.ipx_cmd.specs.RecordedText.{recorded_text};
ghost use Rattle.ipx_cmd.specs.inside.Moved.{Moved};
ghost use Rattle.ipx_cmd.specs.inside.Recording.{Brought, EndsWith, HasRead, ShowsAll, ShowsFront, Stopped, TellsFault, said_from};
ghost use Rattle.ipx_cmd.specs.WroteFront.{IsFaultOf, WroteFront};

use crate::ended::{Ended, RunFault};
use crate::show::record_lines::recorded_lines;
use crate::show::recording_word::recording_fault_line;
use crate::texts::draft::Draft;
use crate::texts::flushing::{LARGE, flush};
use ipx_capture::{CaptureFault, Window};
use ipx_recording::{Recording, RecordingFault, Step};
use ipx_wire::{Intake, Outlet};
use std::alloc::Global;
use std::io::{Read, Write};

/// Shows the packets of a recording that begins with bytes which have been read.
pub(crate) fn show_recording<R: Read, W: Write>(
    alloc: Global,
    front: &[u8],
    intake: &mut Intake<R>,
    outlet: &mut Outlet<W>,
) -> Result<Ended, RunFault>
    requires front { (before : Input) × HasRead before intake.old front.now }
    requires recording { is_recording front.now ≡ true }
    requires intake { intake.old.failed ≡ false }
    requires outlet { outlet.old.failed ≡ false }
    ensures ok { IfOk result (λ ended. (before : Input) → HasRead before intake.old front.now → Decoded before intake.new outlet.old outlet.new ended) }
    ensures err { OnErr result ((before : Input) → HasRead before intake.old front.now → CutOff before intake.new outlet.old outlet.new) }
    ensures fault { IfErr result (IsFaultOf intake.new.failed outlet.new.failed) }
{
    let mut text = Vec::new(alloc);
    match Recording::begin(front) {
        Ok(mut recording) => {
            let mut window = Window::new(alloc)?;
            show_packets(&mut recording, &mut window, &mut text, intake, outlet)
        }
        Err(fault) => tell_fault(&mut text, outlet, 0, fault),
    }
}

/// Shows the packets behind the header.
fn show_packets<R: Read, W: Write>(
    recording: &mut Recording,
    window: &mut Window,
    text: &mut Vec<u8>,
    intake: &mut Intake<R>,
    outlet: &mut Outlet<W>,
) -> Result<Ended, RunFault>
    requires text { text.old.items ≡ [] }
    requires window { window.old.ahead ≡ [] }
    requires bounded { intake.old.calls ≤ most_calls }
    requires intake { intake.old.failed ≡ false }
    requires outlet { outlet.old.failed ≡ false }
    ensures ok { IfOk result (ShowsAll (said_from recording.old) intake.old intake.new outlet.old outlet.new) }
    ensures err { OnErr result (ShowsFront (said_from recording.old) intake.old intake.new outlet.old outlet.new) }
    ensures fault { IfErr result (IsFaultOf intake.new.failed outlet.new.failed) }
{
    let mut shown = 0;
    let mut draft = Draft::new();
    loop {
        match recording.step(window.ahead()) {
            Ok(Step::Passed(size)) => window.take(size, 0),
            Ok(Step::Packet(kept)) => {
                window.take(4, kept.size);
                shown += 1;
                recorded_lines(text, &mut draft, shown, kept.link, window.taken())?;
                write_large(text, outlet)?;
            }
            Ok(Step::Wants(need)) => {
                flush(text, outlet)?;
                if !gather(window, intake, need)? {
                    return end(recording.end(window.ahead()), text, outlet, shown + 1);
                }
            }
            Err(fault) => return tell_fault(text, outlet, shown + 1, fault),
        }
    }
}

/// Writes the text where much has gathered.
fn write_large<W: Write>(text: &mut Vec<u8>, outlet: &mut Outlet<W>) -> Result<(), RunFault>
    requires { outlet.old.failed ≡ false }
    ensures ok { OnOk result (Moved outlet.old outlet.new text.old.items text.new.items) }
    ensures err { OnErr result (WroteFront outlet.old outlet.new text.old.items) }
    ensures fault { IfErr result (IsFaultOf false outlet.new.failed) }
{
    if text.len() < LARGE {
        return Ok(());
    }
    flush(text, outlet)
}

/// Reads until the window has so many bytes ahead, or the reader is at its end: whether it has.
fn gather<R: Read>(
    window: &mut Window,
    intake: &mut Intake<R>,
    need: usize,
) -> Result<bool, RunFault>
    requires fine { intake.old.failed ≡ false }
    requires few { need ≤ most_room }
    ensures ok { IfOk result (Brought window.old.ahead window.new.ahead intake.old intake.new need) }
    ensures err { IfErr result (Stopped intake.old intake.new) }
{
    match window.gather(intake, need) {
        Ok(enough) => Ok(enough),
        Err(CaptureFault::Memory) => Err(RunFault::Memory),
        Err(_) => Err(RunFault::Read),
    }
}

/// Ends a run at the end of the file, which is whole or not.
fn end<W: Write>(
    fault: Option<RecordingFault>,
    text: &mut Vec<u8>,
    outlet: &mut Outlet<W>,
    number: u64,
) -> Result<Ended, RunFault>
    requires text { text.old.items ≡ [] }
    requires outlet { outlet.old.failed ≡ false }
    ensures { EndsWith number fault outlet.old outlet.new result }
{
    match fault {
        Some(fault) => tell_fault(text, outlet, number, fault),
        None => Ok(Ended::Done),
    }
}

/// Writes the text and the line of the fault behind it.
fn tell_fault<W: Write>(
    text: &mut Vec<u8>,
    outlet: &mut Outlet<W>,
    number: u64,
    fault: RecordingFault,
) -> Result<Ended, RunFault>
    requires { outlet.old.failed ≡ false }
    ensures { TellsFault number fault outlet.old outlet.new text.old.items result }
{
    recording_fault_line(text, number, fault)?;
    flush(text, outlet)?;
    Ok(Ended::BadInput)
}
