//! What a capture does with the bytes of its reader.
ghost use Rattle.std.specs.Prelude.{◌≡◌, ◌≤◌, [], true, false, IfOk, IfErr, OnErr, length};
ghost use Rattle.ipx_capture.specs.Given.{BegunBy, UnopenedBy};
ghost use Rattle.ipx_capture.specs.Reads.{FilledFront, LostFront};
ghost use Rattle.ipx_capture.specs.inside.Taking.{Took};
ghost use Rattle.ipx_capture.specs.Window.{least_room};
ghost use Rattle.ipx_capture.specs.Records as spec;

use crate::asking::ask;
use crate::capture_fault::CaptureFault;
use crate::file_header::{HEADER_SIZE, file_order};
use crate::order::Order;
use crate::window::Window;
use ipx_wire::{Failed, Intake, Source};
use std::alloc::Global;

/// How many bytes the header of a record has.
const HEADER: usize = 16;

/// How many bytes a record keeps at most.
const LONGEST: u32 = 262_144;

/// Reads the header of the file, and makes the buffer.
pub(crate) fn begin<S: Source>(
    intake: &mut Intake<S>,
    alloc: Global,
) -> Result<(Order, Window), CaptureFault>
    requires { intake.old.failed ≡ false }
    ensures ok { IfOk result (λ made. BegunBy S.asked intake.old intake.new made.0) }
    ensures window { IfOk result (λ made. (made.1.ahead ≡ []) × (made.1.memory ≡ least_room)) }
    ensures err { IfErr result (UnopenedBy S.asked intake.old intake.new) }
{
    let order = read_header(intake)?;
    let window = Window::new(alloc)?;
    Ok((order, window))
}

fn read_header<S: Source>(intake: &mut Intake<S>) -> Result<Order, CaptureFault>
    requires { intake.old.failed ≡ false }
    ensures ok { IfOk result (BegunBy S.asked intake.old intake.new) }
    ensures err { IfErr result (UnopenedBy S.asked intake.old intake.new) }
{
    let mut header = [0; HEADER_SIZE];
    let Ok(count) = read_front(intake, &mut header) else {
        return Err(CaptureFault::Read);
    };
    file_order(&header[..count])
}

/// Fills a buffer from its front on, as far as there are bytes.
pub fn read_front<S: Source>(intake: &mut Intake<S>, bytes: &mut [u8]) -> Result<usize, Failed>
    ensures ok { IfOk result (FilledFront S.asked bytes.new intake.old intake.new) }
    ensures err { OnErr result (LostFront S.asked (length bytes.old) intake.old intake.new) }
{
    let mut at = 0;
    while at < bytes.len() {
        let count = ask(intake, &mut bytes[at..])?;
        if count == 0 {
            return Ok(at);
        }
        at += count;
    }
    Ok(at)
}

/// Takes the record at the front of the bytes ahead and those to come, and answers how many of its bytes were on the wire.
pub(crate) fn take_record<S: Source>(
    intake: &mut Intake<S>,
    window: &mut Window,
    order: Order,
) -> Result<Option<u32>, CaptureFault>
    requires fine { intake.old.failed ≡ false }
    requires room { least_room ≤ window.old.memory }
    ensures took { Took S.asked order window.old window.new intake.old intake.new result }
    ensures still { spec.is_ready order window.old.ahead ≡ true → intake.new ≡ intake.old }
{
    if !window.gather(intake, HEADER)? {
        if window.ahead().is_empty() {
            return Ok(None);
        }
        return Err(CaptureFault::CutRecord);
    }
    let kept = order.u32_at(window.ahead(), 8);
    let wire = order.u32_at(window.ahead(), 12);
    if kept > LONGEST {
        return Err(CaptureFault::RecordLong);
    }
    if !window.gather(intake, HEADER + kept as usize)? {
        return Err(CaptureFault::CutRecord);
    }
    window.take(HEADER, kept as usize);
    Ok(Some(wire))
}

/// Whether bytes tell what stands at their front: a record that is there whole, or one that is too long.
pub(crate) fn is_ready(order: Order, ahead: &[u8]) -> bool
    ensures { result ≡ spec.is_ready order ahead.now }
{
    if ahead.len() < HEADER {
        return false;
    }
    let kept = order.u32_at(ahead, 8);
    kept > LONGEST || ahead.len() >= HEADER + kept as usize
}
