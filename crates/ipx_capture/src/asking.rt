//! One call to the source.
ghost use Rattle.std.specs.Prelude.{◌<◌, IfOk, OnErr, length};
ghost use Rattle.ipx_capture.specs.Reads.{CameOnce, FailedOnce};

use ipx_wire::{Failed, Intake, Source};

/// Asks the source once for bytes into a buffer that has room, and returns how many came.
pub(crate) fn ask<S: Source>(intake: &mut Intake<S>, buf: &mut [u8]) -> Result<usize, Failed>
    requires room { 0 < length buf.old }
    ensures ok { IfOk result (CameOnce S.asked intake.old intake.new buf.new) }
    ensures err { OnErr result (FailedOnce S.asked intake.old intake.new) }
{
    intake.read(buf)
}
