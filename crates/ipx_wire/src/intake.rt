//! How often a source may be asked, and that its failures are remembered.

ghost use Rattle.std.specs.Prelude.{◌≡◌, ◌<◌, ◌≤◌, IfOk, OnErr, false};
ghost use Rattle.ipx_wire.specs.Ends.{Gave, LostInput, calls_after};

use crate::failed::Failed;
use crate::source::Source;
use std::marker::Model;

/// The most times that a source is asked, failures included: 16,777,216.
pub const MOST_CALLS: u32 = 16_777_216;

/// A source that is asked a bounded number of times: usually a reader.
///
/// A call that fails in any way, even if it was only interrupted, is a failure: nothing is asked twice.
///
/// ```
/// let mut intake = Intake::new("second 60\n".as_bytes());
/// let mut piece = [0; 6];
/// match intake.read(&mut piece) {
///     Ok(count) => println!(rt; "{count} bytes after {} call", intake.calls())?,
///     Err(Failed) => println!(rt; "the reader failed, and wasn't asked again")?,
/// }
/// // prints 6 bytes after 1 call
/// ```
#[derive(Drop)]
pub struct Intake<S: Source> {
    source: S,
    calls: u32,
    failed: bool,
}

impl<S: Source> Model for Intake<S> {
    ghost use Rattle.std.specs.Prelude.{◌≤◌};
    ghost use Rattle.ipx_wire.specs.Ends.{Input};

    ghost Value = { Input };

    ghost view = { λ i. record { state = S.state i.source; left = S.left i.source; calls = i.calls; failed = i.failed } };

    ghost invariant = { λ i. i.calls ≤ 16777216 };
}

impl<S: Source> Intake<S> {
    /// An intake over this source, which hasn't been asked yet.
    pub fn new(source: S) -> Self
        ensures state { result.state ≡ S.state source }
        ensures left { result.left ≡ S.left source }
        ensures calls { result.calls ≡ 0 }
        ensures failed { result.failed ≡ false }
    {
        Intake {
            source,
            calls: 0,
            failed: false,
        }
    }

    /// Asks the source once for bytes into `buf`, and returns how many came.
    ///
    /// 0 for a buffer that has room means that the source is at its end. `Failed` if the source fails, and, without
    /// asking it, once it has been asked [`MOST_CALLS`] times. A failure does not end the intake: the next call asks
    /// again.
    pub fn read(&mut self, buf: &mut [u8]) -> Result<usize, Failed>
        ensures once { self.old.calls < 16777216 → S.asked self.old.state buf.new result self.new.state }
        ensures spared { 16777216 ≤ self.old.calls → self.new.state ≡ self.old.state }
        ensures ok { IfOk result (Gave self.old self.new buf.new) }
        ensures err { OnErr result (LostInput self.old self.new) }
        ensures calls { self.new.calls ≡ calls_after self.old.calls }
    {
        if self.calls < MOST_CALLS {
            self.calls += 1;
            if let Ok(count) = self.source.ask(buf) {
                return Ok(count);
            }
        }
        self.failed = true;
        Err(Failed)
    }

    /// How often the source was asked, failures included.
    pub fn calls(&self) -> u32
        ensures count { result ≡ self.now.calls }
        ensures bound { result ≤ 16777216 }
    {
        self.calls
    }

    /// Whether a call of `read` has returned `Failed`.
    pub fn failed(&self) -> bool
        ensures told { result ≡ self.now.failed }
    {
        self.failed
    }
}
