//! What counts as a sink's failure, and that its failures are remembered.

ghost use Rattle.std.specs.Prelude.{◌≡◌, IfOk, OnErr, false};
ghost use Rattle.ipx_wire.specs.Ends.{GaveOnce, Took, LostOutput};

use crate::failed::Failed;
use crate::sink::Sink;
use std::marker::Model;

/// A sink whose failure is remembered: usually a writer.
///
/// Each call hands its bytes on; none is kept back. A call that fails in any way, even if it was only interrupted, is
/// a failure: nothing is given twice.
///
/// ```
/// let mut outlet = Outlet::new(io::writer(rt));
/// if let Err(Failed) = outlet.write(b"quiet\n") {
///     eprintln!(rt; "the writer failed, and nothing is written twice")?;
/// }
/// // prints quiet
/// ```
#[derive(Drop)]
pub struct Outlet<S: Sink> {
    sink: S,
    failed: bool,
}

impl<S: Sink> Model for Outlet<S> {
    ghost use Rattle.ipx_wire.specs.Ends.{Output};

    ghost Value = { Output };

    ghost view = { λ o. record { state = S.state o.sink; written = S.written o.sink; failed = o.failed } };
}

impl<S: Sink> Outlet<S> {
    /// An outlet to this sink, which hasn't been given anything yet.
    pub fn new(sink: S) -> Self
        ensures state { result.state ≡ S.state sink }
        ensures written { result.written ≡ S.written sink }
        ensures failed { result.failed ≡ false }
    {
        Outlet {
            sink,
            failed: false,
        }
    }

    /// Gives the sink `bytes` once, and returns how many of them it took, from the first on.
    ///
    /// `Failed` if the sink fails, or takes none of at least one byte. A failure does not end the outlet: the next call
    /// hands its bytes on again.
    pub fn write(&mut self, bytes: &[u8]) -> Result<usize, Failed>
        ensures once { GaveOnce S.given self.old self.new bytes.now result }
        ensures ok { IfOk result (Took self.old self.new bytes.now) }
        ensures err { OnErr result (LostOutput self.old self.new) }
    {
        match self.sink.give(bytes) {
            Ok(count) if count > 0 || bytes.is_empty() => Ok(count),
            _ => {
                self.failed = true;
                Err(Failed)
            }
        }
    }

    /// Whether a call of `write` has returned `Failed`.
    pub fn failed(&self) -> bool
        ensures told { result ≡ self.now.failed }
    {
        self.failed
    }
}
