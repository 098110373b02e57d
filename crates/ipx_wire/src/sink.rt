//! Whatever takes bytes.

use crate::failed::Failed;
use std::io::Write;

/// What an [`Outlet`](crate::Outlet) gives bytes to. Every writer is one.
///
/// Its states serve as those of a [`Source`](crate::Source): code that knows nothing else of a sink can show `given` of it before
/// and after only by giving exactly once.
///
/// See the example of [`Outlet`](crate::Outlet).
pub trait Sink {
    ghost use Rattle.std.specs.Prelude.{ℕ, List, Option, Result};
    ghost use Rattle.std.specs.Io.{WritesAtMost};
    ghost use Rattle.std.specs.Io.KnownBytes.{WriteAppends};
    ghost use Rattle.ipx_wire.specs.declared.failed.Failed.{Failed};

    // The state that it is in, by a number of its own.
    ghost state: { Self → ℕ };

    // One call leads from this state, by the bytes given and the answer, to that state.
    ghost given: { ℕ → List ℕ → Result ℕ Failed → ℕ → Type 0 };

    // The bytes that it holds, where they are known.
    ghost written: { Self → Option (List ℕ) };

    /// Gives `bytes` once, and returns how many of them were taken, from the first on.
    fn give(&mut self, bytes: &[u8]) -> Result<usize, Failed>
        ensures given { given (state self.old) bytes.now result (state self.new) }
        ensures bound { WritesAtMost result bytes.now }
        ensures bytes { WriteAppends (written self.old) (written self.new) result bytes.now };
}

/// A writer that fails in any way, also one that was only interrupted, has failed.
impl<W: Write> Sink for W {
    ghost use Rattle.std.specs.Prelude.{⊤};

    ghost state = { λ writer. 0 };

    ghost given = { λ before bytes answer after. ⊤ };

    ghost written = { λ writer. W.contents writer };

    fn give(&mut self, bytes: &[u8]) -> Result<usize, Failed> {
        match self.write(bytes) {
            Ok(count) => Ok(count),
            Err(_) => Err(Failed),
        }
    }
}
