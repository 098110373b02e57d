//! Whatever can be asked for bytes.

use crate::failed::Failed;
use std::io::Read;

/// What an [`Intake`](crate::Intake) asks for bytes. Every reader is one.
///
/// A contract can't count calls. So a source has states, whose numbers it alone knows, and says with `asked` what a call does to
/// them. Code that knows nothing else of it can show `asked` of a source before and after only by asking exactly once.
///
/// See the example of [`Intake`](crate::Intake).
pub trait Source {
    ghost use Rattle.std.specs.Prelude.{ℕ, List, Option, Result};
    ghost use Rattle.std.specs.Io.{ReadsAtMost};
    ghost use Rattle.std.specs.Io.KnownBytes.{ReadConsumes};
    ghost use Rattle.ipx_wire.specs.declared.failed.Failed.{Failed};

    // The state that it is in, by a number of its own.
    ghost state: { Self → ℕ };

    // One call leads from this state, by the bytes in the buffer afterwards and the answer, to that state.
    ghost asked: { ℕ → List ℕ → Result ℕ Failed → ℕ → Type 0 };

    // The bytes that it has left, where they are known.
    ghost left: { Self → Option (List ℕ) };

    /// Asks once for bytes into `buf`, and returns how many came.
    fn ask(&mut self, buf: &mut [u8]) -> Result<usize, Failed>
        ensures asked { asked (state self.old) buf.new result (state self.new) }
        ensures bound { ReadsAtMost result buf.new }
        ensures bytes { ReadConsumes (left self.old) (left self.new) result buf.new };
}

/// A reader that fails in any way, also one that was only interrupted, has failed.
impl<R: Read> Source for R {
    ghost use Rattle.std.specs.Prelude.{⊤};

    ghost state = { λ reader. 0 };

    ghost asked = { λ before buffer answer after. ⊤ };

    ghost left = { λ reader. R.remaining reader };

    fn ask(&mut self, buf: &mut [u8]) -> Result<usize, Failed> {
        match self.read(buf) {
            Ok(count) => Ok(count),
            Err(_) => Err(Failed),
        }
    }
}
