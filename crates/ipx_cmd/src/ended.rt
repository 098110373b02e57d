//! How a run ends, and the exit status that tells it.

ghost use Rattle.std.specs.Prelude.{◌≡◌};
ghost use Rattle.ipx_cmd.specs.Ended.{status_of};
ghost use Rattle.ipx_cmd.specs.declared.ended.RunFault.TheVariants.{Memory};

use ipx_wire::OutOfMemory;
use std::alloc::AllocError;
use thiserror::Error;

/// The end of a run that read all it was to read and wrote all that it had to say.
///
/// ```
/// let mut intake = Intake::new("port 00000010 000000000001 1 576\n".as_bytes());
/// let mut outlet = Outlet::new(io::writer(rt));
/// match replay(rt.alloc(), &mut intake, &mut outlet) {
///     Ok(Ended::Done) => println!(rt; "a good script")?,
///     Ok(Ended::BadInput) => println!(rt; "the last line says what is wrong")?,
///     Err(RunFault::Memory) => println!(rt; "out of memory")?,
///     Err(fault) => println!(rt; "{fault}")?,
/// }
/// // prints a good script
/// ```
#[derive(Clone, Copy, Debug, PartialEq, Eq)]
pub enum Ended {
    /// All of the input was good.
    Done,
    /// Something of the input was refused, and the output says what.
    BadInput,
}

/// Why a run was given up. What it wrote before is a prefix of its text.
///
/// See the example of [`Ended`].
#[derive(Clone, Copy, Debug, PartialEq, Eq, Error)]
pub enum RunFault {
    /// The intake failed.
    #[error("read")]
    Read,
    /// The outlet failed.
    #[error("write")]
    Write,
    /// No memory was left.
    #[error("memory")]
    Memory,
}

impl From<OutOfMemory> for RunFault {
    ghost from_gives = { λ _ fault. fault ≡ Memory };

    fn from(_wanted: OutOfMemory) -> RunFault {
        RunFault::Memory
    }
}

impl From<AllocError> for RunFault {
    ghost from_gives = { λ _ fault. fault ≡ Memory };

    fn from(_refused: AllocError) -> RunFault {
        RunFault::Memory
    }
}

/// The exit status of a run: 0 done, 1 a device failed, 2 bad input, 3 out of memory.
pub fn status(run: &Result<Ended, RunFault>) -> u8
    ensures status { result ≡ status_of run.now }
{
    match run {
        Ok(Ended::Done) => 0,
        Ok(Ended::BadInput) => 2,
        Err(RunFault::Read | RunFault::Write) => 1,
        Err(RunFault::Memory) => 3,
    }
}
