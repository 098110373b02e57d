//! Why a script goes no further than a line of it.
ghost use Rattle.std.specs.Prelude.{◌≡◌};
ghost use Rattle.ipx_cmd.specs.declared.lines.halt.Halt.TheVariants.{Line, Run};
ghost use Rattle.ipx_cmd.specs.declared.ended.RunFault.TheVariants.{Memory};

use crate::ended::RunFault;
use crate::lines::fault::LineFault;
use ipx_wire::OutOfMemory;
use std::alloc::AllocError;

/// Why a line of a script did not act to its end.
#[derive(Clone, Copy)]
pub(crate) enum Halt {
    /// The line is wrong.
    Line(LineFault),
    /// The run is given up.
    Run(RunFault),
}

impl From<LineFault> for Halt {
    ghost from_gives = { λ fault halt. halt ≡ Line fault };

    fn from(fault: LineFault) -> Halt {
        Halt::Line(fault)
    }
}

impl From<RunFault> for Halt {
    ghost from_gives = { λ fault halt. halt ≡ Run fault };

    fn from(fault: RunFault) -> Halt {
        Halt::Run(fault)
    }
}

impl From<AllocError> for Halt {
    ghost from_gives = { λ wanted halt. halt ≡ Run Memory };

    fn from(_wanted: AllocError) -> Halt {
        Halt::Run(RunFault::Memory)
    }
}

impl From<OutOfMemory> for Halt {
    ghost from_gives = { λ wanted halt. halt ≡ Run Memory };

    fn from(_wanted: OutOfMemory) -> Halt {
        Halt::Run(RunFault::Memory)
    }
}
