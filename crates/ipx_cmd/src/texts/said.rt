//! Text that waits to be written, until there is much of it.
ghost use Rattle.std.specs.Prelude.{◌≡◌, ◌++◌, ℕ, List, false, OnOk};
ghost use Rattle.ipx_cmd.specs.inside.Said.{Says};

use crate::ended::RunFault;
use crate::texts::flushing::{LARGE, flush};
use ipx_wire::Outlet;
use std::io::Write;

/// Writes the text where there is much of it.
pub(crate) fn write_much<W: Write>(
    text: &mut Vec<u8>,
    outlet: &mut Outlet<W>,
) -> Result<(), RunFault>
    requires { outlet.old.failed ≡ false }
    ensures fine { OnOk result (outlet.new.failed ≡ false) }
    ensures says { (old said : List ℕ) → text.old.items ≡ old ++ said → Says outlet.old outlet.new old text.new.items said result }
{
    if text.len() < LARGE {
        return Ok(());
    }
    flush(text, outlet)
}
