//! Text that waits goes to the writer.
ghost use Rattle.std.specs.Prelude.{◌≡◌, ◌<◌, false, [], Err, IfErr, OnOk, OnErr};
ghost use Rattle.ipx_cmd.specs.WroteFront.{IsFaultOf, WroteAll, WroteFront};

use crate::ended::RunFault;
use ipx_wire::Outlet;
use std::io::Write;

/// From how many bytes on text is written in the middle of a piece.
pub(crate) const LARGE: usize = 65_536;

/// Writes the text and empties it.
pub(crate) fn flush<W: Write>(text: &mut Vec<u8>, outlet: &mut Outlet<W>) -> Result<(), RunFault>
    requires { outlet.old.failed ≡ false }
    ensures ok { OnOk result (WroteAll outlet.old outlet.new text.old.items) }
    ensures emptied { OnOk result (text.new.items ≡ []) }
    ensures fine { OnOk result (outlet.new.failed ≡ false) }
    ensures err { OnErr result (WroteFront outlet.old outlet.new text.old.items) }
    ensures fault { IfErr result (IsFaultOf false outlet.new.failed) }
{
    write_whole(outlet, text)?;
    text.clear();
    Ok(())
}

/// Writes all bytes, in as many calls as the writer needs.
fn write_whole<W: Write>(outlet: &mut Outlet<W>, bytes: &[u8]) -> Result<(), RunFault>
    requires { outlet.old.failed ≡ false }
    ensures ok { OnOk result (WroteAll outlet.old outlet.new bytes.now) }
    ensures err { OnErr result (WroteFront outlet.old outlet.new bytes.now) }
    ensures fault { IfErr result (IsFaultOf false outlet.new.failed) }
{
    let mut at = 0;
    while at < bytes.len() {
        let Ok(count) = outlet.write(&bytes[at..]) else {
            return Err(RunFault::Write);
        };
        at += count;
    }
    Ok(())
}
