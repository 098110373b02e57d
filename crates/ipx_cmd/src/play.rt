//! A run of `replay` or `internet`: the script is read in pieces, and the text of the lines that a piece
//! ends is written before the next piece is asked for.
ghost use Rattle.std.specs.Prelude.{◌≡◌, ◌+◌, ◌^◌, ◌<◌, ◌≤◌, ◌++◌, false, [], length, Err, IfErr, IfOk, OnOk, OnErr};
ghost use Rattle.std.specs.Io.KnownBytes.{IsAtEnd};
ghost use Rattle.ipx_cmd.specs.inside.Acted.{StaysFine};
ghost use Rattle.ipx_cmd.specs.inside.Leads.{IsPending};
ghost use Rattle.ipx_cmd.specs.Output.{fault_text};
ghost use Rattle.ipx_cmd.specs.Played.{GivenUp, Played, PlayedSoFar};
ghost use Rattle.ipx_cmd.specs.Replayed.{ReplayGivenUp, Replayed, ReplayedSoFar};
ghost use Rattle.ipx_cmd.specs.Simulated.{InternetGivenUp, Simulated, SimulatedSoFar};
ghost use Rattle.ipx_cmd.specs.inside.Stretch.{Answered, Completed, Flushed, GaveUp, Passed, Unfinished};
ghost use Rattle.ipx_cmd.specs.WroteFront.{IsFaultOf};
ghost use Rattle.ipx_cmd.specs.declared.ended.Ended.TheVariants.{Done, BadInput};
ghost use Rattle.ipx_wire.specs.Ends.{Gave, LostInput, calls_after};

use crate::ended::{Ended, RunFault};
use crate::lines::fault::LineFault;
use crate::lines::halt::Halt;
use crate::machines::internet_machine::InternetMachine;
use crate::machines::machine::Machine;
use crate::player::{Act, Player};
use crate::texts::flushing::flush;
use crate::texts::output::fault_line;
use ipx_wire::{Failed, Intake, Outlet};
use std::alloc::Global;
use std::io::{Read, Write};

/// How many bytes are asked for at a time.
const PIECE: usize = 8192;

/// Plays a script on one router: reads it from the intake, and writes its text to the outlet.
///
/// `BadInput` if a line is refused, as the last line of the text says. After a fault what was written is a prefix of
/// the text.
pub fn replay<R: Read, W: Write>(
    alloc: Global,
    intake: &mut Intake<R>,
    outlet: &mut Outlet<W>,
) -> Result<Ended, RunFault>
    requires intake { intake.old.failed ≡ false }
    requires outlet { outlet.old.failed ≡ false }
    ensures ok { IfOk result (Replayed intake.old intake.new outlet.old outlet.new) }
    ensures err { OnErr result (ReplayGivenUp intake.old intake.new outlet.old outlet.new) }
    ensures read { result ≡ Err RunFault.Read → ReplayedSoFar intake.old intake.new outlet.old outlet.new }
    ensures fault { IfErr result (IsFaultOf intake.new.failed outlet.new.failed) }
    ensures fine_intake { OnOk result (intake.new.failed ≡ false) }
    ensures fine_outlet { OnOk result (outlet.new.failed ≡ false) }
    ensures whole { IfOk result (λ e. e ≡ Done → IsAtEnd intake.new.left) }
{
    play_script(Machine::new(alloc), alloc, intake, outlet)
}

/// Plays a script on an internet of routers: reads it from the intake, and writes its text to the outlet.
///
/// `BadInput` if a line is refused, as the last line of the text says. After a fault what was written is a prefix of
/// the text.
pub fn internet<R: Read, W: Write>(
    alloc: Global,
    intake: &mut Intake<R>,
    outlet: &mut Outlet<W>,
) -> Result<Ended, RunFault>
    requires intake { intake.old.failed ≡ false }
    requires outlet { outlet.old.failed ≡ false }
    ensures ok { IfOk result (Simulated intake.old intake.new outlet.old outlet.new) }
    ensures err { OnErr result (InternetGivenUp intake.old intake.new outlet.old outlet.new) }
    ensures read { result ≡ Err RunFault.Read → SimulatedSoFar intake.old intake.new outlet.old outlet.new }
    ensures fault { IfErr result (IsFaultOf intake.new.failed outlet.new.failed) }
    ensures fine_intake { OnOk result (intake.new.failed ≡ false) }
    ensures fine_outlet { OnOk result (outlet.new.failed ≡ false) }
    ensures whole { IfOk result (λ e. e ≡ Done → IsAtEnd intake.new.left) }
{
    play_script(InternetMachine::new(alloc), alloc, intake, outlet)
}

/// Plays a script on a machine that has acted on no line of it yet.
fn play_script<M: Act + Drop, R: Read, W: Write>(
    machine: M,
    alloc: Global,
    intake: &mut Intake<R>,
    outlet: &mut Outlet<W>,
) -> Result<Ended, RunFault>
    requires known { (state : M.State) × M.stands machine state }
    requires intake { intake.old.failed ≡ false }
    requires outlet { outlet.old.failed ≡ false }
    ensures ok { IfOk result (λ ended. (state : M.State) → M.stands machine state → Played M.acts state intake.old intake.new outlet.old outlet.new ended) }
    ensures err { OnErr result ((state : M.State) → M.stands machine state → GivenUp M.acts state intake.old intake.new outlet.old outlet.new) }
    ensures read { result ≡ Err RunFault.Read → (state : M.State) → M.stands machine state → PlayedSoFar M.acts state intake.old intake.new outlet.old outlet.new }
    ensures fault { IfErr result (λ why. (state : M.State) → M.stands machine state → IsFaultOf intake.new.failed outlet.new.failed why) }
    ensures fine_intake { OnOk result (intake.new.failed ≡ false) }
    ensures fine_outlet { OnOk result (outlet.new.failed ≡ false) }
    ensures whole { IfOk result (λ ended. ended ≡ Done → IsAtEnd intake.new.left) }
{
    let mut player = Player::new(machine, alloc);
    let mut text = Vec::new(alloc);
    let mut piece = [0; PIECE];
    loop {
        let Ok(count) = ask(intake, &mut piece, &text) else {
            return Err(RunFault::Read);
        };
        if count == 0 {
            return play_end(&mut player, &mut text, outlet);
        }
        if let Ended::BadInput = play_piece(&mut player, &piece[..count], &mut text, outlet)? {
            return Ok(Ended::BadInput);
        }
    }
}

/// Asks the reader once for a piece. What was made of the lines before has been written: no text waits.
fn ask<R: Read>(
    intake: &mut Intake<R>,
    piece: &mut [u8],
    waiting: &Vec<u8>,
) -> Result<usize, Failed>
    requires answered { waiting.now.items ≡ [] }
    ensures ok { IfOk result (Gave intake.old intake.new piece.new) }
    ensures err { OnErr result (LostInput intake.old intake.new) }
    ensures calls { intake.new.calls ≡ calls_after intake.old.calls }
{
    intake.read(piece)
}

/// Plays one piece and writes the text of the lines that it ends; bad input ends the run.
fn play_piece<M: Act + Drop, W: Write>(
    player: &mut Player<M>,
    piece: &[u8],
    text: &mut Vec<u8>,
    outlet: &mut Outlet<W>,
) -> Result<Ended, RunFault>
    requires line { IsPending player.old.pending.items }
    requires known { (state : M.State) × M.stands player.old.machine state }
    requires number { player.old.number + length piece.now < 2 ^ 64 }
    requires outlet { outlet.old.failed ≡ false }
    ensures number { player.new.number ≤ player.old.number + length piece.now }
    ensures line { IfOk result (λ ended. ended ≡ Done → IsPending player.new.pending.items) }
    ensures emptied { OnOk result (text.new.items ≡ []) }
    ensures fine { OnOk result (outlet.new.failed ≡ false) }
    ensures passed { IfOk result (λ ended. (state : M.State) → M.stands player.old.machine state → Passed M.acts (M.stands player.new.machine) state player.old.number (player.old.pending.items ++ piece.now) outlet.old outlet.new text.old.items text.new.items player.new.number player.new.pending.items ended) }
    ensures gave_up { IfErr result (λ why. (state : M.State) → M.stands player.old.machine state → GaveUp M.acts state player.old.number (player.old.pending.items ++ piece.now) outlet.old outlet.new text.old.items why) }
{
    let played = player.play(piece, text, outlet);
    answer(played, player.number(), text, outlet)
}

/// Plays the last line, and writes what is left of the text.
fn play_end<M: Act + Drop, W: Write>(
    player: &mut Player<M>,
    text: &mut Vec<u8>,
    outlet: &mut Outlet<W>,
) -> Result<Ended, RunFault>
    requires line { IsPending player.old.pending.items }
    requires known { (state : M.State) × M.stands player.old.machine state }
    requires outlet { outlet.old.failed ≡ false }
    ensures fine { OnOk result (outlet.new.failed ≡ false) }
    ensures completed { IfOk result (λ ended. (state : M.State) → M.stands player.old.machine state → Completed M.acts state player.old.number player.old.pending.items outlet.old outlet.new text.old.items ended) }
    ensures unfinished { IfErr result (λ why. (state : M.State) → M.stands player.old.machine state → Unfinished M.acts state player.old.number player.old.pending.items outlet.old outlet.new text.old.items why) }
{
    let played = player.finish(text, outlet);
    answer(played, player.number(), text, outlet)
}

/// Writes the text of lines that acted, or of those before the line of this number, which did not.
fn answer<W: Write>(
    played: Result<(), Halt>,
    number: u64,
    text: &mut Vec<u8>,
    outlet: &mut Outlet<W>,
) -> Result<Ended, RunFault>
    requires { StaysFine played outlet.old }
    ensures { Answered played number outlet.old outlet.new text.old.items text.new.items result }
{
    match played {
        Ok(()) => complete(text, outlet),
        Err(Halt::Line(fault)) => tell(number, fault, text, outlet),
        Err(Halt::Run(fault)) => Err(fault),
    }
}

/// Writes the text of lines that acted.
fn complete<W: Write>(text: &mut Vec<u8>, outlet: &mut Outlet<W>) -> Result<Ended, RunFault>
    requires { outlet.old.failed ≡ false }
    ensures { Flushed Done outlet.old outlet.new text.old.items text.new.items result }
{
    flush(text, outlet)?;
    Ok(Ended::Done)
}

/// Writes the text and the line that tells what is wrong behind it.
fn tell<W: Write>(
    number: u64,
    fault: LineFault,
    text: &mut Vec<u8>,
    outlet: &mut Outlet<W>,
) -> Result<Ended, RunFault>
    requires { outlet.old.failed ≡ false }
    ensures { Flushed BadInput outlet.old outlet.new (text.old.items ++ fault_text number fault) text.new.items result }
{
    fault_line(text, number, fault)?;
    flush(text, outlet)?;
    Ok(Ended::BadInput)
}
