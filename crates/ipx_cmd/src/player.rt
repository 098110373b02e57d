//! How the bytes of a script become lines, numbered from 1, that a machine acts on.
//!
//! A line ends before a line feed or at the end of the script. A carriage return right before that
//! end is dropped, but counted where the line is too long.
ghost use Rattle.std.specs.Prelude.{◌≡◌, ℕ, true, ◌+◌, ◌^◌, ◌<◌, ◌≤◌, [], ◌∷◌, ◌++◌, false, length, IfErr, OnOk, MatchOption};
ghost use Rattle.ipx_cmd.specs.inside.Acted.{Acted, Halted};
ghost use Rattle.ipx_cmd.specs.inside.Leads.{IsOneLine, IsPending};
ghost use Rattle.ipx_cmd.specs.Lines.{is_long, line_feed, longest_line, without_return};
ghost use Rattle.ipx_cmd.specs.declared.lines.fault.LineFault.TheVariants.{Long};
ghost use Rattle.ipx_cmd.specs.inside.Stretch.{Finished, FinishedOff, NotKept, Went, WentOff};

use crate::lines::fault::LineFault;
use crate::lines::halt::Halt;
use ipx_wire::Outlet;
use memchr::memchr;
use std::alloc::Global;
use std::io::Write;

/// How many bytes a line has at most.
const LONGEST_LINE: usize = 131_200;

/// What the lines of a script act on.
pub(crate) trait Act {
    ghost use Rattle.ipx_cmd.specs.Playing.{Step};

    /// What its definition keeps between lines.
    ghost State: { Type 0 };

    /// What a line does to that, and its text.
    ghost acts: { Step State };

    /// What it is known as by its definition.
    ghost stands: { Self → State → Type 0 };

    /// Acts on a line without its end, and adds its text. Much of the text is written at once, and the rest is left.
    fn act<W: Write>(
        &mut self,
        line: &[u8],
        text: &mut Vec<u8>,
        outlet: &mut Outlet<W>,
    ) -> Result<(), Halt>
        requires { outlet.old.failed ≡ false }
        ensures fine { OnOk result (outlet.new.failed ≡ false) }
        ensures acted { OnOk result ((state : State) → stands self.old state → Acted acts (stands self.new) state line.now outlet.old outlet.new text.old.items text.new.items) }
        ensures halted { IfErr result (λ halt. (state : State) → stands self.old state → Halted (acts state line.now) outlet.old outlet.new text.old.items text.new.items halt) };
}

/// A script that is being played: what it acts on, the line that isn't at its end yet, and its number.
#[derive(Drop)]
pub(crate) struct Player<M: Act + Drop> {
    machine: M,
    pending: Vec<u8>,
    number: u64,
}

impl<M: Act + Drop> Player<M> {
    pub fn new(machine: M, alloc: Global) -> Player<M>
        ensures machine { result.machine ≡ machine }
        ensures pending { result.pending.items ≡ [] }
        ensures number { result.number ≡ 1 }
    {
        Player {
            machine,
            pending: Vec::new(alloc),
            number: 1,
        }
    }

    /// Plays the lines that these bytes end, and keeps the bytes behind them.
    pub fn play<W: Write>(
        &mut self,
        piece: &[u8],
        text: &mut Vec<u8>,
        outlet: &mut Outlet<W>,
    ) -> Result<(), Halt>
        requires line { IsPending self.old.pending.items }
        requires number { self.old.number + length piece.now < 2 ^ 64 }
        requires outlet { outlet.old.failed ≡ false }
        ensures line { OnOk result (IsPending self.new.pending.items) }
        ensures number { self.new.number ≤ self.old.number + length piece.now }
        ensures fine { OnOk result (outlet.new.failed ≡ false) }
        ensures went { OnOk result ((state : M.State) → M.stands self.old.machine state → Went M.acts (M.stands self.new.machine) state self.old.number (self.old.pending.items ++ piece.now) outlet.old outlet.new text.old.items text.new.items self.new.number self.new.pending.items) }
        ensures off { IfErr result (λ halt. (state : M.State) → M.stands self.old.machine state → WentOff M.acts state self.old.number (self.old.pending.items ++ piece.now) outlet.old outlet.new text.old.items text.new.items self.new.number halt) }
    {
        let mut rest = piece;
        while let Some((front, behind)) = first_line(rest) {
            self.end_line(front, text, outlet)?;
            rest = behind;
        }
        self.keep(rest)
    }

    /// The number of the line that isn't at its end yet.
    pub fn number(&self) -> u64
        ensures { result ≡ self.now.number }
    {
        self.number
    }

    /// Ends the script: acts on the last line, which lacks its line feed, if there is one.
    pub fn finish<W: Write>(
        &mut self,
        text: &mut Vec<u8>,
        outlet: &mut Outlet<W>,
    ) -> Result<(), Halt>
        requires line { IsPending self.old.pending.items }
        requires outlet { outlet.old.failed ≡ false }
        ensures number { self.new.number ≡ self.old.number }
        ensures fine { OnOk result (outlet.new.failed ≡ false) }
        ensures finished { OnOk result ((state : M.State) → M.stands self.old.machine state → Finished M.acts state self.old.number self.old.pending.items outlet.old outlet.new text.old.items text.new.items) }
        ensures off { IfErr result (λ halt. (state : M.State) → M.stands self.old.machine state → FinishedOff M.acts state self.old.number self.old.pending.items outlet.old outlet.new text.old.items text.new.items halt) }
    {
        if self.pending.is_empty() {
            return Ok(());
        }
        act_on_last(&mut self.machine, &self.pending, text, outlet)
    }

    /// Acts on the line that these bytes end.
    fn end_line<W: Write>(
        &mut self,
        front: &[u8],
        text: &mut Vec<u8>,
        outlet: &mut Outlet<W>,
    ) -> Result<(), Halt>
        requires line { IsPending self.old.pending.items }
        requires one { IsOneLine front.now }
        requires number { self.old.number + 1 < 2 ^ 64 }
        requires outlet { outlet.old.failed ≡ false }
        ensures fine { OnOk result (outlet.new.failed ≡ false) }
        ensures line { OnOk result (self.new.pending.items ≡ []) }
        ensures number { self.new.number ≤ self.old.number + 1 }
        ensures went { OnOk result ((state : M.State) → M.stands self.old.machine state → Went M.acts (M.stands self.new.machine) state self.old.number (self.old.pending.items ++ front.now ++ line_feed ∷ []) outlet.old outlet.new text.old.items text.new.items self.new.number []) }
        ensures off { IfErr result (λ halt. (state : M.State) → M.stands self.old.machine state → WentOff M.acts state self.old.number (self.old.pending.items ++ front.now ++ line_feed ∷ []) outlet.old outlet.new text.old.items text.new.items self.new.number halt) }
    {
        self.check_length(front)?;
        if self.pending.is_empty() {
            act_on(&mut self.machine, front, text, outlet)?;
        } else {
            self.pending.extend_from_slice(front)?;
            act_on(&mut self.machine, &self.pending, text, outlet)?;
            self.pending.clear();
        }
        self.number += 1;
        Ok(())
    }

    /// Keeps bytes of a line that isn't at its end yet.
    fn keep(&mut self, bytes: &[u8]) -> Result<(), Halt>
        requires line { IsPending self.old.pending.items }
        requires one { IsOneLine bytes.now }
        ensures machine { self.new.machine ≡ self.old.machine }
        ensures number { self.new.number ≡ self.old.number }
        ensures kept { OnOk result (self.new.pending.items ≡ self.old.pending.items ++ bytes.now) }
        ensures line { OnOk result (IsPending self.new.pending.items) }
        ensures refused { IfErr result (NotKept (self.old.pending.items ++ bytes.now)) }
    {
        self.check_length(bytes)?;
        self.pending.extend_from_slice(bytes)?;
        Ok(())
    }

    /// Whether the pending line, with these bytes behind it, is short enough.
    fn check_length(&self, bytes: &[u8]) -> Result<(), LineFault>
        requires line { IsPending self.now.pending.items }
        ensures ok { OnOk result (length (self.now.pending.items ++ bytes.now) ≤ longest_line) }
        ensures err { IfErr result (λ fault. (fault ≡ Long) × (is_long (self.now.pending.items ++ bytes.now) ≡ true)) }
    {
        if bytes.len() > LONGEST_LINE - self.pending.len() {
            return Err(LineFault::Long);
        }
        Ok(())
    }
}

/// Acts on a line without its line feed.
fn act_on<M: Act, W: Write>(
    machine: &mut M,
    line: &[u8],
    text: &mut Vec<u8>,
    outlet: &mut Outlet<W>,
) -> Result<(), Halt>
    requires line { IsPending line.now }
    requires outlet { outlet.old.failed ≡ false }
    ensures fine { OnOk result (outlet.new.failed ≡ false) }
    ensures went { OnOk result ((state : M.State) (number : ℕ) → M.stands machine.old state → Went M.acts (M.stands machine.new) state number (line.now ++ line_feed ∷ []) outlet.old outlet.new text.old.items text.new.items (number + 1) []) }
    ensures off { IfErr result (λ halt. (state : M.State) (number : ℕ) → M.stands machine.old state → WentOff M.acts state number (line.now ++ line_feed ∷ []) outlet.old outlet.new text.old.items text.new.items number halt) }
{
    machine.act(without_return(line), text, outlet)
}

/// Acts on the last line of a script, which has no line feed.
fn act_on_last<M: Act, W: Write>(
    machine: &mut M,
    line: &[u8],
    text: &mut Vec<u8>,
    outlet: &mut Outlet<W>,
) -> Result<(), Halt>
    requires line { IsPending line.now }
    requires some { 0 < length line.now }
    requires outlet { outlet.old.failed ≡ false }
    ensures fine { OnOk result (outlet.new.failed ≡ false) }
    ensures finished { OnOk result ((state : M.State) (number : ℕ) → M.stands machine.old state → Finished M.acts state number line.now outlet.old outlet.new text.old.items text.new.items) }
    ensures off { IfErr result (λ halt. (state : M.State) (number : ℕ) → M.stands machine.old state → FinishedOff M.acts state number line.now outlet.old outlet.new text.old.items text.new.items halt) }
{
    machine.act(without_return(line), text, outlet)
}

/// The bytes before the first line feed, and those behind it; none where there is no line feed.
fn first_line(bytes: &[u8]) -> Option<(&[u8], &[u8])>
    ensures { MatchOption result (IsOneLine bytes.now) (λ parts. IsOneLine parts.0.now × (bytes.now ≡ parts.0.now ++ line_feed ∷ parts.1.now)) }
{
    match memchr(b'\n', bytes) {
        Some(place) => {
            let (line, behind) = bytes.split_at(place);
            Some((line, &behind[1..]))
        }
        None => None,
    }
}

/// The line without a carriage return at its end.
fn without_return(line: &[u8]) -> &[u8]
    ensures { result.now ≡ without_return line.now }
{
    if line.ends_with(b"\r") {
        &line[..line.len() - 1]
    } else {
        line
    }
}
