//! The records of a capture file, one by one.
ghost use Rattle.std.specs.Prelude.{◌≡◌, ◌+◌, ◌*◌, ◌≤◌, false, length};
ghost use Rattle.ipx_capture.specs.Reads.{most_calls};
ghost use Rattle.ipx_capture.specs.Records.{record_header};
ghost use Rattle.ipx_capture.specs.Window.{least_room, most_room};
ghost use Rattle.ipx_capture.specs.declared.standing.Standing.TheVariants.{Open};

use crate::capture_fault::CaptureFault;
use crate::order::Order;
use crate::standing::Standing;
use crate::taking::{begin, is_ready, take_record};
use crate::window::Window;
use ipx_wire::{Intake, Source};
use std::alloc::Global;

/// A capture file whose header has been read, and whose records are read one by one.
///
/// ```
/// let mut intake = Intake::new(file);
/// let mut capture = Capture::from_reader(&mut intake, rt.alloc())?;
/// for _ in 0..u64::MAX {
///     let Some(Captured { number, bytes, .. }) = capture.next()? else {
///         break;
///     };
///     println!(rt; "record {number} keeps {} bytes", bytes.len())?;
/// }
/// // prints record 1 keeps 2 bytes
/// ```
#[derive(Drop)]
pub struct Capture<'a, S: Source> {
    intake: &'a mut Intake<S>,
    window: Window,
    order: Order,
    taken: u64,
    standing: Standing,
    ghost few: { standing ≡ Open → record_header * taken + length window.ahead ≤ most_room * intake.now.calls },
    ghost bounded: { standing ≡ Open → intake.now.calls ≤ most_calls },
    ghost room: { (least_room ≤ window.memory) × (window.memory ≤ most_room) },
    ghost fine: { standing ≡ Open → intake.now.failed ≡ false },
}

/// A record of a capture.
///
/// See the example of [`Capture`].
#[derive(Clone, Copy, Debug, PartialEq, Eq)]
pub struct Captured<'c> {
    /// Its number in the file, from 1.
    pub number: u64,
    /// How many bytes it had on the wire.
    pub wire: u32,
    /// Those of its bytes that were kept.
    pub bytes: &'c [u8],
}

impl<'a, S: Source> Capture<'a, S> {
    ghost use Rattle.std.specs.Prelude.{◌≡◌, ◌≤◌, [], false, IfOk, IfErr};
    ghost use Rattle.std.specs.Borrow.{sem, RestsIfErr};
    ghost use Rattle.std.specs.Io.BufRead.{Rests};
    ghost use mir.Syntax.{named};
    ghost use Rattle.ipx_wire.specs.contracts.intake.Intake.{the_row as intake_row};
    ghost use Rattle.ipx_capture.specs.contracts.capture.Capture.{the_row};
    ghost use Rattle.ipx_capture.specs.Given.{BegunBy, UnopenedBy, TakesBy};
    ghost use Rattle.ipx_capture.specs.Place.{place, keeps, told, Nexts, Opened};
    ghost use Rattle.ipx_capture.specs.inside.Numbered.{numbered};
    ghost use Rattle.ipx_capture.specs.Records as spec;

    /// Reads the header of a capture file.
    pub fn from_reader(
        intake: &'a mut Intake<S>,
        alloc: Global,
    ) -> Result<Capture<'a, S>, CaptureFault>
        requires fine { intake.old.failed ≡ false }
        ensures ok { IfOk result (λ c. Opened intake.old (place c)) }
        ensures by { IfOk result (λ c. BegunBy S.asked intake.old (place c).input (place c).order) }
        ensures same_reference { IfOk result (λ c. keeps c ≡ intake.entry.ghost_name) }
        ensures* err { sem 𝓛 (RestsIfErr (intake_row S.row S.Source) intake.entry keeps result (λ after. IfErr result (UnopenedBy S.asked intake.old after))) }
    {
        let (order, window) = begin(intake, alloc)?;
        Ok(Capture::begun(intake, order, window))
    }

    /// A capture whose header was read from an intake, with a window that has nothing ahead.
    pub fn begun(intake: &'a mut Intake<S>, order: Order, window: Window) -> Capture<'a, S>
        requires fresh { (window.ahead ≡ []) × (window.memory ≡ least_room) }
        requires bounded { intake.old.calls ≤ most_calls }
        requires fine { intake.old.failed ≡ false }
        ensures place { place result ≡ record { order = order; taken = 0; ahead = []; memory = least_room; standing = Standing.Open; input = intake.old } }
        ensures same_reference { keeps result ≡ intake.entry.ghost_name }
    {
        Capture {
            intake,
            window,
            order,
            taken: 0,
            standing: Standing::Open,
        }
    }

    /// Gives back the intake, which is as far as the capture has read.
    pub fn into_inner(self) -> &'a mut Intake<S>
        ensures same_reference { result.ghost_name ≡ keeps self.entry }
        ensures input { result.now ≡ (place self.entry).input }
    {
        let Capture { intake, .. } = self;
        intake
    }

    /// The next record; none at the end of the file.
    ///
    /// After an end or a fault each later call returns the same. The source is asked only while the bytes that were
    /// read don't decide what comes next: a record that is too long is reported as soon as its header is there.
    pub fn next(&mut self) -> Result<Option<Captured<'_>>, CaptureFault>
        ensures* after { sem 𝓛 (Rests (the_row (record { mir = named 1; lft = [] }) S.row S.Source) self.entry (λ new. Nexts (place self.old) (place new) (told result) × (keeps new ≡ keeps self.old) × ((place self.old).standing ≡ Open → TakesBy S.asked (place self.old) (place new) (told result)))) }
    {
        let Some(wire) = self.advance()? else {
            return Ok(None);
        };
        Ok(Some(Captured {
            number: self.taken,
            wire,
            bytes: self.window.taken(),
        }))
    }

    /// Whether the bytes that were read decide what comes next: a record, an end or a fault.
    pub fn is_ready(&self) -> bool
        ensures { result ≡ spec.is_ready (place self.now).order (place self.now).ahead }
    {
        is_ready(self.order, self.window.ahead())
    }

    /// Takes the next record, and answers how many of its bytes were on the wire.
    fn advance(&mut self) -> Result<Option<u32>, CaptureFault>
        ensures after { Nexts (place self.old) (place self.new) (numbered self.new.taken self.new.window.taken result) }
        ensures same_reference { keeps self.new ≡ keeps self.old }
        ensures by { (place self.old).standing ≡ Open → TakesBy S.asked (place self.old) (place self.new) (numbered self.new.taken self.new.window.taken result) }
    {
        match self.standing {
            Standing::Open => {}
            Standing::Ended => return Ok(None),
            Standing::Broken(fault) => return Err(fault),
        }
        match take_record(self.intake, &mut self.window, self.order) {
            Ok(Some(wire)) => {
                self.taken += 1;
                Ok(Some(wire))
            }
            Ok(None) => {
                self.standing = Standing::Ended;
                Ok(None)
            }
            Err(fault) => {
                self.standing = Standing::Broken(fault);
                Err(fault)
            }
        }
    }
}
