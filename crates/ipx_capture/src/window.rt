//! The buffer of a capture: bytes that were read, and of these the record that is lent.
ghost use Rattle.std.specs.Prelude.{◌≡◌, ◌+◌, ◌-◌, ◌<◌, ◌≤◌, [], true, false, IfOk, IfErr, OnOk, OnErr, length, take, drop, vec_capacity, vec_len, max};
ghost use Rattle.ipx_wire.specs.Piece.{piece};
ghost use Rattle.ipx_capture.specs.Reads.{CameOnce, FailedOnce};
ghost use Rattle.ipx_capture.specs.Window.{Grows, least_room, most_room};
ghost use Rattle.ipx_capture.specs.declared.capture_fault.CaptureFault.TheVariants.{Memory};

use crate::asking::ask;
use crate::capture_fault::CaptureFault;
use ipx_wire::{Failed, Intake, Source};
use std::alloc::{AllocError, Global};
use std::marker::Model;

/// How many bytes are asked for at a time, and lie in the buffer as long as no record is longer.
const SIZE: usize = 8192;

/// The bytes read and not yet taken, and behind them room for more.
///
/// See the example of [`Capture`], which keeps one.
///
/// [`Capture`]: crate::Capture
#[derive(Drop)]
pub struct Window {
    bytes: Vec<u8>,
    // `kept` bytes from `start` on are the record last taken.
    start: usize,
    kept: usize,
    // `count` bytes from `from` on are ahead.
    from: usize,
    count: usize,
}

impl Model for Window {
    ghost use Rattle.std.specs.Prelude.{◌≤◌, ◌+◌, length, vec_capacity};
    ghost use Rattle.ipx_wire.specs.Piece.{piece};
    ghost use Rattle.ipx_capture.specs.Window.{Held, Fits};

    ghost Value = { Held };

    ghost view = { λ w. record { taken = piece w.bytes.items w.start w.kept; ahead = piece w.bytes.items w.from w.count; memory = vec_capacity w.bytes } };

    ghost invariant = { λ w. Fits (length w.bytes.items) (vec_capacity w.bytes) w.start w.kept w.from w.count };
}

impl Window {
    ghost use Rattle.ipx_capture.specs.Reads.{Filled, Gathered, Lost};

    /// A buffer of 8,192 bytes, with none ahead.
    pub fn new(alloc: Global) -> Result<Window, AllocError>
        ensures fresh { IfOk result (λ w. w.ahead ≡ []) }
        ensures memory { IfOk result (λ w. w.memory ≡ least_room) }
    {
        let mut bytes = Vec::with_capacity(alloc, SIZE)?;
        lengthen(&mut bytes, SIZE);
        Ok(Window {
            bytes,
            start: 0,
            kept: 0,
            from: 0,
            count: 0,
        })
    }

    /// The bytes read and not yet taken.
    pub fn ahead(&self) -> &[u8]
        ensures { result.now ≡ self.now.ahead }
    {
        piece_of(&self.bytes, self.from, self.count)
    }

    /// The bytes of the record last taken.
    pub fn taken(&self) -> &[u8]
        ensures { result.now ≡ self.now.taken }
    {
        piece_of(&self.bytes, self.start, self.kept)
    }

    /// Takes a record whose header has `header` bytes.
    pub fn take(&mut self, header: usize, kept: usize)
        requires { header + kept ≤ length self.old.ahead }
        ensures taken { self.new.taken ≡ piece self.old.ahead header kept }
        ensures ahead { self.new.ahead ≡ drop (header + kept) self.old.ahead }
        ensures memory { self.new.memory ≡ self.old.memory }
    {
        self.start = self.from + header;
        self.kept = kept;
        self.from += header + kept;
        self.count -= header + kept;
    }

    /// Reads until `need` bytes are ahead, or the reader is at its end: whether they are.
    pub fn gather<S: Source>(
        &mut self,
        intake: &mut Intake<S>,
        need: usize,
    ) -> Result<bool, CaptureFault>
        requires fine { intake.old.failed ≡ false }
        requires few { need ≤ most_room }
        ensures ok { IfOk result (Gathered S.asked self.old.ahead self.new.ahead intake.old intake.new need) }
        ensures err { IfErr result (Lost S.asked self.old.ahead intake.old intake.new need) }
        ensures memory { Grows need self.old.memory self.new.memory }
        ensures refused { IfErr result (λ fault. fault ≡ Memory → self.old.memory < need) }
        ensures still { need ≤ length self.old.ahead → (intake.new ≡ intake.old) × (self.new.ahead ≡ self.old.ahead) }
    {
        while self.count < need {
            if self.fill(intake, need)? == 0 {
                return Ok(false);
            }
        }
        Ok(true)
    }

    /// Reads once behind the bytes that are ahead.
    fn fill<S: Source>(
        &mut self,
        intake: &mut Intake<S>,
        need: usize,
    ) -> Result<usize, CaptureFault>
        requires fine { intake.old.failed ≡ false }
        requires more { length self.old.ahead < need }
        requires few { need ≤ most_room }
        ensures ok { IfOk result (Filled S.asked self.old.ahead self.new.ahead intake.old intake.new) }
        ensures err { IfErr result (Lost S.asked self.old.ahead intake.old intake.new need) }
        ensures memory { Grows need self.old.memory self.new.memory }
        ensures refused { IfErr result (λ fault. fault ≡ Memory → self.old.memory < need) }
    {
        self.from = make_room(&mut self.bytes, self.from, self.count, need)?;
        let end = self.from + self.count;
        let Ok(got) = read_behind(intake, &mut self.bytes, end) else {
            return Err(CaptureFault::Read);
        };
        self.count += got;
        Ok(got)
    }
}

/// Some bytes of a buffer.
fn piece_of(bytes: &[u8], place: usize, count: usize) -> &[u8]
    requires { place + count ≤ length bytes.now }
    ensures { result.now ≡ piece bytes.now place count }
{
    let (_, rest) = bytes.split_at(place);
    let (front, _) = rest.split_at(count);
    front
}

/// Makes room for `need` bytes from those ahead on: moves these to the front, and grows the buffer only where it has fewer,
/// and by no more.
///
/// Answers where the bytes ahead are then.
fn make_room(
    bytes: &mut Vec<u8>,
    from: usize,
    count: usize,
    need: usize,
) -> Result<usize, AllocError>
    requires held { from + count ≤ vec_len bytes.old }
    requires more { count < need }
    ensures room { IfOk result (λ at. at + need ≤ vec_len bytes.new) }
    ensures kept { IfOk result (λ at. piece bytes.new.items at count ≡ piece bytes.old.items from count) }
    ensures grows { vec_len bytes.old ≤ vec_len bytes.new }
    ensures most { vec_len bytes.new ≤ max need (vec_len bytes.old) }
    ensures memory { Grows need (vec_capacity bytes.old) (vec_capacity bytes.new) }
    ensures refused { OnErr result (vec_capacity bytes.old < need) }
{
    if need <= bytes.len() - from {
        return Ok(from);
    }
    move_to_front(bytes, from, count);
    grow(bytes, need)?;
    Ok(0)
}

/// Copies some bytes of a buffer to its front.
fn move_to_front(bytes: &mut Vec<u8>, from: usize, count: usize)
    requires { from + count ≤ vec_len bytes.old }
    ensures kept { piece bytes.new.items 0 count ≡ piece bytes.old.items from count }
    ensures len { vec_len bytes.new ≡ vec_len bytes.old }
    ensures capacity { vec_capacity bytes.new ≡ vec_capacity bytes.old }
{
    bytes.copy_within(from..from + count, 0);
}

/// Gives a buffer at least `need` bytes, and memory for no more.
fn grow(bytes: &mut Vec<u8>, need: usize) -> Result<(), AllocError>
    ensures room { OnOk result (need ≤ vec_len bytes.new) }
    ensures front { take (vec_len bytes.old) bytes.new.items ≡ bytes.old.items }
    ensures grows { vec_len bytes.old ≤ vec_len bytes.new }
    ensures most { vec_len bytes.new ≤ max need (vec_len bytes.old) }
    ensures memory { Grows need (vec_capacity bytes.old) (vec_capacity bytes.new) }
    ensures refused { OnErr result (vec_capacity bytes.old < need) }
{
    if bytes.len() < need {
        bytes.reserve_exact(need - bytes.len())?;
        lengthen(bytes, need);
    }
    Ok(())
}

/// Puts zeros behind the bytes of a buffer that has the room, until it has `size`.
fn lengthen(bytes: &mut Vec<u8>, size: usize)
    requires { size ≤ vec_capacity bytes.old }
    ensures len { vec_len bytes.new ≡ max size (vec_len bytes.old) }
    ensures front { take (vec_len bytes.old) bytes.new.items ≡ bytes.old.items }
    ensures capacity { vec_capacity bytes.new ≡ vec_capacity bytes.old }
{
    while bytes.len() < size {
        bytes.push_reserved(0);
    }
}

/// Reads once into the room from `end` on.
fn read_behind<S: Source>(
    intake: &mut Intake<S>,
    bytes: &mut Vec<u8>,
    end: usize,
) -> Result<usize, Failed>
    requires { end < vec_len bytes.old }
    ensures len { vec_len bytes.new ≡ vec_len bytes.old }
    ensures capacity { vec_capacity bytes.new ≡ vec_capacity bytes.old }
    ensures front { take end bytes.new.items ≡ take end bytes.old.items }
    ensures ok { IfOk result (CameOnce S.asked intake.old intake.new (drop end bytes.new.items)) }
    ensures err { OnErr result (FailedOnce S.asked intake.old intake.new) }
{
    ask(intake, &mut bytes[end..])
}
