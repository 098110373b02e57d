//! Runs of `replay` and `decode` on devices that give or take few bytes a call, or fail. Whole scripts stand in `tests/replay`,
//! captures in `tests/decode`.

use crate::same::same;
use ipx_cmd::{Ended, RunFault, decode, replay};
use ipx_wire::{Intake, Outlet};
use std::alloc::Global;
use std::cell::Cell;
use std::io;
use std::io::{ErrorKind, Read, Write};

/// Two ports, a start, a packet that is dropped, one that is heard, and routes. The last line has no line feed.
const SCRIPT: &[u8] =
    b"port 00000010 000000000001 1 576\nport 00000020 000000000002 1 576\nstart\nin 0 -\n\
in 1 FFFF0028000100000020FFFFFFFFFFFF0453000000200000000000BB045300020000003000010002\nroutes\n\nroutes";

/// How a run of `replay` on these devices ends, and whether the reader failed, and the writer.
fn replayed<R: Read + Drop, W: Write + Drop>(
    heap: Global,
    reader: R,
    writer: W,
) -> (Result<Ended, RunFault>, bool, bool) {
    let mut intake = Intake::new(reader);
    let mut outlet = Outlet::new(writer);
    let answer = replay(heap, &mut intake, &mut outlet);
    (answer, intake.failed(), outlet.failed())
}

/// How a run of `decode` on them ends.
fn decoded<R: Read + Drop, W: Write + Drop>(
    heap: Global,
    reader: R,
    writer: W,
) -> Result<Ended, RunFault> {
    let mut intake = Intake::new(reader);
    let mut outlet = Outlet::new(writer);
    decode(heap, &mut intake, &mut outlet)
}

/// How a run ends that plays a script from memory, and what it wrote.
fn play(heap: Global, script: &[u8]) -> (Result<Ended, RunFault>, Vec<u8>) {
    let mut text = Vec::new(heap);
    let (answer, _, _) = replayed(heap, script, &mut text);
    (answer, text)
}

/// The lines of these bytes that have their end.
fn closed(given: &[u8]) -> &[u8] {
    let open = given
        .rsplit(|byte| *byte == b'\n')
        .next()
        .map_or(0, |line| line.len());
    &given[..given.len().saturating_sub(open)]
}

/// The text of the lines of the script that are whole in its first bytes, of which so many were given.
fn told(heap: Global, given: usize) -> Vec<u8> {
    let (_, text) = play(heap, closed(&SCRIPT[..SCRIPT.len().min(given)]));
    text
}

/// Gives at most `most` bytes a call, and is interrupted at call number `last`.
#[derive(Drop)]
struct Slow<'a> {
    rest: &'a [u8],
    most: usize,
    calls: usize,
    last: usize,
}

impl Read for Slow<'_> {
    fn read(&mut self, buf: &mut [u8]) -> io::Result<usize> {
        self.calls = self.calls.wrapping_add(1);
        if self.calls == self.last {
            return Err(io::Error::from(ErrorKind::Interrupted));
        }
        let count = buf.len().min(self.most).min(self.rest.len());
        let (given, rest) = self.rest.split_at(count);
        buf[..count].copy_from_slice(given);
        self.rest = rest;
        Ok(count)
    }
}

/// Takes at most `most` bytes a call. At call number `last` it takes none, or fails.
#[derive(Drop)]
struct Narrow<'a> {
    taken: &'a mut Vec<u8>,
    most: usize,
    calls: usize,
    last: usize,
    fails: bool,
}

impl Write for Narrow<'_> {
    fn write(&mut self, buf: &[u8]) -> io::Result<usize> {
        self.calls = self.calls.wrapping_add(1);
        if self.calls == self.last {
            return if self.fails {
                Err(io::Error::from(ErrorKind::Interrupted))
            } else {
                Ok(0)
            };
        }
        let count = buf.len().min(self.most);
        match self.taken.extend_from_slice(&buf[..count]) {
            Ok(()) => Ok(count),
            Err(_) => Err(io::Error::from(ErrorKind::OutOfMemory)),
        }
    }

    fn flush(&mut self) -> io::Result<()> {
        Ok(())
    }
}

/// Gives at most `most` bytes a call, and notes at each how many bytes were written until then.
#[derive(Drop)]
struct Watching<'a> {
    rest: &'a [u8],
    most: usize,
    written: &'a Cell<usize>,
    seen: &'a mut Vec<usize>,
}

impl Read for Watching<'_> {
    fn read(&mut self, buf: &mut [u8]) -> io::Result<usize> {
        if self.seen.push(self.written.get()).is_err() {
            return Err(io::Error::from(ErrorKind::OutOfMemory));
        }
        let count = buf.len().min(self.most).min(self.rest.len());
        let (given, rest) = self.rest.split_at(count);
        buf[..count].copy_from_slice(given);
        self.rest = rest;
        Ok(count)
    }
}

/// Counts the bytes that it takes.
#[derive(Drop)]
struct Counting<'a> {
    written: &'a Cell<usize>,
}

impl Write for Counting<'_> {
    fn write(&mut self, buf: &[u8]) -> io::Result<usize> {
        self.written.set(self.written.get().wrapping_add(buf.len()));
        Ok(buf.len())
    }

    fn flush(&mut self) -> io::Result<()> {
        Ok(())
    }
}

/// Gives comment signs without end, and counts the calls.
#[derive(Drop)]
struct Endless<'a> {
    calls: &'a mut usize,
}

impl Read for Endless<'_> {
    fn read(&mut self, buf: &mut [u8]) -> io::Result<usize> {
        *self.calls = self.calls.wrapping_add(1);
        buf.fill(b'#');
        Ok(buf.len())
    }
}

#[test]
fn a_byte_at_a_time_changes_nothing(rt: HostRuntime) {
    let heap = rt.alloc();
    let (answer, wanted) = play(heap, SCRIPT);
    same(&rt, answer, Ok(Ended::Done));
    for (given, taken) in [(1, 1), (1, 9999), (9999, 1), (7, 50), (36, 2)] {
        let mut text = Vec::new(heap);
        let reader = Slow {
            rest: SCRIPT,
            most: given,
            calls: 0,
            last: 0,
        };
        let writer = Narrow {
            taken: &mut text,
            most: taken,
            calls: 0,
            last: 0,
            fails: false,
        };
        let (answer, _, _) = replayed(heap, reader, writer);
        same(&rt, (given, taken, answer), (given, taken, Ok(Ended::Done)));
        same(
            &rt,
            (given, taken, text.as_slice()),
            (given, taken, wanted.as_slice()),
        );
    }
}

/// At each call of the reader the text of all lines that it gave whole is written.
#[test]
fn lines_are_answered_before_more_is_asked_for(rt: HostRuntime) {
    let heap = rt.alloc();
    for most in [12, 40, 9999] {
        let written = Cell::new(0);
        let mut seen = Vec::new(heap);
        let reader = Watching {
            rest: SCRIPT,
            most,
            written: &written,
            seen: &mut seen,
        };
        let (answer, _, _) = replayed(heap, reader, Counting { written: &written });
        let calls = SCRIPT.len().div_ceil(most) + 1;
        same(
            &rt,
            (most, answer, seen.len()),
            (most, Ok(Ended::Done), calls),
        );
        for (call, count) in seen.iter().enumerate() {
            let wanted = told(heap, most.saturating_mul(call)).len();
            same(&rt, (most, call, *count), (most, call, wanted));
        }
    }
}

/// What was written when a reader fails is the text of all lines that were given whole.
#[test]
fn a_failed_read_leaves_the_text_so_far(rt: HostRuntime) {
    let heap = rt.alloc();
    // The last call is the one that would tell the end.
    for last in 1..=SCRIPT.len().div_ceil(12) + 1 {
        let mut text = Vec::new(heap);
        let reader = Slow {
            rest: SCRIPT,
            most: 12,
            calls: 0,
            last,
        };
        let (answer, failed, _) = replayed(heap, reader, &mut text);
        let wanted = told(heap, 12 * (last - 1));
        same(
            &rt,
            (last, answer, failed),
            (last, Err(RunFault::Read), true),
        );
        same(&rt, (last, text.as_slice()), (last, wanted.as_slice()));
    }
}

#[test]
fn a_failed_write_leaves_a_prefix_of_the_text(rt: HostRuntime) {
    let heap = rt.alloc();
    let (_, wanted) = play(heap, SCRIPT);
    for fails in [false, true] {
        for last in 1..=wanted.len() {
            let mut text = Vec::new(heap);
            let writer = Narrow {
                taken: &mut text,
                most: 1,
                calls: 0,
                last,
                fails,
            };
            let (answer, _, failed) = replayed(heap, SCRIPT, writer);
            same(
                &rt,
                (last, answer, failed),
                (last, Err(RunFault::Write), true),
            );
            same(&rt, (last, text.as_slice()), (last, &wanted[..last - 1]));
        }
    }
}

#[test]
fn a_line_too_long_asks_for_no_more(rt: HostRuntime) {
    let heap = rt.alloc();
    let mut calls = 0;
    let mut text = Vec::new(heap);
    let (answer, _, _) = replayed(heap, Endless { calls: &mut calls }, &mut text);
    same(&rt, answer, Ok(Ended::BadInput));
    same(&rt, text.as_slice(), b"line 1: long\n".as_slice());
    // 17 pieces of 8,192 bytes: the 131,201st byte is in the last one.
    same(&rt, calls, 17);
}

/// A capture of two records, each a frame that carries no IPX, of 14 bytes.
const CAPTURE: &[u8] = b"\xA1\xB2\xC3\xD4\x00\x02\x00\x04\0\0\0\0\0\0\0\0\0\0\0\0\0\0\0\x01\
\0\0\0\0\0\0\0\0\0\0\0\x0E\0\0\0\x0E\0\0\0\0\0\0\0\0\0\0\0\0\x08\0\
\0\0\0\0\0\0\0\0\0\0\0\x0E\0\0\0\x0E\0\0\0\0\0\0\0\0\0\0\0\0\x08\0";

/// Its text.
const LINES: &[u8] = b"record 1 Other\nrecord 2 Other\n";

/// Each record is written before the reader is asked again: what came before a failed read is the text of the records that
/// were given whole.
#[test]
fn a_failed_read_of_a_capture_leaves_its_records(rt: HostRuntime) {
    let heap = rt.alloc();
    // One byte a call; the last call is the one that would tell the end.
    for last in 1..=CAPTURE.len() + 1 {
        let mut text = Vec::new(heap);
        let reader = Slow {
            rest: CAPTURE,
            most: 1,
            calls: 0,
            last,
        };
        let answer = decoded(heap, reader, &mut text);
        let records = (last - 1).saturating_sub(24) / 30;
        same(&rt, (last, answer), (last, Err(RunFault::Read)));
        let wanted = &LINES[..LINES.len().min(15 * records)];
        same(&rt, (last, text.as_slice()), (last, wanted));
    }
}

#[test]
fn a_failed_write_of_a_capture_leaves_a_prefix(rt: HostRuntime) {
    let heap = rt.alloc();
    for fails in [false, true] {
        for last in 1..=LINES.len().div_ceil(7) {
            let mut text = Vec::new(heap);
            let writer = Narrow {
                taken: &mut text,
                most: 7,
                calls: 0,
                last,
                fails,
            };
            let answer = decoded(heap, CAPTURE, writer);
            same(&rt, (last, answer), (last, Err(RunFault::Write)));
            let wanted = &LINES[..LINES.len().min(7 * (last - 1))];
            same(&rt, (last, text.as_slice()), (last, wanted));
        }
    }
}

#[test]
fn a_capture_without_end_is_refused_at_once(rt: HostRuntime) {
    let heap = rt.alloc();
    let mut calls = 0;
    let mut text = Vec::new(heap);
    let answer = decoded(heap, Endless { calls: &mut calls }, &mut text);
    same(&rt, answer, Ok(Ended::BadInput));
    same(&rt, text.as_slice(), b"record 0: Magic\n".as_slice());
    same(&rt, calls, 1);
}
