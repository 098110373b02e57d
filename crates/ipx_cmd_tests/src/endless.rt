//! Readers without end, and captures that end too early.

use crate::same::same;
use ipx_cmd::{Ended, RunFault, decode, replay};
use ipx_wire::{Intake, Outlet};
use std::alloc::Global;
use std::io;
use std::io::Read;

/// Gives two bytes by turns without end, at most `most` a call.
#[derive(Drop)]
struct Endless {
    first: u8,
    second: u8,
    turn: bool,
    most: usize,
}

impl Endless {
    fn new(first: u8, second: u8, most: usize) -> Endless {
        Endless {
            first,
            second,
            turn: false,
            most,
        }
    }
}

impl Read for Endless {
    fn read(&mut self, buf: &mut [u8]) -> io::Result<usize> {
        let count = buf.len().min(self.most);
        for byte in &mut buf[..count] {
            *byte = if self.turn { self.second } else { self.first };
            self.turn = !self.turn;
        }
        Ok(count)
    }
}

/// How a run of `replay` on a reader ends, what it wrote, and how often the reader was asked.
fn replayed(heap: Global, reader: Endless) -> (Result<Ended, RunFault>, Vec<u8>, u32) {
    let mut text = Vec::new(heap);
    let mut intake = Intake::new(reader);
    let mut outlet = Outlet::new(&mut text);
    let answer = replay(heap, &mut intake, &mut outlet);
    drop(outlet);
    (answer, text, intake.calls())
}

/// How a run of `decode` on a reader ends, and what it wrote.
fn decoded<R: Read + Drop>(heap: Global, reader: R) -> (Result<Ended, RunFault>, Vec<u8>) {
    let mut text = Vec::new(heap);
    let mut intake = Intake::new(reader);
    let mut outlet = Outlet::new(&mut text);
    let answer = decode(heap, &mut intake, &mut outlet);
    drop(outlet);
    (answer, text)
}

#[test]
fn lines_without_end_are_read_up_to_the_limit_of_calls(rt: HostRuntime) {
    let reader = Endless::new(b'\n', b'\n', 1);
    let (answer, text, calls) = replayed(rt.alloc(), reader);
    same(&rt, answer, Err(RunFault::Read));
    same(&rt, calls, 16_777_216);
    same(&rt, text.len(), 0);
}

#[test]
fn wrong_lines_without_end_are_refused_at_the_first(rt: HostRuntime) {
    for most in [1, 2, 9999] {
        let reader = Endless::new(b'x', b'\n', most);
        let (answer, text, _) = replayed(rt.alloc(), reader);
        same(&rt, (most, answer), (most, Ok(Ended::BadInput)));
        same(&rt, text.as_slice(), b"line 1: command\n".as_slice());
    }
}

#[test]
fn zeros_without_end_are_no_capture(rt: HostRuntime) {
    for most in [1, 9999] {
        let (answer, text) = decoded(rt.alloc(), Endless::new(0, 0, most));
        same(&rt, (most, answer), (most, Ok(Ended::BadInput)));
        same(&rt, text.as_slice(), b"record 0: Magic\n".as_slice());
    }
}

/// A request for all routes in a frame, as a capture with the lowest byte first.
const CAPTURE: &[u8] = b"\xD4\xC3\xB2\xA1\x02\0\x04\0\0\0\0\0\0\0\0\0\0\0\x04\0\x01\0\0\0\
\0\0\0\0\0\0\0\0\x36\0\0\0\x36\0\0\0\
\xFF\xFF\xFF\xFF\xFF\xFF\0\0\0\0\0\xAA\x81\x37\
\xFF\xFF\0\x28\0\x01\0\0\0\x10\xFF\xFF\xFF\xFF\xFF\xFF\x04\x53\0\0\0\x10\0\0\0\0\0\xAA\x04\x53\
\0\x01\xFF\xFF\xFF\xFF\xFF\xFF\xFF\xFF";

/// Its text.
const LINES: &[u8] =
    b"record 1 EthernetII 00000010.0000000000AA.0453 00000010.FFFFFFFFFFFF.0453 tc 0 type 1 length 40\n\
rip request\nnet FFFFFFFF hops 65535 ticks 65535\n";

/// How a capture ends, and its text, that is cut after a number of bytes.
fn wanted(size: usize) -> (Ended, &'static [u8]) {
    if size < 24 {
        (Ended::BadInput, b"record 0: CutHeader\n")
    } else if size == 24 {
        (Ended::Done, b"")
    } else if size < CAPTURE.len() {
        (Ended::BadInput, b"record 1: CutRecord\n")
    } else {
        (Ended::Done, LINES)
    }
}

#[test]
fn a_capture_may_end_at_any_byte(rt: HostRuntime) {
    for size in 0..=CAPTURE.len() {
        let (answer, text) = decoded(rt.alloc(), &CAPTURE[..size]);
        let (ended, lines) = wanted(size);
        same(&rt, (size, answer), (size, Ok(ended)));
        same(&rt, text.as_slice(), lines);
    }
}
