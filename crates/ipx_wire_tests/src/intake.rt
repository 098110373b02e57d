//! How often a reader is asked, and that its failures are remembered.

use crate::same::same;
use ipx_wire::{Failed, Intake, MOST_CALLS};
use std::io;
use std::io::{ErrorKind, Read};

/// Gives `7` at each call but the third, which is interrupted, and counts the calls.
#[derive(Drop)]
struct Counted<'a> {
    asked: &'a mut u32,
}

impl Read for Counted<'_> {
    fn read(&mut self, buf: &mut [u8]) -> io::Result<usize> {
        *self.asked = self.asked.wrapping_add(1);
        if *self.asked == 3 {
            return Err(io::Error::from(ErrorKind::Interrupted));
        }
        if buf.is_empty() {
            return Ok(0);
        }
        buf[0] = 7;
        Ok(1)
    }
}

#[test]
fn gives_what_the_reader_gives(rt: HostRuntime) {
    let mut intake = Intake::new([1u8, 2, 3].as_slice());
    let mut buf = [0u8; 2];
    same(&rt, intake.read(&mut buf), Ok(2));
    same(&rt, buf, [1, 2]);
    same(&rt, intake.read(&mut buf), Ok(1));
    same(&rt, buf, [3, 2]);
    same(&rt, intake.read(&mut buf), Ok(0));
    same(&rt, intake.calls(), 3);
    assert!(rt; !intake.failed());
}

#[test]
fn asks_once_a_call(rt: HostRuntime) {
    let mut asked = 0;
    let mut intake = Intake::new(Counted { asked: &mut asked });
    let mut buf = [0u8; 4];
    same(&rt, intake.read(&mut buf), Ok(1));
    same(&rt, intake.read(&mut []), Ok(0));
    assert!(rt; !intake.failed());
    same(&rt, intake.read(&mut buf), Err(Failed));
    assert!(rt; intake.failed());
    same(&rt, intake.read(&mut buf), Ok(1));
    assert!(rt; intake.failed());
    same(&rt, intake.calls(), 4);
    drop(intake);
    same(&rt, asked, 4);
}

#[test]
fn asks_no_more_at_the_limit(rt: HostRuntime) {
    let mut asked = 10;
    let mut intake = Intake::new(Counted { asked: &mut asked });
    let mut buf = [0u8; 1];
    for _ in 1..MOST_CALLS {
        assert!(rt; intake.read(&mut buf) == Ok(1));
    }
    buf = [0];
    same(&rt, intake.read(&mut buf), Ok(1));
    same(&rt, buf, [7]);
    assert!(rt; !intake.failed());
    for _ in 0..3 {
        same(&rt, intake.read(&mut buf), Err(Failed));
        assert!(rt; intake.failed());
    }
    same(&rt, intake.calls(), 16_777_216);
    drop(intake);
    same(&rt, asked, 16_777_226);
}
