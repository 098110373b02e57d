//! What a writer takes, and that its failures are remembered.

use crate::same::same;
use ipx_wire::{Failed, Outlet};
use std::io;
use std::io::{ErrorKind, Write};

/// Takes at most `room` bytes a call, is interrupted at call number `last`, and counts the calls.
#[derive(Drop)]
struct Narrow<'a> {
    room: usize,
    calls: &'a mut u32,
    last: u32,
}

impl Write for Narrow<'_> {
    fn write(&mut self, buf: &[u8]) -> io::Result<usize> {
        *self.calls = self.calls.wrapping_add(1);
        if *self.calls == self.last {
            return Err(io::Error::from(ErrorKind::Interrupted));
        }
        Ok(buf.len().min(self.room))
    }

    fn flush(&mut self) -> io::Result<()> {
        Ok(())
    }
}

#[test]
fn takes_what_the_writer_takes(rt: HostRuntime) {
    let mut held = Vec::new(rt.alloc());
    let mut outlet = Outlet::new(&mut held);
    same(&rt, outlet.write(b"ab"), Ok(2));
    same(&rt, outlet.write(b""), Ok(0));
    same(&rt, outlet.write(b"c"), Ok(1));
    assert!(rt; !outlet.failed());
    drop(outlet);
    same(&rt, held.as_slice(), b"abc".as_slice());
}

#[test]
fn fails_where_the_writer_fails(rt: HostRuntime) {
    let mut calls = 0;
    let mut outlet = Outlet::new(Narrow {
        room: 2,
        calls: &mut calls,
        last: 2,
    });
    same(&rt, outlet.write(b"abc"), Ok(2));
    assert!(rt; !outlet.failed());
    same(&rt, outlet.write(b"c"), Err(Failed));
    assert!(rt; outlet.failed());
    drop(outlet);
    same(&rt, calls, 2);
}

#[test]
fn fails_where_the_writer_takes_none(rt: HostRuntime) {
    let mut calls = 0;
    let mut outlet = Outlet::new(Narrow {
        room: 0,
        calls: &mut calls,
        last: 9,
    });
    same(&rt, outlet.write(b""), Ok(0));
    assert!(rt; !outlet.failed());
    same(&rt, outlet.write(b"a"), Err(Failed));
    assert!(rt; outlet.failed());
    drop(outlet);
    same(&rt, calls, 2);
}
