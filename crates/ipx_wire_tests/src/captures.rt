//! Captures, called directly: a record that there is no memory for.

use crate::same::same;
use ipx_capture::{Capture, CaptureFault};
use ipx_wire::Intake;
use std::alloc::Global;
use std::io::Read;
use std::test::Fail;

/// The header of a capture, highest byte first.
const HEADER: &[u8; 24] = b"\xA1\xB2\xC3\xD4\0\x02\0\x04\0\0\0\0\0\0\0\0\0\x04\0\0\0\0\0\x01";

/// A capture of three records: of 20 bytes, of 10,000, which are more than the buffer has, and of none.
fn file() -> [u8; 10_092] {
    let mut bytes = [0; 10_092];
    bytes[..24].copy_from_slice(HEADER);
    bytes[35] = 20;
    bytes[39] = 20;
    bytes[70..72].copy_from_slice(&[0x27, 0x10]);
    bytes[74..76].copy_from_slice(&[0x27, 0x10]);
    bytes
}

/// What a call of `next` tells of a record: its number, its bytes on the wire, and those that were kept.
type Told = Result<Option<(u64, u32, usize)>, CaptureFault>;

fn next<R: Read>(capture: &mut Capture<'_, R>) -> Told {
    match capture.next()? {
        Some(it) => Ok(Some((it.number, it.wire, it.bytes.len()))),
        None => Ok(None),
    }
}

/// What the first four calls tell of a capture.
fn four(heap: Global, file: &[u8]) -> Result<[Told; 4], CaptureFault> {
    let mut intake = Intake::new(file);
    let mut capture = Capture::from_reader(&mut intake, heap)?;
    let first = next(&mut capture);
    let second = next(&mut capture);
    let third = next(&mut capture);
    Ok([first, second, third, next(&mut capture)])
}

/// It passes whichever request for memory is refused: `dev/refusals` tries each on the built test.
#[test]
fn a_record_without_memory_is_refused_for_good(rt: HostRuntime) -> Result<(), Fail> {
    let file = file();
    let told = match four(rt.alloc(), &file) {
        // (the first request is that for the buffer)
        Err(CaptureFault::Memory) => four(rt.alloc(), &file)?,
        told => told?,
    };
    let first = Ok(Some((1, 20, 20)));
    let refused = Err(CaptureFault::Memory);
    let wanted = if told[1] == refused {
        [first, refused, refused, refused]
    } else {
        let second = Ok(Some((2, 10_000, 10_000)));
        [first, second, Ok(Some((3, 0, 0))), Ok(None)]
    };
    same(&rt, told, wanted);
    Ok(())
}
