//! A capture of mixed records, written to a file and shown to nowhere, beside the copying of that file.
//!
//! A copy reads and writes each byte of the file, so it is what any program must at least do that turns a file into another.

use crate::packets::{FROM, Packets, TO};
use ipx_cmd::decode;
use ipx_wire::{Intake, Operation, Outlet, write_rip};
use std::alloc::{AllocError, Global};
use std::fs::{self, File};
use std::io::{self, ErrorKind, Write};
use std::time::Instant;

/// How many records the capture has.
pub const RECORDS: u32 = 500_000;

/// How many records a round has.
const ROUND: u32 = 8;

/// Where the capture lies, and its copy.
const CAPTURE: &str = "out/records.pcap";

const COPY: &str = "out/records-copy.pcap";

/// The header of a file, lowest byte first.
const HEADER: [u8; 24] = [
    0xD4, 0xC3, 0xB2, 0xA1, 2, 0, 4, 0, 0, 0, 0, 0, 0, 0, 0, 0, 0, 0, 4, 0, 1, 0, 0, 0,
];

/// The addresses of a frame.
const ADDRESSES: [u8; 12] = [0xFF, 0xFF, 0xFF, 0xFF, 0xFF, 0xFF, 0, 0, 0, 0, 0, 0xAA];

/// What stands behind them in a frame of each kind, and in one that carries no IPX.
const TYPED: [u8; 2] = [0x81, 0x37];

const RAW: [u8; 2] = [0, 62];

const LLC: [u8; 5] = [0, 65, 0xE0, 0xE0, 0x03];

const SNAP: [u8; 10] = [0, 70, 0xAA, 0xAA, 0x03, 0, 0, 0, 0x81, 0x37];

const OTHER: [u8; 2] = [0x08, 0x00];

/// What was measured of a capture.
#[derive(Clone, Copy)]
pub struct Timed {
    /// The bytes of the file.
    pub bytes: u64,
    /// The nanoseconds that it took to copy it.
    pub copy: u128,
    /// The nanoseconds that it took to show it.
    pub show: u128,
}

/// Writes the capture, copies it and shows it.
pub fn measure_decode(rt: &HostRuntime, packets: &Packets) -> io::Result<Timed> {
    write_capture(rt, packets)?;
    let start = Instant::now(rt)?;
    let bytes = fs::copy(rt, CAPTURE, COPY)?;
    let copy = start.elapsed(rt)?.as_nanos();
    let start = Instant::now(rt)?;
    show(rt)?;
    let show = start.elapsed(rt)?.as_nanos();
    fs::remove_file(rt, COPY)?;
    fs::remove_file(rt, CAPTURE)?;
    Ok(Timed { bytes, copy, show })
}

fn show(rt: &HostRuntime) -> io::Result<()> {
    let mut intake = Intake::new(File::open(rt, CAPTURE)?);
    let mut outlet = Outlet::new(io::sink());
    match decode(rt.alloc(), &mut intake, &mut outlet) {
        Ok(_) => Ok(()),
        Err(_) => Err(ErrorKind::Other.into()),
    }
}

fn write_capture(rt: &HostRuntime, packets: &Packets) -> io::Result<()> {
    let Ok(round) = round_of(rt.alloc(), packets) else {
        return Err(ErrorKind::OutOfMemory.into());
    };
    let mut file = File::create(rt, CAPTURE)?;
    file.write_all(&HEADER)?;
    for _ in 0..RECORDS / ROUND {
        file.write_all(&round)?;
    }
    Ok(())
}

/// A round of records: routes, queries, services, networks crossed, other packets, and a frame without one.
fn round_of(alloc: Global, packets: &Packets) -> Result<Vec<u8>, AllocError> {
    let mut request = [0; 40];
    write_rip(
        FROM,
        TO,
        Operation::Request,
        &packets.routes[..1],
        &mut request,
    );
    let mut response = [0; 48];
    write_rip(
        FROM,
        TO,
        Operation::Response,
        &packets.routes[..2],
        &mut response,
    );
    let mut out = Vec::new(alloc);
    add_round(&mut out, packets, &request, &response)?;
    Ok(out)
}

fn add_round(
    out: &mut Vec<u8>,
    packets: &Packets,
    request: &[u8],
    response: &[u8],
) -> Result<(), AllocError> {
    add_record(out, &TYPED, request)?;
    add_record(out, &RAW, response)?;
    add_record(out, &LLC, &packets.query)?;
    add_record(out, &SNAP, &packets.propagated)?;
    add_record(out, &TYPED, &packets.query)?;
    add_record(out, &RAW, request)?;
    add_record(out, &OTHER, response)?;
    add_record(out, &TYPED, &packets.advertised)
}

/// Appends a record: its header, and a frame of a packet.
fn add_record(out: &mut Vec<u8>, kind: &[u8], packet: &[u8]) -> Result<(), AllocError> {
    let carried = kind.len().saturating_add(packet.len()).min(1500);
    let kept = (ADDRESSES.len() + carried) as u32;
    out.extend_from_slice(&[0; 8])?;
    out.extend_from_slice(&kept.to_le_bytes())?;
    out.extend_from_slice(&kept.to_le_bytes())?;
    out.extend_from_slice(&ADDRESSES)?;
    out.extend_from_slice(kind)?;
    out.extend_from_slice(packet)?;
    Ok(())
}
