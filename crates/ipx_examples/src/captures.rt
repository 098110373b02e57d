//! Captures and frames.

use anyhow::Result;
use ipx_capture::{Capture, CaptureFault, Captured, Frame, FrameKind, frame, write_frame};
use ipx_recording::{Carried, Kept, Recording, Step, carried};
use ipx_wire::{Intake, Node};

/// The records of a capture.
pub fn capture(rt: &HostRuntime, file: &[u8]) -> Result<()> {
    let mut intake = Intake::new(file);
    let mut capture = Capture::from_reader(&mut intake, rt.alloc())?;
    for _ in 0..u64::MAX {
        let Some(Captured { number, bytes, .. }) = capture.next()? else {
            break;
        };
        println!(rt; "record {number} keeps {} bytes", bytes.len())?;
    }
    // prints record 1 keeps 2 bytes
    Ok(())
}

/// What is no capture.
pub fn capture_fault(rt: &HostRuntime, file: &[u8]) -> Result<()> {
    let mut intake = Intake::new(file);
    match Capture::from_reader(&mut intake, rt.alloc()) {
        Ok(_) => println!(rt; "this is a capture")?,
        Err(CaptureFault::Magic) => println!(rt; "this is no capture")?,
        Err(fault) => println!(rt; "{fault}")?,
    }
    // prints this is no capture
    Ok(())
}

/// What a frame carries.
pub fn frame_of(rt: &HostRuntime, bytes: &[u8]) -> Result<()> {
    match frame(bytes) {
        Frame::EthernetII(packet) => println!(rt; "by its type: {} bytes", packet.len())?,
        Frame::Raw(packet) => println!(rt; "raw: {} bytes", packet.len())?,
        Frame::Llc(packet) | Frame::Snap(packet) => println!(rt; "802.2: {} bytes", packet.len())?,
        Frame::Other => println!(rt; "no IPX")?,
    }
    // prints raw: 46 bytes
    Ok(())
}

/// A packet, put into a frame.
pub fn frame_kind(rt: &HostRuntime, to: Node, from: Node, packet: &[u8]) -> Result<()> {
    let mut out = [0; 1514];
    match write_frame(FrameKind::Raw, to, from, packet, &mut out) {
        Some(size) => println!(rt; "a frame of {size} bytes")?,
        None => println!(rt; "a frame of this kind can't carry it")?,
    }
    // prints a frame of 60 bytes
    Ok(())
}

/// The packets of a recording.
pub fn recording(rt: &HostRuntime, file: &[u8]) -> Result<()> {
    if file.len() < Recording::HEADER {
        return Ok(());
    }
    let (header, mut rest) = file.split_at(Recording::HEADER);
    let mut recording = Recording::begin(header)?;
    for _ in 0..u64::MAX {
        match recording.step(rest)? {
            Step::Wants(_) => break,
            Step::Passed(size) => rest = &rest[size..],
            Step::Packet(Kept { link, size, .. }) => {
                println!(rt; "a packet of link type {link} keeps {size} bytes")?;
                rest = &rest[4..];
                rest = &rest[size..];
            }
        }
    }
    match recording.end(rest) {
        None => println!(rt; "the file is whole")?,
        Some(fault) => println!(rt; "{fault}")?,
    }
    // prints a packet of link type 1 keeps 2 bytes
    // prints the file is whole
    Ok(())
}

/// What is no recording.
pub fn recording_fault(rt: &HostRuntime, bytes: &[u8]) -> Result<()> {
    match Recording::begin(bytes) {
        Ok(_) => println!(rt; "this is a recording")?,
        Err(fault) => println!(rt; "{fault}")?,
    }
    // prints the file ends inside its first section's header
    Ok(())
}

/// What a recorded packet carries.
pub fn carried_by(rt: &HostRuntime, bytes: &[u8]) -> Result<()> {
    match carried(1, bytes) {
        Carried::Framed(Frame::Other) => println!(rt; "no IPX")?,
        Carried::Framed(_) => println!(rt; "in a frame")?,
        Carried::Ppp(packet) => println!(rt; "over a modem: {} bytes", packet.len())?,
        Carried::Udp(packet) => println!(rt; "in a datagram: {} bytes", packet.len())?,
    }
    // prints in a frame
    Ok(())
}
