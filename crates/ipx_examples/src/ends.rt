//! The two ends of a run, and memory that is missing.

use anyhow::Result;
use ipx_wire::{Failed, Intake, OutOfMemory, Outlet};
use std::alloc::Global;
use std::io;

/// Bytes of a reader.
pub fn intake(rt: &HostRuntime) -> Result<()> {
    let mut intake = Intake::new("second 60\n".as_bytes());
    let mut piece = [0; 6];
    match intake.read(&mut piece) {
        Ok(count) => println!(rt; "{count} bytes after {} call", intake.calls())?,
        Err(Failed) => println!(rt; "the reader failed, and wasn't asked again")?,
    }
    // prints 6 bytes after 1 call
    Ok(())
}

/// Bytes for a writer.
pub fn outlet(rt: &HostRuntime) -> Result<()> {
    let mut outlet = Outlet::new(io::writer(rt));
    if let Err(Failed) = outlet.write(b"quiet\n") {
        eprintln!(rt; "the writer failed, and nothing is written twice")?;
    }
    // prints quiet
    Ok(())
}

/// A copy of bytes that were lent.
pub fn copied(alloc: Global, bytes: &[u8]) -> Result<Vec<u8>, OutOfMemory> {
    let mut copy = Vec::new(alloc);
    copy.extend_from_slice(bytes)?;
    Ok(copy)
}
