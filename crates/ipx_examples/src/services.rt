//! Services, read and written.

use anyhow::Result;
use ipx_wire::{Address, Sap, SapEntry, SapFault, Service, ServiceName, write_sap};

/// A query or a response, read from the data of a packet.
pub fn sap(rt: &HostRuntime, data: &[u8]) -> Result<()> {
    match Sap::read(data) {
        Ok(Sap::Query { kind, .. }) => println!(rt; "who has type {kind:04X}?")?,
        Ok(Sap::Response { entries, .. }) => {
            for SapEntry { kind, address, .. } in entries.entries() {
                println!(rt; "type {kind:04X} is at {address}")?;
            }
        }
        Err(SapFault::Operation(number)) => println!(rt; "no operation has the number {number}")?,
        Err(fault) => println!(rt; "{fault}")?,
    }
    // prints type 0004 is at 00000030.0000000000CC.0451
    Ok(())
}

/// A name, read from its field.
pub fn service_name(rt: &HostRuntime, field: &[u8; 48]) -> Result<()> {
    match ServiceName::read(field) {
        Some(name) => println!(rt; "{name} has {} bytes", name.bytes().len())?,
        None => println!(rt; "a name ends with a zero, and isn't empty")?,
    }
    // prints ACCOUNTS has 8 bytes
    Ok(())
}

/// A response with one service, written.
pub fn service(rt: &HostRuntime, name: ServiceName, from: Address, to: Address) -> Result<()> {
    let service = Service {
        kind: 4,
        name,
        address: from,
        hops: 1,
    };
    let mut out = [0; 96];
    let size = write_sap(from, to, false, &[service], &mut out);
    println!(rt; "{name} in a packet of {size} bytes")?;
    // prints ACCOUNTS in a packet of 96 bytes
    Ok(())
}
