//! Packets, their headers, and the networks that they have crossed.

use anyhow::Result;
use ipx_wire::{Crossed, CrossedFault, Header, Hex, Packet, PacketFault};

/// A packet, read from bytes.
pub fn packet(rt: &HostRuntime, bytes: &[u8]) -> Result<()> {
    match Packet::read(bytes) {
        Ok(packet) => {
            let Header { source, kind, .. } = packet.header();
            println!(rt; "{source} sent a packet of type {kind}")?;
        }
        Err(PacketFault::Short) => println!(rt; "a header has thirty bytes")?,
        Err(fault) => println!(rt; "{fault}")?,
    }
    // prints 00000020.0000000000BB.0453 sent a packet of type 1
    Ok(())
}

/// Why bytes are no packet, with the numbers.
pub fn measure(rt: &HostRuntime, bytes: &[u8]) -> Result<()> {
    if let Err(fault) = Packet::read(bytes) {
        println!(rt; "{fault}: {}", Packet::measure(bytes))?;
    }
    // prints a length beyond the last byte: 34 bytes came, and 65535 are counted
    Ok(())
}

/// A header, turned round and written.
pub fn header(rt: &HostRuntime, packet: &Packet<'_>) -> Result<()> {
    let header = packet.header();
    let answer = Header {
        source: header.destination,
        destination: header.source,
        ..header
    };
    let mut out = [0; Header::SIZE];
    answer.write(&mut out);
    println!(rt; "{}", Hex(&out))?;
    // prints FFFF00280001000000200000000000BB045300000020FFFFFFFFFFFF0453
    Ok(())
}

/// The networks that a packet has crossed.
pub fn crossed(rt: &HostRuntime, packet: &Packet<'_>) -> Result<()> {
    match Crossed::read(packet.header().control, packet.payload()) {
        Ok(crossed) => {
            for network in crossed.entries() {
                println!(rt; "it has crossed {network}")?;
            }
        }
        Err(CrossedFault::Short) => println!(rt; "there is no room for eight networks")?,
        Err(CrossedFault::Full) => println!(rt; "it has crossed eight networks or more")?,
    }
    // prints it has crossed 00000040
    Ok(())
}
