//! Routing information, read and written.

use anyhow::Result;
use ipx_wire::{Address, Header, Hex, Network, Operation, Rip, RipEntry, RipFault, write_rip};

/// Routing information, read from the data of a packet.
pub fn rip(rt: &HostRuntime, data: &[u8]) -> Result<()> {
    match Rip::read(data) {
        Ok(rip) => {
            for RipEntry { network, ticks, .. } in rip.entries() {
                println!(rt; "network {network} is {ticks} ticks away")?;
            }
        }
        Err(RipFault::Operation(number)) => println!(rt; "no operation has the number {number}")?,
        Err(fault) => println!(rt; "{fault}")?,
    }
    // prints network 00000030 is 2 ticks away
    Ok(())
}

/// A response with one entry, written.
pub fn rip_entry(rt: &HostRuntime, from: Address, to: Address) -> Result<()> {
    let entry = RipEntry {
        network: Network(0x30),
        hops: 1,
        ticks: 2,
    };
    let mut out = [0; 40];
    let size = write_rip(from, to, Operation::Response, &[entry], &mut out);
    println!(rt; "{}", Hex(&out[Header::SIZE..size]))?;
    // prints 00020000003000010002
    Ok(())
}
