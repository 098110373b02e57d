//! Shows what packets hold. Standard input has a packet a line, as hexadecimal digits; standard output gets a line for each. A line that is no
//! packet is told with its fault, and skipped.
#![tactic(auto)]

use hex::FromHexError;
use ipx_inside::Inside;
use ipx_wire::Packet;
use std::io;
use std::io::{BufRead, BufReader, ErrorKind};

fn main(rt: HostRuntime) -> io::Result<()> {
    let lines = BufReader::new(rt.alloc(), rt.reader())?.lines(rt.alloc());
    for line in lines {
        let line = line?;
        match hex::decode(rt.alloc(), line.trim()) {
            Ok(bytes) => show_packet(&rt, bytes.as_slice())?,
            Err(FromHexError::OutOfMemory) => return Err(ErrorKind::OutOfMemory.into()),
            Err(fault) => println!(rt; "skipped: {fault}")?,
        }
    }
    Ok(())
}

fn show_packet(rt: &HostRuntime, bytes: &[u8]) -> io::Result<()> {
    match Packet::read(bytes) {
        Ok(packet) => {
            let header = packet.header();
            let inside = Inside::read(&header, packet.payload());
            println!(rt; "{inside}")
        }
        Err(fault) => println!(rt; "skipped: {fault}"),
    }
}
