//! Shows packets in words. Standard input has a packet a line, as hexadecimal digits; standard output gets a line for each field
//! of its header, and for each entry of its data. A line that is no packet is told with its fault, and skipped.
#![tactic(auto)]

use hex::FromHexError;
use ipx_wire::{Crossed, Header, Packet, Rip, Sap, SapEntry, Socket};
use std::io;
use std::io::{BufRead, BufReader, ErrorKind};

fn main(rt: HostRuntime) -> io::Result<()> {
    let lines = BufReader::new(rt.alloc(), rt.reader())?.lines(rt.alloc());
    for line in lines {
        let line = line?;
        match hex::decode(rt.alloc(), line.trim()) {
            Ok(bytes) => show_packet(&rt, bytes.as_slice())?,
            Err(FromHexError::OutOfMemory) => return Err(ErrorKind::OutOfMemory.into()),
            Err(fault) => println!(rt; "skipped: {fault}")?,
        }
    }
    Ok(())
}

fn show_packet(rt: &HostRuntime, bytes: &[u8]) -> io::Result<()> {
    match Packet::read(bytes) {
        Ok(packet) => {
            let header = packet.header();
            show_header(rt, &header)?;
            show_data(rt, &header, packet.payload())
        }
        Err(fault) => println!(rt; "skipped: {fault}"),
    }
}

fn show_header(rt: &HostRuntime, header: &Header) -> io::Result<()> {
    println!(rt; "packet")?;
    println!(rt; "  source {}", header.source)?;
    println!(rt; "  destination {}", header.destination)?;
    println!(rt; "  type {}", header.kind)?;
    println!(rt; "  transport control {}", header.control)?;
    println!(rt; "  length {}", header.length)
}

/// What the data are is known by the type, or by the socket that the packet goes to.
fn show_data(rt: &HostRuntime, header: &Header, data: &[u8]) -> io::Result<()> {
    if header.kind == Header::PROPAGATED {
        return show_crossed(rt, header.control, data);
    }
    match header.destination.socket {
        Socket::RIP => show_routes(rt, data),
        Socket::SAP => show_services(rt, data),
        _ => println!(rt; "  data {} bytes", data.len()),
    }
}

fn show_crossed(rt: &HostRuntime, control: u8, data: &[u8]) -> io::Result<()> {
    match Crossed::read(control, data) {
        Ok(crossed) => {
            for network in crossed.entries() {
                println!(rt; "  crossed {network}")?;
            }
            Ok(())
        }
        Err(fault) => println!(rt; "  bad propagation: {fault}"),
    }
}

fn show_routes(rt: &HostRuntime, data: &[u8]) -> io::Result<()> {
    match Rip::read(data) {
        Ok(rip) => {
            println!(rt; "  RIP {}", rip.operation())?;
            for entry in rip.entries() {
                println!(rt;
                    "  route {}: hops {}, ticks {}",
                    entry.network, entry.hops, entry.ticks
                )?;
            }
            Ok(())
        }
        Err(fault) => println!(rt; "  bad RIP: {fault}"),
    }
}

fn show_services(rt: &HostRuntime, data: &[u8]) -> io::Result<()> {
    match Sap::read(data) {
        Ok(Sap::Query { nearest, kind }) => println!(rt;
            "  SAP {} query for type {kind:04X}",
            scope(nearest)
        ),
        Ok(Sap::Response { nearest, entries }) => {
            println!(rt; "  SAP {} response", scope(nearest))?;
            for entry in entries.entries() {
                show_service(rt, &entry)?;
            }
            Ok(())
        }
        Err(fault) => println!(rt; "  bad SAP: {fault}"),
    }
}

fn show_service(rt: &HostRuntime, entry: &SapEntry) -> io::Result<()> {
    let SapEntry {
        kind,
        name,
        address,
        hops,
    } = entry;
    match name {
        Some(name) => println!(rt; "  service {kind:04X} {name} at {address}: hops {hops}"),
        None => println!(rt; "  service {kind:04X} without a name at {address}: hops {hops}"),
    }
}

fn scope(nearest: bool) -> &'static str {
    if nearest { "nearest" } else { "general" }
}
