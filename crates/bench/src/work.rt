//! What is done with one packet, or with many of those that are written.

use crate::packets::{FROM, Packets, TO};
use ipx_wire::{
    Crossed, Network, Operation, Packet, Rip, Sap, SapEntries, write_crossed, write_forwarded,
    write_query, write_rip, write_sap,
};

/// Reads the header.
pub fn control_of(bytes: &[u8]) -> u64 {
    match Packet::read(bytes) {
        Ok(packet) => {
            let header = packet.header();
            u64::from(header.control) ^ u64::from(header.source.network.0)
        }
        Err(_) => 0,
    }
}

/// Reads a response of routes and each of its entries.
pub fn routes_of(bytes: &[u8]) -> u64 {
    let Ok(packet) = Packet::read(bytes) else {
        return 0;
    };
    let Ok(rip) = Rip::read(packet.payload()) else {
        return 0;
    };
    let mut seen = 0u64;
    for entry in rip.entries() {
        seen = seen.wrapping_add(u64::from(entry.ticks) ^ u64::from(entry.network.0));
    }
    seen
}

/// Reads a response of services and each of its entries.
pub fn services_of(bytes: &[u8]) -> u64 {
    let Ok(packet) = Packet::read(bytes) else {
        return 0;
    };
    match Sap::read(packet.payload()) {
        Ok(Sap::Response { entries, .. }) => entries_of(&entries),
        _ => 0,
    }
}

fn entries_of(entries: &SapEntries<'_>) -> u64 {
    let mut seen = 0u64;
    for place in 0..entries.len() {
        let entry = entries.entry(place);
        seen = seen.wrapping_add(u64::from(entry.hops) ^ u64::from(entry.kind));
    }
    seen
}

/// Reads the networks crossed, and looks for one.
pub fn crossed_of(bytes: &[u8]) -> u64 {
    let Ok(packet) = Packet::read(bytes) else {
        return 0;
    };
    match Crossed::read(packet.header().control, packet.payload()) {
        Ok(crossed) => u64::from(crossed.contains(Network(0x14))),
        Err(_) => 1,
    }
}

/// Writes the packet as it is forwarded.
pub fn forwarded_of(bytes: &[u8]) -> u64 {
    let mut out = [0u8; 62];
    match Packet::read(bytes) {
        Ok(packet) if packet.header().control < 255 && packet.bytes().len() <= 62 => {
            write_forwarded(&packet, &mut out);
            any_of(&out)
        }
        _ => 0,
    }
}

/// Writes the packet as it is propagated.
pub fn propagated_of(bytes: &[u8]) -> u64 {
    let mut out = [0u8; 62];
    match Packet::read(bytes) {
        Ok(packet)
            if packet.header().control < 8
                && packet.payload().len() >= 32
                && packet.bytes().len() <= 62 => {
            write_crossed(&packet, Network(0x10), Network(0x20), &mut out);
            any_of(&out)
        }
        _ => 0,
    }
}

/// A byte at a place that the packet tells, so that all must be written.
fn any_of(out: &[u8; 62]) -> u64 {
    u64::from(out[usize::from(out[21]) % 62])
}

/// Writes that many responses of routes.
pub fn write_routes(packets: &Packets, turns: u32) -> u64 {
    let mut routes = packets.routes;
    let mut out = [0u8; 432];
    let mut seen = 0u64;
    for turn in 0..turns {
        routes[0].ticks = (turn % 65_536) as u16;
        write_rip(FROM, TO, Operation::Response, &routes, &mut out);
        seen = seen.wrapping_add(u64::from(out[turn as usize % 432]));
    }
    seen
}

/// Writes that many responses of services.
pub fn write_services(packets: &Packets, turns: u32) -> u64 {
    let mut out = [0u8; 480];
    let mut seen = 0u64;
    for turn in 0..turns {
        write_sap(FROM, TO, turn % 2 == 0, &packets.services, &mut out);
        seen = seen.wrapping_add(u64::from(out[turn as usize % 480]));
    }
    seen
}

/// Writes that many queries.
pub fn write_queries(turns: u32) -> u64 {
    let mut out = [0u8; 34];
    let mut seen = 0u64;
    for turn in 0..turns {
        write_query(FROM, TO, false, (turn % 65_536) as u16, &mut out);
        seen = seen.wrapping_add(u64::from(out[turn as usize % 34]));
    }
    seen
}
