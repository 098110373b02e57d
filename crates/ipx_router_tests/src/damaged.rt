//! Damaged packets and floods: what readers and a router answer, beside what is decided here by plain positions of bytes.

mod decided;
mod floods;
mod given;

use crate::damaged::decided::{Port, decided, read_alike};
use crate::damaged::given::{PACKETS, PROPAGATED, RESPONSE};
use crate::same::same;
use crate::watched::{B, Watched, entry};
use ipx_router::Outcome;
use std::alloc::Global;
use std::test::Fail;

/// The ports of the router that hears them.
const PORTS: [Port; 2] = [
    Port {
        network: 0x10,
        node: 1,
    },
    Port {
        network: 0x20,
        node: 2,
    },
];

/// A router that has learned one route, to network 30 by port 1.
fn learned(heap: Global) -> Result<Watched, Fail> {
    let mut watched = Watched::started(heap)?;
    watched.hear(1, B, &[entry(0x30, 1, 2)])?;
    Ok(watched)
}

/// Whether what a router sent for one packet is no more than it may be: two packets, one for each port, each as long as the
/// packet that came or as its own may be.
fn is_within_bounds(watched: &Watched, bytes: &[u8]) -> bool {
    let most = bytes.len().max(480);
    let short = |k| watched.sent(k).is_none_or(|(_, size)| size <= most);
    watched.outbox.len() <= 2
        && short(0)
        && short(1)
        && watched.router.routes() <= 50
        && watched.router.services() <= 8
}

/// How many of the ports answer these bytes in another way than is decided here, or send too much; and one more where a
/// reader does.
fn faults(heap: Global, bytes: &[u8]) -> Result<usize, Fail> {
    let mut faults = usize::from(!read_alike(bytes));
    for (number, port) in [(0, 0), (1, 1)] {
        let mut watched = learned(heap)?;
        let outcome = watched.packet(number, bytes)?;
        if outcome != decided(&PORTS, port, bytes) || !is_within_bounds(&watched, bytes) {
            faults = faults.wrapping_add(1);
        }
    }
    Ok(faults)
}

#[test]
fn every_beginning_of_a_packet_is_judged_by_its_bytes(rt: HostRuntime) -> Result<(), Fail> {
    let mut found = 0usize;
    for packet in PACKETS {
        for size in 0..=packet.len() {
            found = found.wrapping_add(faults(rt.alloc(), &packet[..size])?);
        }
    }
    same(&rt, found, 0);
    Ok(())
}

/// How many answers to a packet, with each byte changed to each other value in turn, are wrong.
fn faults_of_changes(heap: Global, packet: &[u8]) -> Result<usize, Fail> {
    let mut bytes = Vec::new(heap);
    bytes.extend_from_slice(packet)?;
    let mut found = 0usize;
    for place in 0..bytes.len() {
        let kept = bytes[place];
        for value in 0..=u8::MAX {
            bytes[place] = value;
            found = found.wrapping_add(faults(heap, &bytes)?);
        }
        bytes[place] = kept;
    }
    Ok(found)
}

#[test]
fn every_change_of_a_byte_of_a_response_is_judged_by_its_bytes(
    rt: HostRuntime,
) -> Result<(), Fail> {
    same(&rt, faults_of_changes(rt.alloc(), RESPONSE)?, 0);
    Ok(())
}

#[test]
fn every_change_of_a_byte_of_a_propagated_packet_is_judged_by_its_bytes(
    rt: HostRuntime,
) -> Result<(), Fail> {
    same(&rt, faults_of_changes(rt.alloc(), PROPAGATED)?, 0);
    Ok(())
}

/// What is decided here isn't one answer for all.
#[test]
fn whole_packets_are_heard_and_sent_on(rt: HostRuntime) {
    let wanted = [
        (0, Outcome::Answered),
        (1, Outcome::Learned),
        (0, Outcome::Forwarded),
        (0, Outcome::Propagated),
        (1, Outcome::Learned),
        (1, Outcome::Learned),
    ];
    for (packet, (port, outcome)) in PACKETS.into_iter().zip(wanted) {
        same(&rt, decided(&PORTS, port, packet), outcome);
    }
}
