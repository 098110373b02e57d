//! What a packet is when it is sent on.

use crate::same::same;
use ipx_wire::{Crossed, Network, Packet, write_crossed, write_forwarded};
use std::test::Fail;

/// From a node of network 10h to one of network 20h, with a checksum, and without data.
const LETTER: [u8; 30] = [
    0x12, 0x34, 0x00, 0x1E, 0x00, 0x00, 0x00, 0x00, 0x00, 0x20, 0x00, 0x00, 0x00, 0x00, 0x00, 0xCC,
    0x40, 0x03, 0x00, 0x00, 0x00, 0x10, 0x00, 0x00, 0x00, 0x00, 0x00, 0xAA, 0x40, 0x03,
];

/// The header of a call to everyone on network 10h, with a checksum, 33 bytes of data, and seven networks crossed.
const CALL: [u8; 30] = [
    0x12, 0x34, 0x00, 0x3F, 0x07, 0x14, 0x00, 0x00, 0x00, 0x10, 0xFF, 0xFF, 0xFF, 0xFF, 0xFF, 0xFF,
    0x04, 0x55, 0x00, 0x00, 0x00, 0x10, 0x00, 0x00, 0x00, 0x00, 0x00, 0xAA, 0x04, 0x55,
];

#[test]
fn sends_a_packet_on_without_its_padding(rt: HostRuntime) -> Result<(), Fail> {
    let mut padded = [0; 60];
    padded[..30].copy_from_slice(&LETTER);
    padded[4] = 15;
    let mut out = [0xEE; 32];
    let mut wanted = out;
    wanted[..30].copy_from_slice(&LETTER);
    wanted[4] = 16;
    let packet = Packet::read(&padded)?;
    assert!(rt; packet.header().control < 255 && packet.bytes().len() <= 32);
    same(&rt, write_forwarded(&packet, &mut out), 30);
    same(&rt, out, wanted);
    Ok(())
}

#[test]
fn propagates_a_packet_with_seven_networks_crossed(rt: HostRuntime) -> Result<(), Fail> {
    let mut came = [0x77; 63];
    came[..30].copy_from_slice(&CALL);
    let mut out = [0xEE; 65];
    let mut wanted = out;
    wanted[..63].copy_from_slice(&came);
    wanted[..2].copy_from_slice(&[0xFF, 0xFF]);
    wanted[4] = 8;
    wanted[9] = 0x20;
    wanted[58..62].copy_from_slice(&[0, 0, 0, 0x10]);
    let packet = Packet::read(&came)?;
    assert!(rt;
        packet.header().control == 7 && packet.payload().len() >= 32 && packet.bytes().len() <= 65
    );
    let count = write_crossed(&packet, Network(0x10), Network(0x20), &mut out);
    same(&rt, count, 63);
    same(&rt, out, wanted);
    Ok(())
}

#[test]
fn lists_the_network_of_arrival_for_the_next_router(rt: HostRuntime) -> Result<(), Fail> {
    let mut came = [0; 63];
    came[..30].copy_from_slice(&CALL);
    came[4] = 0;
    let mut out = [0xEE; 63];
    let packet = Packet::read(&came)?;
    assert!(rt;
        packet.header().control == 0 && packet.payload().len() >= 32 && packet.bytes().len() <= 63
    );
    let count = write_crossed(&packet, Network(0x10), Network(0x20), &mut out);
    same(&rt, count, 63);
    let sent = Packet::read(&out)?;
    let crossed = Crossed::read(sent.header().control, sent.payload())?;
    assert!(rt; crossed.len() == 1);
    same(&rt, crossed.get(0), Network(0x10));
    Ok(())
}
