//! What is to be answered to bytes, decided by the positions of the fields and nothing else.

use ipx_router::{Outcome, Why};
use ipx_wire::{Crossed, CrossedFault, Packet, PacketFault, Rip, RipFault, Sap, SapFault};

/// A port of the router, by the numbers of its network and its node.
#[derive(Clone, Copy)]
pub struct Port {
    pub network: u64,
    pub node: u64,
}

/// The node of all nodes.
const ALL: u64 = 0xFFFF_FFFF_FFFF;

/// The network to which the router holds a route.
const LEARNED: u64 = 0x30;

/// The longest packet that may leave on either port.
const LONGEST: usize = 576;

/// The bytes of a header.
const HEADER: usize = 30;

/// The number that a number of bytes from a position on stand for, the highest one first.
fn number(bytes: &[u8], from: usize, count: usize) -> u64 {
    let mut number = 0u64;
    for byte in bytes.iter().skip(from).take(count) {
        number = number.wrapping_mul(256).wrapping_add(u64::from(*byte));
    }
    number
}

/// Why bytes are no packet.
fn packet_fault(bytes: &[u8]) -> Option<PacketFault> {
    let length = number(bytes, 2, 2) as usize;
    if bytes.len() < HEADER {
        Some(PacketFault::Short)
    } else if length < HEADER {
        Some(PacketFault::LengthSmall)
    } else if bytes.len() < length {
        Some(PacketFault::LengthBeyond)
    } else {
        None
    }
}

/// Why data are no routing information.
fn rip_fault(data: &[u8]) -> Option<RipFault> {
    let operation = (number(data, 0, 2) % 65_536) as u16;
    if data.len() < 2 {
        Some(RipFault::Short)
    } else if operation == 0 || operation > 2 {
        Some(RipFault::Operation(operation))
    } else if data.len() < 10 {
        Some(RipFault::NoEntry)
    } else if data.len() >= 410 {
        Some(RipFault::TooMany)
    } else {
        None
    }
}

/// Why data are no service advertising.
fn sap_fault(data: &[u8]) -> Option<SapFault> {
    let operation = (number(data, 0, 2) % 65_536) as u16;
    let is_query = operation == 1 || operation == 3;
    if data.len() < 2 {
        Some(SapFault::Short)
    } else if operation == 0 || operation > 4 {
        Some(SapFault::Operation(operation))
    } else if is_query && data.len() < 4 {
        Some(SapFault::Short)
    } else if !is_query && data.len() < 66 {
        Some(SapFault::NoEntry)
    } else if !is_query && data.len() >= 514 {
        Some(SapFault::TooMany)
    } else {
        None
    }
}

/// Why data and a transport control are no list of networks crossed.
fn crossed_fault(control: u64, data: &[u8]) -> Option<CrossedFault> {
    if data.len() < 32 {
        Some(CrossedFault::Short)
    } else if control >= 8 {
        Some(CrossedFault::Full)
    } else {
        None
    }
}

/// Whether one of the networks crossed is that one.
fn has_crossed(control: u64, data: &[u8], network: u64) -> bool {
    let mut found = false;
    for place in 0..8 {
        if (place as u64) < control && number(data, 4 * place, 4) == network {
            found = true;
        }
    }
    found
}

/// What is to become of bytes that come to the port of that number.
pub fn decided(ports: &[Port; 2], number_of_port: usize, bytes: &[u8]) -> Outcome {
    if let Some(fault) = packet_fault(bytes) {
        return Outcome::Dropped(Why::Malformed(fault));
    }
    let length = number(bytes, 2, 2) as usize;
    let packet = &bytes[..length.min(bytes.len())];
    let [first, second] = *ports;
    let (port, other) = if number_of_port == 0 {
        (first, second)
    } else {
        (second, first)
    };
    let is_own = |network| network == 0 || network == port.network;
    let source = number(packet, 22, 6);
    if source == port.node && is_own(number(packet, 18, 4)) {
        Outcome::Dropped(Why::OwnEcho)
    } else if source == ALL {
        Outcome::Dropped(Why::BadSource)
    } else if number(packet, 5, 1) == 20 && number(packet, 10, 6) == ALL {
        propagated(port, packet)
    } else if is_own(number(packet, 6, 4)) {
        near(port, packet)
    } else {
        far(port, other, packet)
    }
}

/// The data of a packet.
fn data(packet: &[u8]) -> &[u8] {
    let (_, data) = packet.split_at(HEADER.min(packet.len()));
    data
}

fn propagated(port: Port, packet: &[u8]) -> Outcome {
    let control = number(packet, 4, 1);
    match crossed_fault(control, data(packet)) {
        Some(CrossedFault::Short) => Outcome::Dropped(Why::CrossedShort),
        Some(CrossedFault::Full) => Outcome::Dropped(Why::CrossedFull),
        None if has_crossed(control, data(packet), port.network) => Outcome::Dropped(
            Why::CrossedSeen,
        ),
        None => Outcome::Propagated,
    }
}

fn near(port: Port, packet: &[u8]) -> Outcome {
    let (node, socket, source) = (
        number(packet, 10, 6),
        number(packet, 16, 2),
        number(packet, 18, 4),
    );
    if node != port.node && node != ALL {
        Outcome::Dropped(Why::Elsewhere)
    } else if number(packet, 5, 1) == 20 || (socket != 0x452 && socket != 0x453) {
        Outcome::Dropped(Why::OtherSocket)
    } else if source != 0 && source != port.network {
        Outcome::Dropped(Why::NotNeighbour)
    } else if socket == 0x453 {
        routing(data(packet))
    } else {
        services(data(packet))
    }
}

fn routing(data: &[u8]) -> Outcome {
    match rip_fault(data) {
        Some(fault) => Outcome::Dropped(Why::BadRip(fault)),
        None if number(data, 0, 2) == 2 => Outcome::Learned,
        None => Outcome::Answered,
    }
}

fn services(data: &[u8]) -> Outcome {
    match sap_fault(data) {
        Some(fault) => Outcome::Dropped(Why::BadSap(fault)),
        None => match number(data, 0, 2) {
            2 => Outcome::Learned,
            4 => Outcome::Dropped(Why::NearestReply),
            _ => Outcome::Answered,
        },
    }
}

fn far(port: Port, other: Port, packet: &[u8]) -> Outcome {
    let (network, node) = (number(packet, 6, 4), number(packet, 10, 6));
    // (the port's own network isn't far)
    let is_known = network == other.network || (network == LEARNED && network != port.network);
    if number(packet, 4, 1) >= 16 {
        Outcome::Dropped(Why::TooManyRouters)
    } else if network == other.network && node == other.node {
        Outcome::Dropped(Why::FarSide)
    } else if !is_known {
        Outcome::Dropped(Why::NoRoute)
    } else if packet.len() > LONGEST {
        Outcome::Dropped(Why::TooLong)
    } else {
        Outcome::Forwarded
    }
}

/// Whether the readers of packets, routing information, service advertising and networks crossed find in bytes what is found here.
pub fn read_alike(bytes: &[u8]) -> bool {
    match Packet::read(bytes) {
        Err(fault) => packet_fault(bytes) == Some(fault),
        Ok(packet) => {
            let header = packet.header();
            packet_fault(bytes).is_none()
                && u64::from(header.length) == number(bytes, 2, 2)
                && u64::from(header.control) == number(bytes, 4, 1)
                && u64::from(header.kind) == number(bytes, 5, 1)
                && u64::from(header.destination.network.0) == number(bytes, 6, 4)
                && u64::from(header.source.socket.0) == number(bytes, 28, 2)
                && data_alike(header.control, packet.payload(), data(packet.bytes()))
        }
    }
}

fn data_alike(control: u8, given: &[u8], data: &[u8]) -> bool {
    let crossed = match Crossed::read(control, given) {
        Ok(crossed) => crossed_fault(u64::from(control), data).is_none()
            && crossed.len() == usize::from(control),
        Err(fault) => crossed_fault(u64::from(control), data) == Some(fault),
    };
    given == data && crossed && routes_alike(data) && services_alike(data)
}

fn routes_alike(data: &[u8]) -> bool {
    match Rip::read(data) {
        Err(fault) => rip_fault(data) == Some(fault),
        Ok(rip) => {
            let last = rip.entry(rip.len() - 1);
            let at = 8 * rip.len() - 6;
            rip_fault(data).is_none()
                && rip.len() == (data.len() - 2) / 8
                && u64::from(last.network.0) == number(data, at, 4)
                && u64::from(last.hops) == number(data, at + 4, 2)
                && u64::from(last.ticks) == number(data, at + 6, 2)
        }
    }
}

fn services_alike(data: &[u8]) -> bool {
    let operation = number(data, 0, 2);
    match Sap::read(data) {
        Err(fault) => sap_fault(data) == Some(fault),
        Ok(Sap::Query { nearest, kind }) => {
            sap_fault(data).is_none()
                && operation == if nearest { 3 } else { 1 }
                && u64::from(kind) == number(data, 2, 2)
        }
        Ok(Sap::Response { nearest, entries }) => {
            let last = entries.entry(entries.len() - 1);
            let at = 64 * entries.len() - 62;
            sap_fault(data).is_none()
                && operation == if nearest { 4 } else { 2 }
                && entries.len() == (data.len() - 2) / 64
                && u64::from(last.kind) == number(data, at, 2)
                && u64::from(last.hops) == number(data, at + 62, 2)
        }
    }
}
