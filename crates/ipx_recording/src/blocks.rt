//! The parts of a recording, by the bytes at the front.
ghost use Rattle.std.specs.Prelude.{◌≡◌, ◌+◌, ◌≤◌, List, length, slice_get, IfOk};
ghost use Rattle.ipx_wire.specs.Piece.{piece};
ghost use Rattle.ipx_recording.specs.Met.{fields_of, kind_in};
ghost use Rattle.ipx_recording.specs.Met as spec;
ghost use Rattle.ipx_recording.specs.Steps.{IsDue, Fits};
ghost use Rattle.ipx_recording.specs.declared.interface.Interface.{Interface};

use crate::due::Due;
use crate::interface::Interface;
use crate::met::Met;
use crate::recording_fault::RecordingFault;
use ipx_capture::Order;

/// The kind of a section's header, the same in both byte orders.
pub(crate) const SECTION: u32 = 0x0A0D_0D0A;

/// The kind of an interface.
const INTERFACE: u32 = 1;

/// The kind of a packet as it was written once.
const OLD_PACKET: u32 = 2;

/// The kind of a packet without an interface or a time.
const SIMPLE_PACKET: u32 = 3;

/// The kind of a packet.
const PACKET: u32 = 6;

/// What tells the byte order of a section.
const ORDER: u32 = 0x1A2B_3C4D;

/// How many bytes a packet keeps at most.
const LONGEST: u32 = 262_144;

/// How many bytes a section's header has in front of its options.
pub(crate) const SECTION_FRONT: usize = 24;

/// How many bytes an interface has in front of its options.
pub(crate) const INTERFACE_FRONT: usize = 16;

/// How many bytes stand in front of a packet's length on the wire, in the old form too.
const PACKET_FRONT: usize = 24;

/// How many bytes stand in front of a simple packet's length on the wire.
const SIMPLE_FRONT: usize = 8;

/// How many bytes of any other block are read.
const OTHER_FRONT: usize = 8;

/// How many bytes a length has.
const LENGTH_SIZE: usize = 4;

/// How many bytes a section's header has at least.
const SECTION_LEAST: u32 = 28;

/// How many bytes an interface has at least.
const INTERFACE_LEAST: u32 = 20;

/// How many bytes a packet's block has at least beside the packet.
const PACKET_LEAST: u32 = 32;

/// How many bytes a simple packet's block has at least beside the packet.
const SIMPLE_LEAST: u32 = 16;

/// How many bytes any other block has at least.
const OTHER_LEAST: u32 = 12;

/// How many interfaces a section has at most.
pub(crate) const MOST_INTERFACES: usize = 256;

/// What stands at the front of the bytes, where that part is due.
#[tactic(auto, unfolding(crate::specs::Met::met))]
pub(crate) fn look(
    order: Order,
    interfaces: &[Interface],
    due: Due,
    bytes: &[u8],
) -> Result<Met, RecordingFault>
    requires { IsDue due }
    ensures value { result ≡ spec.met order interfaces.now due bytes.now }
    ensures fits { IfOk result (Fits interfaces.now) }
{
    match due {
        Due::Block => begin_block(order, interfaces, bytes),
        Due::Packet(link, kept, left, length) => {
            Ok(take_packet(order, bytes, link, kept, Due::Rest(left, length)))
        }
        Due::Rest(left, length) => end_block(order, left, length, bytes),
    }
}

/// The packet whose fields were read.
fn take_packet(order: Order, bytes: &[u8], link: u16, kept: u32, rest: Due) -> Met
    requires few { kept ≤ LONGEST }
    requires rest { IsDue rest }
    ensures value { result ≡ spec.packet_at order bytes.now link kept rest }
    ensures fits { (i : List Interface) → Fits i result }
{
    let need = LENGTH_SIZE + kept as usize;
    if bytes.len() < need {
        return Met::Wants(need);
    }
    Met::Captured(link, kept, order.u32_at(bytes, 0), rest)
}

/// The fields of a block.
fn begin_block(order: Order, interfaces: &[Interface], bytes: &[u8]) -> Result<Met, RecordingFault>
    ensures value { result ≡ spec.begins_block order interfaces.now bytes.now }
    ensures fits { IfOk result (Fits interfaces.now) }
{
    if bytes.len() < OTHER_FRONT {
        return Ok(Met::Wants(OTHER_FRONT));
    }
    let need = fields(order.u32_at(bytes, 0));
    if bytes.len() < need {
        return Ok(Met::Wants(need));
    }
    let (front, _) = bytes.split_at(need);
    read_block(order, interfaces, front)
}

/// How many bytes of a block say what it has.
#[tactic(auto, unfolding(crate::specs::Met::fields_of))]
fn fields(kind: u32) -> usize
    ensures value { result ≡ fields_of kind }
    ensures least { spec.other_front ≤ result }
    ensures most { result ≤ spec.section_front }
{
    match kind {
        SECTION => SECTION_FRONT,
        INTERFACE => INTERFACE_FRONT,
        SIMPLE_PACKET => SIMPLE_FRONT + LENGTH_SIZE,
        PACKET | OLD_PACKET => PACKET_FRONT,
        _ => OTHER_FRONT,
    }
}

/// A block by its fields.
#[tactic(auto, unfolding(crate::specs::Met::block_in, crate::specs::Met::fields_of))]
fn read_block(order: Order, interfaces: &[Interface], front: &[u8]) -> Result<Met, RecordingFault>
    requires some { spec.other_front ≤ length front.now }
    requires whole { fields_of (kind_in order front.now) ≤ length front.now }
    ensures value { result ≡ spec.block_in order interfaces.now front.now }
    ensures fits { IfOk result (Fits interfaces.now) }
{
    let kind = order.u32_at(front, 0);
    let length = order.u32_at(front, 4);
    if kind == SECTION {
        return read_section(front);
    }
    if kind == INTERFACE {
        return read_interface(order, interfaces, front);
    }
    if kind == SIMPLE_PACKET {
        return read_simple(order, interfaces, front);
    }
    if kind == PACKET {
        let number = order.u32_at(front, 8) as usize;
        let interface = interfaces.get(number).copied();
        return read_packet(
            PACKET_LEAST,
            PACKET_FRONT,
            order.u32_at(front, 20),
            length,
            interface,
        );
    }
    if kind == OLD_PACKET {
        let number = usize::from(order.u16_at(front, 8));
        let interface = interfaces.get(number).copied();
        return read_packet(
            PACKET_LEAST,
            PACKET_FRONT,
            order.u32_at(front, 20),
            length,
            interface,
        );
    }
    skip_block(length)
}

/// The header of a section.
pub(crate) fn read_section(front: &[u8]) -> Result<Met, RecordingFault>
    requires { spec.section_front ≤ length front.now }
    ensures value { result ≡ spec.section front.now }
    ensures fits { IfOk result (λ m. (i : List Interface) → Fits i m) }
{
    let Some(order) = order_by(front) else {
        return Err(RecordingFault::Magic);
    };
    if order.u16_at(front, 12) != 1 {
        return Err(RecordingFault::Version);
    }
    let length = order.u32_at(front, 4);
    if !is_length(SECTION_LEAST, length) {
        return Err(RecordingFault::BlockLength);
    }
    Ok(Met::Section(order, Due::Rest(length - SECTION_LEAST, length)))
}

/// The byte order in which the third number of a section is what it must be.
fn order_by(front: &[u8]) -> Option<Order>
    requires { spec.section_front ≤ length front.now }
    ensures { result ≡ spec.order_by (piece front.now 8 4) }
{
    if Order::Big.u32_at(front, 8) == ORDER {
        return Some(Order::Big);
    }
    if Order::Little.u32_at(front, 8) == ORDER {
        return Some(Order::Little);
    }
    None
}

/// Whether a block may have this length, when it must hold so many bytes.
fn is_length(least: u32, length: u32) -> bool
    ensures { result ≡ spec.is_length least length }
{
    length >= least && length % 4 == 0
}

/// The description of an interface.
fn read_interface(
    order: Order,
    interfaces: &[Interface],
    front: &[u8],
) -> Result<Met, RecordingFault>
    requires { spec.interface_front ≤ length front.now }
    ensures value { result ≡ spec.interface_in order interfaces.now front.now }
    ensures fits { IfOk result (Fits interfaces.now) }
{
    let length = order.u32_at(front, 4);
    if !is_length(INTERFACE_LEAST, length) {
        return Err(RecordingFault::BlockLength);
    }
    if interfaces.len() >= MOST_INTERFACES {
        return Err(RecordingFault::ManyInterfaces);
    }
    let interface = Interface {
        link: order.u16_at(front, 8),
        most: order.u32_at(front, 12),
    };
    Ok(Met::Described(interface, Due::Rest(length - INTERFACE_LEAST, length)))
}

/// A packet of the first interface, without a time.
fn read_simple(order: Order, interfaces: &[Interface], front: &[u8]) -> Result<Met, RecordingFault>
    requires { spec.simple_front + spec.length_size ≤ length front.now }
    ensures value { result ≡ spec.simple_in order (slice_get interfaces.now 0) front.now }
    ensures fits { IfOk result (Fits interfaces.now) }
{
    let Some(interface) = interfaces.first().copied() else {
        return Err(RecordingFault::NoInterface);
    };
    let kept = kept_by(interface.most, order.u32_at(front, 8));
    read_packet(
        SIMPLE_LEAST,
        SIMPLE_FRONT,
        kept,
        order.u32_at(front, 4),
        Some(interface),
    )
}

/// How many bytes of a packet are kept, where so many are kept at most.
fn kept_by(most: u32, wire: u32) -> u32
    ensures { result ≡ spec.kept_by most wire }
{
    if most == 0 { wire } else { most.min(wire) }
}

/// A packet by how many bytes it keeps, and how long its block is.
fn read_packet(
    around: u32,
    size: usize,
    kept: u32,
    length: u32,
    interface: Option<Interface>,
) -> Result<Met, RecordingFault>
    requires { around ≤ spec.packet_least }
    ensures value { result ≡ spec.packet_in around size kept length interface }
    ensures fits { IfOk result (λ m. (i : List Interface) → Fits i m) }
{
    let Some(Interface { link, .. }) = interface else {
        return Err(RecordingFault::NoInterface);
    };
    if kept > LONGEST {
        return Err(RecordingFault::RecordLong);
    }
    if !is_length(around + kept, length) {
        return Err(RecordingFault::BlockLength);
    }
    Ok(Met::Passed(
        size,
        Due::Packet(link, kept, length - (around + kept), length),
    ))
}

/// A block that shows nothing.
fn skip_block(length: u32) -> Result<Met, RecordingFault>
    ensures value { result ≡ spec.skipped length }
    ensures fits { IfOk result (λ m. (i : List Interface) → Fits i m) }
{
    if !is_length(OTHER_LEAST, length) {
        return Err(RecordingFault::BlockLength);
    }
    Ok(Met::Passed(OTHER_FRONT, Due::Rest(length - OTHER_LEAST, length)))
}

/// What is left of a block, and its length again.
fn end_block(order: Order, left: u32, length: u32, bytes: &[u8]) -> Result<Met, RecordingFault>
    ensures value { result ≡ spec.ends_block order left length bytes.now }
    ensures fits { IfOk result (λ m. (i : List Interface) → Fits i m) }
{
    if left == 0 {
        return compare_length(order, length, bytes);
    }
    if bytes.is_empty() {
        return Ok(Met::Wants(1));
    }
    let passed = (left as usize).min(bytes.len());
    Ok(Met::Passed(passed, Due::Rest(left - passed as u32, length)))
}

/// The length of a block, as it stands at its end.
fn compare_length(order: Order, length: u32, bytes: &[u8]) -> Result<Met, RecordingFault>
    ensures value { result ≡ spec.length_again order length bytes.now }
    ensures fits { IfOk result (λ m. (i : List Interface) → Fits i m) }
{
    if bytes.len() < LENGTH_SIZE {
        return Ok(Met::Wants(LENGTH_SIZE));
    }
    if order.u32_at(bytes, 0) != length {
        return Err(RecordingFault::LengthAgain);
    }
    Ok(Met::Passed(LENGTH_SIZE, Due::Block))
}
