//! How a packet is put into a frame.
ghost use Rattle.std.specs.Prelude.{◌≡◌, ◌+◌, ◌≤◌, ◌++◌, true, length, drop, replicate};
ghost use Rattle.std.specs.Int.{to_be_bytes, w16};
ghost use Rattle.ipx_wire.specs.Put.{PutsAt};
ghost use Rattle.ipx_capture.specs.Written.{kind_of, front_of, field_of, may_carry, carried, is_carried, written, written_size, count_written, buffer_written};

use crate::framing::{HEADER, IPX, LLC, SNAP, UNSUMMED};
use crate::kinds::FrameKind;
use ipx_wire::Node;

/// How many bytes a frame has at least, without its checksum.
pub const SHORTEST_FRAME: usize = 60;

/// How many bytes a frame carries at most behind its type or length.
const MOST_CARRIED: usize = 1500;

/// What pads a frame.
const ZEROS: [u8; SHORTEST_FRAME] = [0; SHORTEST_FRAME];

/// Writes the frame in which a packet is sent to the front of a buffer, padded to sixty bytes, and returns its length.
///
/// It returns `None`, and writes nothing, if the packet is too long for the kind, the frame is too long for the
/// buffer, or a raw frame would carry a packet with a checksum, which nobody would recognize as IPX.
pub fn write_frame(
    kind: FrameKind,
    to: Node,
    from: Node,
    packet: &[u8],
    out: &mut [u8],
) -> Option<usize>
    ensures count { result ≡ count_written (kind_of kind) packet.now (length out.old) }
    ensures bytes { out.new ≡ buffer_written (kind_of kind) to.0 from.0 packet.now out.old }
{
    let used = HEADER + front_of(kind).len() + packet.len();
    let padding = SHORTEST_FRAME.saturating_sub(used);
    if !is_carried(kind, packet) || used + padding > out.len() {
        return None;
    }
    put_frame(kind, to, from, packet, out);
    Some(used + padding)
}

/// What stands before the packet.
fn front_of(kind: FrameKind) -> &'static [u8]
    ensures { result.now ≡ front_of (kind_of kind) }
{
    match kind {
        FrameKind::EthernetII | FrameKind::Raw => &[],
        FrameKind::Llc => &LLC,
        FrameKind::Snap => &SNAP,
    }
}

/// The type, or how many bytes are carried.
fn field_of(kind: FrameKind, carried: u16) -> u16
    ensures { result ≡ field_of (kind_of kind) carried }
{
    match kind {
        FrameKind::EthernetII => IPX,
        FrameKind::Raw | FrameKind::Llc | FrameKind::Snap => carried,
    }
}

/// Whether a kind can carry a packet.
fn is_carried(kind: FrameKind, packet: &[u8]) -> bool
    ensures { result ≡ is_carried (kind_of kind) packet.now }
{
    may_carry(kind, packet) && front_of(kind).len() + packet.len() <= MOST_CARRIED
}

fn may_carry(kind: FrameKind, packet: &[u8]) -> bool
    ensures { result ≡ may_carry (kind_of kind) packet.now }
{
    match kind {
        FrameKind::Raw => packet.starts_with(&UNSUMMED),
        FrameKind::EthernetII | FrameKind::Llc | FrameKind::Snap => true,
    }
}

/// Writes a frame for which there is room.
fn put_frame(kind: FrameKind, to: Node, from: Node, packet: &[u8], out: &mut [u8])
    requires carried { is_carried (kind_of kind) packet.now ≡ true }
    requires room { written_size (kind_of kind) packet.now ≤ length out.old }
    ensures { out.new ≡ written (kind_of kind) to.0 from.0 packet.now ++ drop (written_size (kind_of kind) packet.now) out.old }
{
    let front = front_of(kind);
    let used = HEADER + front.len() + packet.len();
    put_node(out, 0, to);
    put_node(out, 6, from);
    put_field(out, 12, kind, packet);
    put(out, HEADER, front);
    put(out, HEADER + front.len(), packet);
    put(out, used, padding(SHORTEST_FRAME.saturating_sub(used)));
}

/// Writes the type, or how many bytes are carried.
fn put_field(out: &mut [u8], place: usize, kind: FrameKind, packet: &[u8])
    requires carried { is_carried (kind_of kind) packet.now ≡ true }
    requires room { place + 2 ≤ length out.old }
    ensures bytes { PutsAt out.old place (to_be_bytes w16 (field_of (kind_of kind) (carried (kind_of kind) packet.now))) out.new }
{
    let carried = (front_of(kind).len() + packet.len()) as u16;
    put(out, place, &field_of(kind, carried).to_be_bytes());
}

/// Writes the six bytes of a node.
fn put_node(out: &mut [u8], place: usize, node: Node)
    requires { place + 6 ≤ length out.old }
    ensures bytes { PutsAt out.old place node.0 out.new }
    ensures size { length node.0 ≡ 6 }
{
    put(out, place, &node.0);
}

/// Zeros, as many as the shortest frame may want.
fn padding(count: usize) -> &'static [u8]
    requires { count ≤ 60 }
    ensures { result.now ≡ replicate count 0 }
{
    &ZEROS[..count]
}

/// Writes bytes as they are.
fn put(out: &mut [u8], place: usize, bytes: &[u8])
    requires { place + length bytes.now ≤ length out.old }
    ensures { PutsAt out.old place bytes.now out.new }
{
    out[place..place + bytes.len()].copy_from_slice(bytes);
}
