//! Frames, as C reads and writes them. They need no router.
ghost use Rattle.std.specs.Prelude.{◌≡◌, length};
ghost use Rattle.ipx_capture.specs.Frame.{frame_of};
ghost use Rattle.ipx_capture.specs.Framed.{framed};
ghost use Rattle.ipx_c.specs.Kinds.{number_read, front_read, kind_at, kind_named, frame_count, frame_after};

use ipx_capture::{Frame, FrameKind, frame, write_frame};
use ipx_wire::Node;

/// The numbers of the kinds.
const NO_FRAME: u8 = 0;

const ETHERNET_II: u8 = 1;

const RAW: u8 = 2;

const LLC: u8 = 3;

const SNAP: u8 = 4;

/// The kind of a frame, and with how many bytes before it the packet stands there.
#[unsafe(no_mangle)]
pub extern "C" fn ipxr_frame_read(bytes: &[u8], front: &mut usize) -> u8
    ensures kind { result ≡ number_read (frame_of bytes.now) }
    ensures front { front.new ≡ front_read (frame_of bytes.now) (length bytes.now) front.old }
{
    let (number, packet) = match frame(bytes) {
        Frame::EthernetII(packet) => (ETHERNET_II, packet),
        Frame::Raw(packet) => (RAW, packet),
        Frame::Llc(packet) => (LLC, packet),
        Frame::Snap(packet) => (SNAP, packet),
        Frame::Other => return NO_FRAME,
    };
    *front = bytes.len().saturating_sub(packet.len());
    number
}

/// Writes a frame, and returns its length; 0 where nothing was written.
#[unsafe(no_mangle)]
pub extern "C" fn ipxr_frame_write(
    kind: u8,
    to: &[u8; 6],
    from: &[u8; 6],
    packet: &[u8],
    buffer: &mut [u8],
) -> usize
    ensures count { result ≡ frame_count (kind_at kind) packet.now (length buffer.old) }
    ensures frame { buffer.new ≡ frame_after (kind_at kind) to.now from.now packet.now buffer.old }
{
    match kind_at(kind) {
        Some(kind) => write_frame(kind, Node(*to), Node(*from), packet, buffer).unwrap_or(0),
        None => 0,
    }
}

fn kind_at(number: u8) -> Option<FrameKind>
    ensures { kind_named result ≡ kind_at number }
{
    match number {
        ETHERNET_II => Some(FrameKind::EthernetII),
        RAW => Some(FrameKind::Raw),
        LLC => Some(FrameKind::Llc),
        SNAP => Some(FrameKind::Snap),
        _ => None,
    }
}
