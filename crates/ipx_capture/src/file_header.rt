//! The header of a capture file.
ghost use Rattle.std.specs.Prelude.{◌≡◌, ◌≤◌, length};
ghost use Rattle.ipx_wire.specs.Piece.{piece};
ghost use Rattle.ipx_capture.specs.Header.{header_of, order_of};
ghost use Rattle.ipx_capture.specs.Header as spec;

use crate::capture_fault::CaptureFault;
use crate::order::Order;

/// How many bytes the header of a capture file has.
pub const HEADER_SIZE: usize = 24;

/// The magic of a file whose times are in microseconds.
const MICROSECONDS: u32 = 0xA1B2_C3D4;

/// The magic of a file whose times are in nanoseconds.
const NANOSECONDS: u32 = 0xA1B2_3C4D;

/// The link type of Ethernet.
const ETHERNET: u32 = 1;

/// Reads the header at the front of a file's bytes: its byte order, or the first fault that holds.
#[tactic(auto, unfolding(crate::specs::Header::header_of))]
pub fn file_order(bytes: &[u8]) -> Result<Order, CaptureFault>
    ensures { result ≡ header_of bytes.now }
{
    if bytes.len() < HEADER_SIZE {
        return Err(CaptureFault::CutHeader);
    }
    let Some(order) = order_by_magic(bytes) else {
        return Err(CaptureFault::Magic);
    };
    if order.u16_at(bytes, 4) != 2 || order.u16_at(bytes, 6) != 4 {
        return Err(CaptureFault::Version);
    }
    if order.u32_at(bytes, 20) != ETHERNET {
        return Err(CaptureFault::Link);
    }
    Ok(order)
}

/// The byte order in which the first four bytes are a magic number.
fn order_by_magic(bytes: &[u8]) -> Option<Order>
    requires { 4 ≤ length bytes.now }
    ensures { result ≡ order_of (piece bytes.now 0 4) }
{
    if is_magic(Order::Big.u32_at(bytes, 0)) {
        return Some(Order::Big);
    }
    if is_magic(Order::Little.u32_at(bytes, 0)) {
        return Some(Order::Little);
    }
    None
}

fn is_magic(number: u32) -> bool
    ensures { result ≡ spec.is_magic number }
{
    matches!(number, MICROSECONDS | NANOSECONDS)
}
