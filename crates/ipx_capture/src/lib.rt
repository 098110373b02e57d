//! Old captures of IPX traffic: the records of a pcap file, and the IPX bytes of an Ethernet frame.
//! Whatever shows or replays captured packets stands on this crate, and it stands on `ipx_wire` alone.
//!
//! - `Capture` gives the records that the bytes of its reader are, one by one, whatever pieces these come in, in both
//!   byte orders and with both kinds of time; and it tells the end or the fault that stands behind the last of them.
//! - `frame` finds the IPX bytes of a frame: one of four kinds, or `Other`. `write_frame` writes a frame of a kind for a packet, which is
//!   read again.
//! - A record that lies in the buffer is lent, not copied. The buffer grows only for a longer record, so memory
//!   doesn't depend on the size of the file.
//!
//! It reads no packet, looks at no time, and leaves alone what isn't Ethernet.
#![tactic(auto)]

mod asking;
mod capture;
mod capture_fault;
mod file_header;
mod framing;
mod kinds;
pub mod laws;
mod order;
mod standing;
mod taking;
mod window;
mod writing;

pub use crate::capture::{Capture, Captured};
pub use crate::capture_fault::CaptureFault;
pub use crate::file_header::{HEADER_SIZE, file_order};
pub use crate::framing::{by_field, frame};
pub use crate::kinds::{Frame, FrameKind};
pub use crate::order::Order;
pub use crate::taking::read_front;
pub use crate::window::Window;
pub use crate::writing::{SHORTEST_FRAME, write_frame};
