//! Recordings of packets in files of the kind pcapng, and the IPX packets that these carry. Whatever shows such files stands on this crate, and
//! it stands on `ipx_capture` for numbers in either byte order and for the kinds of Ethernet frames.
//!
//! - A `Recording` is handed the bytes that come next and says what stands at their front: a packet, a part that shows nothing, a fault, or
//!   that it wants more of them. It reads sections of both byte orders, their interfaces, and packets in three forms, and skips all other
//!   blocks by their length. It reads no file, keeps no bytes and takes no memory.
//! - `carried` finds the IPX bytes of a packet by the link type of its interface: Ethernet with up to two tags of 802.1Q, PPP, IP, and what
//!   Linux records of all its interfaces; in frames, behind the protocol number of PPP, and in datagrams of UDP.
//! - The laws say that the pieces in which the bytes come make no difference, what further bytes change, as what whole blocks are read, which
//!   files are accepted, and where any other is refused.
//!
//! It looks at no time and at no option.
#![tactic(auto)]

mod blocks;
mod carrier;
mod carrying;
mod due;
mod interface;
pub mod laws;
mod met;
mod recording;
mod recording_fault;

pub use crate::carrier::Carried;
pub use crate::carrying::carried;
pub use crate::recording::{Kept, Recording, Step, is_recording};
pub use crate::recording_fault::RecordingFault;
