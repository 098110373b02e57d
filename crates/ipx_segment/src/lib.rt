//! One network over several links, such as cards, TAPs, a PC in QEMU and a tunnel of DOSBox clients: which links get a packet.
//!
//! - All links are one cable, and the router is a station on it. A packet goes to the link where its node was last heard, a broadcast or a
//!   packet for a node that isn't known to all others, never back.
//! - A node that is heard at another cable has moved. At a link that proves its stations, such as a tunnel, they come and leave, and no word
//!   from another link moves them.
//! - Each call's contract is exact for every history of events, by the definitions in `specs/`. The laws say what follows: a packet goes to
//!   each of its links once, a station that was heard is found, and strangers on one link put out nobody.
//! - It has no socket and no clock and takes no memory: it is handed what was heard, and says where it goes.
//!
//! It stands on `ipx_wire`, for nodes. A gateway, with a router behind it, can stand on this crate.
#![tactic(auto)]

mod changing;
pub mod laws;
mod learning;
mod link;
mod looking;
mod reaching;
mod segment;
mod setting;
mod station;

pub use crate::link::Link;
pub use crate::looking::next_node;
pub use crate::segment::Segment;
pub use crate::setting::Setting;
pub use crate::station::Station;
