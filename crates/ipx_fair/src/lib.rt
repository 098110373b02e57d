//! Fair queueing in which nothing waits: whoever says less than his part of a receiver loses nothing, whatever others send.
//!
//! - A receiver reads no faster than it can, and many speak to it. It is reckoned as if each speaker had a queue, and time served all queues
//!   that wait alike. A packet for which there is room goes out at once; one for which there is none is dropped.
//! - All is counted in nanoseconds: a packet weighs what the receiver needs for it, and the queues have a room together, and some of it
//!   each. A `Meter` is a receiver with one speaker: so much in so much time.
//! - Each call's contract is exact, by the definitions in `specs/`. The laws say what follows for every list of events: a quiet speaker is
//!   heard, whoever keeps to his part loses nothing, whoever has more to say gets his part, no time is lost, and a flood silences nobody.
//! - It has no clock and takes no memory: it is told how many nanoseconds pass. All bytes 0 are a receiver.
//!
//! It stands on nothing. A gateway can stand on this crate, and any other program that must not send more than somebody reads.
#![tactic(auto)]

mod hearing;
pub mod laws;
mod meter;
mod receiver;
mod receiver_256;
mod serving;
mod setting;
mod tally;

pub use crate::meter::Meter;
pub use crate::receiver::Receiver;
pub use crate::receiver_256::Receiver256;
pub use crate::setting::Setting;
