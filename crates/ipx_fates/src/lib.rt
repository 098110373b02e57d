//! What becomes of each packet that comes to a gateway: whether the router hears it, it goes to others, is answered, or goes no further, and
//! why.
//!
//! - A packet's `Course` says what is next: a question about it, or a deed. Whoever holds the packet answers, and asks what is next, until the
//!   course ends in a `Fate`. So what costs something, or changes something, is asked only where the answer matters.
//! - `Counts` counts fates, and all else that is lost.
//! - Each call's contract is exact, by the definitions in `specs/`. The laws say what follows, whatever the answers are: each packet has one
//!   fate, the first in a list of conditions that holds; who reaches nobody; and that counts add up.
//! - It takes no memory, and knows no bytes.
//!
//! It stands on nothing. A gateway can stand on this crate.
#![tactic(auto)]

mod counts;
mod course;
mod datagrams;
mod fate;
mod frames;
pub mod laws;
mod reason;
mod router;
mod step;
mod words;

pub use crate::counts::Counts;
pub use crate::course::Course;
pub use crate::fate::Fate;
pub use crate::reason::Reason;
pub use crate::step::{DatagramStep, FrameStep, RouterStep, Step, WordStep};
