//! Several gateways that share one network over UDP: which datagrams count, where each place is, and which number a datagram has.
//!
//! - Each gateway has a session: random bytes, which it makes when it begins. A datagram has its sender's session, a number there, and the
//!   receiver's session as the sender knows it. A key that all share seals it; here it comes opened, so its sender has the key.
//! - A datagram is heard only if it echoes the session of the receiver: so none that was recorded earlier is. Whoever doesn't know
//!   the session is greeted, and nothing is kept of it. No number of a sender's session is heard twice, though datagrams overtake each other.
//! - A place is where its newest datagram came from, and is present for 180 seconds after each that is heard.
//! - Each call's contract is exact for every history, by the definitions in `specs/`. The laws say what follows.
//! - It has no socket, no clock, no key and no chance, and takes no memory: it is handed datagrams and sessions. All bytes 0 are a value of it.
//!
//! It stands on nothing. A gateway can stand on this crate, which lies in memory of C's own.
#![tactic(auto)]

pub mod laws;
mod opened;
mod peer;
mod peers;
mod present;
mod verdict;

pub use crate::opened::Opened;
pub use crate::peer::Peer;
pub use crate::peers::Peers;
pub use crate::present::Present;
pub use crate::verdict::Verdict;
