//! What a gateway decides about its cables: in which kinds of frames it speaks to whom, which of two links that are one cable it shuts,
//! which addresses are in a range, how fast pings go that wait for a narrow line, whom it asks again, which node two machines seem to have,
//! and which is its own.
//!
//! - On a link where stations may use any kind of frames, `Kinds` knows which one each station uses. It's a bounded table: whoever makes up
//!   nodes displaces nobody. Whoever isn't known is spoken to in each kind that was heard lately, or in all four.
//! - Where two links of a network are one cable behind the gateway's back, `probe` shuts the later one, and opens it when that is over.
//! - A `Range` is all addresses that begin with the same bits: who may be a client, and who is trusted.
//! - A `Pace` says when the next goes of what goes one by one: not too close together, and none waits too long.
//! - Whoever doesn't answer is asked again (`Asked`), at moments that nobody can tell beforehand, and nobody is forgotten (`Asks`).
//! - `Twins` notices a node that is heard by turns on two links of a network, as if two machines had it.
//! - `own_node` chooses the gateway's node on a network.
//! - Each call's contract is exact, by the definitions in `specs/`. The laws say what follows for every history.
//! - It has no clock and no secret, and takes no memory: it is told that a second passes, and is handed the hash of a node. All bytes 0 are
//!   a value in which nothing was heard.
//!
//! It stands on nothing. A gateway can stand on this crate.
#![tactic(auto)]

mod asked;
mod bucket;
mod kinds;
pub mod laws;
mod loops;
mod own;
mod pace;
mod range;
mod station;
mod twin;
mod twins;

pub use crate::asked::{Asked, Asks};
pub use crate::bucket::Bucket;
pub use crate::kinds::Kinds;
pub use crate::loops::{Loop, Probed, probe};
pub use crate::own::own_node;
pub use crate::pace::Pace;
pub use crate::range::{Range, any_has};
pub use crate::station::Station;
pub use crate::twin::Twin;
pub use crate::twins::Twins;
