//! A table that holds offers for a while: of routes, of services, of whatever has a key, a source and a
//! rank. Routers keep two of them; anything that keeps what others offer can stand on it.
//!
//! - Its records are exactly the offers that were accepted and have not ended, with their ages, for
//!   every list of offers and seconds: the contract of each call says so, by the definitions in `specs/`.
//! - At most one record a key, at most as many as its capacity, which is a constant, and at most as many
//!   of a port as its share.
//! - An offer goes when its source withdraws or replaces it, when a better one of another source
//!   replaces it, when its source said nothing of it for 180 seconds, when its port ends, or when all is
//!   cleared.
//! - It takes no memory and reads no clock: a second passes where the caller says so.
//!
//! It stands on `ipx_wire`, for the nodes that offers come from. How ages are kept is no promise; that a search asks few
//! questions is one: `find` searches anything sorted, with as many questions as its length has binary digits, at most.
#![tactic(auto)]

mod asking;
mod clock;
mod ending;
mod exchanged;
mod held;
pub mod laws;
mod offer;
mod parting;
mod ranking;
mod sharing;
mod slotted;
mod sought;
mod table;
mod table_entries;
mod taken;
mod taking;

pub use crate::asking::{Asked, Found, find};
pub use crate::exchanged::Exchanged;
pub use crate::held::Held;
pub use crate::offer::Offer;
pub use crate::table::Table;
pub use crate::table_entries::TableEntries;
pub use crate::taken::Taken;
