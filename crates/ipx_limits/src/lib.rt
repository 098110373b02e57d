//! What a gateway's limits decide: who is heard where many send more than somebody can read.
//!
//! - A network's limits follow from its setting, and each number has a name in `specs/Numbers.antt`: what a client receives, and all clients
//!   of an address; pings; questions to the router, what routers tell it, and all else that it hears; the gateway's answers.
//! - Each decision is one function of the packet's kind and of what is used, with the reason. A packet that has to pass several limits is
//!   counted by all of them or by none. Each call's contract is exact, by the definitions in `specs/`.
//! - The laws say what follows for every list of events: who keeps to his part of a client and of its address loses nothing, whatever others
//!   send; the router, and whoever is pinged or answered, gets no more in any time than the limit says.
//! - It has no clock and takes no memory: all state is values that the caller owns, and is told how many nanoseconds pass.
//!
//! It stands on `ipx_fair`, for receivers and meters, and on `ipx_wire`, for packets.
#![tactic(auto)]

mod deciding;
mod decision;
mod kind;
pub mod laws;
mod limits;
mod line;
mod line_parts;
mod line_room;
mod network;
mod queues;
mod rank;
mod reader;
mod receiving;
mod strangers;
mod uses;

pub use crate::decision::Decision;
pub use crate::kind::Kind;
pub use crate::limits::{HouseholdLimits, Limit, Limits, told_on_links};
pub use crate::line::{Line, LineAddress};
pub use crate::network::{Link, NetworkSetting};
pub use crate::queues::Queues;
pub use crate::rank::Rank;
pub use crate::reader::{Reader, Reading};
pub use crate::strangers::StrangersLimits;
pub use crate::uses::{Address, Client};
