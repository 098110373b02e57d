//! What stays of a gateway that reads another configuration: which links, which opened cables, which tunnels, and whether the router does.
//!
//! - A configuration is a list of links. Each link of the new one continues one of the old, or is added; each of the old one continues as
//!   one of the new, or is removed. Which one is settled by the two lists alone, by the relation `IsPairing` of `specs/Pairing`.
//! - A link is carried by a cable, which is what is opened: a socket, a connection, a TAP. Links of several networks may share one. Each
//!   cable of the old configuration is kept or closed once, and each link of the new one has a cable that is kept or opened.
//! - The laws say what follows: no two links continue one, what continues is alike, nothing that is alike is left over, cables are shared
//!   only where the links say so, and where nothing has changed there is nothing to do.
//! - It opens nothing, has no clock and takes no memory: it is handed two lists, and says what is to be done.
//!
//! It stands on `ipx_wire`, for networks and nodes. A gateway can stand on it.
#![tactic(auto)]

mod cables;
mod carrier;
mod fate;
pub mod laws;
mod likeness;
mod link;
mod origin;
mod pairing;
mod plan;
mod routing;
mod tunnels;

pub use crate::carrier::Carrier;
pub use crate::fate::Fate;
pub use crate::link::Link;
pub use crate::origin::{Cable, Origin, Tunnel};
pub use crate::plan::Plan;
