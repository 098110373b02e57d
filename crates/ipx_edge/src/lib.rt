//! The edge of a cable: what a packet passes between a network and the router's port on it.
//!
//! - A station that doesn't know its network's number says 0 for it, and nobody elsewhere can answer it. `number` fills the number in, as
//!   that of the source and of the services that are advertised there. It changes the packet where it lies, and no other byte of it.
//! - The router believes what neighbours say of routes and services. What came through a router was said elsewhere, so `enter` holds it,
//!   and numbers all else.
//! - `filter` denies packets by rules, the first that names one deciding; a response loses the routes or services that are denied.
//! - `claim` tells of a neighbour that numbers the cable otherwise, and `is_needless` of an answer to a query for the nearest service that
//!   a server on the cable gives better.
//! - `write_static_routes` and `write_static_services` say routes and services in the name of a neighbour that says nothing itself.
//! - Each call's contract is exact for all bytes, by the definitions in `specs/`. The laws say what follows: what was read is read again,
//!   no packet names network 0 as its source, all else stays, twice is once; whatever the router hears, by its own checks, no router
//!   carried; and what is written in a neighbour's name is heard as that neighbour's word.
//! - It has no socket, no clock and no state, and takes no memory: packet in, packet out.
//!
//! It stands on `ipx_wire`, for packets, and on `ipx_router`, for its ports and for what is near. A gateway, with a router behind it, can
//! stand on this crate.
#![tactic(auto)]

mod claiming;
mod entering;
mod fields;
mod filtering;
pub mod laws;
mod listing;
mod naming;
mod near;
mod nearest;
mod numbering;
mod rule;
mod statics;

pub use crate::claiming::claim;
pub use crate::entering::{enter, is_held};
pub use crate::filtering::filter;
pub use crate::nearest::is_needless;
pub use crate::numbering::number;
pub use crate::rule::{Names, Rule, Way, What};
pub use crate::statics::{write_static_routes, write_static_services};
