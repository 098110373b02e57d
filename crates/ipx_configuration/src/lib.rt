//! What the lines of a gateway's configuration say together.
//!
//! - A `Configuration` is handed one line after the other, and keeps what they say: networks and links, in the order of their lines. Each line
//!   is told: what its words say, and the first thing that is wrong with it, by itself or beside the lines above it.
//! - `Configuration::link` then says what all lines say of a link, and what holds where none says it.
//! - The definitions in `specs/` say when two links can't stand beside each other (`Clashes`), what a line makes of the networks and links above
//!   it (`Configurations`, `Lines`, `Extends`), and what comes of all (`Configured`). Each contract is an equation with them.
//! - The laws hold for all lines, right or wrong (`Wholes`).
//! - It lies in memory of the caller, C's too, where all bytes 0 are the configuration of no line. It takes no memory.
//!
//! It stands on `ipx_settings`, which reads a line by itself.
#![tactic(auto)]

mod below;
mod carrier;
mod clash;
mod configuration;
mod configured;
mod endpoint;
mod fault;
mod internal;
pub mod laws;
mod lines;
mod memory;
mod numbers;
mod peers;
mod rules;
mod said;
mod sockets;
mod statics;

pub use crate::carrier::Carrier;
pub use crate::configuration::{Capacity, Configuration, Told};
pub use crate::configured::LinkConfigured;
pub use crate::endpoint::Endpoint;
pub use crate::fault::Fault;
pub use crate::memory::{LinkList, NetworkList};
pub use crate::peers::{PeerSaid, Peers};
pub use crate::rules::{RuleSaid, Rules};
pub use crate::said::{
    ClientsSaid, InternalSaid, LinkSetting, NetworkSetting, NumberSaid, Ranges, RateSaid, Sockets,
};
pub use crate::statics::{
    RouteSaid, ServiceSaid, StaticRouteSaid, StaticRoutes, StaticServiceSaid, StaticServices,
};
