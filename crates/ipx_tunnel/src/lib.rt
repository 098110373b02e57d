//! DOSBox' IPX tunnel as its server serves it: who is a client, and who gets what.
//!
//! - A newcomer proves that it receives at its address: it answers a ping whose source node is a cookie. A trusted address need not.
//!   Nobody is ever put out for another, and each address has a share of the places.
//! - Each call's contract is exact for every history of datagrams, seconds and packets of the router, by the definitions in `specs/`.
//! - The laws say what follows: packets bear the address of the client that sent them and go where a cable would bring them, a client
//!   that answers stays, and strangers get little back.
//! - It has no socket and no clock and takes no memory: it is handed datagrams and cookies, and returns what must be sent.
//!
//! It stands on `ipx_wire`, for packets. A gateway, with a router behind it, can stand on this crate.
#![tactic(auto)]

mod answering;
mod carrying;
mod changing;
mod client;
mod dispatch;
mod extending;
pub mod laws;
mod own;
mod places;
mod reading;
mod said;
mod sender;
mod setting;
mod tunnel;

pub use crate::answering::{at_node, is_ping, ping_to};
pub use crate::carrying::is_for;
pub use crate::client::Client;
pub use crate::dispatch::Dispatch;
pub use crate::extending::{extend, is_extended, is_named};
pub use crate::own::{MOST_OWN, Own};
pub use crate::places::same_address;
pub use crate::reading::{is_from_here, is_here, is_to, packet_in};
pub use crate::said::Said;
pub use crate::sender::{Cookies, Sender};
pub use crate::setting::Setting;
pub use crate::tunnel::Tunnel;
