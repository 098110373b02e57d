//! DOSBox' IPX tunnel, as a server serves it that hands out nodes: a client's node tells nobody where it is.
//!
//! - Whoever registers is told a node that the caller makes of its place with a key. Its first word by this node, within nine seconds, proves
//!   that it heard, and is carried. A client that says nothing proves it by the answer to a ping, which comes only once DOSBox waits no more.
//! - Nobody is ever put out for another, and each address has a share of the places: of clients, and of those who are remembered.
//! - Each call's contract is exact for every history of datagrams, seconds and packets of the router, by the definitions in `specs/`.
//! - The laws say what follows: nothing brings a ping to somebody remembered while DOSBox waits for its answer; with nodes and cookies
//!   given, no byte that is sent depends on where anybody is; and strangers get little back.
//! - It has no socket and no clock and takes no memory: it is handed datagrams, nodes and cookies, and returns what must be sent.
//!
//! It stands on `ipx_tunnel`, the tunnel in which a client's node is its place, for what both have in common.
#![tactic(auto)]

mod answering;
mod carrying;
mod changing;
mod client;
mod dispatch;
pub mod laws;
mod places;
mod reading;
mod said;
mod sender;
mod setting;
mod tunnel;

pub use crate::client::Client;
pub use crate::dispatch::{Dispatch, MOST_OWN};
pub use crate::said::Said;
pub use crate::sender::Sender;
pub use crate::setting::Setting;
pub use crate::tunnel::Tunnel;
