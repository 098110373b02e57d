//! An IPX router, after Novell's IPX Router Specification: RIP, SAP, forwarding, NetBIOS propagation, ports that go down,
//! the default route and shares. It takes events and puts what it sends into an outbox; it has no socket and no clock.
//!
//! - `Router` follows its history: after any events its tables have what the definitions say, and each event sends
//!   exactly the defined packets. `handle` takes no memory; `step` makes the room first, or leaves router and packets as they were.
//! - Its `specs/` say what a router does, over histories of events, ports, and lists of records: whether it runs, and which of its
//!   ports are up (`History`), what it holds (`Facts`), where a packet leaves (`Outgoing`), what it drops and
//!   why (`Why`), what it advertises on which port (`Told`, `News`), which packets each event sends (`Sends`,
//!   `Relays`), and how many at most (`Bounds`). No definition knows a table, a timer or a queue.
//! - `laws` holds of these definitions: split horizon, relaying, bounds, ports that are down.
//! - A call whose name begins with `proves_` does nothing: its contract says what holds already, for the proofs.
//! - It stands on `ipx_table` and `ipx_wire`; simulators and `ipx_cmd` stand on it.
#![tactic(auto)]

mod advertising;
mod answering;
mod event;
mod events;
mod forwarding;
mod handle;
mod judging;
pub mod laws;
mod learning;
mod outbox;
mod outbox_iter;
mod outcome;
mod port;
mod ports;
mod ports_fault;
mod relay;
mod route_offer;
mod router;
mod service_offer;
mod why;
mod withdrawing;

pub use crate::event::Event;
pub use crate::outbox::{Need, Outbox, Sent};
pub use crate::outbox_iter::OutboxIter;
pub use crate::outcome::Outcome;
pub use crate::port::{Port, PortFault};
pub use crate::ports_fault::PortsFault;
pub use crate::route_offer::RouteOffer;
pub use crate::router::Router;
pub use crate::service_offer::ServiceOffer;
pub use crate::why::Why;
