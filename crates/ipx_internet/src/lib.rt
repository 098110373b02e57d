//! Internets of IPX routers: what happens to a packet from one router to the next, and how far it can go.
//!
//! - `Internet` is an internet as a value: routers on common networks and the deliveries that wait between them. It takes events,
//!   hands out what waits first in first out, and traces where a packet gets to. It follows its queue exactly, and a trace
//!   is the tree of the packet.
//! - Its `specs/` say which ports receive what a router sends (`Delivery`), what a list of receptions is (`Log`), which course
//!   and which paths a packet takes through it (`Course`), what waits in an internet and what a run of it lists (`Queue`,
//!   `Run`), the tree of a packet while nothing else happens (`Tree`, `Most`, `Weight`), rounds of deliveries and what an
//!   internet weighs (`Rounds`, `InternetWeight`), and time that passes (`Ticks`, `BusyTick`); and what an `Internet` is to its
//!   contracts (`Moment`, `Settled`, `Passed`, `Refused`, `Traced`).
//! - The laws hold of every internet, with any tables and any ports up at each reception: a packet for one network is
//!   forwarded at most 16 times in all; a path of a propagated packet has at most eight forwards, and visits no network
//!   twice; a packet causes a bounded number of receptions. Every internet settles, and each delivery makes it lighter.
//! - It stands on `ipx_router`. `ipx_laws` stands on it, and says what becomes of tables in time; so does who runs several routers.
#![tactic(auto)]

mod batch;
mod fault;
mod internet;
pub mod laws;
mod listing;
mod most_deliveries;
mod scale;
mod second;
mod stations;
mod trace;
mod trace_iter;
mod trace_room;

pub use crate::fault::{AddRefused, InternetFault, TraceFault};
pub use crate::internet::{Internet, Settled};
pub use crate::trace::{Reception, Trace};
pub use crate::trace_iter::TraceIter;
pub use crate::trace_room::TraceRoom;
