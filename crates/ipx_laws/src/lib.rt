//! The laws of internets in time: what becomes of route and service tables, whatever they had. It has no code to run, only laws that a
//! proof may cite.
//!
//! - Its `specs/` say what leaves a router in a run (`Departure`), when a network or a service is gone or announced (`Gone`, `Meanwhile`,
//!   `Announces`), which routes are real and which ways least (`Real`, `Least`), that packets arrive (`Arriving`), what hosts may advertise
//!   of other networks (`Apart`), what servers and other makers' routers advertise truly (`Outsiders`, `OutsidersInTime`), links that are
//!   lost and that come up (`Tables`, `Losses`, `Gains`), what routers may know of a service (`Servers`, `Regular`, `Nearest`), and what it
//!   costs to keep tables as they are (`Upkeep`); how an internet runs whose ports have edges (`Edges`); the same over real wires (`Wires`,
//!   `WireAnnounces`, `InTime`, `WireRegular`); and deliveries in any order (`AnyOrder`), and the paths of a propagated packet (`Crossings`).
//! - No route is advertised where it was learned. In time, what is gone is gone everywhere, and every route is of a real way. Where there
//!   are at most 16 routers every table becomes right, and packets of hosts arrive. Where hosts advertise routes, that is so of all networks
//!   that they don't name, if tables have room, and of those that they name truly. What is lost is forgotten at once, everywhere, and what is
//!   gained is used at once. Routers come to know each service that hosts announce, and how near it is. With edges, hosts' words stay on
//!   their cable. Deliveries end in any order.
//! - It stands on `ipx_internet`, whose runs and ticks it speaks of, and on `ipx_edge`; who relies on tables stands on it, such as `least_ways`.
#![tactic(auto)]

pub mod laws;
