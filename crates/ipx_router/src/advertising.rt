//! What a port advertises, and the packets that carry it.
//! Comes in: ports, tables, and to whom it goes.
//! Goes out: packets of at most fifty entries or seven services in the order of their keys; requests and queries.
//! Touches: the outbox. The tables are read item by item and not copied.
//! `told_routes` and `told_services` have what is advertised, and `selection` chooses of it; `told` and `pages` put it into packets.
//! The services of a table make no page: a `service_source` writes each straight to its place in a packet. Those that changed are written
//! to a page of bytes once, which is copied to the packet of each port where none of them was learned.
pub(crate) mod broadcasts;
pub(crate) mod envelope;
pub(crate) mod hops;
pub(crate) mod introducing;
pub(crate) mod item;
pub(crate) mod pages;
mod requests;
pub(crate) mod selection;
pub(crate) mod service_source;
pub(crate) mod stopping;
pub(crate) mod told;
pub(crate) mod told_routes;
pub(crate) mod told_services;
