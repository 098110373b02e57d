//! What is to be done with bytes that came on a port.
//! Comes in: the bytes, the port's number, and what a router has: ports, those that are up, routes.
//! Goes out: a verdict, which borrows the packet from the bytes; or the first reason that drops it.
//! Touches: nothing. Whatever is judged, no table and no outbox changes.
//! `judge` has the order of all checks, `checks` those of a packet that may be sent on, `outgoing` the way to its network.
pub(crate) mod checks;
pub(crate) mod judge;
pub(crate) mod outgoing;
