//! Tests of `ipx_router`, by its public calls.
//!
//! Nothing stands on this crate. It is one of its own because a crate with tests is proved twice: here only the tests
//! are, over what the crates below promise. What a script can show needs no test: see
//! `tests/replay`.
//!
//! - `ports`, `router`: what a router is made of, and what it does.
//! - `memory`, `needs`: the room that an event may take, and memory that is refused.
//! - `damaged`: packets with bytes cut off or changed, and floods of them.
//! - `messages`: the message of every fault of ports, and the words of every outcome and reason.
//! - `watched`: a router with neighbours, which these share.
#![tactic(auto)]

#[cfg(test)]
mod damaged;
#[cfg(test)]
mod memory;
#[cfg(test)]
mod messages;
#[cfg(test)]
mod needs;
#[cfg(test)]
mod ports;
#[cfg(test)]
mod router;
#[cfg(test)]
mod same;
#[cfg(test)]
mod watched;
