//! Tests of `ipx_internet`, by its public calls.
//!
//! Nothing stands on this crate. It is one of its own because a crate with tests is proved twice: here only the tests
//! are, over what the crates below promise. What a script can show needs no test: see
//! `tests/internet`.
//!
//! - `internet`: several routers, the deliveries between them, and where a packet gets to; with memory refused, how long a
//!   route to what is gone may last, and a story from switching on to a client's first packet at the server.
//! - `messages`: the message of every fault of an internet and of a trace.
#![tactic(auto)]

#[cfg(test)]
mod internet;
#[cfg(test)]
mod messages;
#[cfg(test)]
mod same;
