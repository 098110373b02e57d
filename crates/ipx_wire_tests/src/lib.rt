//! Tests of `ipx_wire` and `ipx_capture`, each by their public calls.
//!
//! Nothing stands on this crate. It is one of its own because a crate with tests is proved twice: here only the tests
//! are, over what the crates below promise.
//!
//! - `rip`, `sap`, `crossed`, `forward`: packets that are read, written and sent on.
//! - `names`, `text`, `edges`: names and numbers as text, at their edges too; entries by place and in order.
//! - `intake`, `outlet`: how often a device is asked, and that its failures are remembered.
//! - `captures`: a capture with a record that there is no memory for.
//! - `messages`: the message of every fault, and the words of every operation.
#![tactic(auto)]

#[cfg(test)]
mod captures;
#[cfg(test)]
mod crossed;
#[cfg(test)]
mod edges;
#[cfg(test)]
mod forward;
#[cfg(test)]
mod intake;
#[cfg(test)]
mod messages;
#[cfg(test)]
mod names;
#[cfg(test)]
mod outlet;
#[cfg(test)]
mod rip;
#[cfg(test)]
mod same;
#[cfg(test)]
mod sap;
#[cfg(test)]
mod text;
