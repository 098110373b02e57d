//! Tests of `ipx_table`, by its public calls.
//!
//! Nothing stands on this crate. It is one of its own because a crate with tests is proved twice: here only the tests
//! are, over what the crates below promise.
//!
//! - `table`: what a table takes, keeps and ends, for two kinds of offers; and how often a search asks.
//! - `messages`: the words of all that a table does with an offer.
#![tactic(auto)]

#[cfg(test)]
mod messages;
#[cfg(test)]
mod same;
#[cfg(test)]
mod table;
