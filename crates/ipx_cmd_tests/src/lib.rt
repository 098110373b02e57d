//! Tests of `ipx_cmd`, by its public calls.
//!
//! Nothing stands on this crate. It is one of its own because a crate with tests is proved twice: here only the tests
//! are, over what the crates below promise. What a script can show needs no test: see
//! `tests/replay`.
//!
//! - `devices`: runs of `replay` and `decode` on devices that give or take few bytes, or fail.
//! - `endless`: readers that give bytes for ever, and a capture that ends at each of its bytes.
//! - `program_words`, `exit_statuses`: the words of the command line, the end of a run.
//! - `messages`: the message of every fault of a run and of its words.
#![tactic(auto)]

#[cfg(test)]
mod devices;
#[cfg(test)]
mod endless;
#[cfg(test)]
mod exit_statuses;
#[cfg(test)]
mod messages;
#[cfg(test)]
mod program_words;
#[cfg(test)]
mod same;
