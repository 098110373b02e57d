//! Machines: what acts on a script's lines.
//! Comes in: what was read of a line.
//! Goes out: text that waits to be written, or why the script goes no further.
//! Touches: the router or the internet that the script made, the text that waits, and the outlet.
//! `machine` has one router, `internet_machine` an internet.
pub(crate) mod internet_machine;
pub(crate) mod machine;
