//! The lines of scripts.
//! Comes in: the bytes of a line, and how far the script's machine is.
//! Goes out: a command or an order, or the first fault of the line.
//! Touches: the buffer that the machine lends for the bytes of a packet.
//! `words` and `digits` read a word, `line` what both kinds of script share; `command` is for one router, `order` for an internet.
pub(crate) mod command;
mod digits;
pub(crate) mod fault;
pub(crate) mod halt;
mod line;
pub(crate) mod order;
mod words;
