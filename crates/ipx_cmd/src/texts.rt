//! The text of what routers and internets do.
//! Comes in: a router or an internet, what happened to it, or what was read of bytes.
//! Goes out: lines behind the text that waits (`said`).
//! Touches: that text, and the outlet; and a router or an internet, where what an event does is the text.
//! `output` has the lines, `text` and `service_words` their words, `draft` puts a line together in place; `flushing` writes.
pub(crate) mod draft;
pub(crate) mod event_text;
pub(crate) mod flushing;
pub(crate) mod internet_text;
pub(crate) mod output;
pub(crate) mod put;
mod said;
pub(crate) mod service_line;
mod service_words;
pub(crate) mod table_text;
pub(crate) mod text;
