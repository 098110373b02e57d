//! Responses: what neighbours offer, and what that changes.
//! Comes in: the entries of a response, with their port and neighbour, and the table.
//! Goes out: in the table, what it takes of them; in the outbox, each record that changed, but not on the port by which it came.
//! Touches: one of the two tables, and the outbox.
//! The way: `responses`; `renewing` renews services that come as they were, `offering` offers the other entries, `touched` notes what
//! each touches, `changed` compares, `news` advertises.
mod changed;
mod news;
mod offering;
mod renewing;
pub(crate) mod responses;
mod touched;
