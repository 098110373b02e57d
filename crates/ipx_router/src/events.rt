//! The methods of a router to which events are handed, one for each kind.
//! Comes in: an event, and an outbox with the room that `need` tells; `handle` asks for that, so nothing fails from here on.
//! Goes out: packets in the outbox, and what became of the event.
//! Touches: the router's own fields. No other room does: each is lent the ports, the tables and the outbox that it needs.
//! `local` has the events without bytes; `packet` hands what `judging` finds to the room that acts on it, but forwards a far packet itself.
mod local;
pub(crate) mod need;
mod packet;
