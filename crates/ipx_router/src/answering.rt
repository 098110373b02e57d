//! Answers to requests for routes and to queries for services.
//! Comes in: who asks on which port, and for what; and the table.
//! Goes out: packets to the one that asked, of what is advertised on its port, in pages.
//! Touches: the outbox. The tables are read item by item and not copied.
//! `answers` has requests and queries, `nearest` the query for the nearest service.
pub(crate) mod answers;
mod nearest;
