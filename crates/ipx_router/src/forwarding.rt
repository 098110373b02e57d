//! Packets that are sent on: those that are propagated, and those of `Router::relay`. A far packet that an event brings is forwarded by `events`.
//! Comes in: a packet that came on a port, and its verdict or what a router has to judge it by.
//! Goes out: the packet on each port whose network it hasn't crossed, or on the one where it leaves.
//! Touches: the outbox. Nothing is learned or answered here.
//! `sending_on` has packets that are only to be sent on, `propagation` those that go to every other network.
pub(crate) mod propagation;
pub(crate) mod sending_on;
