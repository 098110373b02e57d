//! A router's ports, as the other rooms read them.
//! Comes in: the ports of a router, or those of which a router is to be made.
//! Goes out: the port of a number, the addresses of its processes, which ports are up, whether ports make a router.
//! Touches: nothing.
//! `making` judges the ports of a new router, `addresses` has those of its processes, `up_ports` which ports are up.
pub(crate) mod addresses;
pub(crate) mod making;
pub(crate) mod up_ports;
