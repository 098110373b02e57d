//! The router, or the internet, that a script makes.
//! Comes in: the ports that the lines of a script named.
//! Goes out: a router, or an internet of them; or why the last line makes none.
//! Touches: nothing but the memory of an internet.
//! The sizes of the program's router stand in `router`.
pub(crate) mod internet;
pub(crate) mod router;
