//! How much one router, tunnel or segment of this library can have.

/// How many ports it has at most, from 1 to 32.
pub(crate) const MOST_PORTS: usize = 32;

/// How many routes it has at most, from 1 to 65,535.
pub(crate) const MOST_ROUTES: usize = 2048;

/// How many services it has at most, from 1 to 65,535.
pub(crate) const MOST_SERVICES: usize = 1024;

/// How many clients a tunnel has at most, from 2 to 65,535.
pub(crate) const MOST_CLIENTS: usize = 4096;

/// How many links a segment has at most, from 1 to 255.
pub(crate) const MOST_LINKS: usize = 32;

/// How many stations a segment knows at most, from 1 to 65,535.
pub(crate) const MOST_STATIONS: usize = 8192;
