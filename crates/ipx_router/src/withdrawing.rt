//! Seconds, and ports that go down: what ends with them is advertised as unreachable.
//! Comes in: the tables, the ports that are up, and whether the second is periodic or which port went down.
//! Goes out: on each port what ended and wasn't learned there, and a lost port's network; each periodic second all else too, by key.
//! Touches: both tables, and the outbox.
//! `both_tables` has the second and the port, `ended` what ended, `periodic` all else beside it.
pub(crate) mod both_tables;
mod ended;
mod periodic;
