//! A record of a table.

/// An offer that a table holds, and how long ago it was accepted last.
///
/// See the example of [`Table`](crate::Table).
#[derive(Clone, Copy, Debug, Default, PartialEq, Eq)]
pub struct Held<O> {
    /// The offer as it came.
    pub offer: O,
    /// Seconds since then, under 180.
    pub age: u8,
}
