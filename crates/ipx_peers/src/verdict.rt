//! What becomes of a datagram.

/// What becomes of a datagram. Where it is heard, it says the number of its place.
///
/// See the example of [`Peers`](crate::Peers).
#[derive(Clone, Copy, Debug, PartialEq, Eq)]
pub enum Verdict {
    /// It counts for nothing: it is one's own, its session is zeros or its number 0, or one hasn't begun.
    Dropped,
    /// It echoes another session: an empty datagram goes back, which echoes its session.
    Greet,
    /// Its number was heard, or is too old to tell.
    Repeated,
    /// It is heard, from a place that is known.
    Heard(u8),
    /// It is heard, from a new place, which is answered by an empty datagram.
    New(u8),
    /// It is of a new place, and all others are present.
    Full,
    /// It is of a new place, and not all others are present: begin again.
    Again,
}
