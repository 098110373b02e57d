//! A place that is present.

/// What a datagram to a place needs.
///
/// See the example of [`Peers`](crate::Peers).
#[derive(Clone, Copy, Debug, PartialEq, Eq)]
pub struct Present {
    /// The place's session, which the datagram echoes.
    pub session: [u8; 16],
    /// Where it goes.
    pub address: [u8; 24],
}
