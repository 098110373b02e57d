//! A datagram.

/// A datagram that came, and whose seal was right.
///
/// See the example of [`Peers`](crate::Peers).
#[repr(C)]
#[derive(Clone, Copy, Debug, PartialEq, Eq)]
pub struct Opened {
    /// The sender's session.
    pub session: [u8; 16],
    /// The receiver's, as the sender knows it, or zeros.
    pub echo: [u8; 16],
    /// Where it came from: any bytes, the same for the same address.
    pub address: [u8; 24],
    /// Its number in the sender's session.
    pub number: u64,
}
