//! Which copies of packets go first on a narrow line.

/// Which copies of packets go first on a narrow line: each finds room where those before it in this list find some, and further on.
///
/// See the example of [`Line`](crate::Line).
#[derive(Clone, Copy, Debug, PartialEq, Eq)]
pub enum Rank {
    /// Beyond all parts.
    Beyond,
    /// Within the part of the address.
    OfAddress,
    /// Within what the speaker may say to the address at once.
    OfSpeaker,
    /// The speaker says little to all together.
    Little,
    /// Within the part that the speaker has of the address' part.
    Within,
}
