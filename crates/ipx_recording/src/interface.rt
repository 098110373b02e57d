//! An interface that packets were recorded on.

/// What a section says of an interface.
#[derive(Clone, Copy, Debug, Default, PartialEq, Eq)]
pub struct Interface {
    /// Its link type, which says what stands before a packet.
    pub link: u16,
    /// How many bytes of a packet are kept at most, 0 for all of them.
    pub most: u32,
}
