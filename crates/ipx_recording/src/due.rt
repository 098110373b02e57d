//! Which part of a recording comes next.

/// What the next bytes are.
#[derive(Clone, Copy, Debug, PartialEq, Eq)]
pub enum Due {
    /// A block, or the end of the file.
    Block,
    /// The length of a packet on the wire, and its bytes: of this link type, so many, and then so many further bytes of a block
    /// of this length.
    Packet(u16, u32, u32, u32),
    /// So many further bytes of a block, and its length again.
    Rest(u32, u32),
}
