//! Why a recording is read no further.
use thiserror::Error;

/// Why a recording can't be read, or not further.
///
/// ```
/// match Recording::begin(bytes) {
///     Ok(_) => println!(rt; "this is a recording")?,
///     Err(fault) => println!(rt; "{fault}")?,
/// }
/// // prints the file ends inside its first section's header
/// ```
#[derive(Clone, Copy, Debug, PartialEq, Eq, Hash, Error)]
pub enum RecordingFault {
    /// The file ends inside the header of its first section.
    #[error("the file ends inside its first section's header")]
    CutHeader,
    /// The byte order of a section isn't told by 1A2B3C4Dh.
    #[error("a section without a byte order")]
    Magic,
    /// The version of a section isn't 1.
    #[error("a version other than 1")]
    Version,
    /// A block's length is no multiple of four, or too small for what it must have.
    #[error("a block of a length that can't be")]
    BlockLength,
    /// A packet is of an interface that its section hasn't described.
    #[error("a packet of an unknown interface")]
    NoInterface,
    /// A section describes more than 256 interfaces.
    #[error("a section of more than 256 interfaces")]
    ManyInterfaces,
    /// A packet keeps more than 262,144 bytes.
    #[error("a packet of more than 262,144 bytes")]
    RecordLong,
    /// A block's length at its end isn't that at its front.
    #[error("a block with two lengths")]
    LengthAgain,
    /// The file ends inside a block.
    #[error("the file ends inside a block")]
    CutBlock,
}
