//! Why a capture is read no further.
ghost use Rattle.std.specs.Prelude.{◌≡◌};
ghost use Rattle.ipx_capture.specs.declared.capture_fault.CaptureFault.TheVariants.{Memory};

use std::alloc::AllocError;
use thiserror::Error;

/// Why a capture can't be read, or not further.
///
/// ```
/// let mut intake = Intake::new(file);
/// match Capture::from_reader(&mut intake, rt.alloc()) {
///     Ok(_) => println!(rt; "this is a capture")?,
///     Err(CaptureFault::Magic) => println!(rt; "this is no capture")?,
///     Err(fault) => println!(rt; "{fault}")?,
/// }
/// // prints this is no capture
/// ```
#[derive(Clone, Copy, Debug, PartialEq, Eq, Hash, Error)]
pub enum CaptureFault {
    /// The file ends inside its header.
    #[error("the file ends inside its header")]
    CutHeader,
    /// The first four bytes aren't the magic of a capture file.
    #[error("no capture file by its first four bytes")]
    Magic,
    /// The version isn't 2.4.
    #[error("a version other than 2.4")]
    Version,
    /// The link type isn't Ethernet.
    #[error("a link type other than Ethernet")]
    Link,
    /// A record keeps more than 262,144 bytes.
    #[error("a record of more than 262,144 bytes")]
    RecordLong,
    /// The file ends inside a record.
    #[error("the file ends inside a record")]
    CutRecord,
    /// The intake failed.
    #[error("read")]
    Read,
    /// No memory was left.
    #[error("memory")]
    Memory,
}

impl From<AllocError> for CaptureFault {
    ghost from_gives = { λ _ fault. fault ≡ Memory };

    fn from(_refused: AllocError) -> CaptureFault {
        CaptureFault::Memory
    }
}
