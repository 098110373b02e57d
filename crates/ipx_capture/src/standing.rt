//! Where a reader of a capture stands: among its records, or at a fault that it keeps.
use crate::capture_fault::CaptureFault;

/// Whether a capture goes on.
#[derive(Clone, Copy, Debug, PartialEq, Eq)]
pub enum Standing {
    /// Neither its end nor a fault was told.
    Open,
    /// Its end was told.
    Ended,
    /// A fault was told.
    Broken(CaptureFault),
}
