//! The fault of a device that failed.
use thiserror::Error;

/// A device failed: an [`Intake`](crate::Intake) could not read, or an [`Outlet`](crate::Outlet) could not write.
///
/// See the example of [`Intake`](crate::Intake).
#[derive(Clone, Copy, Debug, PartialEq, Eq, Error)]
#[error("the device failed")]
pub struct Failed;
