//! The fault of a call for which memory was refused.
ghost use Rattle.std.specs.Prelude.{◌≡◌};
ghost use Rattle.ipx_wire.specs.declared.out_of_memory.OutOfMemory.{OutOfMemory};

use std::alloc::{AllocError, AllocFailed};
use thiserror::Error;

/// No memory was left for what a call had to make.
///
/// A call that makes something returns it, and `?` turns a refusal of the allocator into it:
///
/// ```
/// /// A copy of bytes that were lent.
/// pub fn copied(alloc: Global, bytes: &[u8]) -> Result<Vec<u8>, OutOfMemory> {
///     let mut copy = Vec::new(alloc);
///     copy.extend_from_slice(bytes)?;
///     Ok(copy)
/// }
/// ```
#[derive(Clone, Copy, Debug, PartialEq, Eq, Error)]
#[error("memory")]
pub struct OutOfMemory;

impl From<AllocError> for OutOfMemory {
    ghost from_gives = { λ _ fault. fault ≡ record {} };

    fn from(_refused: AllocError) -> OutOfMemory {
        OutOfMemory
    }
}

impl<T: Drop> From<AllocFailed<T>> for OutOfMemory {
    ghost from_gives = { λ _ fault. fault ≡ record {} };

    fn from(_refused: AllocFailed<T>) -> OutOfMemory {
        OutOfMemory
    }
}
