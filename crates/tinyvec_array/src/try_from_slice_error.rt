//! Why a slice was not taken.

use thiserror::Error;

/// Why `try_from_slice` or `try_extend_from_slice` failed.
#[derive(Debug, Clone, Copy, PartialEq, Eq, Error)]
#[error("could not convert slice to ArrayVec")]
pub enum TryFromSliceError {
    /// The slice has more items than there is room for.
    TooLong,
    /// A clone of an item failed.
    Memory,
}
