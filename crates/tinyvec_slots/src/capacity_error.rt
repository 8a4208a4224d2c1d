//! Why items found no room.

use thiserror::Error;

/// The items don't fit the vector.
#[derive(Debug, Clone, Copy, PartialEq, Eq, Error)]
#[error("insufficient capacity")]
pub struct CapacityError;
