//! An error type that takes refused calls by `?`.
use std::alloc::{AllocError, AllocFailed};
use tinyvec::{NoMemory, TinyVec};

/// Why the parts of a version were not read.
#[derive(Debug, Drop)]
pub enum VersionError {
    NoNumber,
    Memory,
}

impl<T: Drop> From<NoMemory<T>> for VersionError {
    fn from(_refused: NoMemory<T>) -> Self {
        VersionError::Memory
    }
}

impl<T: Drop> From<AllocFailed<T>> for VersionError {
    fn from(_refused: AllocFailed<T>) -> Self {
        VersionError::Memory
    }
}

impl From<AllocError> for VersionError {
    fn from(_refused: AllocError) -> Self {
        VersionError::Memory
    }
}

/// Appends the numbers of a version, as `1.13.3`.
pub fn add_parts(parts: &mut TinyVec<[u64; 4]>, version: &str) -> Result<(), VersionError> {
    for text in version.split('.') {
        match text.parse() {
            Ok(part) => parts.push(part)?,
            Err(_) => return Err(VersionError::NoNumber),
        }
    }
    Ok(())
}
