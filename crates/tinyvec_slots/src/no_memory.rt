//! What is returned if memory is refused.
ghost use Rattle.std.specs.Prelude.{◌≡◌};
ghost use Rattle.std.specs.IoError.{error_kind};
ghost use Rattle.std.specs.declared.io.ErrorKind.TheVariants.{OutOfMemory};

use std::alloc::{AllocError, AllocFailed};
use std::io::Error;

/// The allocator refused, or a clone failed. The argument is returned.
#[derive(PartialEq, Eq, Debug, Drop)]
pub struct NoMemory<T>(pub T);

/// Drops the argument.
impl<T: Drop> From<NoMemory<T>> for AllocError {
    fn from(_refused: NoMemory<T>) -> Self {
        AllocError
    }
}

/// Drops the argument.
impl<T: Drop> From<NoMemory<T>> for Error {
    ghost from_gives = { λ _ e. error_kind e ≡ OutOfMemory };

    fn from(_refused: NoMemory<T>) -> Self {
        Error::from(AllocError)
    }
}

/// Keeps the argument.
impl<T> From<NoMemory<T>> for AllocFailed<T> {
    ghost from_gives = { λ refused failed. failed.value ≡ refused.0 };

    fn from(refused: NoMemory<T>) -> Self {
        AllocFailed { value: refused.0 }
    }
}

/// Keeps the argument.
impl<T> From<AllocFailed<T>> for NoMemory<T> {
    ghost from_gives = { λ failed refused. refused.0 ≡ failed.value };

    fn from(failed: AllocFailed<T>) -> Self {
        NoMemory(failed.value)
    }
}
