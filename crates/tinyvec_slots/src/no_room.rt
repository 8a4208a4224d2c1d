//! What is returned if an item does not fit. By `?` each becomes an `AllocError`, or an `io::Error`, which drops what it
//! holds.
ghost use Rattle.std.specs.Prelude.{◌≡◌};
ghost use Rattle.std.specs.IoError.{error_kind};
ghost use Rattle.std.specs.declared.io.ErrorKind.TheVariants.{OutOfMemory};

use std::alloc::AllocError;
use std::io::Error;

/// `item` did not fit, and `rest` yields the items after it.
#[derive(PartialEq, Eq, Debug, Drop)]
pub struct NoRoom<T, I> {
    pub item: T,
    pub rest: I,
}

/// `vec` holds the items before `item`, which did not fit, and `rest` yields those after it.
#[derive(PartialEq, Eq, Debug, Drop)]
pub struct FromIterRest<V, T, I> {
    pub vec: V,
    pub item: T,
    pub rest: I,
}

/// What `finish` of a splice could not place: the first such item, and the iterator of the others.
pub type SpliceRest<T, I> = NoRoom<T, I>;

impl<T: Drop, I: Drop> From<NoRoom<T, I>> for AllocError {
    fn from(_refused: NoRoom<T, I>) -> Self {
        AllocError
    }
}

impl<T: Drop, I: Drop> From<NoRoom<T, I>> for Error {
    ghost from_gives = { λ _ e. error_kind e ≡ OutOfMemory };

    fn from(_refused: NoRoom<T, I>) -> Self {
        Error::from(AllocError)
    }
}

impl<V: Drop, T: Drop, I: Drop> From<FromIterRest<V, T, I>> for AllocError {
    fn from(_refused: FromIterRest<V, T, I>) -> Self {
        AllocError
    }
}

impl<V: Drop, T: Drop, I: Drop> From<FromIterRest<V, T, I>> for Error {
    ghost from_gives = { λ _ e. error_kind e ≡ OutOfMemory };

    fn from(_refused: FromIterRest<V, T, I>) -> Self {
        Error::from(AllocError)
    }
}
