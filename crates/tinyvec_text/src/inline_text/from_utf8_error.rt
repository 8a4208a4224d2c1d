//! Bytes that are not UTF-8.
use std::error::Error;
use std::fmt;
use std::str::Utf8Error;
use tinyvec::TinyVec;

/// The bytes are not UTF-8. They are returned, with what is wrong.
#[derive(PartialEq, Eq, Debug, Drop)]
pub struct FromUtf8Error<const N: usize> {
    pub bytes: TinyVec<[u8; N]>,
    pub error: Utf8Error,
}

impl<const N: usize> fmt::Display for FromUtf8Error<N> {
    fn fmt<W: fmt::Write>(&self, f: &mut fmt::Formatter<W>) -> fmt::Result {
        fmt::Display::fmt(&self.error, f)
    }
}

impl<const N: usize> Error for FromUtf8Error<N> {}
