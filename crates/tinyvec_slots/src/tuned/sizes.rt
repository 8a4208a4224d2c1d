//! How many bytes an item takes. Once `T` is known each word is a constant, but for `are_large` of larger items, and
//! the other branch is gone.
//!
//! A word takes the items, since a slice fits in memory, and so the proof knows that no product wraps.
ghost use Rattle.std.specs.Prelude.{◌<◌, length};

use std::mem;

/// Whether an item takes one byte.
#[inline(always)]
pub fn are_bytes<T>(items: &[T]) -> bool
    requires some { 0 < length items.now }
{
    items[..1].len() * mem::size_of::<T>() == 1
}

/// Whether an item takes 4 to 8 bytes.
#[inline(always)]
pub fn fit_registers<T>(items: &[T]) -> bool
    requires some { 0 < length items.now }
{
    let size = items[..1].len() * mem::size_of::<T>();
    4 <= size && size <= 8
}

/// Whether an item takes up to 8 bytes.
#[inline(always)]
pub fn are_small<T>(items: &[T]) -> bool
    requires some { 0 < length items.now }
{
    items[..1].len() * mem::size_of::<T>() <= 8
}

/// Whether an item takes more than 8 bytes, also of a slice that may be empty. A short slice of items that take few more
/// counts as small.
#[inline(always)]
pub(crate) fn are_large<T>(items: &[T]) -> bool {
    items.len() * mem::size_of::<T>() / 8 > items.len()
}
