//! Items that are known beforehand, and fit: `extend` succeeds, and the list is known.
ghost use Rattle.std.specs.Prelude.{◌≡◌, ◌+◌, ◌-◌, ◌≤◌, ◌++◌, length, vec_len, IsOk};
ghost use Rattle.std.specs.List.{range_with_len};
ghost use Rattle.tinyvec_array.specs.ArrayVec.{items, spare};

use std::alloc::Global;
use std::iter::Copied;
use std::ops::Range;
use std::{slice, vec};
use tinyvec::{ArrayVec, NoRoom};

/// The items of a `Vec`.
pub fn by_vec(
    v: &mut ArrayVec<[u32; 8]>,
    more: Vec<u32>,
) -> Result<(), NoRoom<u32, vec::IntoIter<u32, Global>>>
    requires { vec_len more ≤ length (spare v.old) }
    ensures { IsOk result × (items v.new ≡ items v.old ++ more.items) }
{
    v.extend(more)
}

/// The numbers of a range.
pub fn by_range(
    v: &mut ArrayVec<[usize; 8]>,
    start: usize,
    end: usize,
) -> Result<(), NoRoom<usize, Range<usize>>>
    requires { end - start ≤ length (spare v.old) }
    ensures { IsOk result × (items v.new ≡ items v.old ++ range_with_len start (end - start)) }
{
    v.extend(start..end)
}

/// Copies of a slice's items.
pub fn by_copies<'a>(
    v: &mut ArrayVec<[u32; 8]>,
    more: &'a [u32],
) -> Result<(), NoRoom<u32, Copied<slice::Iter<'a, u32>>>>
    requires { length more.now ≤ length (spare v.old) }
    ensures { IsOk result × (items v.new ≡ items v.old ++ more.now) }
{
    v.extend(more.iter().copied())
}
