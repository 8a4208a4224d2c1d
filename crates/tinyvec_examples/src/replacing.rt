//! Callers that replace a range as a whole.
ghost use Rattle.std.specs.Prelude.{◌≡◌, ◌+◌, ◌≤◌, ◌++◌, ◌∷◌, [], pos, take, drop, OnOk};
ghost use Rattle.tinyvec_array.specs.ArrayVec.{items, items_len};

use std::iter::{Copied, Fuse};
use std::slice;
use tinyvec::{ArrayVec, SpliceRest};

/// Copies of numbers at a place. The first that finds no room is returned, with the others.
pub fn copies_put_in<'a>(
    v: &mut ArrayVec<[u32; 8]>,
    at: usize,
    more: &'a [u32],
) -> Result<(), SpliceRest<u32, Fuse<Copied<slice::Iter<'a, u32>>>>>
    requires { at ≤ items_len v.old }
    ensures { OnOk result (items v.new ≡ take at (items v.old) ++ more.now ++ drop at (items v.old)) }
{
    v.splice_all(at..at, more.iter().copied())
}

/// An array's items in the place of a range, by `splice` and `finish`.
pub fn pair_put_in(v: &mut ArrayVec<[i32; 8]>, at: usize)
    requires { at + 2 ≤ items_len v.old }
    ensures { items v.new ≡ take at (items v.old) ++ (pos 7 ∷ pos 8 ∷ []) ++ drop (at + 2) (items v.old) }
{
    // A vector that was lent is not known to fit until a call says so.
    let _len = v.len();
    let _all_fit = v.splice(at..at + 2, [7, 8]).finish();
}
