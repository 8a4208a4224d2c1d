//! Callers of slice methods, which an `ArrayVec` and a `TinyVec` have as slices do.
ghost use Rattle.std.specs.Prelude.{◌≡◌, ◌+◌, ◌<◌, ◌≤◌, ◌++◌, ◌∷◌, [], take, drop, swap, IsPermutation};
ghost use Rattle.std.specs.List.Sorted.{IsNonDecreasing};
ghost use Rattle.tinyvec_array.specs.ArrayVec.{items, items_len, spare};
ghost use Rattle.tinyvec.specs.TinyVec.{tiny_items, tiny_len, is_inline};

use tinyvec::{ArrayVec, TinyVec};

/// The first two items in each other's place. The spare slots stay.
pub fn swap_first_two(v: &mut ArrayVec<[u32; 4]>)
    requires { 2 ≤ items_len v.old }
    ensures items { items v.new ≡ swap (items v.old) 0 1 }
    ensures spare { spare v.new ≡ spare v.old }
{
    v.swap(0, 1);
}

/// The items in order, where they are.
pub fn sort(v: &mut TinyVec<[u32; 4]>)
    ensures sorted { IsNonDecreasing (tiny_items v.new) }
    ensures eq_slices { IsPermutation (tiny_items v.old) (tiny_items v.new) }
    ensures place { is_inline v.new ≡ is_inline v.old }
{
    v.sort_unstable();
}

/// Two bytes written over the second and the third.
pub fn overwrite(v: &mut TinyVec<[u8; 4]>)
    requires { 3 ≤ tiny_len v.old }
    ensures items { tiny_items v.new ≡ take 1 (tiny_items v.old) ++ 7 ∷ 8 ∷ [] ++ drop 3 (tiny_items v.old) }
    ensures place { is_inline v.new ≡ is_inline v.old }
{
    v[1..3].copy_from_slice(&[7, 8]);
}
