//! Callers of a drain. One that is generic over what is lent knows what is left, and so does who calls it with a slice.
//! One that names `SliceVec` knows it by `drain_each` and `drain_into`.
ghost use Rattle.std.specs.Prelude.{◌≡◌, ◌≤◌, ◌∷◌, pos, length};
ghost use Rattle.std.specs.List.{remove_range};
ghost use Rattle.tinyvec_array.specs.SliceVec.{slice_items, slice_spare, slice_name};

use tinyvec_array::SliceVec;

/// A caller by name: the items are taken one by one, and what preceded and followed them is left.
pub fn drop_two(v: &mut SliceVec<'_, i32>)
    requires { 3 ≤ length (slice_items v.old) }
    ensures same_reference { slice_name v.new ≡ slice_name v.old }
    ensures items { slice_items v.new ≡ remove_range (slice_items v.old) 1 3 }
    ensures spare { slice_spare v.new ≡ pos 0 ∷ pos 0 ∷ slice_spare v.old }
{
    v.drain_each(1..3, &mut |_x| {});
}
