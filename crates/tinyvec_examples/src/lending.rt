//! Callers that write through what a vector lends.
ghost use Rattle.std.specs.Prelude.{◌≡◌, ◌<◌, slice_set, slice_index, length, EachIndex};
ghost use Rattle.tinyvec_array.specs.ArrayVec.{items_len, items, spare, name_of};
ghost use Rattle.tinyvec_array.specs.View.{view};
ghost use Rattle.tinyvec_array.specs.SliceVec.{slice_items, slice_spare, slice_name};
ghost use Rattle.tinyvec.specs.TinyVec.{tiny_items, tiny_len, tiny_spare, tiny_capacity};

use tinyvec::TinyVec;
use tinyvec_array::{ArrayVec, SliceVec, Slots};

/// One item, by its index, in any slots: that item, and nothing else.
pub fn set<S: Slots>(v: &mut ArrayVec<S>, i: usize, x: S::Item)
    requires { i < length (view S.Slots v.old).items }
    ensures same_reference { name_of S.Slots v.new ≡ name_of S.Slots v.old }
    ensures items { (view S.Slots v.new).items ≡ slice_set (view S.Slots v.old).items i x }
    ensures spare { (view S.Slots v.new).spare ≡ (view S.Slots v.old).spare }
{
    v[i] = x;
}

/// Every item is set to 0, and no spare slot.
pub fn zeroed(v: &mut ArrayVec<[u8; 8]>)
    ensures len { items_len v.new ≡ items_len v.old }
    ensures items { EachIndex (items v.new) (λ k. slice_index (items v.new) k ≡ 0) }
    ensures spare { spare v.new ≡ spare v.old }
{
    for x in v.iter_mut() {
        *x = 0;
    }
}

/// The same of a lent list, whose slots stay the same.
pub fn lent_zeroed(v: &mut SliceVec<'_, u8>)
    ensures same_reference { slice_name v.new ≡ slice_name v.old }
    ensures items { EachIndex (slice_items v.new) (λ k. slice_index (slice_items v.new) k ≡ 0) }
    ensures spare { slice_spare v.new ≡ slice_spare v.old }
{
    for x in v.iter_mut() {
        *x = 0;
    }
}

/// The same of a list that is in the array or on the heap.
pub fn tiny_zeroed(v: &mut TinyVec<[u8; 8]>)
    ensures len { tiny_len v.new ≡ tiny_len v.old }
    ensures items { EachIndex (tiny_items v.new) (λ k. slice_index (tiny_items v.new) k ≡ 0) }
    ensures spare { tiny_spare v.new ≡ tiny_spare v.old }
    ensures capacity { tiny_capacity v.new ≡ tiny_capacity v.old }
{
    for x in v.iter_mut() {
        *x = 0;
    }
}
