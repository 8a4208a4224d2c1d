//! Callers of a `TinyVec`: one list, and where it is.
ghost use Rattle.std.specs.Prelude.{◌≡◌, ◌-◌, ◌<◌, ◌∷◌, [], pos, length, slice_set, OnOk};
ghost use Rattle.tinyvec.specs.TinyVec.{view, tiny_items, tiny_spare, IsInline};

use std::alloc::Global;
use tinyvec::{Array, NoRoom, TinyVec, TinyVecIterator};

/// One item of any vector is written: that item, and nothing else.
pub fn set<A: Array>(v: &mut TinyVec<A>, i: usize, x: A::Item)
    requires { i < length (view A.Slots v.old).items }
    ensures items { (view A.Slots v.new).items ≡ slice_set (view A.Slots v.old).items i x }
    ensures spare { (view A.Slots v.new).spare ≡ (view A.Slots v.old).spare }
    ensures place { (view A.Slots v.new).place ≡ (view A.Slots v.old).place }
{
    v[i] = x;
}

/// The middle of four, drained: two zeros follow what is left.
pub fn middle_drained(alloc: Global) -> TinyVec<[i32; 4]>
    ensures items { tiny_items result ≡ pos 1 ∷ pos 4 ∷ [] }
    ensures place { IsInline result }
    ensures spare { tiny_spare result ≡ pos 0 ∷ pos 0 ∷ [] }
{
    let mut v = TinyVec::from_array_len(alloc, [1, 2, 3, 4], 4);
    {
        let mut d = v.drain(1..3);
        let _two = d.next();
    }
    v
}

/// Moves all items to an empty vector. If memory is refused for one, that item and the others are returned.
pub fn moved_by_iterator<A: Array>(
    from: TinyVec<A>,
    to: &mut TinyVec<A>,
) -> Result<(), NoRoom<A::Item, TinyVecIterator<A>>>
    requires { (view A.Slots to.old).items ≡ [] }
    ensures { OnOk result ((view A.Slots to.new).items ≡ (view A.Slots from).items) }
{
    to.extend(from)
}
