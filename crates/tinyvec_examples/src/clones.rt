//! Clones, of items that own memory and of numbers.
ghost use Rattle.std.specs.Prelude.{◌≡◌, ◌+◌, ◌-◌, ◌≤◌, length, IfOk, OnOk, OnErr};
ghost use Rattle.std.specs.List.{AppendsClones};
ghost use Rattle.tinyvec_array.specs.ArrayVec.{items};
ghost use Rattle.tinyvec_array.specs.View.{view};

use std::alloc::AllocError;
use tinyvec_array::{Array, ArrayVec};

/// Clones of any items are appended. If one fails, the list is as before.
pub fn appended<A: Array>(v: &mut ArrayVec<A>, more: &[A::Item]) -> Result<(), AllocError>
where
    A::Item: Clone,
    requires { length more.now ≤ A.CAPACITY - length (view A.Slots v.old).items }
    ensures items { OnOk result (AppendsClones A.Item.is_clone (view A.Slots v.old).items (view A.Slots v.new).items more.now) }
    ensures len { OnOk result (length (view A.Slots v.new).items ≡ length (view A.Slots v.old).items + length more.now) }
    ensures refused { OnErr result ((view A.Slots v.new).items ≡ (view A.Slots v.old).items) }
{
    // For the proof: how many slots there are.
    let _slots = v.capacity();
    v.extend_from_slice(more)
}

/// Numbers equal their clones.
pub fn same(v: &ArrayVec<[i32; 4]>) -> Result<ArrayVec<[i32; 4]>, AllocError>
    ensures { IfOk result (λ w. w ≡ v.now) }
{
    v.clone()
}
