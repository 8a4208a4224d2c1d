//! Callers of a drain.
ghost use Rattle.std.specs.Prelude.{◌≡◌, ◌-◌, ◌++◌, ◌∷◌, [], pos, Some, slice_get};
ghost use Rattle.tinyvec_array.specs.View.{view};
ghost use Rattle.tinyvec_array.specs.Ranges.{IsRangeOf, items_before, items_within, items_after};

use std::ops::RangeBounds;
use tinyvec_array::{Array, ArrayVec};

/// Dropped after an item from the back.
pub fn after_next_back() -> (Option<i32>, [i32; 4])
    ensures item { result.0 ≡ Some (pos 3) }
    ensures left { result.1 ≡ pos 1 ∷ pos 4 ∷ pos 0 ∷ pos 0 ∷ [] }
{
    let mut v = ArrayVec::from_array_len([1, 2, 3, 4], 4);
    let mut d = v.drain(1..3);
    let x = d.next_back();
    drop(d);
    (x, v.into_inner())
}

/// The item at `n` of any range of any vector. Those before it and those after it are gone too.
pub fn nth_of<A: Array, R: RangeBounds<usize>>(
    v: &mut ArrayVec<A>,
    range: R,
    n: usize,
) -> Option<A::Item>
    requires not_exhausted { R.has_bounds range }
    requires in_list { IsRangeOf (view A.Slots v.old).items (R.start_bound range) (R.end_bound range) }
    ensures item { result ≡ slice_get (items_within (view A.Slots v.old).items (R.start_bound range) (R.end_bound range)) n }
    ensures left { (view A.Slots v.new).items
        ≡ items_before (view A.Slots v.old).items (R.start_bound range) ++ items_after (view A.Slots v.old).items (R.end_bound range) }
{
    let mut d = v.drain(range);
    d.nth(n)
}

/// Moves all items to an empty vector.
pub fn move_all<A: Array>(from: &mut ArrayVec<A>, to: &mut ArrayVec<A>)
    requires { (view A.Slots to.old).items ≡ [] }
    ensures moved { (view A.Slots to.new).items ≡ (view A.Slots from.old).items }
    ensures left { (view A.Slots from.new).items ≡ [] }
{
    // For the proof: both have as many slots.
    let _both = (from.len(), to.len());
    for x in from.drain(..) {
        to.push(x);
    }
}
