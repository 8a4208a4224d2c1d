//! Callers of a splice of a `TinyVec`.
ghost use Rattle.std.specs.Prelude.{◌≡◌, ◌≤◌, ◌+◌, ◌-◌, ◌++◌, ◌∷◌, [], List, pos, Some, length, take, drop, IsTrue};
ghost use Rattle.std.specs.Prelude.{IsOk, OnOk, OnErr, IfErr};
ghost use Rattle.std.specs.Iterator.{IsFinite};
ghost use Rattle.std.specs.Iterator.Adapters.{fuse_steps};
ghost use Rattle.tinyvec.specs.Ends.{front, back, RunsWord};
ghost use Rattle.tinyvec.specs.Fused.{fused_rest, FusedFinite, HasTwoEnds};
ghost use Rattle.tinyvec.specs.SplicedByWord.{IsSpliceRefused};
ghost use Rattle.tinyvec.specs.TinyVec.{view, tiny_items, tiny_capacity, IsInline};
ghost use Rattle.tinyvec.specs.Room.{GrowsByPushes};
ghost use Rattle.tinyvec.specs.FrameLaws.{FrameOf};
ghost use Rattle.tinyvec.specs.Splice.{splice_replacement, SpliceKeeps, SpliceCanStep, SpliceSteps, SpliceStepsBack};

use std::alloc::Global;
use std::iter::Fuse;
use tinyvec::{Array, SpliceRest, TinyVec, TinyVecSplice};

/// Pushes that have room allocate nothing, so they need no test.
fn three(alloc: Global) -> TinyVec<[i32; 4]>
    ensures items { tiny_items result ≡ pos 1 ∷ pos 2 ∷ pos 3 ∷ [] }
    ensures place { IsInline result }
    ensures capacity { tiny_capacity result ≡ 4 }
{
    let mut v: TinyVec<[i32; 4]> = TinyVec::new(alloc);
    let _one = v.push(1);
    let _two = v.push(2);
    let _three = v.push(3);
    v
}

/// A replacement that fits the array: it is all there, the list stays inline, and no memory can be refused.
pub fn replaced_inline(alloc: Global) -> (Option<i32>, bool, TinyVec<[i32; 4]>)
    ensures first { result.0 ≡ Some (pos 2) }
    ensures all_fit { IsTrue result.1 }
    ensures items { tiny_items result.2 ≡ pos 1 ∷ pos 7 ∷ pos 8 ∷ pos 3 ∷ [] }
    ensures place { IsInline result.2 }
{
    let mut v = three(alloc);
    let mut splice = v.splice(1..2, [7, 8]);
    let first = splice.next();
    let finished = splice.finish();
    (first, finished.is_ok(), v)
}

/// One item from each end of any splice, whose replacement may be any iterator with two ends.
pub fn one_from_each_end<A: Array, I: DoubleEndedIterator<Item = A::Item>>(
    splice: &mut TinyVecSplice<'_, A, Fuse<I>>,
) -> (Option<A::Item>, Option<A::Item>)
    requires ready { SpliceCanStep (λ v. (view A.Slots v).items) splice.old }
    requires can { (s : I) → I.can_next s × I.can_next_back s }
    ensures asked { RunsWord (SpliceSteps (λ v. (view A.Slots v).items) (FrameOf A.Slots) (fuse_steps I.next_gives))
        (SpliceStepsBack (λ v. (view A.Slots v).items) (FrameOf A.Slots) (fuse_steps I.next_back_gives))
        splice.old (front ∷ back ∷ []) (result.0 ∷ result.1 ∷ []) splice.new }
    ensures kept { SpliceKeeps (λ v. (view A.Slots v).items) (FrameOf A.Slots) splice.old splice.new }
    ensures ready { SpliceCanStep (λ v. (view A.Slots v).items) splice.new }
    ensures finite { FusedFinite I.remaining (splice_replacement splice.old)
        → FusedFinite I.remaining (splice_replacement splice.new) }
{
    let first = splice.next();
    let last = splice.next_back();
    (first, last)
}

/// Replaces a range of any vector by any replacement with two ends that ends, of which one item is taken from each end.
pub fn replace<A: Array, I: DoubleEndedIterator<Item = A::Item>>(
    vec: &mut TinyVec<A>,
    start: usize,
    end: usize,
    replacement: I,
) -> Result<(), SpliceRest<A::Item, Fuse<I>>>
    requires start_le_end { start ≤ end }
    requires in_bounds { end ≤ length (view A.Slots vec.old).items }
    requires can { (s : I) → I.can_next s × I.can_next_back s }
    requires finite { IsFinite (I.remaining replacement) }
    ensures list { (rest : I → List A.Item) → HasTwoEnds I.next_gives I.next_back_gives rest
        → OnOk result
        ((view A.Slots vec.new).items
        ≡ take start (view A.Slots vec.old).items ++ rest replacement ++ drop end (view A.Slots vec.old).items)
        × IfErr result
        (λ refused. IsSpliceRefused (front ∷ back ∷ []) (end - start) (take start (view A.Slots vec.old).items)
        (drop end (view A.Slots vec.old).items) (rest replacement) (view A.Slots vec.new).items
        (refused.item ∷ fused_rest rest refused.rest)) }
    ensures succeeds { (rest : I → List A.Item) → HasTwoEnds I.next_gives I.next_back_gives rest
        → start + length (rest replacement) + (length (view A.Slots vec.old).items - end)
        ≤ (view A.Slots vec.old).place.capacity → IsOk result }
    ensures full { OnErr result (length (view A.Slots vec.new).items ≡ (view A.Slots vec.new).place.capacity) }
    ensures grows { GrowsByPushes A.Item.is_default (view A.Slots vec.old) (view A.Slots vec.new) }
{
    let mut splice = vec.splice(start..end, replacement);
    let _ends = one_from_each_end(&mut splice);
    splice.finish()
}
