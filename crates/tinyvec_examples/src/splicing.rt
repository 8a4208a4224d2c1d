//! Callers of a splice.
ghost use Rattle.std.specs.Prelude.{◌≡◌, ◌≤◌, ◌+◌, ◌-◌, ◌++◌, ◌∷◌, [], List, length, take, drop, max, IsOk, OnOk};
ghost use Rattle.std.specs.Prelude.{OnErr, IfErr, ◌↔◌};
ghost use Rattle.std.specs.Iterator.Adapters.{fuse_steps};
ghost use Rattle.tinyvec_array.specs.ArrayVec.{view_of};
ghost use Rattle.tinyvec_array.specs.View.{view};
ghost use Rattle.tinyvec_array.specs.Slots.{SlotRule};
ghost use Rattle.tinyvec_array.specs.Ends.{front, back, given_items, RunsWord, TakesFromEnds};
ghost use Rattle.tinyvec_array.specs.Fused.{fused_rest, HasTwoEnds};
ghost use Rattle.tinyvec_array.specs.CutLaws.{KeptOf};
ghost use Rattle.tinyvec_array.specs.Splice.{splice_left, SpliceCanStep, SpliceSteps, SpliceStepsBack};
ghost use Rattle.tinyvec_array.specs.SplicedByWord.{IsSpliceRefused};

use std::iter::Fuse;
use tinyvec_array::{Array, ArrayVec, ArrayVecSplice, SpliceRest};

/// One item from each end of any splice, whose replacement may be any iterator with two ends.
pub fn one_from_each_end<A: Array, I: DoubleEndedIterator<Item = A::Item>>(
    splice: &mut ArrayVecSplice<'_, A, Fuse<I>>,
) -> (Option<A::Item>, Option<A::Item>)
    requires ready { SpliceCanStep (λ v. (view A.Slots v).items) splice.old }
    requires can { (s : I) → I.can_next s × I.can_next_back s }
    ensures asked { RunsWord (SpliceSteps (λ v. (view A.Slots v).items) (KeptOf A.Slots) (fuse_steps I.next_gives))
        (SpliceStepsBack (λ v. (view A.Slots v).items) (KeptOf A.Slots) (fuse_steps I.next_back_gives))
        splice.old (front ∷ back ∷ []) (result.0 ∷ result.1 ∷ []) splice.new }
    ensures yields { TakesFromEnds (splice_left (λ v. (view A.Slots v).items) splice.old) (front ∷ back ∷ [])
        (result.0 ∷ result.1 ∷ []) (splice_left (λ v. (view A.Slots v).items) splice.new) }
    ensures ready { SpliceCanStep (λ v. (view A.Slots v).items) splice.new }
{
    let first = splice.next();
    let last = splice.next_back();
    (first, last)
}

/// Replaces a range of any vector by any replacement with two ends, of which one item is taken from each end.
pub fn replace<A: Array, I: DoubleEndedIterator<Item = A::Item>>(
    vec: &mut ArrayVec<A>,
    start: usize,
    end: usize,
    replacement: I,
) -> Result<(), SpliceRest<A::Item, Fuse<I>>>
    requires start_le_end { start ≤ end }
    requires in_bounds { end ≤ length (view A.Slots vec.old).items }
    requires can { (s : I) → I.can_next s × I.can_next_back s }
    ensures list { (rest : I → List A.Item) → HasTwoEnds I.next_gives I.next_back_gives rest
        → (IsOk result ↔ (start + length (rest replacement) + (length (view A.Slots vec.old).items - end) ≤ A.CAPACITY))
        × OnOk result ((view A.Slots vec.new).items
        ≡ take start (view A.Slots vec.old).items ++ rest replacement ++ drop end (view A.Slots vec.old).items)
        × IfErr result
        (λ refused. IsSpliceRefused (front ∷ back ∷ []) (end - start)
        (take start (view A.Slots vec.old).items) (drop end (view A.Slots vec.old).items) (rest replacement)
        (view A.Slots vec.new).items (refused.item ∷ fused_rest rest refused.rest)) }
    ensures full { OnErr result (length (view A.Slots vec.new).items ≡ A.CAPACITY) }
    ensures slot_rule { SlotRule A.Item.is_default (view_of A.Slots vec.old) (view_of A.Slots vec.new) }
{
    // For the proof: how many slots there are.
    let _slots = vec.capacity();
    let mut splice = vec.splice(start..end, replacement);
    let _ends = one_from_each_end(&mut splice);
    splice.finish()
}

/// How often slots are touched if a range of any vector is replaced so. The replacement may be any
/// iterator with two ends.
pub fn touches_of_replace<A: Array, I: DoubleEndedIterator<Item = A::Item>>(
    vec: &mut ArrayVec<A>,
    start: usize,
    end: usize,
    replacement: I,
) -> (Option<A::Item>, Option<A::Item>, u128)
    requires start_le_end { start ≤ end }
    requires in_bounds { end ≤ length (view A.Slots vec.old).items }
    requires can { (s : I) → I.can_next s × I.can_next_back s }
    ensures kept { length (view A.Slots vec.old).items - (end - start) ≤ length (view A.Slots vec.new).items }
    ensures at_least { length (given_items (result.0 ∷ result.1 ∷ []))
        + (length (view A.Slots vec.new).items - (length (view A.Slots vec.old).items - (end - start))) ≤ result.2 }
    ensures at_most { result.2
        ≤ (end - start) + (length (view A.Slots vec.new).items - (length (view A.Slots vec.old).items - (end - start)))
        + max (length (view A.Slots vec.old).items) (length (view A.Slots vec.new).items) }
{
    let mut splice = vec.splice(start..end, replacement);
    let (first, last) = one_from_each_end(&mut splice);
    let (_finished, touches) = splice.finish_counted();
    (first, last, touches)
}

/// Takes a list out, and puts one byte in its place. A splice is ended by `finish` or `stop`: one that is dropped is refused.
pub fn ended(v: &mut ArrayVec<[u8; 4]>) {
    let splice = v.splice(.., [2]);
    let _rest = splice.stop();
}
