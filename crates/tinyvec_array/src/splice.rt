//! The splice: what replaces a range of items by those of an iterator.
ghost use Rattle.std.specs.Prelude.{◌≡◌, length, false, Some, ◌+◌, ◌-◌, ◌<◌, ◌≤◌, ◌∷◌, ◌++◌, List, IfErr, ◌↔◌};
ghost use Rattle.std.specs.Prelude.{MatchResult, IsOk, OnOk, OnErr};
ghost use Rattle.std.specs.Iterator.{Drains, YieldsThen};
ghost use Rattle.std.specs.Iterator.Adapters.{fuse_done, fuse_source, fuse_steps};
ghost use Rattle.tinyvec_array.specs.ArrayVec.{slots_of};
ghost use Rattle.tinyvec_array.specs.View.{view, StaysInPlace};
ghost use Rattle.tinyvec_slots.specs.Ranges.{IsRangeOf, items_before, items_within, items_after};
ghost use Rattle.tinyvec_slots.specs.Filling.{IntoIterYields, ShowsItems};
ghost use Rattle.tinyvec_slots.specs.Fused.{FusedCan, fused_rest};
ghost use Rattle.tinyvec_slots.specs.Replacing.{PutsBetween};
ghost use Rattle.tinyvec_slots.specs.AnySplice.{SpliceBegins};
ghost use Rattle.tinyvec_array.specs.CutLaws.{KeptOf};

use crate::{ArrayVec, CapacityError, Slots};
use std::iter::Fuse;
use std::ops::RangeBounds;
use tinyvec_slots::authors::{resolve_range, splice_over};
use tinyvec_slots::{NoRoom, Splice};

/// Yields the items of a range of an `ArrayVec`, and puts those of `replacement` in their place.
pub type ArrayVecSplice<'a, S, I> = Splice<'a, ArrayVec<S>, I>;

impl<S: Slots> ArrayVec<S>
where
    S::Item: Default,
{
    ghost use Rattle.tinyvec_slots.specs.Splice.{splice_view, splice_len, splice_replacement, splice_vec};
    ghost use Rattle.tinyvec_slots.specs.Splice.{splice_lender, SpliceCanStep, SplicesFromEnds};

    /// Removes the range, yields its items from both ends, and puts those of `replacement` in their place. Of a `SliceVec`
    /// end it in a function that is generic over `Slots`: the borrow checker covers no `finish` and no `stop` where
    /// `SliceVec` is named, for which `splice_all` is.
    ///
    /// `not_exhausted` fails only for a `RangeInclusive` that was iterated to its end.
    pub fn splice<R: RangeBounds<usize>, I: IntoIterator<Item = S::Item>>(
        &mut self,
        range: R,
        replacement: I,
    ) -> ArrayVecSplice<'_, S, Fuse<I::IntoIter>>
        requires not_exhausted { R.has_bounds range }
        requires in_list { IsRangeOf (view S.Slots self.old).items (R.start_bound range) (R.end_bound range) }
        ensures begins { SpliceBegins (items_before (view S.Slots self.old).items (R.start_bound range))
            (items_within (view S.Slots self.old).items (R.start_bound range) (R.end_bound range))
            (items_after (view S.Slots self.old).items (R.end_bound range)) (splice_view (λ v. (view S.Slots v).items) result)
            (splice_len result) }
        ensures replacement { I.into_iter_gives replacement (fuse_source (splice_replacement result)) }
        ensures unasked { fuse_done (splice_replacement result) ≡ false }
        ensures slots { splice_vec result ≡ self.old }
        ensures same_reference { splice_lender result ≡ self.entry.ghost_name }
        ensures ready { SpliceCanStep (λ v. (view S.Slots v).items) result }
        // However its calls follow one another.
        ensures both_ends { SplicesFromEnds (λ v. (view S.Slots v).items) (KeptOf S.Slots) I.IntoIter.next_gives result }
    {
        let part = resolve_range(range, self.len());
        splice_over(self, part.start, part.end, replacement.into_iter())
    }

    /// Puts the items of `replacement` in the place of the range, whose items it drops: `splice` and `finish` in one. If
    /// an item finds no room, it is returned with those that follow it. The vector is then full.
    ///
    /// `not_exhausted` fails only for a `RangeInclusive` that was iterated to its end.
    pub fn splice_all<R: RangeBounds<usize>, I: IntoIterator<Item = S::Item>>(
        &mut self,
        range: R,
        replacement: I,
    ) -> Result<(), NoRoom<S::Item, Fuse<I::IntoIter>>>
        requires not_exhausted { R.has_bounds range }
        requires in_list { IsRangeOf (view S.Slots self.old).items (R.start_bound range) (R.end_bound range) }
        requires can { (it : I.IntoIter) → I.into_iter_gives replacement it → I.IntoIter.can_next it }
        ensures ran { (it : Fuse I.IntoIter) × (xs : List S.Item) × I.into_iter_gives replacement (fuse_source it)
            × (fuse_done it ≡ false)
            × MatchResult result (λ _. Drains (fuse_steps I.IntoIter.next_gives) it xs)
            (λ refused. YieldsThen (fuse_steps I.IntoIter.next_gives) it xs (Some refused.item) refused.rest)
            × ((view S.Slots self.new).items
            ≡ items_before (view S.Slots self.old).items (R.start_bound range) ++ xs
            ++ items_after (view S.Slots self.old).items (R.end_bound range)) }
        ensures full { OnErr result (length (view S.Slots self.new).items ≡ length (slots_of S.Slots self.new)) }
        ensures changes { StaysInPlace S.Item.is_default (view S.Slots self.old) (view S.Slots self.new) }

        // The returned iterator can be iterated further.
        ensures goes_on { IfErr result (λ refused. FusedCan I.IntoIter.can_next refused.rest) }

        // For an iterator of which `rest` shows the remaining items.
        ensures listed { (rest : I.IntoIter → List S.Item) → ShowsItems I.IntoIter.next_gives rest
            → (it : I.IntoIter) × I.into_iter_gives replacement it
            × (IsOk result ↔ (length (items_before (view S.Slots self.old).items (R.start_bound range)) + length (rest it)
            + length (items_after (view S.Slots self.old).items (R.end_bound range)) ≤ length (slots_of S.Slots self.new)))
            × OnOk result ((view S.Slots self.new).items
            ≡ items_before (view S.Slots self.old).items (R.start_bound range) ++ rest it
            ++ items_after (view S.Slots self.old).items (R.end_bound range))
            × IfErr result (λ refused. (placed : List S.Item)
            × (rest it ≡ placed ++ refused.item ∷ fused_rest rest refused.rest)
            × ((view S.Slots self.new).items
            ≡ items_before (view S.Slots self.old).items (R.start_bound range) ++ placed
            ++ items_after (view S.Slots self.old).items (R.end_bound range))) }

        // For items that are known, as those of a `Vec`, a range or a slice.
        ensures known { (xs : List S.Item) → IntoIterYields I.into_iter_gives I.IntoIter.next_gives replacement xs
            → PutsBetween (length (slots_of S.Slots self.new)) (items_before (view S.Slots self.old).items (R.start_bound range)) xs
            (items_after (view S.Slots self.old).items (R.end_bound range)) result (view S.Slots self.new).items }
    {
        let splice = self.splice(range, replacement);
        splice.finish()
    }

    /// Puts copies of the slice's items in the place of the range, whose items it drops. If they don't fit, fails and
    /// changes nothing.
    ///
    /// `not_exhausted` fails only for a `RangeInclusive` that was iterated to its end.
    pub fn replace_range<R: RangeBounds<usize>>(
        &mut self,
        range: R,
        replacement: &[S::Item],
    ) -> Result<(), CapacityError>
    where
        S::Item: Copy,
        requires not_exhausted { R.has_bounds range }
        requires in_list { IsRangeOf (view S.Slots self.old).items (R.start_bound range) (R.end_bound range) }
        ensures variant { IsOk result ↔ (length (items_before (view S.Slots self.old).items (R.start_bound range))
            + length replacement.now + length (items_after (view S.Slots self.old).items (R.end_bound range))
            ≤ length (slots_of S.Slots self.old)) }
        ensures items { OnOk result ((view S.Slots self.new).items
            ≡ items_before (view S.Slots self.old).items (R.start_bound range) ++ replacement.now
            ++ items_after (view S.Slots self.old).items (R.end_bound range)) }
        ensures changes { StaysInPlace S.Item.is_default (view S.Slots self.old) (view S.Slots self.new) }
        ensures refused { OnErr result (self.new ≡ self.old) }
    {
        let part = resolve_range(range, self.len());
        let kept = self.len() - (part.end - part.start);
        if replacement.len() > self.capacity() - kept {
            return Err(CapacityError);
        }
        self.replace_fitting(part.start, part.end, replacement);
        Ok(())
    }
}
