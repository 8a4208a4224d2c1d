//! Keeping some of the items. The loops are in `tinyvec_slots`, over `CanCut`, implemented in `can_cut.rt`.
ghost use Rattle.std.specs.Prelude.{◌≡◌, ◌-◌, slice_get, Some, length};
ghost use Rattle.std.specs.Fn.{FnOnceTakesAtMut, CalledAt, CalledAtMut, CalledAtPairMut, ComparesKeys};
ghost use Rattle.std.specs.List.{dedup as dedup_list};
ghost use Rattle.std.specs.List.Retain.{IsFiltered, RetainsInTurn, IsDeduped, PopsIf};
ghost use Rattle.tinyvec_slots.specs.Ranges.{range_start, range_end, IsRangeOf};
ghost use Rattle.tinyvec_slots.specs.Extracting.{Extracts};
ghost use Rattle.tinyvec_array.specs.View.{view, ShortensInPlace};
ghost use Rattle.tinyvec_array.specs.CutLaws.{CutOf};

use crate::{ArrayVec, Slots};
use std::ops::RangeBounds;
use tinyvec_slots::ExtractIf;
use tinyvec_slots::authors::{ask_last, resolve_range};

impl<S: Slots> ArrayVec<S>
where
    S::Item: Default,
{
    /// Calls `f` on each item in turn, and keeps those for which it returns `true`. A kept item is moved at most once. The
    /// vacated slots precede the old spare slots.
    pub fn retain<F: FnMut(&S::Item) -> bool>(&mut self, mut f: F)
        requires { F.IsAlwaysCallable f }
        ensures filtered { IsFiltered (CalledAt F.FnMut) f (view S.Slots self.old).items (view S.Slots self.new).items }
        ensures shorter { ShortensInPlace S.Item.is_default (view S.Slots self.old) (view S.Slots self.new) }
    {
        tinyvec_slots::authors::retain(self, &mut f);
    }

    /// Calls `f` on each item in turn, and keeps those for which it returns `true`, as it left them. A kept item is moved
    /// at most once. The vacated slots precede the old spare slots.
    pub fn retain_mut<F: FnMut(&mut S::Item) -> bool>(&mut self, mut f: F)
        requires { F.IsAlwaysCallable f }
        ensures filtered { RetainsInTurn (CalledAtMut F.FnMut) f (view S.Slots self.old).items (view S.Slots self.new).items }
        ensures shorter { ShortensInPlace S.Item.is_default (view S.Slots self.old) (view S.Slots self.new) }
    {
        tinyvec_slots::authors::retain_mut(self, &mut f);
    }

    /// Removes each item that equals the last one kept. A kept item is moved at most once.
    pub fn dedup(&mut self)
    where
        S::Item: PartialEq,
        ensures items { (view S.Slots self.new).items ≡ dedup_list S.Item.eq (view S.Slots self.old).items }
        ensures shorter { ShortensInPlace S.Item.is_default (view S.Slots self.old) (view S.Slots self.new) }
    {
        self.dedup_by(|current, last| *current == *last);
    }

    /// Calls `same` on each item after the first and the last one kept, in this order, and removes the item if it returns
    /// `true`. A kept item is moved at most once.
    pub fn dedup_by<F: FnMut(&mut S::Item, &mut S::Item) -> bool>(&mut self, mut same: F)
        requires { F.IsAlwaysCallable same }
        ensures filtered { IsDeduped (CalledAtPairMut F.FnMut) same (view S.Slots self.old).items
            (view S.Slots self.new).items }
        ensures shorter { ShortensInPlace S.Item.is_default (view S.Slots self.old) (view S.Slots self.new) }
    {
        tinyvec_slots::authors::dedup_by(self, &mut same);
    }

    /// Removes each item whose key equals that of the last one kept. The item's own key is computed first. A kept item is
    /// moved at most once.
    pub fn dedup_by_key<K: PartialEq + Drop, F: FnMut(&mut S::Item) -> K>(&mut self, mut key: F)
        requires { F.IsAlwaysCallable key }
        ensures filtered { IsDeduped (ComparesKeys F.FnMut K.eq) key (view S.Slots self.old).items
            (view S.Slots self.new).items }
        ensures shorter { ShortensInPlace S.Item.is_default (view S.Slots self.old) (view S.Slots self.new) }
    {
        tinyvec_slots::authors::dedup_by_key(self, &mut key);
    }

    /// Calls `predicate` on the last item, and removes and returns the item if it returns `true`. Otherwise the item
    /// stays, as `predicate` left it. Calls nothing if the list is empty.
    pub fn pop_if<F: FnOnce(&mut S::Item) -> bool>(&mut self, predicate: F) -> Option<S::Item>
        requires { (x : S.Item) → slice_get (view S.Slots self.old).items (length (view S.Slots self.old).items - 1) ≡ Some x
            → FnOnceTakesAtMut F.FnOnce predicate x }
        ensures popped { PopsIf F.FnOnce (view S.Slots self.old).items (view S.Slots self.new).items predicate result }
        ensures shorter { ShortensInPlace S.Item.is_default (view S.Slots self.old) (view S.Slots self.new) }
    {
        if !ask_last(self.as_mut_slice(), predicate) {
            return None;
        }
        // By an index: the list is known to have an item.
        Some(self.take_last())
    }

    /// Calls `pred` with the items of the range in turn, as far as the iterator is driven, and removes and yields those for
    /// which it returns `true`. The others stay in order, as `pred` left them, and those after the range move down when the
    /// iterator is dropped. Call it in a function that is generic over `Slots`: the borrow checker does not cover a call
    /// that names `SliceVec`.
    ///
    /// `not_exhausted` fails only for a `RangeInclusive` that was iterated to its end.
    pub fn extract_if<R: RangeBounds<usize>, F: FnMut(&mut S::Item) -> bool>(
        &mut self,
        range: R,
        pred: F,
    ) -> ExtractIf<'_, ArrayVec<S>, F>
        requires not_exhausted { R.has_bounds range }
        requires in_list { IsRangeOf (view S.Slots self.old).items (R.start_bound range) (R.end_bound range) }
        ensures { Extracts (λ v. (view S.Slots v).items) (CutOf S.Slots S.Item.is_default) F.FnMut self.entry
            (range_start (R.start_bound range)) (range_end (R.end_bound range) (length (view S.Slots self.old).items)) pred result }
    {
        let part = resolve_range(range, self.len());
        tinyvec_slots::authors::extract_if(self, part.start, part.end, pred)
    }
}
