//! Keeping some of the items, by the filters of the array or of the `Vec`.
ghost use Rattle.std.specs.Prelude.{length};
ghost use Rattle.std.specs.Prelude.{◌≡◌, ◌-◌, ◌≤◌, slice_get, Some};
ghost use Rattle.std.specs.Fn.{FnOnceTakesAtMut, CalledAt, CalledAtMut, CalledAtPairMut, ComparesKeys};
ghost use Rattle.std.specs.List.{dedup as dedup_list};
ghost use Rattle.std.specs.List.Retain.{IsFiltered, RetainsInTurn, IsDeduped, PopsIf};
ghost use Rattle.tinyvec_slots.specs.Ranges.{range_start, range_end, IsRangeOf};
ghost use Rattle.tinyvec_slots.specs.Extracting.{Extracts};
ghost use Rattle.tinyvec.specs.TinyVec.{view};
ghost use Rattle.tinyvec.specs.View.{StaysInPlace, ShortensInPlace, Becomes};

use crate::TinyVec;
use std::ops::RangeBounds;
use tinyvec_array::Array;
use tinyvec_slots::ExtractIf;
use tinyvec_slots::authors::{ask_last, resolve_range};

impl<A: Array> TinyVec<A> {
    /// Calls `f` on each item in turn, and keeps those for which it returns `true`. A kept item is moved at most once.
    pub fn retain<F: FnMut(&A::Item) -> bool>(&mut self, mut f: F)
        requires { F.IsAlwaysCallable f }
        ensures filtered { IsFiltered (CalledAt F.FnMut) f (view A.Slots self.old).items
            (view A.Slots self.new).items }
        ensures shortens { ShortensInPlace A.Item.is_default (view A.Slots self.old)
            (view A.Slots self.new) }
    {
        match self {
            TinyVec::Inline(v, _) => tinyvec_slots::authors::retain(v, &mut f),
            TinyVec::Heap(v) => v.retain(f),
        }
    }

    /// Calls `f` on each item in turn, and keeps those for which it returns `true`, as it left them. A kept item is
    /// moved at most once.
    pub fn retain_mut<F: FnMut(&mut A::Item) -> bool>(&mut self, mut f: F)
        requires { F.IsAlwaysCallable f }
        ensures filtered { RetainsInTurn (CalledAtMut F.FnMut) f (view A.Slots self.old).items
            (view A.Slots self.new).items }
        ensures shortens { ShortensInPlace A.Item.is_default (view A.Slots self.old)
            (view A.Slots self.new) }
    {
        match self {
            TinyVec::Inline(v, _) => tinyvec_slots::authors::retain_mut(v, &mut f),
            TinyVec::Heap(v) => v.retain_mut(f),
        }
    }

    /// Removes each item that equals the last one kept. A kept item is moved at most once.
    pub fn dedup(&mut self)
    where
        A::Item: PartialEq,
        ensures becomes { Becomes A.Item.is_default (view A.Slots self.old)
            (view A.Slots self.new) (dedup_list A.Item.eq (view A.Slots self.old).items) }
        ensures bound { length (view A.Slots self.new).items ≤ length (view A.Slots self.old).items }
    {
        self.dedup_by(|current, last| *current == *last);
    }

    /// Calls `same` on each item after the first and the last one kept, in this order, and removes the item if it
    /// returns `true`. A kept item is moved at most once.
    pub fn dedup_by<F: FnMut(&mut A::Item, &mut A::Item) -> bool>(&mut self, mut same: F)
        requires { F.IsAlwaysCallable same }
        ensures filtered { IsDeduped (CalledAtPairMut F.FnMut) same (view A.Slots self.old).items
            (view A.Slots self.new).items }
        ensures shortens { ShortensInPlace A.Item.is_default (view A.Slots self.old)
            (view A.Slots self.new) }
    {
        match self {
            TinyVec::Inline(v, _) => tinyvec_slots::authors::dedup_by(v, &mut same),
            TinyVec::Heap(v) => v.dedup_by(same),
        }
    }

    /// Removes each item whose key equals that of the last one kept. The item's own key is computed first. A kept item
    /// is moved at most once.
    pub fn dedup_by_key<K: PartialEq + Drop, F: FnMut(&mut A::Item) -> K>(&mut self, mut key: F)
        requires { F.IsAlwaysCallable key }
        ensures filtered { IsDeduped (ComparesKeys F.FnMut K.eq) key (view A.Slots self.old).items
            (view A.Slots self.new).items }
        ensures shortens { ShortensInPlace A.Item.is_default (view A.Slots self.old)
            (view A.Slots self.new) }
    {
        match self {
            TinyVec::Inline(v, _) => tinyvec_slots::authors::dedup_by_key(v, &mut key),
            TinyVec::Heap(v) => v.dedup_by_key(key),
        }
    }

    /// Calls `predicate` on the last item, and removes and returns the item if it returns `true`. Otherwise the item
    /// stays, as `predicate` left it. Calls nothing if the list is empty.
    pub fn pop_if<F: FnOnce(&mut A::Item) -> bool>(&mut self, predicate: F) -> Option<A::Item>
        requires { (x : A.Item) → slice_get (view A.Slots self.old).items (length (view A.Slots self.old).items - 1) ≡ Some x
            → FnOnceTakesAtMut F.FnOnce predicate x }
        ensures popped { PopsIf F.FnOnce (view A.Slots self.old).items
            (view A.Slots self.new).items predicate result }
        ensures shortens { ShortensInPlace A.Item.is_default (view A.Slots self.old)
            (view A.Slots self.new) }
    {
        match self {
            TinyVec::Inline(v, _) => v.pop_if(predicate),
            TinyVec::Heap(v) => {
                if !ask_last(v.as_mut_slice(), predicate) {
                    return None;
                }
                v.pop()
            }
        }
    }

    /// Calls `pred` with the items of the range in turn, as far as the iterator is driven, and removes and yields those for
    /// which it returns `true`. The others stay in order, as `pred` left them, and those after the range move down when the
    /// iterator is dropped.
    ///
    /// `not_exhausted` fails only for a `RangeInclusive` that was iterated to its end.
    pub fn extract_if<R: RangeBounds<usize>, F: FnMut(&mut A::Item) -> bool>(
        &mut self,
        range: R,
        pred: F,
    ) -> ExtractIf<'_, TinyVec<A>, F>
        requires not_exhausted { R.has_bounds range }
        requires in_list { IsRangeOf (view A.Slots self.old).items (R.start_bound range) (R.end_bound range) }
        ensures { Extracts (λ v. (view A.Slots v).items) (λ v w. StaysInPlace A.Item.is_default
            (view A.Slots v) (view A.Slots w)) F.FnMut self.entry
            (range_start (R.start_bound range)) (range_end (R.end_bound range) (length (view A.Slots self.old).items)) pred result }
    {
        let part = resolve_range(range, self.len());
        tinyvec_slots::authors::extract_if(self, part.start, part.end, pred)
    }
}
