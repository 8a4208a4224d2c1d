//! What moves a range of items out of a vector.
ghost use Rattle.std.specs.Prelude.{◌≡◌, ◌++◌, length, codes, ◌≤◌, ◌+◌, vec_len, vec_capacity};
ghost use Rattle.std.specs.List.{FoldsTo};
ghost use Rattle.tinyvec_slots.specs.Ranges.{IsRangeOf, items_before, items_within, items_after};
ghost use Rattle.tinyvec.specs.TinyVec.{view};
ghost use Rattle.tinyvec.specs.View.{Becomes};

use crate::TinyVec;
use std::ops::RangeBounds;
use tinyvec_array::Array;
use tinyvec_slots::Drain;
use tinyvec_slots::authors::{
    CanDrain, close_gap, drain_held, resolve_range, take_each, take_range,
};

/// Yields the items of a range. When it is dropped, the list is what preceded and followed the range, in its place.
pub type TinyVecDrain<'a, A> = Drain<'a, TinyVec<A>>;

impl<A: Array> TinyVec<A> {
    ghost use Rattle.tinyvec_slots.specs.Drain.{DrainBegins, drain_vec};

    /// Removes the range, and yields its items from both ends. The items after the range move down when the drain is
    /// dropped.
    ///
    /// `not_exhausted` fails only for a `RangeInclusive` that was iterated to its end.
    // Inlined with its destructor, so that the five fields stay in registers.
    #[inline(always)]
    pub fn drain<R: RangeBounds<usize>>(&mut self, range: R) -> TinyVecDrain<'_, A>
        requires not_exhausted { R.has_bounds range }
        requires in_list { IsRangeOf (view A.Slots self.old).items (R.start_bound range) (R.end_bound range) }
        ensures begins { DrainBegins ⟦<TinyVec<A> as CanDrain>⟧ self.entry
            (items_within (view A.Slots self.old).items (R.start_bound range) (R.end_bound range))
            (items_before (view A.Slots self.old).items (R.start_bound range)
            ++ items_after (view A.Slots self.old).items (R.end_bound range))
            (λ v. Becomes A.Item.is_default (view A.Slots self.old) (view A.Slots v)
            (items_before (view A.Slots self.old).items (R.start_bound range)
            ++ items_after (view A.Slots self.old).items (R.end_bound range))) result }
        ensures vec { drain_vec result ≡ self.old }
    {
        let part = resolve_range(range, self.len());
        drain_held(self, part.start, part.end)
    }

    /// Removes the range, and calls `f` with each of its items, in order. It asks once where the items are, a loop over
    /// `drain` at each item.
    ///
    /// `not_exhausted` fails only for a `RangeInclusive` that was iterated to its end.
    // Inlined, so that what the closure changes stays in registers.
    #[inline(always)]
    pub fn drain_each<R: RangeBounds<usize>, F: FnMut(A::Item)>(&mut self, range: R, f: &mut F)
        requires not_exhausted { R.has_bounds range }
        requires in_list { IsRangeOf (view A.Slots self.old).items (R.start_bound range) (R.end_bound range) }
        requires callable { F.IsAlwaysCallable f.old }
        ensures becomes { Becomes A.Item.is_default (view A.Slots self.old) (view A.Slots self.new)
            (items_before (view A.Slots self.old).items (R.start_bound range) ++ items_after
            (view A.Slots self.old).items (R.end_bound range)) }

        // One call an item, and no more.
        ensures given { FoldsTo (λ p x q. F.step p x tt q) f.old
            (items_within (view A.Slots self.old).items (R.start_bound range) (R.end_bound range)) f.new }
        ensures still_callable { F.IsAlwaysCallable f.new }
    {
        let part = resolve_range(range, self.len());
        take_each(self.as_mut_slice(), part.start, part.end, f);
        self.end_drain(part.start, part.end - part.start);
    }

    /// Moves the items of the range to the end of `out`, which has room for them.
    ///
    /// `not_exhausted` fails only for a `RangeInclusive` that was iterated to its end.
    pub fn drain_into<R: RangeBounds<usize>>(&mut self, range: R, out: &mut Vec<A::Item>)
        requires not_exhausted { R.has_bounds range }
        requires in_list { IsRangeOf (view A.Slots self.old).items (R.start_bound range) (R.end_bound range) }
        requires room { vec_len out.old
            + length (items_within (view A.Slots self.old).items (R.start_bound range) (R.end_bound range))
            ≤ vec_capacity out.old }
        ensures becomes { Becomes A.Item.is_default (view A.Slots self.old) (view A.Slots self.new)
            (items_before (view A.Slots self.old).items (R.start_bound range) ++ items_after
            (view A.Slots self.old).items (R.end_bound range)) }
        ensures moved { out.new.items
            ≡ out.old.items ++ items_within (view A.Slots self.old).items (R.start_bound range) (R.end_bound range) }
        ensures out_capacity { vec_capacity out.new ≡ vec_capacity out.old }
    {
        let part = resolve_range(range, self.len());
        take_range(self.as_mut_slice(), part.start, part.end, out);
        self.end_drain(part.start, part.end - part.start);
    }
}

// The items of a drain's range stay in the list until it ends.
impl<A: Array> CanDrain for TinyVec<A> {
    ghost use Rattle.tinyvec.specs.FrameLaws.{FrameOf};
    ghost use Rattle.tinyvec.specs.SpliceLaws.{frame_refl, frame_then};
    ghost use Rattle.tinyvec.specs.DrainLaws.{DrainEnded, frame_ended};

    type Item = A::Item;

    ghost drained_list = { λ v. (view A.Slots v).items };

    ghost Kept = { FrameOf A.Slots };

    ghost Ended = { DrainEnded A.Slots A.Item.is_default };

    ghost drain_word = { codes "TinyVecDrain" };

    fn drain_name() -> &'static str {
        "TinyVecDrain"
    }

    #[inline]
    fn as_drained(&self) -> &[A::Item] {
        self.as_slice()
    }

    #[inline]
    fn take_drained(&mut self, i: usize) -> A::Item {
        self.take_at(i)
    }

    #[inline(always)]
    fn end_drain(&mut self, start: usize, gap: usize) {
        let kept = close_gap(self.as_mut_slice(), start, gap);
        self.truncate(kept);
    }

    ghost kept_same = { frame_refl A.Slots };

    ghost kept_then = { frame_then A.Slots };

    ghost kept_ended = { frame_ended A.Slots A.Item.is_default };
}
