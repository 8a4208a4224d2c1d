//! What moves a range of items out of a vector.
ghost use Rattle.std.specs.Prelude.{◌≡◌, ◌++◌, length, ◌≤◌, ◌+◌, ◌^◌, codes, IsErr, vec_len, vec_capacity};
ghost use Rattle.std.specs.List.{FoldsTo};
ghost use Rattle.tinyvec_slots.specs.Ranges.{IsRangeOf, items_before, items_within, items_after};
ghost use Rattle.tinyvec_array.specs.ArrayVec.{SameLender};
ghost use Rattle.tinyvec_array.specs.View.{view, Becomes};
ghost use Rattle.tinyvec_array.specs.ToVec.{DrainsToVec};

use crate::{ArrayVec, Slots};
use std::alloc::{AllocError, Global};
use std::ops::RangeBounds;
use tinyvec_slots::Drain;
use tinyvec_slots::authors::{
    CanDrain, drain_held, resolve_range, take_all, take_each, take_range,
};

/// Yields the items of a range, which the list no longer has. When it is dropped, their slots hold defaults.
pub type ArrayVecDrain<'a, S> = Drain<'a, ArrayVec<S>>;

/// The drain of a vector in a lent slice.
pub type SliceVecDrain<'p, 's, T> = ArrayVecDrain<'p, &'s mut [T]>;

impl<S: Slots> ArrayVec<S>
where
    S::Item: Default,
{
    ghost use Rattle.tinyvec_slots.specs.Drain.{DrainBegins, drain_vec};

    /// Removes the range, and yields its items from both ends. The items after the range move down at the call. A caller
    /// that names an array or is generic over `Slots` knows what the vector holds afterwards; one that names `SliceVec`
    /// does not, and uses `drain_each` or `drain_into`.
    ///
    /// `not_exhausted` fails only for a `RangeInclusive` that was iterated to its end.
    pub fn drain<R: RangeBounds<usize>>(&mut self, range: R) -> ArrayVecDrain<'_, S>
        requires not_exhausted { R.has_bounds range }
        requires in_list { IsRangeOf (view S.Slots self.old).items (R.start_bound range) (R.end_bound range) }
        ensures begins { DrainBegins ⟦<ArrayVec<S> as CanDrain>⟧ self.entry
            (items_within (view S.Slots self.old).items (R.start_bound range) (R.end_bound range)) (view S.Slots self.old).spare
            (λ v. Becomes S.Item.is_default (view S.Slots self.old) (view S.Slots v)
            (items_before (view S.Slots self.old).items (R.start_bound range)
            ++ items_after (view S.Slots self.old).items (R.end_bound range))) result }

        // The list lost them at the call.
        ensures lender { SameLender S.Slots self.old (drain_vec result) }
        ensures items { (view S.Slots (drain_vec result)).items ≡ items_before (view S.Slots self.old).items (R.start_bound range)
            ++ items_after (view S.Slots self.old).items (R.end_bound range) }
    {
        let count = self.cut_out(range);
        drain_held(self, 0, count)
    }

    // Moves the range to the first spare slots, and returns how many items it has.
    #[inline(always)]
    fn cut_out<R: RangeBounds<usize>>(&mut self, range: R) -> usize
        requires not_exhausted { R.has_bounds range }
        requires in_list { IsRangeOf (view S.Slots self.old).items (R.start_bound range) (R.end_bound range) }
        ensures lender { SameLender S.Slots self.old self.new }
        ensures items { (view S.Slots self.new).items ≡ items_before (view S.Slots self.old).items (R.start_bound range)
            ++ items_after (view S.Slots self.old).items (R.end_bound range) }
        ensures spare { (view S.Slots self.new).spare
            ≡ items_within (view S.Slots self.old).items (R.start_bound range) (R.end_bound range) ++ (view S.Slots self.old).spare }
        ensures count { length (items_within (view S.Slots self.old).items (R.start_bound range) (R.end_bound range)) ≡ result }
    {
        let len = self.len();
        let part = resolve_range(range, len);
        let count = part.end - part.start;
        self.move_to_end(part.start, part.end);
        self.set_len(len - count);
        count
    }
}

// The items of a drain's range are in the first spare slots.
impl<S: Slots> CanDrain for ArrayVec<S>
where
    S::Item: Default,
{
    ghost use Rattle.tinyvec_array.specs.DrainLaws.{DrainKept, DrainEnded, drain_kept_same, drain_kept_then};
    ghost use Rattle.tinyvec_array.specs.DrainLaws.{drain_kept_ended};

    type Item = S::Item;

    ghost drained_list = { λ v. (view S.Slots v).spare };

    ghost Kept = { DrainKept S.Slots };

    ghost Ended = { DrainEnded S.Slots S.Item.is_default };

    ghost drain_word = { codes "ArrayVecDrain" };

    fn drain_name() -> &'static str {
        "ArrayVecDrain"
    }

    #[inline]
    fn as_drained(&self) -> &[S::Item] {
        self.grab_spare_slice()
    }

    #[inline]
    fn take_drained(&mut self, i: usize) -> S::Item {
        self.take_spare(i)
    }

    #[inline]
    fn end_drain(&mut self, start: usize, gap: usize) {
        self.fill_spare_default(start, gap);
    }

    ghost kept_same = { drain_kept_same S.Slots };

    ghost kept_then = { drain_kept_then S.Slots };

    ghost kept_ended = { drain_kept_ended S.Slots S.Item.is_default };
}

// What moves the items out in one call, and returns no drain.
impl<S: Slots> ArrayVec<S>
where
    S::Item: Default,
{
    /// Removes the range, and calls `f` with each of its items, in order. A caller that names `SliceVec` knows what is
    /// left.
    ///
    /// `not_exhausted` fails only for a `RangeInclusive` that was iterated to its end.
    pub fn drain_each<R: RangeBounds<usize>, F: FnMut(S::Item)>(&mut self, range: R, f: &mut F)
        requires not_exhausted { R.has_bounds range }
        requires in_list { IsRangeOf (view S.Slots self.old).items (R.start_bound range) (R.end_bound range) }
        requires callable { F.IsAlwaysCallable f.old }
        ensures becomes { Becomes S.Item.is_default (view S.Slots self.old) (view S.Slots self.new)
            (items_before (view S.Slots self.old).items (R.start_bound range)
            ++ items_after (view S.Slots self.old).items (R.end_bound range)) }

        // One call an item, and no more.
        ensures given { FoldsTo (λ p x q. F.step p x tt q) f.old
            (items_within (view S.Slots self.old).items (R.start_bound range) (R.end_bound range)) f.new }
        ensures still_callable { F.IsAlwaysCallable f.new }
    {
        let count = self.cut_out(range);
        take_each(self.grab_spare_slice_mut(), 0, count, f);
    }

    /// Moves the items of the range to the end of `out`, which has room for them. A caller that names `SliceVec` knows
    /// what is left.
    ///
    /// `not_exhausted` fails only for a `RangeInclusive` that was iterated to its end.
    pub fn drain_into<R: RangeBounds<usize>>(&mut self, range: R, out: &mut Vec<S::Item>)
        requires not_exhausted { R.has_bounds range }
        requires in_list { IsRangeOf (view S.Slots self.old).items (R.start_bound range) (R.end_bound range) }
        requires room { vec_len out.old
            + length (items_within (view S.Slots self.old).items (R.start_bound range)
            (R.end_bound range)) ≤ vec_capacity out.old }
        ensures becomes { Becomes S.Item.is_default (view S.Slots self.old) (view S.Slots self.new)
            (items_before (view S.Slots self.old).items (R.start_bound range)
            ++ items_after (view S.Slots self.old).items (R.end_bound range)) }
        ensures moved { out.new.items ≡ out.old.items
            ++ items_within (view S.Slots self.old).items (R.start_bound range) (R.end_bound range) }
        ensures capacity { vec_capacity out.new ≡ vec_capacity out.old }
    {
        let count = self.cut_out(range);
        take_range(self.grab_spare_slice_mut(), 0, count, out);
    }

    /// Moves the list into a `Vec` that has room for it, and for no more.
    pub fn drain_to_vec(&mut self, alloc: Global) -> Result<Vec<S::Item>, AllocError>
        ensures { DrainsToVec S.Slots S.Item.is_default (length (view S.Slots self.old).items) self.old self.new result }
    {
        self.drain_to_vec_and_reserve(alloc, 0)
    }

    /// The same as `drain_to_vec`.
    pub fn try_drain_to_vec(&mut self, alloc: Global) -> Result<Vec<S::Item>, AllocError>
        ensures { DrainsToVec S.Slots S.Item.is_default (length (view S.Slots self.old).items) self.old self.new result }
    {
        self.drain_to_vec(alloc)
    }

    /// Moves the list into a `Vec` that has room for it and for `additional` more items, and for no more.
    // Inlined, so that a `TinyVec` takes the `Vec` in registers.
    #[inline(always)]
    pub fn drain_to_vec_and_reserve(
        &mut self,
        alloc: Global,
        additional: usize,
    ) -> Result<Vec<S::Item>, AllocError>
        ensures drained { DrainsToVec S.Slots S.Item.is_default (length (view S.Slots self.old).items + additional)
            self.old self.new result }
        ensures too_long { 2 ^ 64 ≤ length (view S.Slots self.old).items + additional → IsErr result }
    {
        let len = self.len();
        if additional > usize::MAX - len {
            return Err(AllocError);
        }
        let mut vec = Vec::with_capacity(alloc, len + additional)?;
        take_all(self.as_mut_slice(), &mut vec);
        self.set_len(0);
        Ok(vec)
    }

    /// The same as `drain_to_vec_and_reserve`.
    pub fn try_drain_to_vec_and_reserve(
        &mut self,
        alloc: Global,
        additional: usize,
    ) -> Result<Vec<S::Item>, AllocError>
        ensures drained { DrainsToVec S.Slots S.Item.is_default (length (view S.Slots self.old).items + additional)
            self.old self.new result }
        ensures too_long { 2 ^ 64 ≤ length (view S.Slots self.old).items + additional → IsErr result }
    {
        self.drain_to_vec_and_reserve(alloc, additional)
    }
}
