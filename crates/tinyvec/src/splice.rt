//! The splice: what replaces a range of items by those of an iterator.
ghost use Rattle.std.specs.Prelude.{IsTrue, ◌≡◌, length, false, codes, Some, ◌+◌, ◌-◌, ◌<◌, ◌≤◌, ◌∷◌, ◌++◌, List, take};
ghost use Rattle.std.specs.Prelude.{drop, IsOk};
ghost use Rattle.std.specs.Prelude.{OnErr, IfErr, MatchResult, OnOk, true, vec_len, vec_capacity};
ghost use Rattle.tinyvec.specs.OnHeap.{HeapBecomes};
ghost use Rattle.std.specs.Iterator.{IsFinite, Drains, YieldsThen};
ghost use Rattle.std.specs.Iterator.Adapters.{fuse_done, fuse_source, fuse_steps};
ghost use Rattle.tinyvec_slots.specs.Fused.{FusedCan, fused_rest};
ghost use Rattle.tinyvec_slots.specs.Ranges.{IsRangeOf, Within, items_before, items_within, items_after};
ghost use Rattle.tinyvec.specs.TinyVec.{view};
ghost use Rattle.tinyvec.specs.View.{StaysInPlace, Becomes, BecomesIn, Reserved, place_for};
ghost use Rattle.tinyvec_slots.specs.Filling.{IntoIterYields, ShowsItems};
ghost use Rattle.tinyvec_slots.specs.Replacing.{PutsBetween};
ghost use Rattle.tinyvec_slots.specs.AnySplice.{SpliceBegins};
ghost use Rattle.tinyvec.specs.Room.{GrowsByPushes};

use crate::TinyVec;
use crate::tuned::push_copies;
use std::alloc::AllocError;
use std::iter::Fuse;
use std::ops::{Range, RangeBounds};
use tinyvec_array::Array;
use tinyvec_slots::authors::{
    CanCut, CanSplice, Touches, replace_within, resolve_range, splice_over,
};
use tinyvec_slots::{NoRoom, Splice};

/// Yields the items of a range of a `TinyVec`, and puts those of `replacement` in their place.
pub type TinyVecSplice<'a, A, I> = Splice<'a, TinyVec<A>, I>;

impl<A: Array> TinyVec<A> {
    ghost use Rattle.tinyvec_slots.specs.Splice.{splice_view, splice_len, splice_replacement, splice_vec, splice_lender};
    ghost use Rattle.tinyvec_slots.specs.Splice.{SpliceCanStep, SplicesFromEnds};
    ghost use Rattle.tinyvec.specs.FrameLaws.{FrameOf};

    /// Removes the range, yields its items from both ends, and puts those of `replacement` in their place.
    ///
    /// `not_exhausted` fails only for a `RangeInclusive` that was iterated to its end.
    pub fn splice<R: RangeBounds<usize>, I: IntoIterator<Item = A::Item>>(
        &mut self,
        range: R,
        replacement: I,
    ) -> TinyVecSplice<'_, A, Fuse<I::IntoIter>>
        requires not_exhausted { R.has_bounds range }
        requires in_list { IsRangeOf (view A.Slots self.old).items (R.start_bound range) (R.end_bound range) }
        ensures begins { SpliceBegins (items_before (view A.Slots self.old).items (R.start_bound range))
            (items_within (view A.Slots self.old).items (R.start_bound range) (R.end_bound range))
            (items_after (view A.Slots self.old).items (R.end_bound range)) (splice_view (λ v. (view A.Slots v).items) result)
            (splice_len result) }
        ensures replacement { I.into_iter_gives replacement (fuse_source (splice_replacement result)) }
        ensures unasked { fuse_done (splice_replacement result) ≡ false }
        ensures vec { splice_vec result ≡ self.old }
        ensures same_reference { splice_lender result ≡ self.entry.ghost_name }
        ensures ready { SpliceCanStep (λ v. (view A.Slots v).items) result }
        ensures inline_capacity { IsTrue (view A.Slots self.old).place.inline → (view A.Slots self.old).place.capacity ≡ A.CAPACITY }
        // However its calls follow one another.
        ensures both_ends { SplicesFromEnds (λ v. (view A.Slots v).items) (FrameOf A.Slots) I.IntoIter.next_gives result }
    {
        let part = resolve_range(range, self.len());
        splice_over(self, part.start, part.end, replacement.into_iter())
    }

    /// Puts the items of `replacement` in the place of the range, whose items it drops: `splice` and `finish` in one. If an
    /// item finds no room, it is returned with those that follow it. Items that find no place in the range are pushed one by
    /// one, whatever the replacement hints at.
    ///
    /// `not_exhausted` fails only for a `RangeInclusive` that was iterated to its end.
    pub fn splice_all<R: RangeBounds<usize>, I: IntoIterator<Item = A::Item>>(
        &mut self,
        range: R,
        replacement: I,
    ) -> Result<(), NoRoom<A::Item, Fuse<I::IntoIter>>>
        requires not_exhausted { R.has_bounds range }
        requires in_list { IsRangeOf (view A.Slots self.old).items (R.start_bound range) (R.end_bound range) }
        requires can { (it : I.IntoIter) → I.into_iter_gives replacement it
            → I.IntoIter.can_next it × IsFinite (I.IntoIter.remaining it) }
        ensures ran { (it : Fuse I.IntoIter) × (xs : List A.Item) × I.into_iter_gives replacement (fuse_source it)
            × (fuse_done it ≡ false)
            × MatchResult result (λ _. Drains (fuse_steps I.IntoIter.next_gives) it xs)
            (λ refused. YieldsThen (fuse_steps I.IntoIter.next_gives) it xs (Some refused.item) refused.rest)
            × ((view A.Slots self.new).items ≡ items_before (view A.Slots self.old).items (R.start_bound range) ++ xs
            ++ items_after (view A.Slots self.old).items (R.end_bound range)) }

        // It refuses none while there is room.
        ensures full { OnErr result (length (view A.Slots self.new).items ≡ (view A.Slots self.new).place.capacity) }
        ensures grows { GrowsByPushes A.Item.is_default (view A.Slots self.old) (view A.Slots self.new) }
        ensures no_shorter { OnErr result (length (view A.Slots self.old).items ≤ length (view A.Slots self.new).items) }

        // The returned iterator can be iterated further.
        ensures goes_on { IfErr result (λ refused. FusedCan I.IntoIter.can_next refused.rest) }

        // For an iterator of which `rest` shows the remaining items. If there is room for them it allocates nothing.
        ensures listed { (rest : I.IntoIter → List A.Item) → ShowsItems I.IntoIter.next_gives rest
            → (it : I.IntoIter) × I.into_iter_gives replacement it
            × (length (items_before (view A.Slots self.old).items (R.start_bound range)) + length (rest it)
            + length (items_after (view A.Slots self.old).items (R.end_bound range)) ≤ (view A.Slots self.old).place.capacity
            → IsOk result)
            × OnOk result ((view A.Slots self.new).items ≡ items_before (view A.Slots self.old).items
            (R.start_bound range) ++ rest it
            ++ items_after (view A.Slots self.old).items (R.end_bound range))
            × IfErr result (λ refused. (placed : List A.Item) × (rest it ≡ placed
            ++ refused.item ∷ fused_rest rest refused.rest)
            × ((view A.Slots self.new).items ≡ items_before (view A.Slots self.old).items (R.start_bound range) ++ placed
            ++ items_after (view A.Slots self.old).items (R.end_bound range))) }

        // For items that are known, as those of a `Vec`, a range or a slice. If there is room for them it allocates nothing.
        ensures known { (xs : List A.Item) → IntoIterYields I.into_iter_gives I.IntoIter.next_gives replacement xs
            → PutsBetween (view A.Slots self.old).place.capacity (items_before (view A.Slots self.old).items
            (R.start_bound range)) xs
            (items_after (view A.Slots self.old).items (R.end_bound range)) result (view A.Slots self.new).items }
    {
        let splice = self.splice(range, replacement);
        splice.finish()
    }

    /// Puts copies of the slice's items in the place of the range, whose items it drops. Room for all is allocated once,
    /// before anything changes. If the allocator refuses, fails and changes nothing.
    pub fn replace_range<R: RangeBounds<usize>>(
        &mut self,
        range: R,
        replacement: &[A::Item],
    ) -> Result<(), AllocError>
    where
        A::Item: Copy,
        requires not_exhausted { R.has_bounds range }
        requires in_list { IsRangeOf (view A.Slots self.old).items (R.start_bound range) (R.end_bound range) }
        ensures items { OnOk result ((view A.Slots self.new).items
            ≡ items_before (view A.Slots self.old).items (R.start_bound range) ++ replacement.now
            ++ items_after (view A.Slots self.old).items (R.end_bound range)) }
        ensures ok { OnOk result (BecomesIn A.Item.is_default (view A.Slots self.old)
            (view A.Slots self.new) (view A.Slots self.new).items
            (place_for Reserved (length (view A.Slots self.new).items) (view A.Slots self.old).place)) }

        // If there is room it allocates nothing.
        ensures succeeds { length (items_before (view A.Slots self.old).items (R.start_bound range)) + length replacement.now
            + length (items_after (view A.Slots self.old).items (R.end_bound range)) ≤ (view A.Slots self.old).place.capacity
            → IsOk result }
        ensures refused { OnErr result (view A.Slots self.new ≡ view A.Slots self.old) }
    {
        let part = resolve_range(range, self.len());
        let more = replacement.len().saturating_sub(part.end - part.start);
        self.reserve(more)?;
        self.replace_reserved(part, replacement);
        Ok(())
    }

    // `replace_range` of a list that has room.
    fn replace_reserved(&mut self, part: Range<usize>, replacement: &[A::Item])
    where
        A::Item: Copy,
        requires start_le_end { part.start ≤ part.end }
        requires in_list { part.end ≤ length (view A.Slots self.old).items }
        requires room { length (view A.Slots self.old).items - (part.end - part.start) + length replacement.now
            ≤ (view A.Slots self.old).place.capacity }
        ensures { Becomes A.Item.is_default (view A.Slots self.old) (view A.Slots self.new)
            (take part.start (view A.Slots self.old).items ++ replacement.now ++ drop part.end
            (view A.Slots self.old).items) }
    {
        match self {
            TinyVec::Inline(v, _) => {
                let _fits = v.replace_range(part, replacement);
            }
            TinyVec::Heap(v) => replace_on_heap(v, part.start, part.end, replacement),
        }
    }
}

// `replace_range` of a list on the heap that has room. Inlined, since a caller often knows how long the range is.
#[inline(always)]
fn replace_on_heap<T: Copy + Default + Drop>(heap: &mut Vec<T>, start: usize, end: usize, new: &[T])
    requires in_list { Within start end (vec_len heap.old) }
    requires room { vec_len heap.old - (end - start) + length new.now ≤ vec_capacity heap.old }
    ensures { HeapBecomes heap.old heap.new (take start heap.old.items ++ new.now ++ drop end heap.old.items) }
{
    let len = heap.len();
    let new_len = len - (end - start) + new.len();
    push_tail(heap, new, end - start);
    replace_within(heap.as_mut_slice(), start, end, len, new, usize::MAX);
    heap.truncate(new_len);
}

// Appends copies of the items of `from` but for the first `n`, if there is room.
#[inline(always)]
fn push_tail<T: Copy>(heap: &mut Vec<T>, from: &[T], n: usize)
    requires { vec_len heap.old + (length from.now - n) ≤ vec_capacity heap.old }
    ensures { HeapBecomes heap.old heap.new (heap.old.items ++ drop n from.now) }
{
    let more = &from[n.min(from.len())..];
    // Fewer are worth no call.
    if 8 < more.len() {
        push_apart(heap, more);
        return;
    }
    for i in 0..more.len() {
        heap.push_reserved(more[i]);
    }
}

// `push_copies`, in a call of its own.
#[inline(never)]
fn push_apart<T: Copy>(heap: &mut Vec<T>, from: &[T])
    requires room { vec_len heap.old + length from.now ≤ vec_capacity heap.old }
    ensures { HeapBecomes heap.old heap.new (heap.old.items ++ from.now) }
{
    push_copies(heap, from);
}

impl<A: Array> CanSplice for TinyVec<A> {
    ghost use Rattle.tinyvec.specs.SpliceLaws.{frame_refl, frame_then, frame_room, frame_grows, stays_grows, grows_room};

    // `finish_counted` promises no number of touches.
    ghost counted = { false };

    ghost must_end = { true };

    ghost splice_word = { codes "TinyVecSplice" };

    ghost Grown = { λ v w. GrowsByPushes A.Item.is_default (view A.Slots v) (view A.Slots w) };

    fn splice_name() -> &'static str {
        "TinyVecSplice"
    }

    #[inline(always)]
    fn is_counted() -> bool {
        false
    }

    #[inline]
    fn len(&self) -> usize {
        self.len()
    }

    fn append_counted<I: Iterator<Item = A::Item>>(
        &mut self,
        iter: I,
        _touches: &mut Touches,
    ) -> Result<(), NoRoom<A::Item, I>> {
        self.extend(iter)
    }

    #[inline]
    fn cut_emptied(&mut self, n: usize) {
        self.truncate(n);
    }

    ghost kept_same = { frame_refl A.Slots };

    ghost kept_then = { frame_then A.Slots };

    ghost kept_room = { frame_room A.Slots };

    ghost kept_len = { λ v w k. k.len };

    ghost kept_grown = { λ u v w x. frame_grows A.Item.is_default (view A.Slots u)
        (view A.Slots v) (view A.Slots w) (view A.Slots x) };

    ghost cut_grown = { λ v w. stays_grows A.Item.is_default (view A.Slots v) (view A.Slots w) };

    ghost grown_room = { λ v w. grows_room A.Item.is_default (view A.Slots v) (view A.Slots w) };
}

impl<A: Array> CanCut for TinyVec<A> {
    ghost use Rattle.tinyvec.specs.FrameLaws.{FrameOf};
    ghost use Rattle.tinyvec.specs.Lends.{tiny_with_items};
    ghost use Rattle.tinyvec.specs.SpliceLaws.{tiny_written, frame_becomes};

    type Item = A::Item;

    ghost items = { λ v. (view A.Slots v).items };

    ghost with_items = { tiny_with_items A.Slots };

    ghost room = { λ v. (view A.Slots v).place.capacity };

    ghost Kept = { FrameOf A.Slots };

    ghost Truncated = { λ v w. StaysInPlace A.Item.is_default (view A.Slots v) (view A.Slots w) };

    #[inline]
    fn as_slice(&self) -> &[A::Item] {
        self.as_slice()
    }

    #[inline]
    fn as_mut_slice(&mut self) -> &mut [A::Item] {
        self.as_mut_slice()
    }

    #[inline]
    fn truncate(&mut self, new_len: usize) {
        self.truncate(new_len);
    }

    ghost written = { tiny_written A.Slots };

    ghost kept_cut = { λ u v w. frame_becomes A.Item.is_default (view A.Slots u)
        (view A.Slots v) (view A.Slots w) (view A.Slots w).items };
}
