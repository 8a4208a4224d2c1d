//! The splice of each vector, over `CanSplice`: what replaces a range of items by those of an iterator.
ghost use Rattle.std.specs.Prelude.{◌≡◌, ◌+◌, ◌-◌, ◌≤◌, ◌++◌, length, take, drop, false, true, Some, IfSome, IfErr, ⊤};
ghost use Rattle.std.specs.Bool.{MatchBool};
ghost use Rattle.std.specs.Fmt.{debug_list, debug_variant};
ghost use Rattle.std.specs.Iterator.{UpTo, MakesProgress, at_most, IsFinite};
ghost use Rattle.std.specs.Iterator.Adapters.{fuse_steps};
ghost use Rattle.std.specs.Iterator.SizeHint.{IsWithinCount};
ghost use Rattle.tinyvec_slots.specs.Ranges.{Within};
ghost use Rattle.tinyvec_slots.specs.Filters.{Shortened};
ghost use Rattle.tinyvec_slots.specs.Fused.{FusedFinite};
ghost use Rattle.tinyvec_slots.specs.Gap.{gap_front, gap_back, gap_touches, gap_view};
ghost use Rattle.tinyvec_slots.specs.Touches.{FitsBits};
ghost use Rattle.tinyvec_slots.specs.AnySplice.{FinishTouches, Finishes};

use crate::NoRoom;
use crate::authors::{CanSplice, Gap, write_named};
use std::fmt;
use std::iter::{Fuse, FusedIterator};

/// Yields the items of a range, and puts those of `replacement` in their place. Each item taken from one end is replaced
/// by one item of `replacement` from that end, if one is left. A splice must be finished by `finish`, `finish_counted` or
/// `stop`.
pub struct Splice<'a, V, I: Drop> {
    vec: &'a mut V,
    gap: Gap,
    replacement: I,
    // Always true, so the destructor's precondition cannot be proved: a splice must be finished, not dropped.
    unspent: bool,
}

impl<'a, V, I: Drop> Drop for Splice<'a, V, I> {
    // Unprovable, so no caller drops a splice.
    fn drop(self)
        requires { self.unspent ≡ false }
    {
        let Splice {
            vec: _,
            gap: _,
            replacement: _,
            unspent: _,
        } = self;
    }
}

ghost use Rattle.tinyvec_slots.specs.Splice.{SplicesFrom};

/// The splice of the items from `start` up to `end`.
pub fn splice_over<V: CanSplice, I: Iterator<Item = V::Item>>(
    vec: &mut V,
    start: usize,
    end: usize,
    replacement: I,
) -> Splice<'_, V, Fuse<I>>
    requires { Within start end (length (V.items vec.old)) }
    ensures { SplicesFrom V.items V.Kept I.next_gives vec.entry start end replacement result }
{
    Splice {
        vec,
        gap: Gap::new(start, end),
        replacement: replacement.fuse(),
        unspent: true,
    }
}

impl<'a, V: CanSplice, I: Iterator<Item = V::Item>> Iterator for Splice<'a, V, Fuse<I>> {
    ghost use Rattle.tinyvec_slots.specs.Splice.{splice_len, splice_replacement, SpliceCanStep, SpliceCanNext, SpliceSteps};

    type Item = V::Item;

    ghost can_next = { SpliceCanNext V.items I.can_next };

    ghost next_gives = { SpliceSteps V.items V.Kept (fuse_steps I.next_gives) };

    ghost remaining = { λ s. at_most (splice_len s) };

    fn next(&mut self) -> Option<V::Item>
        requires { SpliceCanNext V.items I.can_next self.old }
        ensures steps { SpliceSteps V.items V.Kept (fuse_steps I.next_gives) self.old result self.new }
        ensures goes { MakesProgress (SpliceCanNext V.items I.can_next)
            (λ s. at_most (splice_len s)) self.old result self.new }
        ensures ready { SpliceCanStep V.items self.new }
        ensures finite { FusedFinite I.remaining (splice_replacement self.old)
            → FusedFinite I.remaining (splice_replacement self.new) }
    {
        if self.gap.is_empty() {
            return None;
        }
        let slots = self.vec.as_mut_slice();
        Some(self.gap.take_first(slots, &mut self.replacement))
    }

    /// Both bounds are the number of removed items that are left.
    fn size_hint(&self) -> (usize, Option<usize>)
        ensures lower { IsWithinCount result.0 (at_most (splice_len self.now)) }
        ensures upper { IfSome result.1 (UpTo (at_most (splice_len self.now))) }
        ensures exact { (result.0 ≡ splice_len self.now) × (result.1 ≡ Some (splice_len self.now)) }
    {
        let len = self.len();
        (len, Some(len))
    }
}

impl<'a, V: CanSplice, I: DoubleEndedIterator<Item = V::Item>> DoubleEndedIterator
    for Splice<'a, V, Fuse<I>> {
    ghost use Rattle.tinyvec_slots.specs.Splice.{splice_len, splice_replacement, SpliceCanStep, SpliceCanNext};
    ghost use Rattle.tinyvec_slots.specs.Splice.{SpliceStepsBack};

    ghost can_next_back = { SpliceCanNext V.items I.can_next_back };

    ghost next_back_gives = { SpliceStepsBack V.items V.Kept (fuse_steps I.next_back_gives) };

    fn next_back(&mut self) -> Option<V::Item>
        requires { SpliceCanNext V.items I.can_next_back self.old }
        ensures steps { SpliceStepsBack V.items V.Kept (fuse_steps I.next_back_gives) self.old result self.new }
        ensures goes { MakesProgress (SpliceCanNext V.items I.can_next_back)
            (λ s. at_most (splice_len s)) self.old result self.new }
        ensures ready { SpliceCanStep V.items self.new }
        ensures finite { FusedFinite I.remaining (splice_replacement self.old)
            → FusedFinite I.remaining (splice_replacement self.new) }
    {
        if self.gap.is_empty() {
            return None;
        }
        let slots = self.vec.as_mut_slice();
        Some(self.gap.take_last(slots, &mut self.replacement))
    }
}

impl<'a, V: CanSplice, I: Iterator<Item = V::Item>> ExactSizeIterator for Splice<'a, V, Fuse<I>> {
    fn len(&self) -> usize {
        self.gap.len()
    }
}

impl<'a, V: CanSplice, I: Iterator<Item = V::Item>> FusedIterator for Splice<'a, V, Fuse<I>> {}

impl<'a, V: CanSplice, I: Drop> fmt::Debug for Splice<'a, V, I>
where
    V::Item: fmt::Debug,
{
    ghost use Rattle.tinyvec_slots.specs.Splice.{splice_left};

    ghost debug_output = { λ s. debug_variant V.splice_word (debug_list V.Item.debug_output (splice_left V.items s)) };

    fn fmt<W: fmt::Write>(&self, f: &mut fmt::Formatter<W>) -> fmt::Result {
        write_named(f, V::splice_name(), self.gap.left(self.vec.as_slice()))
    }
}

impl<'a, V: CanSplice, I: Iterator<Item = V::Item>> Splice<'a, V, Fuse<I>> {
    ghost use Rattle.tinyvec_slots.specs.Splice.{splice_view, splice_front, splice_back, splice_replacement};
    ghost use Rattle.tinyvec_slots.specs.Splice.{splice_vec, splice_touches, SpliceCanStep, SpliceCanNext, SpliceEnds};

    /// The number of touches since `splice`, as `Touches` counts them.
    pub fn touches(&self) -> u128
        ensures { result ≡ splice_touches V.items self.now }
    {
        self.gap.touches()
    }

    /// Drops the removed items that are left, and puts the rest of the replacement between what was placed from both ends.
    /// The rest is appended item by item, for which a `TinyVec` may move to the heap. Returns the first item that finds no room,
    /// with the rest of the replacement, which may be infinite.
    pub fn finish(self) -> Result<(), NoRoom<V::Item, Fuse<I>>>
        requires can { SpliceCanNext V.items I.can_next self }
        requires finite { MatchBool V.must_end (FusedFinite I.remaining (splice_replacement self)) ⊤ }
        ensures { SpliceEnds V.items V.room V.Grown I.Iterator self.entry result self.exit.0.now }
    {
        let (finished, _touches) = self.finish_counted();
        finished
    }

    /// `finish`, and the number of touches since `splice`. Of a `TinyVec` no number is promised.
    #[inline(always)]
    pub fn finish_counted(self) -> (Result<(), NoRoom<V::Item, Fuse<I>>>, u128)
        requires can { SpliceCanNext V.items I.can_next self }
        requires finite { MatchBool V.must_end (FusedFinite I.remaining (splice_replacement self)) ⊤ }
        ensures touches { V.counted ≡ true → FinishTouches (splice_view V.items self.entry)
            (length (V.items (splice_vec self.entry))) (V.items self.exit.0.now) result.1 }
        ensures finish { SpliceEnds V.items V.room V.Grown I.Iterator self.entry result.0 self.exit.0.now }
    {
        let Splice {
            vec,
            gap: mut unfilled,
            replacement: mut rest,
            unspent: _,
        } = self;
        if !unfilled.fill(vec.as_mut_slice(), &mut rest) {
            splice_stop(vec, &mut unfilled);
            return (Ok(()), unfilled.touches());
        }
        let finished = append_in(vec, &mut unfilled, rest);
        (finished, unfilled.touches())
    }

    /// Drops the removed items that are left, and returns the rest of the replacement without calling `next`. It may be
    /// infinite.
    pub fn stop(self) -> Fuse<I>
        requires { SpliceCanStep V.items self }
        ensures rest { result ≡ splice_replacement self.entry }
        ensures items { V.items self.exit.0.now ≡ splice_front V.items self.entry ++ splice_back V.items self.entry }
        ensures changes { V.Grown (splice_vec self.entry) self.exit.0.now }
        ensures cut { V.Truncated (splice_vec self.entry) self.exit.0.now }
        ensures fits { length (V.items self.exit.0.now) ≤ V.room self.exit.0.now }
    {
        let Splice {
            vec,
            gap: mut unfilled,
            replacement,
            unspent: _,
        } = self;
        splice_stop(vec, &mut unfilled);
        replacement
    }
}

// Removes what is left of the gap, which ends a splice as it is.
#[inline(always)]
fn splice_stop<V: CanSplice>(vec: &mut V, gap: &mut Gap)
    requires in_bounds { Within (gap_front gap.old) (gap_back gap.old) (length (V.items vec.old)) }
    requires few { FitsBits 70 (gap_touches gap.old) }
    ensures items { V.items vec.new
        ≡ take (gap_front gap.old) (V.items vec.old) ++ drop (gap_back gap.old) (V.items vec.old) }
    ensures len { length (V.items vec.old) ≡ length (V.items vec.new) + (gap_back gap.old - gap_front gap.old) }
    ensures shorter { Shortened V.items V.room V.Truncated vec.old vec.new }
    ensures touches { V.counted ≡ true
        → gap_touches gap.new ≡ gap_touches gap.old + (length (V.items vec.old) - gap_front gap.old) }
{
    let keep = gap.close(vec.as_mut_slice(), V::is_counted());
    vec.cut_emptied(keep);
}

// Appends what `replacement` yields, and moves it to where the gap was.
#[inline(always)]
fn append_in<V: CanSplice, I: Iterator<Item = V::Item>>(
    vec: &mut V,
    gap: &mut Gap,
    replacement: I,
) -> Result<(), NoRoom<V::Item, I>>
    requires filled { gap_front gap.old ≡ gap_back gap.old }
    requires in_bounds { gap_front gap.old ≤ length (V.items vec.old) }
    requires few { FitsBits 70 (gap_touches gap.old) }
    requires can { I.can_next replacement }
    requires finite { MatchBool V.must_end (IsFinite (I.remaining replacement)) ⊤ }
    ensures finished { Finishes I.next_gives (V.room vec.new) (gap_view gap.old replacement (V.items vec.old))
        result (V.items vec.new) }
    ensures grown { V.Grown vec.old vec.new }
    ensures goes_on { IfErr result (λ refused. I.can_next refused.rest) }
    ensures none { V.counted ≡ true → length (V.items vec.new) ≡ length (V.items vec.old)
        → gap_touches gap.new ≡ gap_touches gap.old }
    ensures at_least { V.counted ≡ true
        → gap_touches gap.old + (length (V.items vec.new) - length (V.items vec.old)) ≤ gap_touches gap.new }
    ensures at_most { V.counted ≡ true → gap_touches gap.new ≤ gap_touches gap.old
        + (length (V.items vec.new) - length (V.items vec.old)) + (length (V.items vec.new) - gap_front gap.old) }
{
    let end = vec.len();
    let appended = vec.append_counted(replacement, &mut gap.touches);
    gap.rotate_in(vec.as_mut_slice(), end);
    appended
}
