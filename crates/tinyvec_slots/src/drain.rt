//! The drain of each vector, over `CanDrain`: what moves a range of items out of a list.
ghost use Rattle.std.specs.Prelude.{◌≡◌, ◌-◌, ◌++◌, List, length, take, drop, slice_range, Some, IfSome};
ghost use Rattle.std.specs.List.{FoldsTo};
ghost use Rattle.std.specs.Fmt.{debug_list, debug_variant};
ghost use Rattle.std.specs.Iterator.{at_most, UpTo};
ghost use Rattle.std.specs.Iterator.SizeHint.{IsWithinCount};
ghost use Rattle.tinyvec_slots.specs.Ranges.{Within};
ghost use Rattle.tinyvec_slots.specs.Slots.{AreDefaults};

use crate::authors::{CanDrain, subslice, write_named};
use std::iter::FusedIterator;
use std::{fmt, mem};

/// Yields the items of a range from both ends. When it is dropped, the list is what preceded and followed the range.
pub struct Drain<'a, V: CanDrain> {
    // The range is the `gap` items from `start` on. Those from `front` up to `back` remain.
    vec: &'a mut V,
    start: usize,
    gap: usize,
    front: usize,
    back: usize,
}

ghost use Rattle.tinyvec_slots.specs.Drain.{DrainsFrom};

/// The drain of what `vec` holds from `start` up to `end`.
#[inline(always)]
pub fn drain_held<V: CanDrain>(vec: &mut V, start: usize, end: usize) -> Drain<'_, V>
    requires { Within start end (length (V.drained_list vec.old)) }
    ensures { DrainsFrom V.CanDrain vec.entry start end result }
{
    Drain {
        vec,
        start,
        gap: end - start,
        front: start,
        back: end,
    }
}

/// Calls `f` with each item from `start` up to `end`, in order, and leaves defaults. Through a drain a loop asks for the place
/// of the items at each turn.
#[inline(always)]
pub fn take_each<T: Default, F: FnMut(T)>(slots: &mut [T], start: usize, end: usize, f: &mut F)
    requires in_bounds { Within start end (length slots.old) }
    requires callable { F.IsAlwaysCallable f.old }
    ensures given { FoldsTo (λ p x q. F.step p x tt q) f.old (slice_range slots.old start end) f.new }
    ensures still_callable { F.IsAlwaysCallable f.new }
    ensures emptied { (ds : List T) × AreDefaults T.is_default (end - start) ds
        × (slots.new ≡ take start slots.old ++ ds ++ drop end slots.old) }
{
    give_all(&mut slots[start..end], f);
}

// The same of all slots.
#[inline(always)]
fn give_all<T: Default, F: FnMut(T)>(slots: &mut [T], f: &mut F)
    requires callable { F.IsAlwaysCallable f.old }
    ensures given { FoldsTo (λ p x q. F.step p x tt q) f.old slots.old f.new }
    ensures still_callable { F.IsAlwaysCallable f.new }
    ensures emptied { AreDefaults T.is_default (length slots.old) slots.new }
{
    for i in 0..slots.len() {
        f(mem::take(&mut slots[i]));
    }
}

impl<'a, V: CanDrain> Drop for Drain<'a, V> {
    ghost use Rattle.tinyvec_slots.specs.Drain.{DrainLeaves};

    #[inline(always)]
    fn drop(self)
        ensures { DrainLeaves V.CanDrain self.entry self.exit.0.now }
    {
        let Drain {
            vec,
            start,
            gap,
            front: _,
            back: _,
        } = self;
        vec.end_drain(start, gap);
    }
}

impl<'a, V: CanDrain> Iterator for Drain<'a, V> {
    ghost use Rattle.tinyvec_slots.specs.Drain.{drain_len, DrainCanStep, DrainSteps};

    type Item = V::Item;

    ghost can_next = { DrainCanStep V.CanDrain };

    ghost next_gives = { DrainSteps V.CanDrain };

    ghost remaining = { λ d. at_most (drain_len d) };

    fn next(&mut self) -> Option<V::Item> {
        let index = self.front;
        if index >= self.back {
            return None;
        }
        self.front = index + 1;
        Some(self.vec.take_drained(index))
    }

    /// Both bounds are the number of items that are left.
    fn size_hint(&self) -> (usize, Option<usize>)
        ensures lower { IsWithinCount result.0 (at_most (drain_len self.now)) }
        ensures upper { IfSome result.1 (UpTo (at_most (drain_len self.now))) }
        ensures exact { (result.0 ≡ drain_len self.now) × (result.1 ≡ Some (drain_len self.now)) }
    {
        let len = self.len();
        (len, Some(len))
    }
}

impl<'a, V: CanDrain> DoubleEndedIterator for Drain<'a, V> {
    ghost use Rattle.tinyvec_slots.specs.Drain.{DrainCanStep, DrainStepsBack};

    ghost can_next_back = { DrainCanStep V.CanDrain };

    ghost next_back_gives = { DrainStepsBack V.CanDrain };

    fn next_back(&mut self) -> Option<V::Item> {
        if self.front >= self.back {
            return None;
        }
        self.back -= 1;
        Some(self.vec.take_drained(self.back))
    }
}

impl<'a, V: CanDrain> ExactSizeIterator for Drain<'a, V> {
    fn len(&self) -> usize {
        self.back.saturating_sub(self.front)
    }
}

impl<'a, V: CanDrain> FusedIterator for Drain<'a, V> {}

impl<'a, V: CanDrain> fmt::Debug for Drain<'a, V>
where
    V::Item: fmt::Debug,
{
    ghost use Rattle.tinyvec_slots.specs.Drain.{drain_items};

    ghost debug_output = { λ d. debug_variant V.drain_word (debug_list V.Item.debug_output (drain_items V.CanDrain d)) };

    fn fmt<W: fmt::Write>(&self, f: &mut fmt::Formatter<W>) -> fmt::Result {
        let held = self.vec.as_drained();
        write_named(f, V::drain_name(), subslice(held, self.front, self.back))
    }
}
