//! `extract_if` of each vector, over `CanCut`: an iterator over the items of a range that a closure chooses.
ghost use Rattle.std.specs.Prelude.{◌≡◌, ◌+◌, ◌≤◌, ◌++◌, List, length, take, drop, slice_range, IfSome, Some};
ghost use Rattle.std.specs.Fn.{CalledAtMut};
ghost use Rattle.std.specs.Iterator.{at_most, UpTo};
ghost use Rattle.std.specs.Iterator.SizeHint.{IsWithinCount};
ghost use Rattle.std.specs.List.Retain.{ExtractsNext};
ghost use Rattle.std.specs.Option.{option_len};
ghost use Rattle.tinyvec_slots.specs.Ranges.{Within};
ghost use Rattle.tinyvec_slots.specs.Extracting.{Extracts};

use crate::authors::{CanCut, close_gap};
use crate::filtering::move_down;
use std::mem;

/// Yields the items of a range for which a closure returns `true`. When it is dropped, the list has all others.
pub struct ExtractIf<'a, V: CanCut, F> {
    // The closure was not called with the items after the gap, up to `end`. Those that it turned down precede the gap.
    vec: &'a mut V,
    front: usize,
    gap: usize,
    end: usize,
    pred: F,
}

/// The iterator over the items from `start` up to `end` for which `pred` returns `true`.
pub fn extract_if<V: CanCut, F: FnMut(&mut V::Item) -> bool>(
    vec: &mut V,
    start: usize,
    end: usize,
    pred: F,
) -> ExtractIf<'_, V, F>
    requires { Within start end (length (V.items vec.old)) }
    ensures { Extracts V.items V.Truncated F.FnMut vec.entry start end pred result }
{
    ExtractIf {
        vec,
        front: start,
        gap: 0,
        end,
        pred,
    }
}

impl<'a, V: CanCut, F: Drop> Drop for ExtractIf<'a, V, F> {
    ghost use Rattle.tinyvec_slots.specs.Extracting.{ExtractLies, ExtractLeaves};

    fn drop(self)
        ensures { ExtractLies V.items self.entry → ExtractLeaves V.items V.room V.Truncated self.entry self.exit.0.now }
    {
        let ExtractIf {
            vec,
            front,
            gap,
            end: _,
            pred: _,
        } = self;
        let kept = close_gap(vec.as_mut_slice(), front, gap);
        vec.truncate(kept);
    }
}

impl<'a, V: CanCut, F: FnMut(&mut V::Item) -> bool> Iterator for ExtractIf<'a, V, F> {
    ghost use Rattle.tinyvec_slots.specs.Extracting.{extract_left, extract_closure, ExtractLies, ExtractSteps};

    type Item = V::Item;

    ghost can_next = { λ e. ExtractLies V.items e × F.IsAlwaysCallable (extract_closure e) };

    ghost next_gives = { ExtractSteps V.items V.Truncated F.FnMut };

    ghost remaining = { λ e. at_most (extract_left e) };

    fn next(&mut self) -> Option<V::Item> {
        let (front, item) = take_chosen(
            self.vec.as_mut_slice(),
            self.front,
            self.gap,
            self.end,
            &mut self.pred,
        );
        self.front = front;
        let item = item?;
        self.gap += 1;
        Some(item)
    }

    /// The lower bound is 0, the upper one the number of items that the closure was not called with.
    fn size_hint(&self) -> (usize, Option<usize>)
        ensures lower { IsWithinCount result.0 (at_most (extract_left self.now)) }
        ensures upper { IfSome result.1 (UpTo (at_most (extract_left self.now))) }
        ensures exact { (result.0 ≡ 0) × (result.1 ≡ Some (extract_left self.now)) }
    {
        let left = self.end.saturating_sub(self.front).saturating_sub(self.gap);
        (0, Some(left))
    }
}

// Calls `pred` with the items from `front + gap` up to `end`, until it returns `true`, and takes that item. Moves those
// before it down over the gap, and returns where they end.
fn take_chosen<T: Default + Drop, F: FnMut(&mut T) -> bool>(
    items: &mut [T],
    front: usize,
    gap: usize,
    end: usize,
    pred: &mut F,
) -> (usize, Option<T>)
    requires callable { F.IsAlwaysCallable pred.old }
    requires order { front + gap ≤ end }
    requires in_bounds { end ≤ length items.old }
    ensures asked { (kept : List T) × ExtractsNext (CalledAtMut F.FnMut) pred.old
        (slice_range items.old (front + gap) end) result.1 pred.new kept
        (slice_range items.new (result.0 + gap + option_len result.1) end)
        × (take result.0 items.new ≡ take front items.old ++ kept) }
    ensures back { drop end items.new ≡ drop end items.old }
    ensures order { (front ≤ result.0) × (result.0 + gap + option_len result.1 ≤ end) }
    ensures callable { F.IsAlwaysCallable pred.new }
{
    for at in front + gap..end {
        if pred(&mut items[at]) {
            return (at - gap, Some(mem::take(&mut items[at])));
        }
        move_down(items, at - gap, at, true);
    }
    (end - gap, None)
}
