//! The gap that a splice moves through a list.
ghost use Rattle.std.specs.Prelude.{◌≡◌, ◌+◌, ◌<◌, ◌==◌, length};
ghost use Rattle.std.specs.Iterator.Adapters.{fuse_done, fuse_steps};
ghost use Rattle.tinyvec_slots.specs.Fused.{FusedCan, FusedFinite};
ghost use Rattle.tinyvec_slots.specs.Gap.{gap_len, gap_left, gap_touches, gap_view, GapCanStep};
ghost use Rattle.tinyvec_slots.specs.AnySplice.{GivesFromFront, GivesFromBack};

mod closing;

use crate::authors::subslice;
use crate::touches::Touches;
use std::iter::Fuse;

/// The part of a list that a splice has not finished yet, with the `Touches` of its slots.
#[derive(Debug, Drop)]
pub struct Gap {
    // Items before `front` and from `back` on are placed, or stay.
    front: usize,
    // The removed items that are left.
    next: usize,
    end: usize,
    back: usize,
    // What the vector of the splice is handed for what it appends.
    pub(crate) touches: Touches,
}

impl Gap {
    /// All items from `start` up to `end` are left.
    pub fn new(start: usize, end: usize) -> Self
        ensures front { result.front ≡ start }
        ensures next { result.next ≡ start }
        ensures end { result.end ≡ end }
        ensures back { result.back ≡ end }
        ensures touches { gap_touches result ≡ 0 }
    {
        Gap {
            front: start,
            next: start,
            end,
            back: end,
            touches: Touches::new(),
        }
    }

    /// How many removed items are left.
    pub fn len(&self) -> usize
        ensures { result ≡ gap_len self.now }
    {
        self.end.saturating_sub(self.next)
    }

    // Whether no removed item is left.
    pub(crate) fn is_empty(&self) -> bool
        ensures { result ≡ (gap_len self.now == 0) }
    {
        self.len() == 0
    }

    /// The removed items that are left, if `slots` are all items.
    pub fn left<'s, T>(&self, slots: &'s [T]) -> &'s [T]
        ensures { result.now ≡ gap_left self.now slots.now }
    {
        subslice(slots, self.next, self.end)
    }

    /// How many slots were touched.
    pub fn touches(&self) -> u128
        ensures { result ≡ gap_touches self.now }
    {
        self.touches.count()
    }

    // Takes the first removed item that is left. The next item of `replacement` takes its place.
    pub(crate) fn take_first<I: Iterator>(
        &mut self,
        slots: &mut [I::Item],
        replacement: &mut Fuse<I>,
    ) -> I::Item
    where
        I::Item: Default,
        requires left { 0 < gap_len self.old }
        requires ready { GapCanStep self.old (fuse_done replacement.old) (length slots.old) }
        requires can { FusedCan I.can_next replacement.old }
        ensures gives { GivesFromFront (fuse_steps I.next_gives)
            (gap_view self.old replacement.old slots.old) result (gap_view self.new replacement.new slots.new) }
        ensures ready { GapCanStep self.new (fuse_done replacement.new) (length slots.new) }
        ensures can { FusedCan I.can_next replacement.new }
        ensures finite { FusedFinite I.remaining replacement.old → FusedFinite I.remaining replacement.new }
        ensures fewer { gap_len self.old ≡ gap_len self.new + 1 }
    {
        let at = self.next;
        self.next = at + 1;
        match replacement.next() {
            Some(new) => {
                self.front = at + 1;
                self.touches.replace(slots, at, new)
            }
            None => self.touches.take(slots, at),
        }
    }

    // Takes the last removed item that is left. The last item of `replacement` takes its place.
    pub(crate) fn take_last<I: DoubleEndedIterator>(
        &mut self,
        slots: &mut [I::Item],
        replacement: &mut Fuse<I>,
    ) -> I::Item
    where
        I::Item: Default,
        requires left { 0 < gap_len self.old }
        requires ready { GapCanStep self.old (fuse_done replacement.old) (length slots.old) }
        requires can { FusedCan I.can_next_back replacement.old }
        ensures gives { GivesFromBack (fuse_steps I.next_back_gives)
            (gap_view self.old replacement.old slots.old) result (gap_view self.new replacement.new slots.new) }
        ensures ready { GapCanStep self.new (fuse_done replacement.new) (length slots.new) }
        ensures can { FusedCan I.can_next_back replacement.new }
        ensures finite { FusedFinite I.remaining replacement.old → FusedFinite I.remaining replacement.new }
        ensures fewer { gap_len self.old ≡ gap_len self.new + 1 }
    {
        let at = self.end - 1;
        self.end = at;
        match replacement.next_back() {
            Some(new) => {
                self.back = at;
                self.touches.replace(slots, at, new)
            }
            None => self.touches.take(slots, at),
        }
    }
}
