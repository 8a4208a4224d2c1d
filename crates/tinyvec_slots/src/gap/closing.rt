//! Finishing a splice: fill the gap, then close what is left of it, or rotate the surplus in. All of it is inlined, since
//! calls would cost a short splice as much as its moves.
ghost use Rattle.std.specs.Prelude.{◌≡◌, ◌+◌, ◌*◌, ◌-◌, ◌<◌, ◌≤◌, ◌++◌, List, Some, None, length, take, drop};
ghost use Rattle.std.specs.Prelude.{slice_range, slice_set, true, All};
ghost use Rattle.std.specs.Bool.{MatchBool};
ghost use Rattle.std.specs.Iterator.{Drains, Yields, IsFinite};
ghost use Rattle.tinyvec_slots.specs.Ranges.{Within};
ghost use Rattle.tinyvec_slots.specs.Gap.{gap_front, gap_back, gap_touches, GapLies};
ghost use Rattle.tinyvec_slots.specs.Touches.{touch_count, FitsBits};

use crate::gap::Gap;
use crate::touches::Touches;

impl Gap {
    // Places what `replacement` yields over the removed items that are left, between what was placed from both ends, and
    // returns whether that filled the gap. If not, `replacement` is exhausted.
    #[inline(always)]
    pub(crate) fn fill<I: Iterator>(&mut self, slots: &mut [I::Item], replacement: &mut I) -> bool
    where
        I::Item: Drop,
        requires lies { GapLies self.old (length slots.old) }
        requires can { I.can_next replacement.old }
        ensures placed { (placed : List I.Item)
            × (take (gap_front self.new) slots.new ≡ take (gap_front self.old) slots.old ++ placed)
            × (length placed ≡ gap_front self.new - gap_front self.old)
            × MatchBool result (Yields I.next_gives replacement.old placed replacement.new)
            (Drains I.next_gives replacement.old placed) }
        ensures in_order { (gap_front self.old ≤ gap_front self.new) × (gap_front self.new ≤ gap_back self.old) }
        ensures filled { MatchBool result ((gap_front self.new ≡ gap_back self.old) × I.can_next replacement.new)
            (gap_front self.new < gap_back self.old) }
        ensures finite { IsFinite (I.remaining replacement.old) → IsFinite (I.remaining replacement.new) }
        ensures back { gap_back self.new ≡ gap_back self.old }
        ensures behind { drop (gap_back self.old) slots.new ≡ drop (gap_back self.old) slots.old }
        ensures touches { gap_touches self.new ≡ gap_touches self.old + 2 * (gap_front self.new - gap_front self.old) }
    {
        self.front = place(slots, &mut self.touches, self.front, self.back, replacement);
        self.front == self.back
    }

    // Moves the items after the gap down over it, and returns the length of the list then. It empties the other slots, each by a
    // touch, if `counted` says so.
    #[inline(always)]
    pub(crate) fn close<T: Default + Drop>(&mut self, slots: &mut [T], counted: bool) -> usize
        requires in_bounds { Within (gap_front self.old) (gap_back self.old) (length slots.old) }
        requires few { FitsBits 70 (gap_touches self.old) }
        ensures len { result ≡ length slots.old - (gap_back self.old - gap_front self.old) }
        ensures kept { take result slots.new ≡ take (gap_front self.old) slots.old ++ drop (gap_back self.old) slots.old }
        ensures emptied { counted ≡ true → All T.is_default (drop result slots.new) }
        ensures touches { counted ≡ true
            → gap_touches self.new ≡ gap_touches self.old + (length slots.old - gap_front self.old) }
    {
        let keep = slots.len() - (self.back - self.front);
        self.touches.close(slots, self.front, self.back);
        if counted {
            self.touches.empty(slots, keep);
        }
        keep
    }

    // Moves the items from `end` on, which were appended, to where the gap was.
    #[inline(always)]
    pub(crate) fn rotate_in<T>(&mut self, slots: &mut [T], end: usize)
        requires in_bounds { Within (gap_front self.old) end (length slots.old) }
        requires few { FitsBits 80 (gap_touches self.old) }
        ensures brought { slots.new ≡ take (gap_front self.old) slots.old ++ drop end slots.old
            ++ slice_range slots.old (gap_front self.old) end }
        ensures none { end ≡ length slots.old → gap_touches self.new ≡ gap_touches self.old }
        ensures at_least { gap_touches self.old ≤ gap_touches self.new }
        ensures at_most { gap_touches self.new ≤ gap_touches self.old + (length slots.old - gap_front self.old) }
    {
        if slots.len() > end {
            self.touches.rotate(slots, self.front, end);
        }
    }
}

// Places what `replacement` yields over the slots from `front` up to `back`, and returns where that ends: before `back` only
// if `replacement` is exhausted.
#[inline(always)]
fn place<I: Iterator>(
    slots: &mut [I::Item],
    touches: &mut Touches,
    front: usize,
    back: usize,
    replacement: &mut I,
) -> usize
where
    I::Item: Drop,
    requires in_bounds { Within front back (length slots.old) }
    requires few { FitsBits 66 (touch_count touches.old) }
    requires can { I.can_next replacement.old }
    ensures bounds { (front ≤ result) × (result ≤ back) }
    ensures behind { drop back slots.new ≡ drop back slots.old }
    ensures can { result ≡ back → I.can_next replacement.new }
    ensures finite { IsFinite (I.remaining replacement.old) → IsFinite (I.remaining replacement.new) }
    ensures placed { (placed : List I.Item) × (take result slots.new ≡ take front slots.old ++ placed)
        × (length placed ≡ result - front)
        × (result ≡ back → Yields I.next_gives replacement.old placed replacement.new)
        × (result < back → Drains I.next_gives replacement.old placed) }
    ensures touches { touch_count touches.new ≡ touch_count touches.old + 2 * (result - front) }
{
    for at in front..back {
        if !place_one(slots, touches, at, replacement) {
            return at;
        }
    }
    back
}

// Places the next item of `replacement` at `at`, and returns whether there was one.
#[inline(always)]
fn place_one<I: Iterator>(
    slots: &mut [I::Item],
    touches: &mut Touches,
    at: usize,
    replacement: &mut I,
) -> bool
where
    I::Item: Drop,
    requires in_bounds { at < length slots.old }
    requires few { FitsBits 120 (touch_count touches.old) }
    requires can { I.can_next replacement.old }
    ensures finite { IsFinite (I.remaining replacement.old) → IsFinite (I.remaining replacement.new) }
    ensures placed { MatchBool result ((new : I.Item) × I.next_gives replacement.old (Some new) replacement.new
        × I.can_next replacement.new
        × (slots.new ≡ slice_set slots.old at new)
        × (touch_count touches.new ≡ touch_count touches.old + 2))
        (I.next_gives replacement.old None replacement.new × (slots.new ≡ slots.old) × (touches.new ≡ touches.old)) }
{
    match replacement.next() {
        Some(new) => {
            touches.replace(slots, at, new);
            true
        }
        None => false,
    }
}
