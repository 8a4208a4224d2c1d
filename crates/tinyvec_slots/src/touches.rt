//! The slots that a splice reaches, each touch counted.
ghost use Rattle.std.specs.Prelude.{◌≡◌, ◌≢◌, ◌+◌, ◌-◌, ◌<◌, ◌≤◌, ◌++◌, List, Some, None, length, take, drop};
ghost use Rattle.std.specs.Prelude.{slice_index_or, slice_set, slice_range};
ghost use Rattle.std.specs.Bool.{MatchBool};
ghost use Rattle.std.specs.List.{SwappedAt};
ghost use Rattle.tinyvec_slots.specs.Slots.{AreDefaults};
ghost use Rattle.std.specs.Iterator.{Drains, Yields};
ghost use Rattle.tinyvec_slots.specs.Ranges.{Within};
ghost use Rattle.tinyvec_slots.specs.Touches.{touch_count, FitsBits};

use std::mem;

/// Reaches slots, and counts the touches. A touch takes an item out, whether or not a default takes its place, puts an item in,
/// or swaps two slots.
#[derive(Debug, Drop)]
pub struct Touches {
    count: u128,
}

impl Touches {
    pub(crate) fn new() -> Self
        ensures { touch_count result ≡ 0 }
    {
        Touches { count: 0 }
    }

    // How many touches there were.
    pub(crate) fn count(&self) -> u128
        ensures { result ≡ touch_count self.now }
    {
        self.count
    }

    // Places `x` in the slot at `i`, and takes out what was there.
    pub(crate) fn replace<T>(&mut self, slots: &mut [T], i: usize, x: T) -> T
        requires in_bounds { i < length slots.old }
        requires few { FitsBits 120 (touch_count self.old) }
        ensures value { result ≡ slice_index_or slots.old i result }
        ensures after { slots.new ≡ slice_set slots.old i x }
        ensures count { touch_count self.new ≡ touch_count self.old + 2 }
    {
        self.count += 2;
        mem::replace(&mut slots[i], x)
    }

    // Takes out what the slot at `i` holds, and leaves a default.
    pub(crate) fn take<T: Default>(&mut self, slots: &mut [T], i: usize) -> T
        requires in_bounds { i < length slots.old }
        requires few { FitsBits 120 (touch_count self.old) }
        ensures value { result ≡ slice_index_or slots.old i result }
        ensures after { (d : T) × T.is_default d × (slots.new ≡ slice_set slots.old i d) }
        ensures count { touch_count self.new ≡ touch_count self.old + 1 }
    {
        self.count += 1;
        mem::take(&mut slots[i])
    }

    // Places `x` in the slot at `i`, and drops what was there.
    fn place<T: Drop>(&mut self, slots: &mut [T], i: usize, x: T)
        requires in_bounds { i < length slots.old }
        requires few { FitsBits 120 (touch_count self.old) }
        ensures after { slots.new ≡ slice_set slots.old i x }
        ensures count { touch_count self.new ≡ touch_count self.old + 1 }
    {
        self.count += 1;
        slots[i] = x;
    }

    /// Places what `iter` yields in the slots from `at` on, and returns where that ends: before the end of the slots only if
    /// `iter` is exhausted.
    #[inline(always)]
    pub fn append<I: Iterator>(&mut self, slots: &mut [I::Item], at: usize, iter: &mut I) -> usize
    where
        I::Item: Drop,
        requires in_bounds { at ≤ length slots.old }
        requires few { FitsBits 80 (touch_count self.old) }
        requires can { I.can_next iter.old }
        ensures bounds { (at ≤ result) × (result ≤ length slots.old) }
        ensures placed { (placed : List I.Item) × (take result slots.new ≡ take at slots.old ++ placed)
            × (length placed ≡ result - at)
            × (result ≡ length slots.old → Yields I.next_gives iter.old placed iter.new × I.can_next iter.new)
            × (result < length slots.old → Drains I.next_gives iter.old placed) }
        ensures behind { drop result slots.new ≡ drop result slots.old }
        ensures count { touch_count self.new ≡ touch_count self.old + (result - at) }
    {
        let all = slots.len();
        for i in at..all {
            if !self.place_next(slots, i, iter) {
                return i;
            }
        }
        all
    }

    // Places the next item of `iter` at `at`, and returns whether there was one.
    #[inline(always)]
    fn place_next<I: Iterator>(&mut self, slots: &mut [I::Item], at: usize, iter: &mut I) -> bool
    where
        I::Item: Drop,
        requires in_bounds { at < length slots.old }
        requires few { FitsBits 120 (touch_count self.old) }
        requires can { I.can_next iter.old }
        ensures placed { MatchBool result ((new : I.Item) × I.next_gives iter.old (Some new) iter.new
            × I.can_next iter.new
            × (slots.new ≡ slice_set slots.old at new)
            × (touch_count self.new ≡ touch_count self.old + 1))
            (I.next_gives iter.old None iter.new × (slots.new ≡ slots.old) × (self.new ≡ self.old)) }
    {
        match iter.next() {
            Some(x) => {
                self.place(slots, at, x);
                true
            }
            None => false,
        }
    }

    // Empties the slots from `at` on, each by a touch.
    pub(crate) fn empty<T: Default + Drop>(&mut self, slots: &mut [T], at: usize)
        requires in_bounds { at ≤ length slots.old }
        requires few { FitsBits 80 (touch_count self.old) }
        ensures emptied { (ds : List T) × AreDefaults T.is_default (length slots.old - at) ds
            × (slots.new ≡ take at slots.old ++ ds) }
        ensures count { touch_count self.new ≡ touch_count self.old + (length slots.old - at) }
    {
        for i in at..slots.len() {
            let _taken = self.take(slots, i);
        }
    }

    // Swaps two slots.
    fn swap<T>(&mut self, slots: &mut [T], i: usize, j: usize)
        requires first { i < length slots.old }
        requires second { j < length slots.old }
        requires few { FitsBits 120 (touch_count self.old) }
        ensures by_index { SwappedAt slots.old slots.new i j }
        ensures count { touch_count self.new ≡ touch_count self.old + 1 }
    {
        self.count += 1;
        slots.swap(i, j);
    }

    // Moves the slots from `back` on down to `at`, and those between to the end.
    pub(crate) fn close<T>(&mut self, slots: &mut [T], at: usize, back: usize)
        requires in_bounds { Within at back (length slots.old) }
        requires few { FitsBits 80 (touch_count self.old) }
        ensures kept { take (length slots.old - (back - at)) slots.new ≡ take at slots.old ++ drop back slots.old }
        ensures count { touch_count self.new ≡ touch_count self.old + (length slots.old - back) }
    {
        let gap = back - at;
        // A local count stays in a register while slots are written.
        let mut touches = Touches { count: self.count };
        for from in back..slots.len() {
            touches.swap(slots, from - gap, from);
        }
        self.count = touches.count;
    }

    // Moves the slots from `middle` on before those from `start` on.
    pub(crate) fn rotate<T>(&mut self, slots: &mut [T], start: usize, middle: usize)
        requires in_bounds { Within start middle (length slots.old) }
        requires few { FitsBits 80 (touch_count self.old) }
        ensures after { slots.new
            ≡ take start slots.old ++ drop middle slots.old ++ slice_range slots.old start middle }
        ensures touches_grow { touch_count self.old ≤ touch_count self.new }
        ensures count { touch_count self.new ≤ touch_count self.old + (length slots.old - start) }
    {
        let mut first = start;
        let mut middle = middle;
        let mut next = middle;
        // A local count stays in a register while slots are written.
        let mut touches = Touches { count: self.count };
        while first < middle && next < slots.len() {
            let pairs = (middle - first).min(slots.len() - next);
            for i in 0..pairs {
                touches.swap(slots, first + i, next + i);
            }
            first += pairs;
            (middle, next) = after_swap(first, middle, next + pairs, slots.len());
        }
        self.count = touches.count;
    }
}

// The next step of turning `[A|B|C]` into `[C|B|A]`, split at `middle` and `next`. A part that is used up is replaced
// by the one after it.
fn after_swap(first: usize, middle: usize, next: usize, len: usize) -> (usize, usize)
    ensures last_ran_out { first ≡ middle → (result.0 ≡ next) × (result.1 ≡ next) }
    ensures first_ran_out { first ≢ middle → next ≡ len → (result.0 ≡ middle) × (result.1 ≡ middle) }
    ensures none_ran_out { first ≢ middle → next ≢ len → (result.0 ≡ middle) × (result.1 ≡ next) }
{
    if first == middle {
        return (next, next);
    }
    if next == len {
        return (middle, middle);
    }
    (middle, next)
}
