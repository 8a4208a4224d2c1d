//! Defaults written into slots.
ghost use Rattle.std.specs.Prelude.{◌≡◌, ◌-◌, ◌*◌, ◌<◌, ◌≤◌, ◌++◌, List, length, take, drop};
ghost use Rattle.tinyvec_slots.specs.Ranges.{Within};
ghost use Rattle.tinyvec_slots.specs.Slots.{AreDefaults};

use tinyvec_slots::authors::are_small;

// Writes a default into each slot from `start` up to `end`, which are at most `most`. A constant `most` removes the branches
// for more slots.
#[inline(always)]
pub(crate) fn fill_default<T: Default + Drop>(
    slots: &mut [T],
    start: usize,
    end: usize,
    most: usize,
)
    requires in_bounds { Within start end (length slots.old) }
    requires few { end - start ≤ most }
    ensures { (ds : List T) × AreDefaults T.is_default (end - start) ds
        × (slots.new ≡ take start slots.old ++ ds ++ drop end slots.old) }
{
    fill_at_most(&mut slots[start..end], most);
}

// Writes a default into each slot. Short slices of small items are written as two overlapping runs, which beats `memset`;
// larger ones, which may need a drop, are written once. `truncate_and_refill` 4: 45 > 30.
fn fill_at_most<T: Default + Drop>(slots: &mut [T], most: usize)
    requires { length slots.old ≤ most }
    ensures { AreDefaults T.is_default (length slots.old) slots.new }
{
    let count = slots.len();
    if count > 0 && !are_small(slots) {
        return fill_each(slots);
    }
    if most > 16 && count > 16 {
        fill_each(slots);
    } else if most > 8 && count > 8 {
        fill_ends::<T, 8>(slots);
    } else if most > 4 && count > 4 {
        fill_ends::<T, 4>(slots);
    } else if most > 2 && count > 2 {
        fill_ends::<T, 2>(slots);
    } else if count > 0 {
        fill_ends::<T, 1>(slots);
    }
}

// The same, slot by slot.
fn fill_each<T: Default + Drop>(slots: &mut [T])
    ensures { AreDefaults T.is_default (length slots.old) slots.new }
{
    for slot in slots.iter_mut() {
        *slot = T::default();
    }
}

// The same, the first N slots and the last N.
fn fill_ends<T: Default + Drop, const N: usize>(slots: &mut [T])
    requires enough { N ≤ length slots.old }
    requires no_gap { length slots.old ≤ 2 * N }
    ensures { AreDefaults T.is_default (length slots.old) slots.new }
{
    let back = slots.len() - N;
    fill_each(&mut slots[..N]);
    fill_each(&mut slots[back..]);
}
