//! Items moved within slots.
ghost use Rattle.std.specs.Prelude.{◌≡◌, ◌+◌, ◌<◌, ◌≤◌, [], ◌∷◌, ◌++◌, length, take, drop, slice_range, insert};
ghost use Rattle.std.specs.List.{remove_range};
ghost use Rattle.tinyvec_slots.specs.Ranges.{Within};

use std::mem;
use tinyvec_slots::authors::move_to_end;

// Inserts `x` at `index` into the first `len` items, which overwrites the item at `len`: by a loop if `are_few` move up.
#[inline(always)]
pub(crate) fn insert_within<T: Drop>(slots: &mut [T], index: usize, len: usize, x: T, are_few: bool)
    requires in_list { index ≤ len }
    requires room { len < length slots.old }
    ensures { slots.new ≡ insert (take len slots.old) index x ++ drop (len + 1) slots.old }
{
    if are_few {
        insert_shifting(slots, index, len, x);
        return;
    }
    slots[len] = x;
    slots[index..=len].rotate_right(1);
}

fn insert_shifting<T: Drop>(slots: &mut [T], index: usize, len: usize, x: T)
    requires in_list { index ≤ len }
    requires room { len < length slots.old }
    ensures { slots.new ≡ insert (take len slots.old) index x ++ drop (len + 1) slots.old }
{
    // Is `len + 1`. The minimum bounds the trip count for LLVM.
    let end = slots.len().min(len + 1);
    shift_up(&mut slots[..end], index, x);
}

// Inserts `x` at `index`, and returns the item that no longer fits.
fn shift_up<T: Drop>(items: &mut [T], index: usize, x: T) -> T
    requires { index ≤ length items.old }
    ensures { items.new ++ result ∷ [] ≡ insert items.old index x }
{
    let mut held = x;
    for i in index..items.len() {
        held = mem::replace(&mut items[i], held);
    }
    held
}

// Moves the items `start..end` to the end of the first `len`.
pub(crate) fn move_to_end_below<T>(slots: &mut [T], start: usize, end: usize, len: usize)
    requires in_list { Within start end len }
    requires in_bounds { len ≤ length slots.old }
    ensures { slots.new
        ≡ remove_range (take len slots.old) start end ++ slice_range (take len slots.old) start end
        ++ drop len slots.old }
{
    move_to_end(&mut slots[..len], start, end);
}
