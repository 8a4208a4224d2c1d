//! Items shifted by one place, one after another.
ghost use Rattle.std.specs.Prelude.{◌≡◌, ◌<◌, ◌≤◌, [], ◌∷◌, ◌++◌, length, take, drop, remove, slice_index_or};

use std::mem;

/// Removes the item at `index` from the first `len`, and writes a default into the slot that becomes free.
pub fn remove_shifting<T: Default + Drop>(slots: &mut [T], index: usize, len: usize) -> T
    requires in_list { index < len }
    requires in_bounds { len ≤ length slots.old }
    ensures value { result ≡ slice_index_or slots.old index result }
    ensures after { (d : T) × T.is_default d
        × (slots.new ≡ remove (take len slots.old) index ++ d ∷ drop len slots.old) }
{
    let end = slots.len().min(len);
    shift_down(&mut slots[..end], index, T::default())
}

// Removes the item at `index`, and appends `x`.
fn shift_down<T: Drop>(items: &mut [T], index: usize, x: T) -> T
    requires { index < length items.old }
    ensures value { result ≡ slice_index_or items.old index result }
    ensures after { items.new ≡ remove items.old index ++ x ∷ [] }
{
    let mut held = x;
    let mut i = items.len();
    while i > index {
        i -= 1;
        held = mem::replace(&mut items[i], held);
    }
    held
}
