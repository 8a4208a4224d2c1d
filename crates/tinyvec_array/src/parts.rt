//! Parts of the slots, lent for writing.
ghost use Rattle.std.specs.Prelude.{◌≡◌, ◌<◌, ◌≤◌, length, slice_index_or, slice_range};
ghost use Rattle.std.specs.Borrow.{sem};
ghost use Rattle.tinyvec_array.specs.LentParts.{lends_part, lends_slot};

use crate::Slots;

// The slots from `start` up to `end`, for writing.
pub(crate) fn part_of<S: Slots>(slots: &mut S, start: usize, end: usize) -> &mut [S::Item]
    requires start_le_end { start ≤ end }
    requires in_bounds { end ≤ length (S.slots slots.old) }
    ensures* writes_back { sem 𝓛 (lends_part S.row S.Item.row S.Slots slots.entry start end result) }
    ensures value { result.now ≡ slice_range (S.slots slots.old) start end }
{
    // Proved by hand: the borrow checker does not follow one loan out of another.
    &mut slots.as_slice_mut()[start..end]
}

// The slot at `i`, for writing.
pub(crate) fn slot_of<S: Slots>(slots: &mut S, i: usize) -> &mut S::Item
    requires { i < length (S.slots slots.old) }
    ensures* writes_back { sem 𝓛 (lends_slot S.row S.Item.row S.Slots slots.entry i result) }
    ensures value { result.now ≡ slice_index_or (S.slots slots.old) i result.now }
{
    // Proved by hand, as `part_of`.
    &mut slots.as_slice_mut()[i]
}
