//! `ArrayVec` and `SliceVec`.
ghost use Rattle.std.specs.Prelude.{◌≡◌, ◌<◌, ◌≤◌, ◌==◌, ◌+◌, ◌^◌, length, take, drop, slice_range, slice_index_or};
ghost use Rattle.std.specs.Prelude.{slice_set, List, ◌++◌, ⊤};
ghost use Rattle.std.specs.List.{remove_range};
ghost use Rattle.tinyvec_slots.specs.Slots.{AreDefaults, split_at};
ghost use Rattle.tinyvec_slots.specs.Ranges.{Within};
ghost use Rattle.std.specs.Borrow.{sem};
ghost use Rattle.tinyvec_array.specs.ArrayVec.{view_of, slots_of, SameLender};
ghost use Rattle.tinyvec_array.specs.View.{view};
ghost use Rattle.tinyvec_array.specs.Lends.{lends_items, lends_inner, lends_spare};
ghost use Rattle.tinyvec_slots.specs.Filling.{Iterates};

mod edits;
mod extending;
mod filters;
mod in_array;
mod in_slice;
mod traits;

use crate::Slots;
use crate::parts::part_of;
use crate::tuned::indexing::bounded_index;
use crate::tuned::resetting::fill_default;
use crate::tuned::shifting::move_to_end_below;
use std::alloc::AllocError;
use std::convert::AsSlice;
use std::{mem, slice};

/// A list in slots: in an array, or in a slice that is lent for writing. The slots after the list are its spare slots: they
/// hold values too, and vacated ones defaults, unless a call says otherwise. When a vector in a lent slice is dropped, the
/// owner of the slots sees the list followed by the spare slots.
#[derive(Drop)]
pub struct ArrayVec<S: Drop, L: Drop = <S as Slots>::Len> {
    len: L,
    slots: S,
}

/// A list in a slice that is lent for writing.
pub type SliceVec<'s, T> = ArrayVec<&'s mut [T]>;

impl<S: Drop + Copy, L: Drop + Copy> Copy for ArrayVec<S, L> {}

impl<S: Drop + Copy, L: Drop + Copy> Clone for ArrayVec<S, L> {
    ghost is_clone = { λ v w. w ≡ v };

    ghost is_infallible = { λ _. ⊤ };

    fn clone(&self) -> Result<Self, AllocError> {
        Ok(*self)
    }
}

// What needs no default, so that it goes for an item that holds such a vector too.
impl<S: Slots> ArrayVec<S> {
    /// The number of items.
    pub fn len(&self) -> usize
        ensures value { result ≡ length (view S.Slots self.now).items }
        ensures fits { result ≤ length (slots_of S.Slots self.now) }
        ensures small { length (slots_of S.Slots self.now) < 2 ^ 64 }
        ensures slot_count { S.Slots.Counts (slots_of S.Slots self.now) }
    {
        self.slots.used(&self.len)
    }

    /// The number of items that fit, which is that of the slots.
    pub fn capacity(&self) -> usize
        ensures value { result ≡ length (slots_of S.Slots self.now) }
        ensures parts { result ≡ length (view S.Slots self.now).items + length (view S.Slots self.now).spare }
        ensures slot_count { S.Slots.Counts (slots_of S.Slots self.now) }
    {
        self.slots.as_slice().len()
    }

    /// How many more items fit.
    pub fn remaining_capacity(&self) -> usize
        ensures value { result ≡ length (view S.Slots self.now).spare }
        ensures sum { length (view S.Slots self.now).items + result ≡ length (slots_of S.Slots self.now) }
        ensures slot_count { S.Slots.Counts (slots_of S.Slots self.now) }
    {
        self.capacity() - self.len()
    }

    /// Whether the list has no items.
    pub fn is_empty(&self) -> bool
        ensures { result ≡ (length (view S.Slots self.now).items == 0) }
    {
        self.len() == 0
    }

    /// Whether no more items fit.
    pub fn is_full(&self) -> bool
        ensures value { result ≡ (length (view S.Slots self.now).spare == 0) }
        ensures slot_count { S.Slots.Counts (slots_of S.Slots self.now) }
    {
        self.len() == self.capacity()
    }

    /// The items.
    pub fn as_slice(&self) -> &[S::Item]
        ensures { result.now ≡ (view S.Slots self.now).items }
    {
        let slots = self.slots.as_slice();
        // The minimum is the length. It bounds the trip count of a loop over the items.
        &slots[..self.len().min(slots.len())]
    }

    /// The spare slots.
    pub fn grab_spare_slice(&self) -> &[S::Item]
        ensures { result.now ≡ (view S.Slots self.now).spare }
    {
        let len = self.len();
        &self.slots.as_slice()[len..]
    }

    /// Moves the border between the items and the spare slots. No slot is written.
    pub fn set_len(&mut self, new_len: usize)
        requires { new_len ≤ length (slots_of S.Slots self.old) }
        ensures lender { SameLender S.Slots self.old self.new }
        ensures value { view_of S.Slots self.new ≡ split_at new_len (slots_of S.Slots self.old) }
        ensures len { length (view S.Slots self.new).items ≡ new_len }
    {
        self.len = self.slots.to_len(new_len);
    }

    // Moves the items from `start` up to `end` after the others.
    pub(crate) fn move_to_end(&mut self, start: usize, end: usize)
        requires { Within start end (length (view S.Slots self.old).items) }
        ensures lender { SameLender S.Slots self.old self.new }
        ensures items { (view S.Slots self.new).items
            ≡ remove_range (view S.Slots self.old).items start end ++ slice_range (view S.Slots self.old).items start end }
        ensures spare { (view S.Slots self.new).spare ≡ (view S.Slots self.old).spare }
    {
        let len = self.len();
        move_to_end_below(self.slots.as_slice_mut(), start, end, len);
    }

    /// The items, for writing.
    pub fn as_mut_slice(&mut self) -> &mut [S::Item]
        ensures* writes_back { sem 𝓛 (lends_items S.row S.Len.row S.Item.row S.Slots self.entry result) }
        ensures value { result.now ≡ (view S.Slots self.old).items }
    {
        let len = self.len();
        part_of(&mut self.slots, 0, len)
    }

    /// The spare slots, for writing.
    pub fn grab_spare_slice_mut(&mut self) -> &mut [S::Item]
        ensures* writes_back { sem 𝓛 (lends_spare S.row S.Len.row S.Item.row S.Slots self.entry result) }
        ensures value { result.now ≡ (view S.Slots self.old).spare }
    {
        let len = self.len();
        let all = self.capacity();
        part_of(&mut self.slots, len, all)
    }

    /// The slots, spare slots too, for writing.
    pub fn as_mut_slots(&mut self) -> &mut [S::Item]
        ensures* writes_back { sem 𝓛 (lends_inner S.row S.Len.row S.Item.row S.Slots self.entry result) }
        ensures value { result.now ≡ slots_of S.Slots self.old }
    {
        self.slots.as_slice_mut()
    }

    /// Iterates over the items, in order or from the back.
    pub fn iter(&self) -> slice::Iter<'_, S::Item>
        ensures { Iterates (view S.Slots self.now).items result }
    {
        self.as_slice().iter()
    }
}

// What leaves defaults, for the calls of other files.
impl<S: Slots> ArrayVec<S>
where
    S::Item: Default,
{
    // Takes the value of the spare slot at `i`, and leaves a default.
    pub(crate) fn take_spare(&mut self, i: usize) -> S::Item
        requires { i < length (view S.Slots self.old).spare }
        ensures lender { SameLender S.Slots self.old self.new }
        ensures value { result ≡ slice_index_or (view S.Slots self.old).spare i result }
        ensures items { (view S.Slots self.new).items ≡ (view S.Slots self.old).items }
        ensures spare { (d : S.Item) × S.Item.is_default d
            × ((view S.Slots self.new).spare ≡ slice_set (view S.Slots self.old).spare i d) }
    {
        let len = self.len();
        let most = self.slots.most();
        let at = bounded_index(len, most) + bounded_index(i, most);
        mem::take(&mut self.slots.as_slice_mut()[at])
    }

    // Writes defaults into the `n` spare slots from `start` on, or none if there are fewer.
    pub(crate) fn fill_spare_default(&mut self, start: usize, n: usize)
        ensures lender { SameLender S.Slots self.old self.new }
        ensures items { (view S.Slots self.new).items ≡ (view S.Slots self.old).items }
        ensures spare { start + n ≤ length (view S.Slots self.old).spare → (ds : List S.Item)
            × AreDefaults S.Item.is_default n ds
            × ((view S.Slots self.new).spare
            ≡ take start (view S.Slots self.old).spare ++ ds ++ drop (start + n) (view S.Slots self.old).spare) }
        ensures none { length (view S.Slots self.old).spare < start + n → self.new ≡ self.old }
    {
        let len = self.len();
        let spare = self.capacity() - len;
        if start <= spare && n <= spare - start {
            let most = self.slots.most();
            let from = len + start;
            fill_default(self.slots.as_slice_mut(), from, from + n, most);
        }
    }
}

impl<S: Slots> AsSlice<S::Item> for ArrayVec<S> {
    ghost items = { λ v. (view S.Slots v).items };

    fn as_slice(&self) -> &[S::Item] {
        self.as_slice()
    }
}
