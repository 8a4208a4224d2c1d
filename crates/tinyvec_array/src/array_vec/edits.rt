//! Items that are pushed, popped, inserted, removed and cut off.
ghost use Rattle.std.specs.Prelude.{◌≡◌, ◌+◌, ◌-◌, ◌<◌, ◌↔◌, [], ◌∷◌, ◌++◌, length, take, drop, slice_get};
ghost use Rattle.std.specs.Prelude.{slice_index_or, IsSome, IfNone, IfSome, ◌≤◌, remove, insert};
ghost use Rattle.tinyvec_array.specs.ArrayVec.{slots_of, SameLender};
ghost use Rattle.tinyvec_array.specs.View.{view, Becomes, NothingVacated};
ghost use Rattle.tinyvec_slots.specs.Ranges.{Within};
ghost use Rattle.std.specs.Borrow.{sem};
ghost use Rattle.std.specs.List.{swap_remove, SwappedAt};

use crate::parts::{part_of, slot_of};
use crate::tuned::indexing::prefers_shifting_in;
use crate::tuned::resetting::fill_default;
use crate::tuned::shifting::insert_within;
use crate::{ArrayVec, Slots};
use std::mem;
use tinyvec_slots::authors::{remove_shifting, replace_within};

// What puts items in needs no default.
impl<S: Slots> ArrayVec<S> {
    /// Appends `value`.
    pub fn push(&mut self, value: S::Item)
        requires { 0 < length (view S.Slots self.old).spare }
        ensures { Becomes NothingVacated (view S.Slots self.old) (view S.Slots self.new)
            ((view S.Slots self.old).items ++ value ∷ []) }
    {
        let len = self.len();
        self.slots.as_slice_mut()[len] = value;
        self.len = self.slots.to_len(len + 1);
    }

    /// Appends `value`, or returns it if the vector is full.
    pub fn try_push(&mut self, value: S::Item) -> Option<S::Item>
        ensures variant { IsSome result ↔ (length (view S.Slots self.old).spare ≡ 0) }
        ensures refused { IfSome result (λ y. (y ≡ value) × (self.new ≡ self.old)) }
        ensures becomes { IfNone result (Becomes NothingVacated (view S.Slots self.old) (view S.Slots self.new)
            ((view S.Slots self.old).items ++ value ∷ [])) }
    {
        if self.is_full() {
            return Some(value);
        }
        self.push(value);
        None
    }

    ghost use Rattle.tinyvec_array.specs.Lends.{lends_pushed};

    /// Appends `value`, and returns it for writing.
    pub fn push_mut(&mut self, value: S::Item) -> &mut S::Item
        requires { 0 < length (view S.Slots self.old).spare }
        ensures* writes_back { sem 𝓛 (lends_pushed S.row S.Len.row S.Item.row S.Slots self.entry result) }
        ensures value { result.now ≡ value }
    {
        let len = self.len();
        self.len = self.slots.to_len(len + 1);
        let slot = slot_of(&mut self.slots, len);
        *slot = value;
        slot
    }

    /// Inserts `element` at `index`, and moves the later items up.
    pub fn insert(&mut self, index: usize, element: S::Item)
        requires in_list { index ≤ length (view S.Slots self.old).items }
        requires room { 0 < length (view S.Slots self.old).spare }
        ensures { Becomes NothingVacated (view S.Slots self.old) (view S.Slots self.new)
            (insert (view S.Slots self.old).items index element) }
    {
        self.put_in(index, element);
    }

    /// Inserts `element` at `index`, or returns it if the vector is full.
    pub fn try_insert(&mut self, index: usize, element: S::Item) -> Option<S::Item>
        requires { index ≤ length (view S.Slots self.old).items }
        ensures variant { IsSome result ↔ (length (view S.Slots self.old).spare ≡ 0) }
        ensures refused { IfSome result (λ y. (y ≡ element) × (self.new ≡ self.old)) }
        ensures becomes { IfNone result (Becomes NothingVacated (view S.Slots self.old) (view S.Slots self.new)
            (insert (view S.Slots self.old).items index element)) }
    {
        if self.is_full() {
            return Some(element);
        }
        self.insert(index, element);
        None
    }

    ghost use Rattle.tinyvec_array.specs.Lends.{lends_inserted, inserted_at};

    /// Inserts `element` at `index`, moves the later items up, and returns the new item for writing.
    pub fn insert_mut(&mut self, index: usize, element: S::Item) -> &mut S::Item
        requires in_list { index ≤ length (view S.Slots self.old).items }
        requires room { 0 < length (view S.Slots self.old).spare }
        ensures* writes_back { sem 𝓛 (lends_inserted S.row S.Len.row S.Item.row S.Slots self.entry index result) }
        ensures value { result.now ≡ element }
    {
        self.put_in(index, element);
        slot_of(&mut self.slots, index)
    }

    // Inserts `element` at `index`, by one write of the slots.
    fn put_in(&mut self, index: usize, element: S::Item)
        requires in_list { index ≤ length (view S.Slots self.old).items }
        requires room { 0 < length (view S.Slots self.old).spare }
        ensures value { self.new ≡ inserted_at S.Slots self.old index element }
        ensures slot_count { S.Slots.Counts (slots_of S.Slots self.old) }
    {
        let len = self.len();
        let are_few = prefers_shifting_in(&self.slots, index, len);
        self.len = self.slots.to_len(len + 1);
        insert_within(self.slots.as_slice_mut(), index, len, element, are_few);
    }

    // Swaps the items at `i` and `j`.
    fn swap_items(&mut self, i: usize, j: usize)
        requires first { i < length (view S.Slots self.old).items }
        requires second { j < length (view S.Slots self.old).items }
        ensures lender { SameLender S.Slots self.old self.new }
        ensures swapped { SwappedAt (view S.Slots self.old).items (view S.Slots self.new).items i j }
        ensures len { length (view S.Slots self.new).items ≡ length (view S.Slots self.old).items }
        ensures spare { (view S.Slots self.new).spare ≡ (view S.Slots self.old).spare }
    {
        self.as_mut_slice().swap(i, j);
    }
}

// What takes items out leaves defaults in their slots.
impl<S: Slots> ArrayVec<S>
where
    S::Item: Default,
{
    /// Removes the last item and returns it. Its slot is reset to a default.
    pub fn pop(&mut self) -> Option<S::Item>
        ensures variant { IsSome result ↔ (0 < length (view S.Slots self.old).items) }
        ensures becomes { Becomes S.Item.is_default (view S.Slots self.old) (view S.Slots self.new)
            (take (length (view S.Slots self.old).items - 1) (view S.Slots self.old).items) }
        ensures some { IfSome result (λ x. (view S.Slots self.old).items ≡ (view S.Slots self.new).items ++ x ∷ []) }
        ensures value { result ≡ slice_get (view S.Slots self.old).items (length (view S.Slots self.old).items - 1) }
        ensures none { IfNone result (self.new ≡ self.old) }
    {
        let len = self.len();
        if len == 0 {
            return None;
        }
        // In a lent slice an index takes an instruction less, in an array `last_mut`. `pop_all` 64: 489 > 310.
        if self.slots.most() == usize::MAX {
            return Some(self.take_last());
        }
        let Some(last) = part_of(&mut self.slots, 0, len).last_mut() else {
            unreachable!();
        };
        let item = mem::take(last);
        self.len = self.slots.to_len(len - 1);
        Some(item)
    }

    // Takes the last item.
    pub(crate) fn take_last(&mut self) -> S::Item
        requires { 0 < length (view S.Slots self.old).items }
        ensures becomes { Becomes S.Item.is_default (view S.Slots self.old) (view S.Slots self.new)
            (take (length (view S.Slots self.old).items - 1) (view S.Slots self.old).items) }
        ensures last { (view S.Slots self.old).items ≡ (view S.Slots self.new).items ++ result ∷ [] }
        ensures value { result ≡ slice_index_or (view S.Slots self.old).items (length (view S.Slots self.old).items - 1) result }
    {
        let len = self.len();
        let item = mem::take(&mut self.slots.as_slice_mut()[len - 1]);
        self.len = self.slots.to_len(len - 1);
        item
    }

    /// Removes the item at `index` and returns it. The later ones move down.
    pub fn remove(&mut self, index: usize) -> S::Item
        requires { index < length (view S.Slots self.old).items }
        ensures value { result ≡ slice_index_or (view S.Slots self.old).items index result }
        ensures becomes { Becomes S.Item.is_default (view S.Slots self.old) (view S.Slots self.new)
            (remove (view S.Slots self.old).items index) }
    {
        let len = self.len();
        if prefers_shifting_in(&self.slots, index, len) {
            let item = remove_shifting(self.slots.as_slice_mut(), index, len);
            self.len = self.slots.to_len(len - 1);
            return item;
        }
        self.move_to_end(index, index + 1);
        self.take_last()
    }

    /// Removes the item at `index` and returns it, or returns `None` if the list has no such item. The later ones move
    /// down.
    pub fn pop_at(&mut self, index: usize) -> Option<S::Item>
        ensures variant { IsSome result ↔ (index < length (view S.Slots self.old).items) }
        ensures value { result ≡ slice_get (view S.Slots self.old).items index }
        ensures becomes { Becomes S.Item.is_default (view S.Slots self.old) (view S.Slots self.new)
            (remove (view S.Slots self.old).items index) }
        ensures none { IfNone result (self.new ≡ self.old) }
    {
        if index >= self.len() {
            return None;
        }
        Some(self.remove(index))
    }

    /// Removes the item at `index` and returns it. The last one takes its place.
    pub fn swap_remove(&mut self, index: usize) -> S::Item
        requires { index < length (view S.Slots self.old).items }
        ensures value { result ≡ slice_index_or (view S.Slots self.old).items index result }
        ensures becomes { Becomes S.Item.is_default (view S.Slots self.old) (view S.Slots self.new)
            (swap_remove (view S.Slots self.old).items index result) }
    {
        let last = self.len() - 1;
        self.swap_items(index, last);
        self.take_last()
    }

    /// Keeps the first `new_len` items, or all if there are no more. Each vacated slot is reset to a default.
    pub fn truncate(&mut self, new_len: usize)
        ensures { Becomes S.Item.is_default (view S.Slots self.old) (view S.Slots self.new)
            (take new_len (view S.Slots self.old).items) }
    {
        if new_len < self.len() {
            self.cut_to(new_len);
        }
    }

    // Keeps the first `new_len` items, and resets the slots of the others.
    #[inline(always)]
    fn cut_to(&mut self, new_len: usize)
        requires { new_len ≤ length (view S.Slots self.old).items }
        ensures { Becomes S.Item.is_default (view S.Slots self.old) (view S.Slots self.new)
            (take new_len (view S.Slots self.old).items) }
    {
        let len = self.len();
        let most = self.slots.most();
        fill_default(self.slots.as_slice_mut(), new_len, len, most);
        self.len = self.slots.to_len(new_len);
    }

    /// Empties the list. Each vacated slot is reset to a default.
    pub fn clear(&mut self)
        ensures { Becomes S.Item.is_default (view S.Slots self.old) (view S.Slots self.new) [] }
    {
        self.cut_to(0);
    }

    // `replace_range` of a list that has room.
    #[inline(always)]
    pub(crate) fn replace_fitting(&mut self, start: usize, end: usize, new: &[S::Item])
    where
        S::Item: Copy,
        requires in_list { Within start end (length (view S.Slots self.old).items) }
        requires room { length (view S.Slots self.old).items - (end - start) + length new.now ≤ length (slots_of S.Slots self.old) }
        ensures { Becomes S.Item.is_default (view S.Slots self.old) (view S.Slots self.new)
            (take start (view S.Slots self.old).items ++ new.now ++ drop end (view S.Slots self.old).items) }
    {
        let len = self.len();
        let new_len = len - (end - start) + new.len();
        let most = self.slots.most();
        replace_within(self.slots.as_slice_mut(), start, end, len, new, most);
        if new_len < len {
            self.truncate(new_len);
            return;
        }
        self.len = self.slots.to_len(new_len);
    }
}
