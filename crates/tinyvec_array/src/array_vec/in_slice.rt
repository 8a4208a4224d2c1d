//! What only a vector in a lent slice has.
ghost use Rattle.std.specs.Prelude.{◌≡◌, ◌<◌, ◌≤◌, ◌-◌, ◌↔◌, ◌++◌, [], length, take, drop, reverse, List, IsSome};
ghost use Rattle.std.specs.Prelude.{IfSome, IsOk, OnOk, IfErr};
ghost use Rattle.std.specs.List.{AppendsResults};
ghost use Rattle.std.specs.Borrow.{sem};
ghost use Rattle.tinyvec_slots.specs.Slots.{split_at};
ghost use Rattle.tinyvec_slots.specs.Filling.{IteratesMut};
ghost use Rattle.tinyvec_slots.specs.Clones.{ResizesByClones, CutsToClones};
ghost use Rattle.tinyvec_array.specs.ArrayVec.{SameLender};
ghost use Rattle.tinyvec_array.specs.SliceVec.{slice_view, slice_items, slice_spare, slice_slots, slice_name};
ghost use Rattle.tinyvec_array.specs.Making.{lends_array};

use crate::{ArrayVec, NoMemory, SliceVec, Slots};
use std::{mem, slice};

impl<'s, T: Drop> ArrayVec<&'s mut [T]> {
    /// A vector whose list is the first `len` slots of the slice. The others are its spare slots.
    pub fn from_slice_len(slice: &'s mut [T], len: usize) -> Self
        requires { len ≤ length slice.old }
        ensures same_reference { slice_name result ≡ slice.entry.ghost_name }
        ensures value { slice_view result ≡ split_at len slice.old }
        ensures items { slice_items result ≡ take len slice.old }
        ensures spare { slice_spare result ≡ drop len slice.old }
    {
        ArrayVec { len, slots: slice }
    }

    /// A full vector, whose list is the whole slice. An array can be passed as `&mut array`.
    pub fn from_slice(slice: &'s mut [T]) -> Self
        ensures same_reference { slice_name result ≡ slice.entry.ghost_name }
        ensures value { slice_view result ≡ split_at (length slice.old) slice.old }
        ensures items { slice_items result ≡ slice.old }
    {
        let len = slice.len();
        Self::from_slice_len(slice, len)
    }

    /// A vector whose list is the first `len` slots of the slice. `None` if the slice is too short; it is then
    /// unchanged. Limitation: the owner's proof learns neither; compare the lengths, and call `from_slice_len`.
    pub fn try_from_slice_len(slice: &'s mut [T], len: usize) -> Option<Self>
        ensures some { IsSome result ↔ (len ≤ length slice.old) }
        ensures same_reference { IfSome result (λ v. slice_name v ≡ slice.entry.ghost_name) }
        ensures value { IfSome result (λ v. slice_view v ≡ split_at len slice.old) }
    {
        if len > slice.len() {
            return None;
        }
        Some(Self::from_slice_len(slice, len))
    }

    /// The slots, spare slots too.
    pub fn as_inner(&self) -> &[T]
        ensures { result.now ≡ slice_slots self.now }
    {
        self.slots.as_slice()
    }

    /// The slots, spare slots too, for writing. Limitation: the owner's proof does not learn what is written; use
    /// `as_mut_slots`.
    pub fn as_mut_inner(&mut self) -> &mut [T]
        ensures value { result.now ≡ slice_slots self.old }
    {
        self.as_mut_slots()
    }

    /// Splits the slots at `at`. The vector keeps the slots before `at`, all in its list; the result has the later
    /// items and all spare slots. No slot is written. Limitation: the owner's proof does not learn which part is where;
    /// split `as_mut_slots()` by `split_at_mut` and make a vector over each part instead.
    pub fn split_off(&mut self, at: usize) -> SliceVec<'s, T>
        requires { at ≤ length (slice_items self.old) }
        ensures items { slice_items self.new ≡ take at (slice_items self.old) }
        ensures full { slice_spare self.new ≡ [] }
        ensures tail { slice_items result ≡ drop at (slice_items self.old) }
        ensures tail_spare { slice_spare result ≡ slice_spare self.old }
    {
        let len = self.len();
        let slots = mem::take(&mut self.slots);
        let (first, second) = slots.split_at_mut(at);
        self.slots = first;
        self.len = at;
        ArrayVec {
            len: len - at,
            slots: second,
        }
    }

    /// Truncates the list to `new_len` items, or fills it up with clones of `value`. On failure `value` is returned. Only
    /// clones allocate. The slots that a cut vacates are filled with clones of `value` too, the last slot first.
    pub fn resize(&mut self, new_len: usize, value: T) -> Result<(), NoMemory<T>>
    where
        T: Clone,
        requires room { new_len ≤ length (slice_slots self.old) }
        ensures lender { SameLender ⟦<&'s mut [T] as Slots>⟧ self.old self.new }
        ensures len { OnOk result (length (slice_items self.new) ≡ new_len) }
        ensures grown { length (slice_items self.old) < new_len
            → ResizesByClones T.Clone new_len value result (slice_view self.old) (slice_view self.new) }
        ensures cut { new_len ≤ length (slice_items self.old)
            → CutsToClones T.Clone new_len value result (slice_view self.old) (slice_view self.new) }
        ensures value_returned { IfErr result (λ refused. refused.0 ≡ value) }
        ensures succeeds { T.is_infallible value → IsOk result }
    {
        self.resize_by_clones(new_len, value)
    }

    /// Truncates the list to `new_len` items, or fills it up with what `f` returns. The slots that a cut vacates are
    /// filled with what `f` returns too, the last slot first. Calls `f` once for each of these slots.
    pub fn resize_with<F: FnMut() -> T>(&mut self, new_len: usize, mut f: F)
        requires room { new_len ≤ length (slice_slots self.old) }
        requires callable { F.IsAlwaysCallable f }
        ensures lender { SameLender ⟦<&'s mut [T] as Slots>⟧ self.old self.new }
        ensures len { length (slice_items self.new) ≡ new_len }
        ensures grown { length (slice_items self.old) ≤ new_len
            → AppendsResults F.step (slice_items self.old) (slice_items self.new) f
            × (slice_spare self.new ≡ drop (new_len - length (slice_items self.old)) (slice_spare self.old)) }
        ensures cut { new_len ≤ length (slice_items self.old) → (slice_items self.new ≡ take new_len (slice_items self.old))
            × ((ys : List T) × AppendsResults F.step [] ys f × (length ys ≡ length (slice_items self.old) - new_len)
            × (slice_spare self.new ≡ reverse ys ++ slice_spare self.old)) }
    {
        self.resize_by_answers(new_len, &mut f);
    }
}

impl<'s, T: Drop> Default for ArrayVec<&'s mut [T]> {
    ghost is_default = { λ v. slice_view v ≡ split_at 0 [] };

    /// A vector over no slots.
    fn default() -> Self {
        ArrayVec {
            len: 0,
            slots: &mut [],
        }
    }
}

impl<'s, T: Drop> From<&'s mut [T]> for ArrayVec<&'s mut [T]> {
    ghost from_gives = { λ slice v. (slice_name v ≡ slice.ghost_name) × (slice_view v ≡ split_at (length slice.now) slice.now) };

    /// A full vector, whose list is the whole slice.
    fn from(slice: &'s mut [T]) -> Self {
        Self::from_slice(slice)
    }
}

impl<'s, T: Drop, const N: usize> From<&'s mut [T; N]> for ArrayVec<&'s mut [T]> {
    ghost from_gives = { λ array v. slice_view v ≡ split_at (length array.now) array.now };

    /// A full vector, whose list is the whole array. Limitation: the owner's proof does not learn what the vector did;
    /// use `from_slice` or `from_slice_len`.
    fn from(array: &'s mut [T; N]) -> Self
        ensures* writes_back { sem 𝓛 (lends_array T.row N array.entry result) }
        ensures value { slice_view result ≡ split_at (length array.old) array.old }
    {
        Self::from_slice(array.as_mut_slice())
    }
}

impl<'s, T: Drop> IntoIterator for ArrayVec<&'s mut [T]> {
    type Item = &'s mut T;

    type IntoIter = slice::IterMut<'s, T>;

    ghost into_iter_gives = { λ v it. IteratesMut (slice_items v) it };

    /// The items of the list for writing, without the spare slots. Limitation: the owner's proof does not learn what is
    /// written; loop over `v.iter_mut()` instead.
    fn into_iter(self) -> slice::IterMut<'s, T> {
        let len = self.len();
        let ArrayVec { len: _, slots } = self;
        let (front, _spare) = slots.split_at_mut(len);
        front.iter_mut()
    }
}
