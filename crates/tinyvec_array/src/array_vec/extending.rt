//! Growing by other lists, by clones, by iterators and by closures.
ghost use Rattle.std.specs.Prelude.{◌≡◌, ◌+◌, ◌≤◌, ◌++◌, length, take, drop, IsOk, OnOk, OnErr, [], ◌-◌, ◌∷◌, List};
ghost use Rattle.std.specs.Prelude.{IfErr, Some, ◌<◌, ◌↔◌, ℕ, All, Err, reverse, IsSome, IfSome, IfNone, IfOk};
ghost use Rattle.std.specs.Prelude.{MatchResult};
ghost use Rattle.tinyvec_slots.specs.Clones.{AddsClones, AppendsAllOrNone, ClonesOver, RefusedAt, ResizesByClones};
ghost use Rattle.tinyvec_slots.specs.Clones.{CutsToClones};
ghost use Rattle.tinyvec_array.specs.ArrayVec.{slots_of, view_of, SameLender};
ghost use Rattle.tinyvec_array.specs.View.{view, Becomes, StaysInPlace, NothingVacated};
ghost use Rattle.tinyvec_slots.specs.Ranges.{IsRangeOf, items_within};
ghost use Rattle.tinyvec_slots.specs.Filling.{Fills, Extends, AppendsResultsTo};

use crate::tuned::cloning::clone_within;
use crate::{ArrayVec, NoMemory, NoRoom, Slots, TakesClones, TryFromSliceError};
use std::alloc::AllocError;
use std::ops::RangeBounds;
use tinyvec_slots::authors::{
    put_answers, put_clones_of, put_taken, put_until_full, resolve_range,
};

// What writes clones, as the slots want them.
impl<S: TakesClones> ArrayVec<S> {
    /// Appends clones of the slice's items. Only clones allocate.
    pub fn extend_from_slice(&mut self, other: &[S::Item]) -> Result<(), AllocError>
    where
        S::Item: Clone,
        requires room { length other.now ≤ length (view S.Slots self.old).spare }
        ensures lender { SameLender S.Slots self.old self.new }
        ensures clones { AddsClones S.Item.Clone other.now result (view_of S.Slots self.old) (view_of S.Slots self.new) }
    {
        let len = self.len();
        S::write_clones(self.slots.as_slice_mut(), len, other)?;
        self.len = self.slots.to_len(len + other.len());
        Ok(())
    }

    /// Appends clones of the slice's items. If they do not all fit, or a clone fails, it fails and appends nothing. Only
    /// clones of items allocate.
    pub fn try_extend_from_slice(&mut self, other: &[S::Item]) -> Result<(), TryFromSliceError>
    where
        S::Item: Clone,
        ensures lender { SameLender S.Slots self.old self.new }
        ensures too_long { (result ≡ Err TryFromSliceError.TooLong) ↔
            (length (view S.Slots self.old).spare < length other.now) }
        ensures unchanged { result ≡ Err TryFromSliceError.TooLong → self.new ≡ self.old }
        ensures clones { AppendsAllOrNone S.Item.is_clone other.now result (view S.Slots self.old).items
            (view S.Slots self.new).items }
        ensures spare { OnOk result ((view S.Slots self.new).spare ≡ drop (length other.now) (view S.Slots self.old).spare) }

        // The first `j` spare slots hold the clones made.
        ensures memory { result ≡ Err TryFromSliceError.Memory → (j : ℕ)
            × RefusedAt S.Item.is_infallible other.now j
            × ClonesOver S.Item.is_clone (take j other.now) j (view S.Slots self.old).spare (view S.Slots self.new).spare }
        ensures succeeds { length other.now ≤ length (view S.Slots self.old).spare
            → All S.Item.is_infallible other.now → IsOk result }
    {
        if other.len() > self.remaining_capacity() {
            return Err(TryFromSliceError::TooLong);
        }
        match self.extend_from_slice(other) {
            Ok(()) => Ok(()),
            Err(_) => Err(TryFromSliceError::Memory),
        }
    }
}

// What needs no default, and is the same of all slots.
impl<S: Slots> ArrayVec<S> {
    /// Appends copies of the slice's items. They are copied as one block.
    pub fn extend_from_slice_copy(&mut self, other: &[S::Item])
    where
        S::Item: Copy,
        requires room { length other.now ≤ length (view S.Slots self.old).spare }
        ensures { Becomes NothingVacated (view S.Slots self.old) (view S.Slots self.new)
            ((view S.Slots self.old).items ++ other.now) }
    {
        let len = self.len();
        let end = len + other.len();
        self.slots.as_slice_mut()[len..end].copy_from_slice(other);
        self.len = self.slots.to_len(end);
    }

    /// Appends clones of the items of the range. Only clones allocate.
    ///
    /// `not_exhausted` fails only for a `RangeInclusive` that was iterated to its end.
    pub fn extend_from_within<R: RangeBounds<usize>>(&mut self, range: R) -> Result<(), AllocError>
    where
        S::Item: Clone,
        requires not_exhausted { R.has_bounds range }
        requires in_list { IsRangeOf (view S.Slots self.old).items (R.start_bound range) (R.end_bound range) }
        requires room { length (items_within (view S.Slots self.old).items (R.start_bound range) (R.end_bound range))
            ≤ length (view S.Slots self.old).spare }
        ensures lender { SameLender S.Slots self.old self.new }
        ensures clones { AddsClones S.Item.Clone
            (items_within (view S.Slots self.old).items (R.start_bound range) (R.end_bound range)) result
            (view_of S.Slots self.old) (view_of S.Slots self.new) }
    {
        let len = self.len();
        let part = resolve_range(range, len);
        clone_within(self.slots.as_slice_mut(), part.start, part.end, len)?;
        self.len = self.slots.to_len(len + (part.end - part.start));
        Ok(())
    }

    /// Appends items until the vector is full or there are no more. Returns the rest of the iterator. `next` is never
    /// called on a full vector, so `iter` may be infinite.
    pub fn fill<I: IntoIterator<Item = S::Item>>(&mut self, iter: I) -> I::IntoIter
        requires { (it : I.IntoIter) → I.into_iter_gives iter it → I.IntoIter.can_next it }
        ensures items { Fills I.into_iter_gives I.IntoIter.next_gives iter (length (view S.Slots self.old).spare)
            (λ xs. (view S.Slots self.new).items ≡ (view S.Slots self.old).items ++ xs) result }
        ensures grows { StaysInPlace NothingVacated (view S.Slots self.old) (view S.Slots self.new) }

        // An iterator that stopped at a full vector can be iterated further.
        ensures goes_on { length (view S.Slots self.new).spare ≡ 0 → I.IntoIter.can_next result }
    {
        put_until_full(self, iter.into_iter())
    }

    /// Appends the items. On overflow, returns the first item that did not fit and the rest of the iterator, so `iter`
    /// may be infinite.
    pub fn extend<I: IntoIterator<Item = S::Item>>(
        &mut self,
        iter: I,
    ) -> Result<(), NoRoom<S::Item, I::IntoIter>>
        requires { (it : I.IntoIter) → I.into_iter_gives iter it → I.IntoIter.can_next it }
        ensures items { Extends I.into_iter_gives I.IntoIter.next_gives iter (length (view S.Slots self.old).spare)
            (λ xs. (view S.Slots self.new).items ≡ (view S.Slots self.old).items ++ xs) result }
        ensures full { OnErr result ((view S.Slots self.new).spare ≡ []) }
        ensures grows { StaysInPlace NothingVacated (view S.Slots self.old) (view S.Slots self.new) }

        // The returned iterator can be iterated further.
        ensures goes_on { IfErr result (λ refused. I.IntoIter.can_next refused.rest) }
    {
        let mut items = self.fill(iter);
        if !self.is_full() {
            return Ok(());
        }
        match items.next() {
            Some(item) => Err(NoRoom { item, rest: items }),
            None => Ok(()),
        }
    }

    // `resize` of a vector in a lent slice.
    pub(crate) fn resize_by_clones(
        &mut self,
        new_len: usize,
        value: S::Item,
    ) -> Result<(), NoMemory<S::Item>>
    where
        S::Item: Clone,
        requires room { new_len ≤ length (slots_of S.Slots self.old) }
        ensures lender { SameLender S.Slots self.old self.new }
        ensures len { OnOk result (length (view S.Slots self.new).items ≡ new_len) }
        ensures grown { length (view S.Slots self.old).items < new_len
            → ResizesByClones S.Item.Clone new_len value result (view_of S.Slots self.old) (view_of S.Slots self.new) }
        ensures cut { new_len ≤ length (view S.Slots self.old).items
            → CutsToClones S.Item.Clone new_len value result (view_of S.Slots self.old) (view_of S.Slots self.new) }
        ensures value_returned { IfErr result (λ refused. refused.0 ≡ value) }
        ensures succeeds { S.Item.is_infallible value → IsOk result }
    {
        let len = self.len();
        if new_len <= len {
            return match self.cut_to_clones(new_len, &value) {
                Ok(()) => Ok(()),
                Err(_) => Err(NoMemory(value)),
            };
        }
        match self.grow_by_clones(new_len, &value) {
            Ok(()) => Ok(()),
            Err(_) => Err(NoMemory(value)),
        }
    }

    // Fills the list up to `n` items with clones of `x`.
    pub(crate) fn grow_by_clones(&mut self, n: usize, x: &S::Item) -> Result<(), AllocError>
    where
        S::Item: Clone,
        requires longer { length (view S.Slots self.old).items ≤ n }
        requires in_bounds { n ≤ length (slots_of S.Slots self.old) }
        ensures lender { SameLender S.Slots self.old self.new }
        ensures grown { ResizesByClones S.Item.Clone n x.now result (view_of S.Slots self.old) (view_of S.Slots self.new) }
    {
        put_clones_of(self, n, x)
    }

    // Cuts the list to `n` items, and fills the vacated slots with clones of `x`, the last slot first.
    fn cut_to_clones(&mut self, n: usize, x: &S::Item) -> Result<(), AllocError>
    where
        S::Item: Clone,
        requires shorter { n ≤ length (view S.Slots self.old).items }
        ensures lender { SameLender S.Slots self.old self.new }
        ensures cut { CutsToClones S.Item.Clone n x.now result (view_of S.Slots self.old) (view_of S.Slots self.new) }
    {
        while self.len() > n {
            let filling = x.clone()?;
            self.replace_last(filling);
        }
        Ok(())
    }

    // `resize_with` of a vector in a lent slice, which also says in which state the last call leaves `f`.
    pub(crate) fn resize_by_answers<F: FnMut() -> S::Item>(&mut self, n: usize, f: &mut F)
        requires room { n ≤ length (slots_of S.Slots self.old) }
        requires callable { F.IsAlwaysCallable f.old }
        ensures lender { SameLender S.Slots self.old self.new }
        ensures len { length (view S.Slots self.new).items ≡ n }
        ensures grown { length (view S.Slots self.old).items ≤ n
            → AppendsResultsTo F.step (view S.Slots self.old).items (view S.Slots self.new).items f.old f.new
            × ((view S.Slots self.new).spare ≡ drop (n - length (view S.Slots self.old).items) (view S.Slots self.old).spare) }
        ensures cut { n ≤ length (view S.Slots self.old).items → ((view S.Slots self.new).items ≡ take n (view S.Slots self.old).items)
            × ((ys : List S.Item) × AppendsResultsTo F.step [] ys f.old f.new × (length ys ≡ length (view S.Slots self.old).items - n)
            × ((view S.Slots self.new).spare ≡ reverse ys ++ (view S.Slots self.old).spare)) }
    {
        if n <= self.len() {
            self.cut_to_answers(n, f);
            return;
        }
        self.grow_by_answers(n, f);
    }

    // Fills the list up to `n` items with what `f` returns.
    pub(crate) fn grow_by_answers<F: FnMut() -> S::Item>(&mut self, n: usize, f: &mut F)
        requires longer { length (view S.Slots self.old).items ≤ n }
        requires room { n ≤ length (slots_of S.Slots self.old) }
        requires callable { F.IsAlwaysCallable f.old }
        ensures lender { SameLender S.Slots self.old self.new }
        ensures len { length (view S.Slots self.new).items ≡ n }
        ensures items { AppendsResultsTo F.step (view S.Slots self.old).items (view S.Slots self.new).items f.old f.new }
        ensures spare { (view S.Slots self.new).spare ≡ drop (n - length (view S.Slots self.old).items) (view S.Slots self.old).spare }
    {
        put_answers(self, n, f);
    }

    // Truncates to `n` items, and fills the emptied slots with what `f` returns, the last slot first.
    fn cut_to_answers<F: FnMut() -> S::Item>(&mut self, n: usize, f: &mut F)
        requires shorter { n ≤ length (view S.Slots self.old).items }
        requires callable { F.IsAlwaysCallable f.old }
        ensures lender { SameLender S.Slots self.old self.new }
        ensures items { (view S.Slots self.new).items ≡ take n (view S.Slots self.old).items }
        ensures spare { (ys : List S.Item) × AppendsResultsTo F.step [] ys f.old f.new
            × (length ys ≡ length (view S.Slots self.old).items - n)
            × ((view S.Slots self.new).spare ≡ reverse ys ++ (view S.Slots self.old).spare) }
    {
        while self.len() > n {
            self.replace_last(f());
        }
    }

    // Cuts off the last item, and leaves `x` in its slot.
    fn replace_last(&mut self, x: S::Item)
        requires { 0 < length (view S.Slots self.old).items }
        ensures lender { SameLender S.Slots self.old self.new }
        ensures items { (view S.Slots self.new).items ≡ take (length (view S.Slots self.old).items - 1) (view S.Slots self.old).items }
        ensures spare { (view S.Slots self.new).spare ≡ x ∷ (view S.Slots self.old).spare }
    {
        let last = self.len() - 1;
        self.slots.as_slice_mut()[last] = x;
        self.len = self.slots.to_len(last);
    }
}

// What takes the items of another vector, and leaves defaults there.
impl<S: Slots> ArrayVec<S>
where
    S::Item: Default,
{
    /// Moves the items of `other` to the end, and leaves `other` empty. Each item moves once.
    pub fn append(&mut self, other: &mut Self)
        requires { length (view S.Slots other.old).items ≤ length (view S.Slots self.old).spare }
        ensures becomes { Becomes NothingVacated (view S.Slots self.old) (view S.Slots self.new)
            ((view S.Slots self.old).items ++ (view S.Slots other.old).items) }
        ensures emptied { Becomes S.Item.is_default (view S.Slots other.old) (view S.Slots other.new) [] }
    {
        put_taken(self, other.as_mut_slice());
        other.set_len(0);
    }

    /// `append` if the items fit; otherwise nothing changes. Returns `other` either way: emptied in `Ok`, as it was
    /// in `Err`.
    pub fn append_if_fits<'o>(&mut self, other: &'o mut Self) -> Result<&'o mut Self, &'o mut Self>
        ensures variant { IsOk result ↔ (length (view S.Slots other.old).items ≤ length (view S.Slots self.old).spare) }
        ensures becomes { OnOk result (Becomes NothingVacated (view S.Slots self.old) (view S.Slots self.new)
            ((view S.Slots self.old).items ++ (view S.Slots other.old).items)) }
        ensures emptied { IfOk result (λ emptied. Becomes S.Item.is_default (view S.Slots other.old)
            (view S.Slots emptied.now) []) }
        ensures refused { IfErr result (λ back. (self.new ≡ self.old) × (back.now ≡ other.old)) }
        ensures same_reference { MatchResult result (λ emptied. emptied.ghost_name ≡ other.entry.ghost_name)
            (λ back. back.ghost_name ≡ other.entry.ghost_name) }
    {
        if other.len() > self.remaining_capacity() {
            return Err(other);
        }
        self.append(other);
        Ok(other)
    }

    /// `append` if the items fit; otherwise returns `other`, and nothing changes. `append_if_fits` does the same, and
    /// its contract says what `other` is in both cases.
    // A reference that may be in the result has no value after the call, so no clause can say that `other` is empty at
    // `None`.
    pub fn try_append<'o>(&mut self, other: &'o mut Self) -> Option<&'o mut Self>
        ensures variant { IsSome result ↔ (length (view S.Slots self.old).spare < length (view S.Slots other.old).items) }
        ensures refused { IfSome result (λ back. (back.now ≡ other.old) × (self.new ≡ self.old)) }
        ensures same_reference { IfSome result (λ back. back.ghost_name ≡ other.entry.ghost_name) }
        ensures becomes { IfNone result (Becomes NothingVacated (view S.Slots self.old) (view S.Slots self.new)
            ((view S.Slots self.old).items ++ (view S.Slots other.old).items)) }
    {
        match self.append_if_fits(other) {
            Ok(_emptied) => None,
            Err(refused) => Some(refused),
        }
    }
}
