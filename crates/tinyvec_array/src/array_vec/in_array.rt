//! What only a vector in an array has.
ghost use Rattle.std.specs.Prelude.{◌≡◌, ◌-◌, ◌<◌, ◌≤◌, ◌↔◌, ℕ, All, length, [], take, drop, min, ⊤, Err, IsOk, IsErr};
ghost use Rattle.std.specs.Prelude.{IfOk, IfErr, OnOk, OnErr};
ghost use Rattle.std.specs.Borrow.{sem};
ghost use Rattle.std.specs.List.{AllZip, AppendsResults};
ghost use Rattle.tinyvec_slots.specs.Slots.{AreDefaults, SlotRule, split_at};
ghost use Rattle.tinyvec_slots.specs.Clones.{RefusedAt, ClonesAreEqual, AreClones, ClonesInPart, ResizesByClones};
ghost use Rattle.tinyvec_slots.specs.Filling.{Collects};
ghost use Rattle.tinyvec_array.specs.ArrayVec.{view_of, slots_of, SameLender};
ghost use Rattle.tinyvec_array.specs.View.{view, Becomes};

use crate::parts::part_of;
use crate::tuned::indexing::knows_slots;
use crate::{
    Array, ArrayVec, ArrayVecIterator, FromIterRest, NoMemory, NoRoom, Slots, TryFromSliceError,
};
use std::alloc::AllocError;
use tinyvec_slots::authors::{clone_each, clone_over_from, into_items, put_taken};

impl<A: Array> ArrayVec<A> {
    /// The array, spare slots too.
    pub fn as_inner(&self) -> &A
        ensures slots { A.Slots.slots result.now ≡ slots_of A.Slots self.now }
    {
        &self.slots
    }

    ghost use Rattle.tinyvec_array.specs.Lends.{lends_array_of};

    /// The array, spare slots too, for writing.
    pub fn as_mut_inner(&mut self) -> &mut A
        ensures* writes_back { sem 𝓛 (lends_array_of A.row A.Len.row self.entry result) }
        ensures slots { A.Slots.slots result.now ≡ slots_of A.Slots self.old }
    {
        &mut self.slots
    }

    /// The array, spare slots too.
    pub fn into_inner(self) -> A
        ensures slots { A.Slots.slots result ≡ slots_of A.Slots self }
    {
        self.slots
    }

    /// An empty vector. All its slots hold defaults.
    // Inlined, as those below, so that LLVM knows the length. A vector that a function makes, fills by a few pushes and
    // returns is then built in the caller's place.
    #[inline(always)]
    pub fn new() -> Self
        ensures border { view_of A.Slots result ≡ split_at 0 (slots_of A.Slots result) }
        ensures items { (view A.Slots result).items ≡ [] }
        ensures spare { AreDefaults A.Item.is_default A.CAPACITY (view A.Slots result).spare }
    {
        Self::from_array_empty(A::default())
    }

    /// A full vector, whose list is the whole array.
    #[inline(always)]
    pub fn from_array(array: A) -> Self
        ensures value { view_of A.Slots result ≡ split_at A.CAPACITY (A.Slots.slots array) }
        ensures items { (view A.Slots result).items ≡ A.Slots.slots array }
        ensures spare { (view A.Slots result).spare ≡ [] }
    {
        Self::from_array_len(array, A::CAPACITY)
    }

    /// A vector whose list is the first `len` slots of the array. The others are its spare slots.
    #[inline(always)]
    pub fn from_array_len(array: A, len: usize) -> Self
        requires { len ≤ A.CAPACITY }
        ensures value { view_of A.Slots result ≡ split_at len (A.Slots.slots array) }
        ensures slot_count { length (A.Slots.slots array) ≡ A.CAPACITY }
    {
        knows_slots(&array);
        ArrayVec {
            len: array.to_len(len),
            slots: array,
        }
    }

    /// An empty vector, whose spare slots are the array.
    #[inline(always)]
    pub fn from_array_empty(array: A) -> Self
        ensures value { view_of A.Slots result ≡ split_at 0 (A.Slots.slots array) }
    {
        ArrayVec {
            len: array.to_len(0),
            slots: array,
        }
    }

    /// A vector whose list is the first `len` slots of the array. Returns the array if it has fewer slots.
    // Inlined, since LLVM takes minutes over a function that returns one of two large values.
    #[inline(always)]
    pub fn try_from_array_len(array: A, len: usize) -> Result<Self, A>
        ensures refused { IsErr result ↔ (A.CAPACITY < len) }
        ensures value { IfOk result (λ v. view_of A.Slots v ≡ split_at len (A.Slots.slots array)) }
        ensures value_returned { IfErr result (λ a. a ≡ array) }
    {
        if len > A::CAPACITY {
            return Err(array);
        }
        Ok(Self::from_array_len(array, len))
    }

    /// A vector of clones of the slice's items. Only clones allocate.
    pub fn try_from_slice(slice: &[A::Item]) -> Result<Self, TryFromSliceError>
    where
        A::Item: Clone,
        ensures items { IfOk result (λ v. AreClones A.Item.is_clone slice.now (view A.Slots v).items) }
        ensures spare { IfOk result
            (λ v. AreDefaults A.Item.is_default (A.CAPACITY - length slice.now) (view A.Slots v).spare) }
        ensures too_long { (result ≡ Err TryFromSliceError.TooLong) ↔ (A.CAPACITY < length slice.now) }
        ensures memory { result ≡ Err TryFromSliceError.Memory → (j : ℕ) × RefusedAt A.Item.is_infallible slice.now j }
        ensures succeeds { length slice.now ≤ A.CAPACITY → All A.Item.is_infallible slice.now → IsOk result }
    {
        if slice.len() > A::CAPACITY {
            return Err(TryFromSliceError::TooLong);
        }
        let mut vec = Self::new();
        match vec.extend_from_slice(slice) {
            Ok(()) => Ok(vec),
            Err(_) => Err(TryFromSliceError::Memory),
        }
    }

    /// Splits the list at `at` and returns the items from `at` on. Each is moved once.
    // Inlined, since a call would copy the returned vector once more. `split_off` 64: 470 > 316.
    #[inline(always)]
    pub fn split_off(&mut self, at: usize) -> Self
        requires { at ≤ length (view A.Slots self.old).items }
        ensures becomes { Becomes A.Item.is_default (view A.Slots self.old) (view A.Slots self.new)
            (take at (view A.Slots self.old).items) }
        ensures tail { (view A.Slots result).items ≡ drop at (view A.Slots self.old).items }
        ensures tail_spare { AreDefaults A.Item.is_default (A.CAPACITY - (length (view A.Slots self.old).items - at))
            (view A.Slots result).spare }
    {
        let len = self.len();
        let mut back = ArrayVec::new();
        put_taken(&mut back, part_of(&mut self.slots, at, len));
        self.set_len(at);
        back
    }

    /// Makes a vector of the items. On overflow, returns the full vector, the first item that did not fit and the rest of
    /// the iterator, so `iter` may be infinite.
    pub fn from_iter<I: IntoIterator<Item = A::Item>>(
        iter: I,
    ) -> Result<Self, FromIterRest<Self, A::Item, I::IntoIter>>
        requires { (it : I.IntoIter) → I.into_iter_gives iter it → I.IntoIter.can_next it }
        ensures items { Collects I.into_iter_gives I.IntoIter.next_gives iter A.CAPACITY
            (λ v xs. (view A.Slots v).items ≡ xs) result }
        ensures full { IfErr result (λ refused. (length (view A.Slots refused.vec).items ≡ A.CAPACITY)
            × ((view A.Slots refused.vec).spare ≡ [])) }
        ensures spare { IfOk result (λ v. AreDefaults A.Item.is_default (A.CAPACITY - length (view A.Slots v).items)
            (view A.Slots v).spare) }
        ensures fits { IfOk result (λ v. length (view A.Slots v).items ≤ A.CAPACITY) }

        // The returned iterator can be iterated further.
        ensures goes_on { IfErr result (λ refused. I.IntoIter.can_next refused.rest) }
    {
        let mut vec = ArrayVec::new();
        match vec.extend(iter) {
            Ok(()) => Ok(vec),
            Err(NoRoom { item, rest }) => Err(FromIterRest { vec, item, rest }),
        }
    }

    /// Truncates the list to `new_len` items, or fills it up with clones of `value`. On failure `value` is returned. Only
    /// clones allocate.
    pub fn resize(&mut self, new_len: usize, value: A::Item) -> Result<(), NoMemory<A::Item>>
    where
        A::Item: Clone,
        requires room { new_len ≤ A.CAPACITY }
        ensures lender { SameLender A.Slots self.old self.new }
        ensures resized { ResizesByClones A.Item.Clone new_len value result (view_of A.Slots self.old)
            (view_of A.Slots self.new) }
        ensures slot_rule { OnOk result (SlotRule A.Item.is_default (view_of A.Slots self.old) (view_of A.Slots self.new)) }
        ensures value_returned { IfErr result (λ refused. refused.0 ≡ value) }
        ensures cuts { new_len ≤ length (view A.Slots self.old).items → IsOk result }
    {
        let len = self.len();
        if new_len <= len {
            self.truncate(new_len);
            return Ok(());
        }
        match self.grow_by_clones(new_len, &value) {
            Ok(()) => Ok(()),
            Err(_) => Err(NoMemory(value)),
        }
    }

    /// Truncates the list to `new_len` items, or fills it up with what `f` returns. Calls `f` once for each missing item.
    pub fn resize_with<F: FnMut() -> A::Item>(&mut self, new_len: usize, mut f: F)
        requires room { new_len ≤ A.CAPACITY }
        requires callable { F.IsAlwaysCallable f }
        ensures lender { SameLender A.Slots self.old self.new }
        ensures items { AppendsResults F.step (take new_len (view A.Slots self.old).items) (view A.Slots self.new).items f }
        ensures len { length (view A.Slots self.new).items ≡ new_len }
        ensures slot_rule { SlotRule A.Item.is_default (view_of A.Slots self.old) (view_of A.Slots self.new) }
    {
        let len = self.len();
        if new_len <= len {
            self.truncate(new_len);
            return;
        }
        self.grow_by_answers(new_len, &mut f);
    }

    /// Clones the vector, spare slots too.
    pub fn clone(&self) -> Result<Self, AllocError>
    where
        A::Item: Clone,
        ensures items { IfOk result (λ v. AreClones A.Item.is_clone (view A.Slots self.now).items (view A.Slots v).items) }
        ensures slots { IfOk result (λ v. AreClones A.Item.is_clone (slots_of A.Slots self.now) (slots_of A.Slots v)) }
        ensures if_clones_equal { IfOk result (λ v. ClonesAreEqual A.Item.is_clone → v ≡ self.now) }
        ensures refused { OnErr result ((j : ℕ) × RefusedAt A.Item.is_infallible (slots_of A.Slots self.now) j) }
        ensures succeeds { All A.Item.is_infallible (slots_of A.Slots self.now) → IsOk result }
    {
        let len = self.len;
        let mut slots = A::default();
        clone_slots(&mut slots, &self.slots)?;
        Ok(ArrayVec { len, slots })
    }

    /// Replaces the list by clones of `source`'s items. If a clone fails, the list is cut to the shorter length first.
    pub fn clone_from(&mut self, source: &Self) -> Result<(), AllocError>
    where
        A::Item: Clone,
        ensures lender { SameLender A.Slots self.old self.new }
        ensures items { OnOk result (AreClones A.Item.is_clone (view A.Slots source.now).items (view A.Slots self.new).items) }
        ensures slot_rule { OnOk result (SlotRule A.Item.is_default (view_of A.Slots self.old) (view_of A.Slots self.new)) }
        ensures refused { OnErr result (ClonesInPart A.Item.is_default A.Item.is_infallible A.Item.is_clone
            (view A.Slots source.now).items (view A.Slots self.old).items (view A.Slots self.new).items
            (min (length (view A.Slots self.old).items) (length (view A.Slots source.now).items))
            ⊤ (view A.Slots self.old).spare (view A.Slots self.new).spare) }
        ensures succeeds { All A.Item.is_infallible (view A.Slots source.now).items → IsOk result }
    {
        let len = source.len();
        self.truncate(len);
        knows_slots(&self.slots);
        clone_over_from(self.slots.as_slice_mut(), 0, source.as_slice())?;
        self.set_len(len);
        Ok(())
    }
}

impl<A: Array> Default for ArrayVec<A> {
    ghost is_default = { λ v. (view_of A.Slots v ≡ split_at 0 (slots_of A.Slots v))
        × AreDefaults A.Item.is_default A.CAPACITY (slots_of A.Slots v) };

    fn default() -> Self {
        Self::new()
    }
}

impl<A: Array> From<A> for ArrayVec<A> {
    ghost from_gives = { λ array v. (view_of A.Slots v ≡ split_at A.CAPACITY (A.Slots.slots array))
        × ((view A.Slots v).items ≡ A.Slots.slots array) × ((view A.Slots v).spare ≡ []) };

    fn from(array: A) -> Self {
        Self::from_array(array)
    }
}

impl<A: Array> IntoIterator for ArrayVec<A> {
    ghost use Rattle.tinyvec_array.specs.IntoIter.{IteratesOver};

    type Item = A::Item;

    type IntoIter = ArrayVecIterator<A>;

    ghost into_iter_gives = { λ v it. IteratesOver (view A.Slots v).items it };

    fn into_iter(self) -> ArrayVecIterator<A> {
        into_items(self)
    }
}

// Writes clones of all slots of `from`. A function of its own, whose arguments LLVM knows not to overlap.
fn clone_slots<A: Array>(to: &mut A, from: &A) -> Result<(), AllocError>
where
    A::Item: Clone,
    ensures ok { OnOk result (AllZip A.Item.is_clone (A.Slots.slots from.now) (A.Slots.slots to.new)) }
    ensures refused { OnErr result ((j : ℕ) × RefusedAt A.Item.is_infallible (A.Slots.slots from.now) j) }
    ensures succeeds { All A.Item.is_infallible (A.Slots.slots from.now) → IsOk result }
{
    knows_slots(to);
    clone_each(to.as_slice_mut(), from.as_slice())
}
