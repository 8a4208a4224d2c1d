//! Growing by other lists, by clones, by iterators and by closures.
ghost use Rattle.std.specs.Prelude.{IsTrue, ◌≡◌, ◌+◌, ◌≤◌, ◌++◌, ℕ, All, length, take, slice_range, IsOk, OnOk, OnErr};
ghost use Rattle.std.specs.Prelude.{◌⊎◌, ◌<◌, [], ◌-◌, ◌*◌, ◌↔◌, ◌∷◌, List, Some, MatchResult, IfOk, IfErr};
ghost use Rattle.std.specs.Prelude.{vec_capacity, replicate};
ghost use Rattle.std.specs.List.{AppendsResults};
ghost use Rattle.tinyvec_slots.specs.Clones.{AppendsAllOrNone};
ghost use Rattle.tinyvec.specs.TinyVec.{view};
ghost use Rattle.tinyvec.specs.View.{StaysInPlace, Becomes, BecomesIn, Reserved, place_for};
ghost use Rattle.tinyvec.specs.Refused.{RefusedFor, ClonesBehind, ClonesInRoom, ClonesRefused};
ghost use Rattle.tinyvec.specs.Room.{GrowsByPushes, IsCollected};
ghost use Rattle.tinyvec_slots.specs.Slots.{AreDefaults};
ghost use Rattle.std.specs.Iterator.{IsFinite, Drains, YieldsThen, size};
ghost use Rattle.tinyvec_slots.specs.Ranges.{IsRangeOf, items_within};
ghost use Rattle.tinyvec_slots.specs.Filling.{ShowsItems, IntoIterYields, AppendsResultsTo};
ghost use Rattle.tinyvec.specs.Following.{FillsRoom, PushesItems};

use crate::TinyVec;
use crate::tuned::{push_clones, push_clones_within, push_copies};
use std::alloc::{AllocError, Global};
use std::iter::ExactSizeIterator;
use std::mem;
use std::ops::RangeBounds;
use tinyvec_array::Array;
use tinyvec_slots::authors::{
    put_answers, put_clones_of, put_iter, put_taken, resolve_range, take_all,
};
use tinyvec_slots::{FromIterRest, NoMemory, NoRoom};

impl<A: Array> TinyVec<A> {
    // `extend_from_slice` of a list that has room.
    pub(crate) fn extend_reserved(&mut self, other: &[A::Item]) -> Result<(), AllocError>
    where
        A::Item: Clone,
        requires room { length (view A.Slots self.old).items + length other.now ≤ (view A.Slots self.old).place.capacity }
        ensures { ClonesInRoom A.Item.Clone other.now (view A.Slots self.old)
            (view A.Slots self.new) result }
    {
        match self {
            TinyVec::Inline(v, _) => v.extend_from_slice(other),
            TinyVec::Heap(v) => push_clones(v, other),
        }
    }

    /// Appends clones of the slice's items. Room for all is allocated once, before any is cloned.
    // Inlined, so that LLVM knows variant and length from the calls before.
    #[inline(always)]
    pub fn extend_from_slice(&mut self, other: &[A::Item]) -> Result<(), AllocError>
    where
        A::Item: Clone,
        ensures clones { AppendsAllOrNone A.Item.is_clone other.now
            result (view A.Slots self.old).items (view A.Slots self.new).items }
        ensures ok { OnOk result (BecomesIn A.Item.is_default (view A.Slots self.old)
            (view A.Slots self.new) (view A.Slots self.new).items
            (place_for Reserved (length (view A.Slots self.old).items + length other.now) (view A.Slots self.old).place)) }

        // If there is room only clones allocate.
        ensures succeeds { length (view A.Slots self.old).items + length other.now ≤ (view A.Slots self.old).place.capacity
            → All A.Item.is_infallible other.now → IsOk result }
        ensures refused { OnErr result (ClonesRefused A.Item.Clone other.now
            (view A.Slots self.old) (view A.Slots self.new)) }
    {
        match self {
            TinyVec::Inline(v, _) if other.len() <= v.capacity() - v.len() => v.extend_from_slice(
                other,
            ),
            TinyVec::Heap(v) if other.len() <= v.capacity() - v.len() => push_clones(v, other),
            _ => {
                self.grow(other.len())?;
                self.extend_reserved(other)
            }
        }
    }

    /// Appends clones of the items of the range. Room for all is allocated once, before any is cloned.
    ///
    /// `not_exhausted` fails only for a `RangeInclusive` that was iterated to its end.
    pub fn extend_from_within<R: RangeBounds<usize>>(&mut self, range: R) -> Result<(), AllocError>
    where
        A::Item: Clone,
        requires not_exhausted { R.has_bounds range }
        requires in_list { IsRangeOf (view A.Slots self.old).items (R.start_bound range) (R.end_bound range) }
        ensures clones { AppendsAllOrNone A.Item.is_clone
            (items_within (view A.Slots self.old).items (R.start_bound range) (R.end_bound range))
            result (view A.Slots self.old).items (view A.Slots self.new).items }
        ensures ok { OnOk result (BecomesIn A.Item.is_default (view A.Slots self.old)
            (view A.Slots self.new) (view A.Slots self.new).items
            (place_for Reserved (length (view A.Slots self.old).items
            + length (items_within (view A.Slots self.old).items (R.start_bound range) (R.end_bound range)))
            (view A.Slots self.old).place)) }

        // If there is room only clones allocate.
        ensures succeeds { length (view A.Slots self.old).items
            + length (items_within (view A.Slots self.old).items (R.start_bound range) (R.end_bound range))
            ≤ (view A.Slots self.old).place.capacity
            → All A.Item.is_infallible (items_within (view A.Slots self.old).items (R.start_bound range) (R.end_bound range))
            → IsOk result }
        ensures refused { OnErr result (ClonesRefused A.Item.Clone
            (items_within (view A.Slots self.old).items (R.start_bound range) (R.end_bound range))
            (view A.Slots self.old) (view A.Slots self.new)) }
    {
        let part = resolve_range(range, self.len());
        self.reserve(part.end - part.start)?;
        self.clone_reserved(part.start, part.end)
    }

    // `extend_from_within` of a list that has room.
    fn clone_reserved(&mut self, start: usize, end: usize) -> Result<(), AllocError>
    where
        A::Item: Clone,
        requires in_list { (start ≤ end) × (end ≤ length (view A.Slots self.old).items) }
        requires room { length (view A.Slots self.old).items + length (slice_range (view A.Slots self.old).items start end)
            ≤ (view A.Slots self.old).place.capacity }
        ensures { ClonesInRoom A.Item.Clone
            (slice_range (view A.Slots self.old).items start end) (view A.Slots self.old)
            (view A.Slots self.new) result }
    {
        match self {
            TinyVec::Inline(v, _) => v.extend_from_within(start..end),
            TinyVec::Heap(v) => push_clones_within(v, start, end),
        }
    }

    // `extend_from_slice_copy` of a list that has room.
    #[inline(always)]
    fn copy_reserved(&mut self, other: &[A::Item])
    where
        A::Item: Copy,
        requires room { length (view A.Slots self.old).items + length other.now ≤ (view A.Slots self.old).place.capacity }
        ensures { Becomes A.Item.is_default (view A.Slots self.old)
            (view A.Slots self.new) ((view A.Slots self.old).items ++ other.now) }
    {
        match self {
            TinyVec::Inline(v, _) => v.extend_from_slice_copy(other),
            TinyVec::Heap(v) => push_copies(v, other),
        }
    }

    /// Appends copies of the slice's items. Room for all is allocated once, before any is copied.
    // Inlined, so that LLVM knows variant and length from the calls before.
    #[inline(always)]
    pub fn extend_from_slice_copy(&mut self, other: &[A::Item]) -> Result<(), AllocError>
    where
        A::Item: Copy,
        ensures ok { OnOk result (BecomesIn A.Item.is_default (view A.Slots self.old)
            (view A.Slots self.new) ((view A.Slots self.old).items ++ other.now)
            (place_for Reserved (length (view A.Slots self.old).items + length other.now) (view A.Slots self.old).place)) }
        ensures refused { OnErr result (view A.Slots self.new ≡ view A.Slots self.old) }
        ensures succeeds { length (view A.Slots self.old).items + length other.now ≤ (view A.Slots self.old).place.capacity → IsOk result }
    {
        match self {
            TinyVec::Inline(v, _) if other.len() <= v.capacity() - v.len() =>
                v.extend_from_slice_copy(other),
            TinyVec::Heap(v) if other.len() <= v.capacity() - v.len() => push_copies(v, other),
            _ => {
                self.grow(other.len())?;
                self.copy_reserved(other);
            }
        }
        Ok(())
    }

    // Moves the items of `from` to a list that has room, and leaves defaults.
    pub(crate) fn append_slots(&mut self, from: &mut [A::Item])
        requires { length (view A.Slots self.old).items + length from.old ≤ (view A.Slots self.old).place.capacity }
        ensures becomes { Becomes A.Item.is_default (view A.Slots self.old)
            (view A.Slots self.new) ((view A.Slots self.old).items ++ from.old) }
        ensures left { AreDefaults A.Item.is_default (length from.old) from.new }
    {
        match self {
            TinyVec::Inline(v, _) => put_taken(v, from),
            TinyVec::Heap(v) => take_all(from, v),
        }
    }

    // Empties a list of defaults. Those of an inline one stay in their slots. `tiny_append` 64: 276 > 248.
    #[inline(always)]
    fn clear_defaults(&mut self)
        requires { All A.Item.is_default (view A.Slots self.old).items }
        ensures { Becomes A.Item.is_default (view A.Slots self.old) (view A.Slots self.new) [] }
    {
        match self {
            TinyVec::Inline(v, _) => v.set_len(0),
            TinyVec::Heap(v) => v.truncate(0),
        }
    }

    // `append` to a list that has room.
    fn append_reserved(&mut self, other: &mut Self)
        requires { length (view A.Slots self.old).items + length (view A.Slots other.old).items ≤ (view A.Slots self.old).place.capacity }
        ensures becomes { Becomes A.Item.is_default (view A.Slots self.old)
            (view A.Slots self.new) ((view A.Slots self.old).items ++ (view A.Slots other.old).items) }
        ensures other { Becomes A.Item.is_default (view A.Slots other.old) (view A.Slots other.new) [] }
    {
        self.append_slots(other.as_mut_slice());
        other.clear_defaults();
    }

    /// Moves the items of `other` to the end, and leaves `other` empty. Each item moves once. `other` stays in its place.
    /// Room for all is allocated once, before any is moved.
    pub fn append(&mut self, other: &mut Self) -> Result<(), AllocError>
        ensures ok { OnOk result (BecomesIn A.Item.is_default (view A.Slots self.old)
            (view A.Slots self.new) ((view A.Slots self.old).items ++ (view A.Slots other.old).items)
            (place_for Reserved (length (view A.Slots self.old).items + length (view A.Slots other.old).items)
            (view A.Slots self.old).place)) }
        ensures other { OnOk result (Becomes A.Item.is_default (view A.Slots other.old) (view A.Slots other.new) []) }
        ensures refused { OnErr result ((view A.Slots self.new ≡ view A.Slots self.old) × (other.new ≡ other.old)) }
        ensures succeeds { length (view A.Slots self.old).items + length (view A.Slots other.old).items
            ≤ (view A.Slots self.old).place.capacity → IsOk result }
    {
        self.reserve(other.len())?;
        self.append_reserved(other);
        Ok(())
    }

    /// Appends the items. A full list grows as by `push`. If the allocator refuses, returns the item that found no room and
    /// the rest of the iterator.
    // Inlined, since a result that may hold an iterator is passed through memory otherwise.
    #[inline(always)]
    pub fn extend<I: IntoIterator<Item = A::Item>>(
        &mut self,
        iter: I,
    ) -> Result<(), NoRoom<A::Item, I::IntoIter>>
        requires { (it : I.IntoIter) → I.into_iter_gives iter it
            → I.IntoIter.can_next it × IsFinite (I.IntoIter.remaining it) }
        ensures items { PushesItems I.into_iter_gives I.IntoIter.next_gives iter (view A.Slots self.old).place.capacity
            result (view A.Slots self.old).items (view A.Slots self.new).items }
        ensures grows { GrowsByPushes A.Item.is_default (view A.Slots self.old) (view A.Slots self.new) }

        // It fails only if there is no room.
        ensures full { OnErr result (length (view A.Slots self.new).items ≡ (view A.Slots self.new).place.capacity) }

        // The returned iterator can be iterated further.
        ensures goes_on { IfErr result (λ refused. I.IntoIter.can_next refused.rest) }
    {
        self.extend_runs(iter.into_iter())
    }

    /// Appends the items of an iterator that knows their number. Room for all is allocated once, before any is asked for. If
    /// the allocator refuses, returns the iterator, of which no item was asked.
    #[inline(always)]
    pub fn extend_exact_size<I: IntoIterator<Item = A::Item>>(
        &mut self,
        iter: I,
    ) -> Result<(), NoMemory<I::IntoIter>>
    where
        I::IntoIter: ExactSizeIterator,
        requires { (it : I.IntoIter) → I.into_iter_gives iter it → I.IntoIter.can_next it }

        // It yields no more items than `len` says. If it yields fewer, the room stays.
        ensures ran { (it : I.IntoIter) × I.into_iter_gives iter it
            × MatchResult result (λ _. (xs : List A.Item) × Drains I.IntoIter.next_gives it xs
            × (length xs ≤ size (I.IntoIter.remaining it)) × BecomesIn A.Item.is_default (view A.Slots self.old)
            (view A.Slots self.new) ((view A.Slots self.old).items ++ xs)
            (place_for Reserved (length (view A.Slots self.old).items + size (I.IntoIter.remaining it)) (view A.Slots self.old).place))
            (λ refused. (refused.0 ≡ it) × (view A.Slots self.new ≡ view A.Slots self.old)) }

        // For an iterator of which `rest` shows the remaining items.
        ensures listed { (rest : I.IntoIter → List A.Item) → ShowsItems I.IntoIter.next_gives rest
            → (it : I.IntoIter) × I.into_iter_gives iter it
            × OnOk result ((view A.Slots self.new).items ≡ (view A.Slots self.old).items ++ rest it) }

        // If there is room for as many as it says, it allocates nothing.
        ensures succeeds { ((it : I.IntoIter) → I.into_iter_gives iter it
            → length (view A.Slots self.old).items + size (I.IntoIter.remaining it) ≤ (view A.Slots self.old).place.capacity)
            → IsOk result }

        // For items that are known, as those of a `Vec`, a range or a slice.
        ensures known { (xs : List A.Item) → IntoIterYields I.into_iter_gives I.IntoIter.next_gives iter xs
            → OnOk result ((view A.Slots self.new).items ≡ (view A.Slots self.old).items ++ xs) }
    {
        let items = iter.into_iter();
        if self.reserve(items.len()).is_err() {
            return Err(NoMemory(items));
        }
        match self.fill_room(items) {
            Ok(()) => Ok(()),
            Err(_) => unreachable!(),
        }
    }

    // Appends a run of items wherever there is room, and pushes the one after it.
    #[inline(always)]
    fn extend_runs<I: Iterator<Item = A::Item>>(
        &mut self,
        iter: I,
    ) -> Result<(), NoRoom<A::Item, I>>
        requires { I.can_next iter × IsFinite (I.remaining iter) }
        ensures fills { FillsRoom I.Iterator iter (view A.Slots self.new).place.capacity result
            (view A.Slots self.old).items (view A.Slots self.new).items }
        ensures grows { GrowsByPushes A.Item.is_default (view A.Slots self.old) (view A.Slots self.new) }
    {
        let mut items = iter;
        loop {
            match self.fill_room(items) {
                Ok(()) => return Ok(()),
                Err(NoRoom { item, rest }) => match self.push(item) {
                    Ok(()) => items = rest,
                    Err(NoMemory(item)) => return Err(NoRoom { item, rest }),
                },
            }
        }
    }

    // Appends items while there is room. Returns the first that finds none, and the rest of the iterator.
    #[inline(always)]
    fn fill_room<I: Iterator<Item = A::Item>>(&mut self, iter: I) -> Result<(), NoRoom<A::Item, I>>
        requires { I.can_next iter × IsFinite (I.remaining iter) }
        ensures fills { FillsRoom I.Iterator iter (view A.Slots self.new).place.capacity result
            (view A.Slots self.old).items (view A.Slots self.new).items }
        ensures frame { StaysInPlace A.Item.is_default (view A.Slots self.old) (view A.Slots self.new) }
        ensures inline_capacity { IsTrue (view A.Slots self.old).place.inline → (view A.Slots self.old).place.capacity ≡ A.CAPACITY }
    {
        match self {
            TinyVec::Inline(v, _) => {
                // Tells the proof how many slots there are.
                let _len = v.len();
                put_iter(v, iter)
            }
            TinyVec::Heap(v) => fill_heap(v, iter),
        }
    }

    /// Makes a vector of the items. It is inline while they fit the array. A full list grows as by `push`. If the
    /// allocator refuses, returns the vector so far, the item that found no room and the rest of the iterator.
    pub fn from_iter<I: IntoIterator<Item = A::Item>>(
        alloc: Global,
        iter: I,
    ) -> Result<Self, FromIterRest<Self, A::Item, I::IntoIter>>
        requires { (it : I.IntoIter) → I.into_iter_gives iter it
            → I.IntoIter.can_next it × IsFinite (I.IntoIter.remaining it) }
        ensures ran { (it : I.IntoIter) × (xs : List A.Item) × I.into_iter_gives iter it
            × MatchResult result (λ v. Drains I.IntoIter.next_gives it xs × ((view A.Slots v).items ≡ xs))
            (λ refused. YieldsThen I.IntoIter.next_gives it xs (Some refused.item) refused.rest
            × ((view A.Slots refused.vec).items ≡ xs)) }
        ensures collected { IfOk result (λ v. IsCollected A.Item.is_default A.CAPACITY (view A.Slots v).items
            (view A.Slots v)) }

        // What a failure returns is collected in the same way.
        ensures collected_so_far { IfErr result (λ refused.
            IsCollected A.Item.is_default A.CAPACITY (view A.Slots refused.vec).items
            (view A.Slots refused.vec)) }

        // It fails only if there is no room.
        ensures full { IfErr result (λ refused. (length (view A.Slots refused.vec).items ≡ (view A.Slots refused.vec).place.capacity)
            × (A.CAPACITY ≤ length (view A.Slots refused.vec).items) × (IsTrue (view A.Slots refused.vec).place.inline ↔
            (length (view A.Slots refused.vec).items ≤ A.CAPACITY))) }

        // The returned iterator can be iterated further.
        ensures goes_on { IfErr result (λ refused. I.IntoIter.can_next refused.rest) }

        // For an iterator of which `rest` shows the remaining items.
        ensures listed { (rest : I.IntoIter → List A.Item) → ShowsItems I.IntoIter.next_gives rest
            → (it : I.IntoIter) × I.into_iter_gives iter it
            × MatchResult result (λ v. rest it ≡ (view A.Slots v).items)
            (λ refused. rest it ≡ (view A.Slots refused.vec).items ++ refused.item ∷ rest refused.rest) }

        // For items that are known. If they fit the array, it allocates nothing.
        ensures known { (xs : List A.Item) → IntoIterYields I.into_iter_gives I.IntoIter.next_gives iter xs
            → IfOk result (λ v. (view A.Slots v).items ≡ xs) × (length xs ≤ A.CAPACITY → IsOk result) }
    {
        let mut vec = Self::new(alloc);
        match vec.extend(iter) {
            Ok(()) => Ok(vec),
            Err(NoRoom { item, rest }) => Err(FromIterRest { vec, item, rest }),
        }
    }

    /// Truncates the list to `new_len` items, or fills it up with clones of `value`. On failure `value` is returned. Room
    /// for all is allocated once, before any is cloned.
    pub fn resize(&mut self, new_len: usize, value: A::Item) -> Result<(), NoMemory<A::Item>>
    where
        A::Item: Clone,
        ensures clones { AppendsAllOrNone A.Item.is_clone (replicate (new_len - length (view A.Slots self.old).items) value) result
            (take new_len (view A.Slots self.old).items) (view A.Slots self.new).items }
        ensures ok { OnOk result (BecomesIn A.Item.is_default (view A.Slots self.old)
            (view A.Slots self.new) (view A.Slots self.new).items
            (place_for Reserved (new_len) (view A.Slots self.old).place)) }

        // If it cuts, or there is room, only clones allocate.
        ensures succeeds { (new_len ≤ length (view A.Slots self.old).items)
            ⊎ ((new_len ≤ (view A.Slots self.old).place.capacity) × A.Item.is_infallible value) → IsOk result }

        // If only a clone failed, the reservation stays, and an inline list's first j spare slots hold the clones made.
        ensures refused { IfErr result (λ refused. (refused.0 ≡ value) × RefusedFor new_len
            ((j : ℕ) × (j < new_len - length (view A.Slots self.old).items) × ¬ (A.Item.is_infallible value)
            × ClonesBehind A.Item.is_clone (replicate j value) j (view A.Slots self.old)
            (view A.Slots self.new)) (view A.Slots self.old) (view A.Slots self.new)) }
    {
        let len = self.len();
        if new_len <= len {
            self.truncate(new_len);
            return Ok(());
        }
        let Ok(()) = self.reserve(new_len - len) else {
            return Err(NoMemory(value));
        };
        self.fill_reserved(new_len - len, value)
    }

    // Appends `n` clones of `x` to a list that has room.
    fn fill_reserved(&mut self, n: usize, x: A::Item) -> Result<(), NoMemory<A::Item>>
    where
        A::Item: Clone,
        requires room { length (view A.Slots self.old).items + n ≤ (view A.Slots self.old).place.capacity }
        ensures clones { ClonesInRoom A.Item.Clone (replicate n x) (view A.Slots self.old)
            (view A.Slots self.new) result }
        ensures value_returned { IfErr result (λ refused. refused.0 ≡ x) }
    {
        match self {
            TinyVec::Inline(v, _) => {
                let len = v.len() + n;
                match put_clones_of(v, len, &x) {
                    Ok(()) => Ok(()),
                    Err(_) => Err(NoMemory(x)),
                }
            }
            // The vector is in a local variable meanwhile, here and below, as in `tuned.rt`.
            TinyVec::Heap(v) => {
                let mut vec = mem::replace(v, Vec::new(*v.allocator()));
                let len = vec.len() + n;
                let put = put_clones_of(&mut vec, len, &x);
                *v = vec;
                match put {
                    Ok(()) => Ok(()),
                    Err(_) => Err(NoMemory(x)),
                }
            }
        }
    }

    /// Truncates the list to `new_len` items, or fills it up with what `f` returns. Calls `f` once for each missing item.
    /// Room for all is allocated once, before the first call.
    pub fn resize_with<F: FnMut() -> A::Item>(
        &mut self,
        new_len: usize,
        mut f: F,
    ) -> Result<(), AllocError>
        requires { F.IsAlwaysCallable f }
        ensures items { OnOk result (AppendsResults F.step (take new_len (view A.Slots self.old).items)
            (view A.Slots self.new).items f) }
        ensures len { OnOk result (length (view A.Slots self.new).items ≡ new_len) }
        ensures ok { OnOk result (BecomesIn A.Item.is_default (view A.Slots self.old)
            (view A.Slots self.new) (view A.Slots self.new).items
            (place_for Reserved new_len (view A.Slots self.old).place)) }
        ensures refused { OnErr result (view A.Slots self.new ≡ view A.Slots self.old) }
        ensures succeeds { new_len ≤ (view A.Slots self.old).place.capacity → IsOk result }
    {
        self.resize_by_answers(new_len, &mut f)
    }

    // `resize_with`, which also says in which state the last call leaves `f`. It is not called on failure.
    fn resize_by_answers<F: FnMut() -> A::Item>(
        &mut self,
        n: usize,
        f: &mut F,
    ) -> Result<(), AllocError>
        requires { F.IsAlwaysCallable f.old }
        ensures items { OnOk result (AppendsResultsTo F.step
            (take n (view A.Slots self.old).items) (view A.Slots self.new).items f.old f.new) }
        ensures unasked { OnErr result (f.new ≡ f.old) }
        ensures len { OnOk result (length (view A.Slots self.new).items ≡ n) }
        ensures ok { OnOk result (BecomesIn A.Item.is_default (view A.Slots self.old)
            (view A.Slots self.new) (view A.Slots self.new).items
            (place_for Reserved n (view A.Slots self.old).place)) }
        ensures refused { OnErr result (view A.Slots self.new ≡ view A.Slots self.old) }
        ensures succeeds { n ≤ (view A.Slots self.old).place.capacity → IsOk result }
    {
        let len = self.len();
        if n > len {
            self.reserve(n - len)?;
            self.push_answers(n, f);
            return Ok(());
        }
        self.truncate(n);
        Ok(())
    }

    // Extends a list that has room to `n` items by results of `f`.
    fn push_answers<F: FnMut() -> A::Item>(&mut self, n: usize, f: &mut F)
        requires longer { length (view A.Slots self.old).items ≤ n }
        requires room { n ≤ (view A.Slots self.old).place.capacity }
        requires callable { F.IsAlwaysCallable f.old }
        ensures items { AppendsResultsTo F.step (view A.Slots self.old).items
            (view A.Slots self.new).items f.old f.new }
        ensures len { length (view A.Slots self.new).items ≡ n }
        ensures frame { StaysInPlace A.Item.is_default (view A.Slots self.old) (view A.Slots self.new) }
    {
        match self {
            TinyVec::Inline(v, _) => put_answers(v, n, f),
            TinyVec::Heap(v) => {
                let mut vec = mem::replace(v, Vec::new(*v.allocator()));
                put_answers(&mut vec, n, f);
                *v = vec;
            }
        }
    }
}

// `fill_room` on the heap. A call of its own, since the result may hold an iterator.
fn fill_heap<T: Drop, I: Iterator<Item = T>>(heap: &mut Vec<T>, iter: I) -> Result<(), NoRoom<T, I>>
    requires { I.can_next iter × IsFinite (I.remaining iter) }
    ensures fills { FillsRoom I.Iterator iter (vec_capacity heap.new) result heap.old.items heap.new.items }
    ensures capacity { vec_capacity heap.new ≡ vec_capacity heap.old }
{
    let mut vec = mem::replace(heap, Vec::new(*heap.allocator()));
    let put = put_iter(&mut vec, iter);
    *heap = vec;
    put
}
