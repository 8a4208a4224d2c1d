//! `TinyVec`.
ghost use Rattle.std.specs.Prelude.{IsTrue, ◌≡◌, ◌+◌, ◌<◌, ◌≤◌, ◌==◌, not, length, slice_index_or, slice_set, ◌-◌, ◌↔◌};
ghost use Rattle.std.specs.Prelude.{ℕ, All, []};
ghost use Rattle.std.specs.Prelude.{take, drop, IsOk, IsErr, IfOk, IfErr, OnErr, vec_capacity, false};
ghost use Rattle.tinyvec.specs.TinyVec.{view};
ghost use Rattle.tinyvec.specs.TinyVec.{tiny_allocator};
ghost use Rattle.tinyvec.specs.View.{HoldsInline, IsNew, SameFrame};
ghost use Rattle.tinyvec.specs.Room.{MadeFor};
ghost use Rattle.tinyvec_slots.specs.Slots.{AreDefaults};
ghost use Rattle.tinyvec_array.specs.View.{view as slots_view};
ghost use Rattle.tinyvec_slots.specs.Clones.{RefusedAt, AreClones};
ghost use Rattle.std.specs.Borrow.{sem};
ghost use Rattle.tinyvec_slots.specs.Filling.{Iterates};

mod capacity;
mod clones;
mod edits;
mod extending;
mod filters;
mod traits;

use crate::tuned::push_clones;
use std::alloc::{AllocError, Global};
use std::convert::AsSlice;
use std::{mem, slice};
use tinyvec_array::{Array, ArrayVec, Slots};

/// A list that is inline, in an array, and moves to the heap once it needs more room than the array has.
#[derive(Drop)]
pub enum TinyVec<A: Drop, T: Drop = <A as Slots>::Item, L: Drop = <A as Slots>::Len> {
    /// In an array. The allocator is for the move to the heap.
    Inline(ArrayVec<A, L>, Global),
    /// On the heap.
    Heap(Vec<T>),
}

// What asks for no default, so that it goes for an item that holds such a vector too.
impl<A: Slots> TinyVec<A> {
    /// The list of an `ArrayVec`, inline, with its spare slots.
    pub fn from_array_vec(alloc: Global, vec: ArrayVec<A>) -> Self
        ensures { HoldsInline (slots_view A.Slots vec).items (slots_view A.Slots vec).spare (view A.Slots result) }
    {
        TinyVec::Inline(vec, alloc)
    }

    /// Whether the list has no items.
    pub fn is_empty(&self) -> bool
        ensures { result ≡ (length (view A.Slots self.now).items == 0) }
    {
        match self {
            TinyVec::Inline(v, _) => v.is_empty(),
            TinyVec::Heap(v) => v.is_empty(),
        }
    }

    /// Whether the list is in the array.
    pub fn is_inline(&self) -> bool
        ensures { result ≡ (view A.Slots self.now).place.inline }
    {
        match self {
            TinyVec::Inline(_, _) => true,
            TinyVec::Heap(_) => false,
        }
    }

    /// Whether the list is on the heap.
    pub fn is_heap(&self) -> bool
        ensures { result ≡ not (view A.Slots self.now).place.inline }
    {
        !self.is_inline()
    }

    /// The items.
    pub fn as_slice(&self) -> &[A::Item]
        ensures { result.now ≡ (view A.Slots self.now).items }
    {
        match self {
            TinyVec::Inline(v, _) => v.as_slice(),
            TinyVec::Heap(v) => v.as_slice(),
        }
    }

    ghost use Rattle.tinyvec.specs.Lends.{lends_items};

    /// The items, for writing.
    pub fn as_mut_slice(&mut self) -> &mut [A::Item]
        ensures* writes_back { sem 𝓛 (lends_items A.row A.Len.row A.Item.row A.Slots self.entry result) }
        ensures value { result.now ≡ (view A.Slots self.old).items }
    {
        match self {
            TinyVec::Inline(v, _) => v.as_mut_slice(),
            TinyVec::Heap(v) => v.as_mut_slice(),
        }
    }

    /// Iterates over the items, in order or from the back.
    pub fn iter(&self) -> slice::Iter<'_, A::Item>
        ensures { Iterates (view A.Slots self.now).items result }
    {
        self.as_slice().iter()
    }

    /// The allocator, which a list that moves to the heap allocates from.
    pub fn allocator(&self) -> &Global
        ensures { result.now ≡ tiny_allocator self.now }
    {
        match self {
            TinyVec::Inline(_, alloc) => alloc,
            TinyVec::Heap(v) => v.allocator(),
        }
    }
}

// What asks for the number of the slots, which an array's type says, or makes an array.
impl<A: Array> TinyVec<A> {
    /// The number of items.
    pub fn len(&self) -> usize
        ensures value { result ≡ length (view A.Slots self.now).items }
        ensures fits { result ≤ (view A.Slots self.now).place.capacity }
        ensures inline_capacity { IsTrue (view A.Slots self.now).place.inline → (view A.Slots self.now).place.capacity ≡ A.CAPACITY }
        ensures slot_count { IsTrue (view A.Slots self.now).place.inline → length (view A.Slots self.now).items + length
            (view A.Slots self.now).spare ≡ A.CAPACITY }
    {
        match self {
            // Equal to the length. The minimum shows LLVM an upper bound, which keeps the two variants apart.
            TinyVec::Inline(v, _) => v.len().min(v.capacity()),
            TinyVec::Heap(v) => v.len(),
        }
    }

    /// The number of items that fit without a further allocation.
    pub fn capacity(&self) -> usize
        ensures value { result ≡ (view A.Slots self.now).place.capacity }
        ensures fits { length (view A.Slots self.now).items ≤ result }
        ensures inline_capacity { IsTrue (view A.Slots self.now).place.inline → result ≡ A.CAPACITY }
    {
        match self {
            TinyVec::Inline(v, _) => v.capacity(),
            TinyVec::Heap(v) => v.capacity(),
        }
    }

    /// How many more items fit.
    pub fn remaining_capacity(&self) -> usize
        ensures value { result ≡ (view A.Slots self.now).place.capacity - length (view A.Slots self.now).items }
        ensures sum { length (view A.Slots self.now).items + result ≡ (view A.Slots self.now).place.capacity }
    {
        self.capacity() - self.len()
    }

    // Takes the item at `i`, and leaves a default.
    pub(crate) fn take_at(&mut self, i: usize) -> A::Item
        requires { i < length (view A.Slots self.old).items }
        ensures value { result ≡ slice_index_or (view A.Slots self.old).items i result }
        ensures after { (d : A.Item) × A.Item.is_default d
            × ((view A.Slots self.new).items ≡ slice_set (view A.Slots self.old).items i d) }
        ensures frame { SameFrame (view A.Slots self.old) (view A.Slots self.new) }
    {
        mem::take(&mut self.as_mut_slice()[i])
    }

    /// An empty vector. It is inline, and all its slots hold defaults.
    pub fn new(alloc: Global) -> Self
        ensures { IsNew A.Item.is_default A.CAPACITY (view A.Slots result) }
    {
        TinyVec::Inline(ArrayVec::new(), alloc)
    }

    /// An empty vector with room for `capacity` items, inline if the array has that room. Otherwise allocates it.
    pub fn with_capacity(alloc: Global, capacity: usize) -> Result<Self, AllocError>
        ensures items { IfOk result (λ v. (view A.Slots v).items ≡ []) }
        ensures made { IfOk result (λ v. MadeFor A.Item.is_default A.CAPACITY capacity 0 (view A.Slots v)) }
        ensures succeeds { capacity ≤ A.CAPACITY → IsOk result }
    {
        if capacity <= A::CAPACITY {
            return Ok(Self::new(alloc));
        }
        let heap = Vec::with_capacity(alloc, capacity)?;
        Ok(TinyVec::Heap(heap))
    }

    /// A vector of `len` defaults, inline if they fit the array. Otherwise room for all is allocated once.
    pub fn with_initial_len(alloc: Global, len: usize) -> Result<Self, AllocError>
        ensures items { IfOk result (λ v. AreDefaults A.Item.is_default len (view A.Slots v).items) }
        ensures made { IfOk result (λ v. MadeFor A.Item.is_default A.CAPACITY len len (view A.Slots v)) }
        ensures succeeds { len ≤ A.CAPACITY → IsOk result }
    {
        if len <= A::CAPACITY {
            return Ok(Self::from_array_len(alloc, A::default(), len));
        }
        let mut heap = Vec::with_capacity(alloc, len)?;
        push_defaults(&mut heap, len);
        Ok(TinyVec::Heap(heap))
    }

    /// A full vector, whose list is the whole array. It is inline.
    pub fn from_array(alloc: Global, array: A) -> Self
        ensures { HoldsInline (A.Slots.slots array) [] (view A.Slots result) }
    {
        TinyVec::Inline(ArrayVec::from_array(array), alloc)
    }

    /// The list of a `Vec`, on the heap, with its allocation. Allocates nothing and moves no item.
    pub fn from_vec(vec: Vec<A::Item>) -> Self
        ensures items { (view A.Slots result).items ≡ vec.items }
        ensures place { (view A.Slots result).place.inline ≡ false }
        ensures capacity { (view A.Slots result).place.capacity ≡ vec_capacity vec }
    {
        TinyVec::Heap(vec)
    }

    /// A vector whose list is the first `len` slots of the array. The others are its spare slots. It is inline.
    pub fn from_array_len(alloc: Global, array: A, len: usize) -> Self
        requires { len ≤ A.CAPACITY }
        ensures { HoldsInline (take len (A.Slots.slots array)) (drop len (A.Slots.slots array))
            (view A.Slots result) }
    {
        TinyVec::Inline(ArrayVec::from_array_len(array, len), alloc)
    }

    /// A vector whose list is the first `len` slots of the array. Returns the array if it has fewer slots. It is inline.
    // Inlined, since LLVM takes minutes over a function that returns one of two large values.
    #[inline(always)]
    pub fn try_from_array_len(alloc: Global, array: A, len: usize) -> Result<Self, A>
        ensures refused { IsErr result ↔ (A.CAPACITY < len) }
        ensures made { IfOk result (λ v. HoldsInline (take len (A.Slots.slots array)) (drop len
            (A.Slots.slots array)) (view A.Slots v)) }
        ensures value_returned { IfErr result (λ a. a ≡ array) }
    {
        if len > A::CAPACITY {
            return Err(array);
        }
        Ok(Self::from_array_len(alloc, array, len))
    }

    /// A vector of clones of the slice's items, inline if they fit the array. Otherwise room for all is allocated once,
    /// before any is cloned.
    // Inlined, and with one return for each place, like `clone`. `tiny_from_slice` 64: 471 > 386.
    #[inline(always)]
    pub fn from_slice(alloc: Global, slice: &[A::Item]) -> Result<Self, AllocError>
    where
        A::Item: Clone,
        ensures items { IfOk result (λ v. AreClones A.Item.is_clone slice.now (view A.Slots v).items) }
        ensures made { IfOk result (λ v. MadeFor A.Item.is_default A.CAPACITY (length slice.now) (length slice.now)
            (view A.Slots v)) }
        ensures refused { OnErr result (length slice.now ≤ A.CAPACITY
            → (j : ℕ) × RefusedAt A.Item.is_infallible slice.now j) }
        ensures succeeds { length slice.now ≤ A.CAPACITY → All A.Item.is_infallible slice.now → IsOk result }
    {
        if slice.len() <= A::CAPACITY {
            let mut inline = ArrayVec::new();
            inline.extend_from_slice(slice)?;
            return Ok(TinyVec::Inline(inline, alloc));
        }
        let mut heap = Vec::with_capacity(alloc, slice.len())?;
        push_clones(&mut heap, slice)?;
        Ok(TinyVec::Heap(heap))
    }
}

impl<A: Slots> AsSlice<A::Item> for TinyVec<A> {
    ghost items = { λ v. (view A.Slots v).items };

    fn as_slice(&self) -> &[A::Item] {
        self.as_slice()
    }
}

// Appends `n` defaults to an empty `Vec` that has room.
fn push_defaults<T: Default>(heap: &mut Vec<T>, n: usize)
    requires empty { heap.old.items ≡ [] }
    requires room { n ≤ vec_capacity heap.old }
    ensures items { AreDefaults T.is_default n heap.new.items }
    ensures capacity { vec_capacity heap.new ≡ vec_capacity heap.old }
{
    for _i in 0..n {
        heap.push_reserved(T::default());
    }
}
