//! Room on the heap, and moves between the array and the heap.
ghost use Rattle.std.specs.Prelude.{IsTrue, ◌≡◌, ◌+◌, ◌*◌, ◌<◌, ◌≤◌, length, max, min, false, OnOk, OnErr, vec_len};
ghost use Rattle.std.specs.Prelude.{vec_capacity, ◌-◌, ◌↔◌, IsOk, IfOk, IfErr};
ghost use Rattle.tinyvec.specs.TinyVec.{view};
ghost use Rattle.tinyvec.specs.View.{BecomesIn, Doubled, Reserved, Exact, place_for};
ghost use Rattle.tinyvec.specs.Room.{MovesToHeap, Reserves};
ghost use Rattle.std.specs.Box.{boxed_slice_items};
ghost use Rattle.tinyvec_slots.specs.Slots.{AreDefaults};
ghost use Rattle.tinyvec_array.specs.ArrayVec.{slots_of};
ghost use Rattle.tinyvec_array.specs.View.{view as slots_view};

use crate::TinyVec;
use std::alloc::AllocError;
use std::boxed::BoxedSlice;
use tinyvec_array::{Array, ArrayVec};
use tinyvec_slots::NoMemory;
use tinyvec_slots::authors::put_taken;

impl<A: Array> TinyVec<A> {
    /// Reserves room for `additional` items more. An inline list whose array has no such room moves to the heap. If
    /// there is room already, it allocates nothing.
    #[inline(always)]
    pub fn reserve(&mut self, additional: usize) -> Result<(), AllocError>
        ensures { Reserves A.Slots A.Item.is_default Reserved additional self.old self.new result }
    {
        if additional <= self.capacity() - self.len() {
            return Ok(());
        }
        self.grow(additional)
    }

    // Makes room on the heap for `n` items more: for an inline list, which moves there, or for one that has no such room.
    #[cold]
    #[inline(never)]
    pub(crate) fn grow(&mut self, n: usize) -> Result<(), AllocError>
        requires { (view A.Slots self.old).place.inline ≡ false
            → (view A.Slots self.old).place.capacity < length (view A.Slots self.old).items + n }
        ensures moves { MovesToHeap A.Item.is_default n (view A.Slots self.old) (view A.Slots self.new) result }

        // A list that is inline after the call is unchanged.
        ensures stays { IsTrue (view A.Slots self.new).place.inline → self.new ≡ self.old }
    {
        match self {
            TinyVec::Inline(v, alloc) => {
                let heap = v.drain_to_vec_and_reserve(*alloc, n)?;
                *self = TinyVec::Heap(heap);
                Ok(())
            }
            TinyVec::Heap(v) => grow_heap(v, n),
        }
    }

    // Doubles the capacity of a full list, or makes room for one item.
    #[inline(always)]
    pub(crate) fn grow_full(&mut self) -> Result<(), AllocError>
        requires { length (view A.Slots self.old).items ≡ (view A.Slots self.old).place.capacity }
        ensures ok { OnOk result (BecomesIn A.Item.is_default (view A.Slots self.old)
            (view A.Slots self.new) (view A.Slots self.old).items
            (place_for Doubled (length (view A.Slots self.old).items + 1) (view A.Slots self.old).place)) }
        ensures refused { OnErr result (view A.Slots self.new ≡ view A.Slots self.old) }
    {
        let n = self.len().max(1);
        self.grow(n)
    }

    /// The same as `reserve`.
    pub fn try_reserve(&mut self, additional: usize) -> Result<(), AllocError>
        ensures { Reserves A.Slots A.Item.is_default Reserved additional self.old self.new result }
    {
        self.reserve(additional)
    }

    /// Reserves room for `additional` items more, and on the heap for no further ones.
    pub fn reserve_exact(&mut self, additional: usize) -> Result<(), AllocError>
        ensures { Reserves A.Slots A.Item.is_default Exact additional self.old self.new result }
    {
        match self {
            TinyVec::Inline(_, _) => self.reserve(additional),
            TinyVec::Heap(v) => {
                if additional <= v.capacity() - v.len() {
                    return Ok(());
                }
                v.reserve_exact(additional)
            }
        }
    }

    /// The same as `reserve_exact`.
    pub fn try_reserve_exact(&mut self, additional: usize) -> Result<(), AllocError>
        ensures { Reserves A.Slots A.Item.is_default Exact additional self.old self.new result }
    {
        self.reserve_exact(additional)
    }

    // Moves the items of `heap` into an array.
    fn to_inline(heap: &mut Vec<A::Item>) -> ArrayVec<A>
        requires { vec_len heap.old ≤ A.CAPACITY }
        ensures items { (slots_view A.Slots result).items ≡ heap.old.items }
        ensures spare { AreDefaults A.Item.is_default (A.CAPACITY - vec_len heap.old) (slots_view A.Slots result).spare }
        ensures slots { length (slots_of A.Slots result) ≡ A.CAPACITY }
    {
        let mut v = ArrayVec::new();
        put_taken(&mut v, heap.as_mut_slice());
        v
    }

    /// Moves an inline list to the heap, with a capacity of its length. A list on the heap stays as it is.
    pub fn move_to_the_heap(&mut self) -> Result<(), AllocError>
        ensures moves { MovesToHeap A.Item.is_default 0 (view A.Slots self.old) (view A.Slots self.new) result }
        ensures succeeds { (view A.Slots self.old).place.inline ≡ false → IsOk result }
        ensures kept { (view A.Slots self.old).place.inline ≡ false → self.new ≡ self.old }
    {
        if self.is_inline() {
            return self.grow(0);
        }
        Ok(())
    }

    /// The same as `move_to_the_heap`.
    pub fn try_move_to_the_heap(&mut self) -> Result<(), AllocError>
        ensures moves { MovesToHeap A.Item.is_default 0 (view A.Slots self.old) (view A.Slots self.new) result }
        ensures succeeds { (view A.Slots self.old).place.inline ≡ false → IsOk result }
        ensures kept { (view A.Slots self.old).place.inline ≡ false → self.new ≡ self.old }
    {
        self.move_to_the_heap()
    }

    /// Moves an inline list to the heap, and reserves room there for `additional` items more.
    pub fn move_to_the_heap_and_reserve(&mut self, additional: usize) -> Result<(), AllocError>
        ensures moves { MovesToHeap A.Item.is_default additional (view A.Slots self.old) (view A.Slots self.new) result }
        ensures kept { (view A.Slots self.old).place.inline ≡ false
            → length (view A.Slots self.old).items + additional ≤ (view A.Slots self.old).place.capacity → self.new ≡ self.old }
    {
        match self {
            TinyVec::Inline(_, _) => self.grow(additional),
            TinyVec::Heap(_) => self.reserve(additional),
        }
    }

    /// The same as `move_to_the_heap_and_reserve`.
    pub fn try_move_to_the_heap_and_reserve(&mut self, additional: usize) -> Result<(), AllocError>
        ensures moves { MovesToHeap A.Item.is_default additional (view A.Slots self.old) (view A.Slots self.new) result }
        ensures kept { (view A.Slots self.old).place.inline ≡ false
            → length (view A.Slots self.old).items + additional ≤ (view A.Slots self.old).place.capacity → self.new ≡ self.old }
    {
        self.move_to_the_heap_and_reserve(additional)
    }

    /// Moves a list on the heap into the array if it fits, which allocates nothing. Otherwise shrinks the allocation; if
    /// the allocator refuses, nothing changes and no error is returned.
    pub fn shrink_to_fit(&mut self)
        ensures items { (view A.Slots self.new).items ≡ (view A.Slots self.old).items }
        ensures place { IsTrue (view A.Slots self.new).place.inline ↔ (length (view A.Slots self.old).items ≤ A.CAPACITY) }
        ensures spare { (view A.Slots self.old).place.inline ≡ false → IsTrue (view A.Slots self.new).place.inline
            → AreDefaults A.Item.is_default (A.CAPACITY - length (view A.Slots self.old).items)
            (view A.Slots self.new).spare }
        ensures kept { IsTrue (view A.Slots self.old).place.inline → self.new ≡ self.old }
        ensures capacity { (view A.Slots self.new).place.inline ≡ false
            → (view A.Slots self.new).place.capacity ≤ (view A.Slots self.old).place.capacity }
        ensures fits { length (view A.Slots self.new).items ≤ (view A.Slots self.new).place.capacity }
        ensures inline_capacity { IsTrue (view A.Slots self.new).place.inline → (view A.Slots self.new).place.capacity ≡ A.CAPACITY }
    {
        self.shrink_to(0);
    }

    /// As `shrink_to_fit`, but keeps room for `min_capacity` items, if there was that room.
    pub fn shrink_to(&mut self, min_capacity: usize)
        ensures items { (view A.Slots self.new).items ≡ (view A.Slots self.old).items }
        ensures place { (view A.Slots self.old).place.inline ≡ false
            → (IsTrue (view A.Slots self.new).place.inline ↔ (max (length (view A.Slots self.old).items) min_capacity ≤ A.CAPACITY)) }
        ensures spare { (view A.Slots self.old).place.inline ≡ false → IsTrue (view A.Slots self.new).place.inline
            → AreDefaults A.Item.is_default (A.CAPACITY - length (view A.Slots self.old).items)
            (view A.Slots self.new).spare }
        ensures kept { IsTrue (view A.Slots self.old).place.inline → self.new ≡ self.old }
        ensures capacity { (view A.Slots self.new).place.inline ≡ false
            → (view A.Slots self.new).place.capacity ≤ (view A.Slots self.old).place.capacity }
        ensures lower_bound { min min_capacity (view A.Slots self.old).place.capacity ≤ (view A.Slots self.new).place.capacity }
        ensures fits { length (view A.Slots self.new).items ≤ (view A.Slots self.new).place.capacity }
        ensures inline_capacity { IsTrue (view A.Slots self.new).place.inline → (view A.Slots self.new).place.capacity ≡ A.CAPACITY }
    {
        let wanted = self.len().max(min_capacity);
        if let TinyVec::Heap(v) = self {
            if wanted <= A::CAPACITY {
                let alloc = *v.allocator();
                let inline = Self::to_inline(v);
                *self = TinyVec::Inline(inline, alloc);
            } else {
                v.shrink_to(min_capacity);
            }
        }
    }

    /// Converts to a `Vec`. A list on the heap keeps its allocation; an inline one gets a capacity of its length. If the
    /// allocator refuses, the vector is returned.
    pub fn into_vec(self) -> Result<Vec<A::Item>, NoMemory<Self>>
        ensures items { IfOk result (λ v. v.items ≡ (view A.Slots self).items) }
        ensures capacity { IfOk result (λ v. IsTrue (view A.Slots self).place.inline → vec_capacity v ≡ length (view A.Slots self).items) }
        ensures same_room { IfOk result (λ v. (view A.Slots self).place.inline ≡ false
            → vec_capacity v ≡ (view A.Slots self).place.capacity) }
        ensures succeeds { (view A.Slots self).place.inline ≡ false → IsOk result }
        ensures succeeds_empty { length (view A.Slots self).items ≡ 0 → IsOk result }
        ensures value_returned { IfErr result (λ refused. refused.0 ≡ self) }
    {
        match self {
            TinyVec::Inline(mut v, alloc) => match v.drain_to_vec(alloc) {
                Ok(heap) => Ok(heap),
                Err(_) => Err(NoMemory(TinyVec::Inline(v, alloc))),
            },
            TinyVec::Heap(v) => Ok(v),
        }
    }

    /// Converts to a boxed slice. If the allocator refuses, the items are dropped; `into_vec` returns them.
    pub fn into_boxed_slice(self) -> Result<BoxedSlice<A::Item>, AllocError>
        ensures items { IfOk result (λ b. boxed_slice_items b ≡ (view A.Slots self).items) }
        ensures succeeds { (view A.Slots self).place.inline ≡ false → IsOk result }
        ensures succeeds_empty { length (view A.Slots self).items ≡ 0 → IsOk result }
    {
        Ok(self.into_vec()?.into_boxed_slice())
    }
}

// Reserves room on the heap for `n` items more: twice the capacity, or what is needed if that is more. `Vec::reserve`
// does so too, but does not promise it.
fn grow_heap<T>(heap: &mut Vec<T>, n: usize) -> Result<(), AllocError>
    requires { vec_capacity heap.old < vec_len heap.old + n }
    ensures items { heap.new.items ≡ heap.old.items }
    ensures capacity { OnOk result (vec_capacity heap.new ≡ max (2 * vec_capacity heap.old) (vec_len heap.old + n)) }
    ensures refused { OnErr result (vec_capacity heap.new ≡ vec_capacity heap.old) }
{
    let twice = 2 * heap.capacity() - heap.len();
    heap.reserve_exact(n.max(twice))
}
