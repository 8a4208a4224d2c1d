//! Items that are pushed, popped, inserted, removed and cut off.
ghost use Rattle.std.specs.Prelude.{IsTrue, length, ◌==◌};
ghost use Rattle.tinyvec_array.specs.View.{view as slots_view};
ghost use Rattle.std.specs.Prelude.{◌≡◌, ◌+◌, ◌-◌, ◌<◌, ◌↔◌, [], ◌∷◌, ◌++◌, take, drop, slice_get, IsSome, IfSome, IsOk};
ghost use Rattle.std.specs.Prelude.{OnOk, OnErr, IfErr, ◌≤◌, if◌then◌else◌, is_ok, insert, remove, slice_index_or};
ghost use Rattle.std.specs.Prelude.{slice_range, vec_len};
ghost use Rattle.std.specs.Prelude.{vec_capacity, IfOk, IfNone};
ghost use Rattle.tinyvec.specs.TinyVec.{view};
ghost use Rattle.tinyvec.specs.View.{IsTail, Becomes, BecomesIn, Doubled, place_for};
ghost use Rattle.tinyvec.specs.OnHeap.{HeapBecomes};
ghost use Rattle.std.specs.List.{swap_remove, remove_range};
ghost use Rattle.std.specs.Borrow.{sem};

use crate::TinyVec;
use std::alloc::AllocError;
use std::mem;
use tinyvec_array::{Array, ArrayVec};
use tinyvec_slots::NoMemory;
use tinyvec_slots::authors::{remove_shifting, take_all};

impl<A: Array> TinyVec<A> {
    /// Appends `value` to a list that has room. It allocates nothing, so it cannot fail.
    pub fn push_reserved(&mut self, value: A::Item)
        requires { length (view A.Slots self.old).items < (view A.Slots self.old).place.capacity }
        ensures { Becomes A.Item.is_default (view A.Slots self.old)
            (view A.Slots self.new) ((view A.Slots self.old).items ++ value ∷ []) }
    {
        match self {
            TinyVec::Inline(v, _) => v.push(value),
            TinyVec::Heap(v) => v.push_reserved(value),
        }
    }

    /// Appends `value`. A full list first doubles its capacity, to one at least, which moves an inline one to the heap. If
    /// the allocator refuses, nothing changes and `value` is returned.
    // Inlined, since LLVM otherwise passes items that need a drop, and the result that may hold one, through memory.
    #[inline(always)]
    pub fn push(&mut self, value: A::Item) -> Result<(), NoMemory<A::Item>>
        ensures ok { OnOk result (BecomesIn A.Item.is_default (view A.Slots self.old)
            (view A.Slots self.new) ((view A.Slots self.old).items ++ value ∷ [])
            (place_for Doubled (length (view A.Slots self.old).items + 1) (view A.Slots self.old).place)) }
        ensures err { IfErr result (λ refused. (refused.0 ≡ value)
            × (view A.Slots self.new ≡ view A.Slots self.old)) }
        ensures succeeds { length (view A.Slots self.old).items < (view A.Slots self.old).place.capacity → IsOk result }
    {
        // One test of the variant; growing is kept out of the usual path.
        match self {
            TinyVec::Inline(v, _) if !is_full(v) => v.push(value),
            TinyVec::Heap(v) if v.len() < v.capacity() => v.push_reserved(value),
            _ => {
                if self.grow_full().is_err() {
                    return Err(NoMemory(value));
                }
                let TinyVec::Heap(v) = self else {
                    unreachable!();
                };
                v.push_reserved(value);
            }
        }
        Ok(())
    }

    ghost use Rattle.tinyvec.specs.Lends.{lends_added};

    /// Appends `value`, and returns it for writing. A full list grows as by `push`. If the allocator refuses, nothing
    /// changes and `value` is returned.
    pub fn push_mut(&mut self, value: A::Item) -> Result<&mut A::Item, NoMemory<A::Item>>
        ensures* writes_back { sem 𝓛 (lends_added A.row A.Len.row A.Item.row A.Slots self.entry A.Item.is_default
            (λ x. (view A.Slots self.old).items ++ x ∷ []) result) }
        ensures ok { IfOk result (λ x. x.now ≡ value) }
        ensures err { IfErr result (λ refused. refused.0 ≡ value) }
        ensures succeeds { length (view A.Slots self.old).items < (view A.Slots self.old).place.capacity → IsOk result }
    {
        let at = self.len();
        if let Err(refused) = self.push(value) {
            return Err(refused);
        }
        Ok(&mut self[at])
    }

    /// Removes the last item and returns it. Its slot is reset to a default if the list is inline.
    pub fn pop(&mut self) -> Option<A::Item>
        ensures variant { IsSome result ↔ (0 < length (view A.Slots self.old).items) }
        ensures some { IfSome result (λ x. (view A.Slots self.old).items ≡ (view A.Slots self.new).items ++ x ∷ []) }
        ensures value { result ≡ slice_get (view A.Slots self.old).items (length (view A.Slots self.old).items - 1) }
        ensures becomes { Becomes A.Item.is_default (view A.Slots self.old)
            (view A.Slots self.new) (take (length (view A.Slots self.old).items - 1) (view A.Slots self.old).items) }
    {
        match self {
            TinyVec::Inline(v, _) => v.pop(),
            TinyVec::Heap(v) => v.pop(),
        }
    }

    // `insert` into a list that has room.
    fn insert_reserved(&mut self, index: usize, element: A::Item)
        requires in_list { index ≤ length (view A.Slots self.old).items }
        requires room { length (view A.Slots self.old).items < (view A.Slots self.old).place.capacity }
        ensures { Becomes A.Item.is_default (view A.Slots self.old)
            (view A.Slots self.new) (insert (view A.Slots self.old).items index element) }
    {
        match self {
            TinyVec::Inline(v, _) => v.insert(index, element),
            TinyVec::Heap(v) => {
                let _room_was_there = v.insert(index, element);
            }
        }
    }

    /// Inserts `element` at `index`, and moves the later items up. A full list first doubles its capacity, to one at
    /// least, which moves an inline one to the heap. If the allocator refuses, nothing changes and `element` is returned.
    pub fn insert(&mut self, index: usize, element: A::Item) -> Result<(), NoMemory<A::Item>>
        requires { index ≤ length (view A.Slots self.old).items }
        ensures ok { OnOk result (BecomesIn A.Item.is_default (view A.Slots self.old)
            (view A.Slots self.new) (insert (view A.Slots self.old).items index element)
            (place_for Doubled (length (view A.Slots self.old).items + 1) (view A.Slots self.old).place)) }
        ensures err { IfErr result (λ refused. (refused.0 ≡ element)
            × (view A.Slots self.new ≡ view A.Slots self.old)) }
        ensures succeeds { length (view A.Slots self.old).items < (view A.Slots self.old).place.capacity → IsOk result }
    {
        match self {
            TinyVec::Inline(v, _) if !v.is_full() => v.insert(index, element),
            TinyVec::Heap(v) if v.len() < v.capacity() => {
                let _room_was_there = v.insert(index, element);
            }
            _ => {
                if self.grow_full().is_err() {
                    return Err(NoMemory(element));
                }
                self.insert_reserved(index, element);
            }
        }
        Ok(())
    }

    /// Inserts `element` at `index`, moves the later items up, and returns the new item for writing. A full list grows as by
    /// `insert`. If the allocator refuses, nothing changes and `element` is returned.
    pub fn insert_mut(
        &mut self,
        index: usize,
        element: A::Item,
    ) -> Result<&mut A::Item, NoMemory<A::Item>>
        requires { index ≤ length (view A.Slots self.old).items }
        ensures* writes_back { sem 𝓛 (lends_added A.row A.Len.row A.Item.row A.Slots self.entry A.Item.is_default
            (insert (view A.Slots self.old).items index) result) }
        ensures ok { IfOk result (λ x. x.now ≡ element) }
        ensures err { IfErr result (λ refused. refused.0 ≡ element) }
        ensures succeeds { length (view A.Slots self.old).items < (view A.Slots self.old).place.capacity → IsOk result }
    {
        if let Err(refused) = self.insert(index, element) {
            return Err(refused);
        }
        Ok(&mut self[index])
    }

    /// Removes the item at `index` and returns it. The later ones move down.
    // Inlined, so that the variant is tested once for this call and the next.
    #[inline(always)]
    pub fn remove(&mut self, index: usize) -> A::Item
        requires { index < length (view A.Slots self.old).items }
        ensures value { result ≡ slice_index_or (view A.Slots self.old).items index result }
        ensures becomes { Becomes A.Item.is_default (view A.Slots self.old)
            (view A.Slots self.new) (remove (view A.Slots self.old).items index) }
    {
        match self {
            TinyVec::Inline(v, _) => v.remove(index),
            TinyVec::Heap(v) => remove_on_heap(v, index),
        }
    }

    /// Removes the item at `index` and returns it. The last one takes its place.
    pub fn swap_remove(&mut self, index: usize) -> A::Item
        requires { index < length (view A.Slots self.old).items }
        ensures value { result ≡ slice_index_or (view A.Slots self.old).items index result }
        ensures becomes { Becomes A.Item.is_default (view A.Slots self.old)
            (view A.Slots self.new) (swap_remove (view A.Slots self.old).items index result) }
    {
        match self {
            TinyVec::Inline(v, _) => v.swap_remove(index),
            TinyVec::Heap(v) => v.swap_remove(index),
        }
    }

    /// Keeps the first `new_len` items, or all if there are no more. Each vacated slot is reset to a default if the list
    /// is inline.
    #[inline(always)]
    pub fn truncate(&mut self, new_len: usize)
        ensures { Becomes A.Item.is_default (view A.Slots self.old)
            (view A.Slots self.new) (take new_len (view A.Slots self.old).items) }
    {
        match self {
            TinyVec::Inline(v, _) => v.truncate(new_len),
            TinyVec::Heap(v) => v.truncate(new_len),
        }
    }

    /// Empties the list. Each vacated slot is reset to a default if the list is inline.
    pub fn clear(&mut self)
        ensures { Becomes A.Item.is_default (view A.Slots self.old) (view A.Slots self.new) [] }
    {
        match self {
            TinyVec::Inline(v, _) => v.clear(),
            TinyVec::Heap(v) => {
                v.truncate(0);
                return;
            }
        }
        // After these writes LLVM has lost variant and length; setting the length restores both.
        if let TinyVec::Inline(v, _) = self {
            v.set_len(0);
        }
    }

    /// Splits the list at `at` and returns the items from `at` on. The result is inline exactly if the list is. An
    /// inline list allocates nothing; one on the heap allocates room for those items.
    pub fn split_off(&mut self, at: usize) -> Result<Self, AllocError>
        requires { at ≤ length (view A.Slots self.old).items }
        ensures becomes { Becomes A.Item.is_default (view A.Slots self.old) (view A.Slots self.new)
            (if is_ok result then take at (view A.Slots self.old).items else (view A.Slots self.old).items) }
        ensures tail { IfOk result (λ v. IsTail A.Item.is_default A.CAPACITY at (view A.Slots self.old)
            (view A.Slots v)) }
        ensures succeeds { IsTrue (view A.Slots self.old).place.inline → IsOk result }
        ensures succeeds_at_the_end { at ≡ length (view A.Slots self.old).items → IsOk result }
        ensures refused { OnErr result (self.new ≡ self.old) }
    {
        match self {
            TinyVec::Inline(v, alloc) => { Ok(TinyVec::Inline(v.split_off(at), *alloc)) }
            TinyVec::Heap(v) => Ok(TinyVec::Heap(split_heap(v, at)?)),
        }
    }

    /// Removes the item at `index` and returns it, or returns `None` if the list has no such item. The later ones move down.
    pub fn pop_at(&mut self, index: usize) -> Option<A::Item>
        ensures variant { IsSome result ↔ (index < length (view A.Slots self.old).items) }
        ensures value { result ≡ slice_get (view A.Slots self.old).items index }
        ensures none { IfNone result (view A.Slots self.new ≡ view A.Slots self.old) }
        ensures becomes { Becomes A.Item.is_default (view A.Slots self.old)
            (view A.Slots self.new) (remove (view A.Slots self.old).items index) }
    {
        if index >= self.len() {
            return None;
        }
        Some(self.remove(index))
    }
}

// `is_full` of an array. A loop of pushes of small items is faster by `<` than by `==`. `tiny_clear_and_push` 64: 876 > 807.
#[inline(always)]
fn is_full<A: Array>(v: &ArrayVec<A>) -> bool
    ensures value { result ≡ (length (slots_view A.Slots v.now).spare == 0) }
{
    let slots = v.as_inner().as_slice();
    if slots.len() * mem::size_of::<A::Item>() / 8 > slots.len() {
        return v.is_full();
    }
    if v.len() < v.capacity() {
        return false;
    }
    true
}

// Up to this many items, shifting one by one beats a rotation, and `Vec::remove`.
const FEW: usize = 4;

// `remove` of a list on the heap. `tiny_heap_remove_middle` 64: 120 > 97.
#[inline(always)]
fn remove_on_heap<T: Default + Drop>(heap: &mut Vec<T>, i: usize) -> T
    requires { i < vec_len heap.old }
    ensures value { result ≡ slice_index_or heap.old.items i result }
    ensures becomes { HeapBecomes heap.old heap.new (remove heap.old.items i) }
{
    let len = heap.len();
    if len - i > FEW {
        few_to_end(heap.as_mut_slice(), i, i + 1);
        return heap.pop().unwrap();
    }
    let item = remove_shifting(heap.as_mut_slice(), i, len);
    heap.truncate(len - 1);
    item
}

// Moves the items from `start` up to `end` to the end.
#[inline(always)]
fn few_to_end<T>(items: &mut [T], start: usize, end: usize)
    requires { (start ≤ end) × (end ≤ length items.old) }
    ensures { items.new ≡ remove_range items.old start end ++ slice_range items.old start end }
{
    items[start..].rotate_left(end - start);
}

// `split_off` on the heap.
fn split_heap<T: Default + Drop>(heap: &mut Vec<T>, at: usize) -> Result<Vec<T>, AllocError>
    requires { at ≤ vec_len heap.old }
    ensures cut { OnOk result (HeapBecomes heap.old heap.new (take at heap.old.items)) }
    ensures tail { IfOk result (λ v. v.items ≡ drop at heap.old.items) }
    ensures exact { IfOk result (λ v. vec_capacity v ≡ vec_len heap.old - at) }
    ensures succeeds { at ≡ vec_len heap.old → IsOk result }
    ensures refused { OnErr result (heap.new ≡ heap.old) }
{
    let mut back = Vec::with_capacity(*heap.allocator(), heap.len() - at)?;
    take_all(&mut heap.as_mut_slice()[at..], &mut back);
    heap.truncate(at);
    Ok(back)
}
