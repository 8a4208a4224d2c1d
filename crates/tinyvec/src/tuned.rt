//! Clones and copies appended to a `Vec` that has room for them, tuned as `tuned.rt` of `tinyvec_slots` says.
//!
//! Each loop works on a local variable, whose length and pointer LLVM keeps in registers. Through a reference it cannot,
//! since the items might overlap the vector.
ghost use Rattle.std.specs.Prelude.{◌≡◌, ◌+◌, ◌-◌, ◌<◌, ◌≤◌, ◌++◌, ℕ, length, take, drop, slice_range, IfOk};
ghost use Rattle.std.specs.Prelude.{OnErr, vec_len, vec_capacity};
ghost use Rattle.std.specs.List.{AllZip, AppendsClones};
ghost use Rattle.tinyvec_slots.specs.Clones.{RefusedAt};
ghost use Rattle.tinyvec.specs.OnHeap.{HeapBecomes, PushesClones};

use std::alloc::AllocError;
use std::mem;
use tinyvec_slots::authors::{are_bytes, clone_each, fit_registers};

// Appends clones of `from`, if there is room.
pub(crate) fn push_clones<T: Clone + Default + Drop>(
    heap: &mut Vec<T>,
    from: &[T],
) -> Result<(), AllocError>
    requires room { vec_len heap.old + length from.now ≤ vec_capacity heap.old }
    ensures { PushesClones T.Clone from.now result heap.old heap.new }
{
    let mut vec = mem::replace(heap, Vec::new(*heap.allocator()));
    let len = vec.len();
    let pushed = push_until_refused(&mut vec, from);
    if pushed < from.len() {
        vec.truncate(len);
        *heap = vec;
        return Err(AllocError);
    }
    *heap = vec;
    Ok(())
}

// Appends clones until one fails, if there is room. Returns how many of `from` were cloned.
#[inline(always)]
fn push_until_refused<T: Clone + Default + Drop>(vec: &mut Vec<T>, from: &[T]) -> usize
    requires room { vec_len vec.old + length from.now ≤ vec_capacity vec.old }
    ensures within { result ≤ length from.now }
    ensures items { AppendsClones T.is_clone vec.old.items vec.new.items (take result from.now) }
    ensures refused { result < length from.now → (j : ℕ) × RefusedAt T.is_infallible from.now j }
    ensures capacity { vec_capacity vec.new ≡ vec_capacity vec.old }
{
    let mut done = 0;
    // Bytes too: LLVM's own blocks have 32 of them. Items of 2 or 3 bytes are left to it. `tiny_heap_extend_from_slice` 16:
    // 80 > 71, `tiny_heap_bytes_extend_from_slice` 16: 79 > 49.
    while 16 <= from.len() - done && are_bytes(from) {
        let Ok(block) = clone_block::<T, 16>(&from[done..]) else {
            return done;
        };
        push_whole(vec, block);
        done += 16;
    }
    while 4 <= from.len() - done && (are_bytes(from) || fit_registers(from)) {
        let Ok(()) = push_four(vec, &from[done..]) else {
            return done;
        };
        done += 4;
    }
    for i in done..from.len() {
        let Ok(x) = from[i].clone() else {
            return i;
        };
        vec.push_reserved(x);
    }
    from.len()
}

// Appends clones of the first four. All are read before one is written, so LLVM moves them in registers.
#[inline(always)]
fn push_four<T: Clone>(vec: &mut Vec<T>, from: &[T]) -> Result<(), AllocError>
    requires enough { 4 ≤ length from.now }
    requires room { vec_len vec.old + 4 ≤ vec_capacity vec.old }
    ensures { PushesClones T.Clone (take 4 from.now) result vec.old vec.new }
{
    let Ok(first) = from[0].clone() else {
        return Err(AllocError);
    };
    let Ok(second) = from[1].clone() else {
        return Err(AllocError);
    };
    let Ok(third) = from[2].clone() else {
        return Err(AllocError);
    };
    let Ok(fourth) = from[3].clone() else {
        return Err(AllocError);
    };
    vec.push_reserved(first);
    vec.push_reserved(second);
    vec.push_reserved(third);
    vec.push_reserved(fourth);
    Ok(())
}

// Clones the first N items.
#[inline(always)]
fn clone_block<T: Clone + Default + Drop, const N: usize>(from: &[T]) -> Result<[T; N], AllocError>
    requires enough { N ≤ length from.now }
    ensures cloned { IfOk result (AllZip T.is_clone (take N from.now)) }
    ensures len { IfOk result (λ block. length block ≡ N) }
    ensures refused { OnErr result ((j : ℕ) × RefusedAt T.is_infallible from.now j) }
{
    let mut block: [T; N] = Default::default();
    clone_each(&mut block, &from[..N])?;
    Ok(block)
}

// Appends the items of the block. LLVM writes the defaults by one `memset`, and the block by one `memcpy`.
#[inline(always)]
fn push_whole<T: Default + Drop, const N: usize>(vec: &mut Vec<T>, block: [T; N])
    requires len { length block ≡ N }
    requires room { vec_len vec.old + N ≤ vec_capacity vec.old }
    ensures { HeapBecomes vec.old vec.new (vec.old.items ++ block) }
{
    let len = vec.len();
    for _i in 0..N {
        vec.push_reserved(T::default());
    }
    write_front(&mut vec.as_mut_slice()[len..], block);
}

// Writes the block over the first items.
#[inline(always)]
fn write_front<T: Drop, const N: usize>(to: &mut [T], block: [T; N])
    requires { N ≤ length to.old }
    ensures { to.new ≡ block ++ drop N to.old }
{
    let Some(place) = to.first_chunk_mut::<N>() else {
        unreachable!();
    };
    *place = block;
}

// Appends clones of the items from `start` up to `end`, if there is room.
pub(crate) fn push_clones_within<T: Clone>(
    heap: &mut Vec<T>,
    start: usize,
    end: usize,
) -> Result<(), AllocError>
    requires in_list { (start ≤ end) × (end ≤ vec_len heap.old) }
    requires room { vec_len heap.old + (end - start) ≤ vec_capacity heap.old }
    ensures { PushesClones T.Clone (slice_range heap.old.items start end) result heap.old heap.new }
{
    let mut vec = mem::replace(heap, Vec::new(*heap.allocator()));
    let len = vec.len();
    for i in start..end {
        match vec.as_slice()[i].clone() {
            Ok(x) => vec.push_reserved(x),
            Err(error) => {
                vec.truncate(len);
                *heap = vec;
                return Err(error);
            }
        }
    }
    *heap = vec;
    Ok(())
}

// Appends copies of `from`, if there is room. `Vec::extend_from_slice` does not say that a capacity which suffices stays.
#[inline(always)]
pub(crate) fn push_copies<T: Copy>(heap: &mut Vec<T>, from: &[T])
    requires room { vec_len heap.old + length from.now ≤ vec_capacity heap.old }
    ensures { HeapBecomes heap.old heap.new (heap.old.items ++ from.now) }
{
    let mut vec = mem::replace(heap, Vec::new(*heap.allocator()));
    let done = push_blocks::<T, 16>(&mut vec, from);
    for i in done..from.len() {
        vec.push_reserved(from[i]);
    }
    *heap = vec;
}

// Appends copies in blocks of N while N items are left, and returns their number.
#[inline(always)]
fn push_blocks<T: Copy, const N: usize>(vec: &mut Vec<T>, from: &[T]) -> usize
    requires some { 0 < N }
    requires room { vec_len vec.old + length from.now ≤ vec_capacity vec.old }
    ensures within { result ≤ length from.now }
    ensures becomes { HeapBecomes vec.old vec.new (vec.old.items ++ take result from.now) }
{
    let mut done = 0;
    while N <= from.len() - done {
        push_block::<T, N>(vec, &from[done..]);
        done += N;
    }
    done
}

// Appends copies of the first N items. All are read before one is written, so LLVM moves a block in registers.
#[inline(always)]
fn push_block<T: Copy, const N: usize>(vec: &mut Vec<T>, from: &[T])
    requires enough { N ≤ length from.now }
    requires room { vec_len vec.old + N ≤ vec_capacity vec.old }
    ensures { HeapBecomes vec.old vec.new (vec.old.items ++ take N from.now) }
{
    let Some(first) = from.first_chunk::<N>() else {
        unreachable!();
    };
    let block = *first;
    for i in 0..N {
        vec.push_reserved(block[i]);
    }
}
