//! Writing clones into slots. No item is cloned twice: the first clone that fails ends the call, and those before it stay.
ghost use Rattle.std.specs.Prelude.{◌+◌, ◌<◌, ◌≤◌, ℕ, length, take, IfOk, OnOk, OnErr};
ghost use Rattle.tinyvec_slots.specs.Clones.{RefusedAt, ClonesOver, ClonesOverFrom, WritesClones};

use crate::tuned::sizes::are_large;
use std::alloc::AllocError;

/// Writes clones of `from` over the slots from `start` on, by blocks.
pub fn clone_over_from<T: Clone + Default>(
    slots: &mut [T],
    start: usize,
    from: &[T],
) -> Result<(), AllocError>
    requires fits { start + length from.now ≤ length slots.old }
    ensures { WritesClones T.Clone (λ ys n. ClonesOverFrom T.is_clone start ys n slots.old slots.new) from.now result }
{
    // The minimum is the length. It lets the compiler drop the blocks of more items than there are slots.
    let count = from.len().min(slots.len());
    // If the number of slots is a constant, as an array's, only one of the two is compiled.
    if slots.len() < 8 && !are_large(slots) {
        return clone_few(&mut slots[start..], &from[..count]);
    }
    clone_over(&mut slots[start..], &from[..count])
}

/// Writes clones of `from` over the first slots of `to`, in blocks of 16, and then item by item.
// `extend_from_slice` 64: 140 > 81, `bytes_extend_from_slice` 64: 141 > 21.
pub fn clone_over<T: Clone + Default>(to: &mut [T], from: &[T]) -> Result<(), AllocError>
    requires fits { length from.now ≤ length to.old }
    ensures { WritesClones T.Clone (λ ys n. ClonesOver T.is_clone ys n to.old to.new) from.now result }
{
    // A block is on the stack, which large items would fill.
    if are_large(from) {
        return clone_each(to, from);
    }
    let done = clone_blocks::<T, 16>(to, from)?;
    clone_each(&mut to[done..], &from[done..])
}

// Like `clone_over`, for fewer than 8 items.
#[inline(always)]
fn clone_few<T: Clone + Default>(to: &mut [T], from: &[T]) -> Result<(), AllocError>
    requires fits { length from.now ≤ length to.old }
    ensures { WritesClones T.Clone (λ ys n. ClonesOver T.is_clone ys n to.old to.new) from.now result }
{
    if 4 <= from.len() {
        return clone_block_and_rest::<T, 4>(to, from);
    }
    // Without this block the compiler makes a loop, which costs a few items more.
    if 2 <= from.len() {
        return clone_block_and_rest::<T, 2>(to, from);
    }
    clone_each(to, from)
}

// Like `clone_over`, in a block of N, and then item by item.
#[inline(always)]
fn clone_block_and_rest<T: Clone + Default, const N: usize>(
    to: &mut [T],
    from: &[T],
) -> Result<(), AllocError>
    requires enough { N ≤ length from.now }
    requires fits { length from.now ≤ length to.old }
    ensures { WritesClones T.Clone (λ ys n. ClonesOver T.is_clone ys n to.old to.new) from.now result }
{
    clone_block::<T, N>(to, from)?;
    // The borrow checker covers no range that begins at a const parameter.
    let block = N;
    clone_each(&mut to[block..], &from[block..])
}

/// Like `clone_over`, item by item. If the compiler knows that `to` and `from` do not overlap, as for a new array, it turns
/// this into one `memcpy`.
pub fn clone_each<T: Clone>(to: &mut [T], from: &[T]) -> Result<(), AllocError>
    requires fits { length from.now ≤ length to.old }
    ensures { WritesClones T.Clone (λ ys n. ClonesOver T.is_clone ys n to.old to.new) from.now result }
{
    let made = clone_until_refused(to, from);
    if made < from.len() {
        return Err(AllocError);
    }
    Ok(())
}

// Clones item by item up to the first clone that fails, and returns the number of clones.
fn clone_until_refused<T: Clone>(to: &mut [T], from: &[T]) -> usize
    requires fits { length from.now ≤ length to.old }
    ensures within { result ≤ length from.now }
    ensures cloned { ClonesOver T.is_clone (take result from.now) result to.old to.new }
    ensures refused { result < length from.now → RefusedAt T.is_infallible from.now result }
{
    for i in 0..from.len() {
        match from[i].clone() {
            Ok(x) => to[i] = x,
            Err(_) => return i,
        }
    }
    from.len()
}

// Clones in blocks of N while N items are left, and returns the number of clones.
fn clone_blocks<T: Clone + Default, const N: usize>(
    to: &mut [T],
    from: &[T],
) -> Result<usize, AllocError>
    requires some { 0 < N }
    requires fits { length from.now ≤ length to.old }
    ensures within { IfOk result (λ n. n ≤ length from.now) }
    ensures cloned { IfOk result (λ n. ClonesOver T.is_clone (take n from.now) n to.old to.new) }
    ensures refused { OnErr result ((j : ℕ) × RefusedAt T.is_infallible from.now j
        × ClonesOver T.is_clone (take j from.now) j to.old to.new) }
{
    let mut done = 0;
    while N <= from.len() - done {
        clone_block::<T, N>(&mut to[done..], &from[done..])?;
        done += N;
    }
    Ok(done)
}

// Clones the first N items. All are read before one is written, so the compiler moves a block of numbers as a whole. It
// clears a block on the stack first, which pays only for N items.
fn clone_block<T: Clone + Default, const N: usize>(
    to: &mut [T],
    from: &[T],
) -> Result<(), AllocError>
    requires enough { N ≤ length from.now }
    requires fits { length from.now ≤ length to.old }
    ensures cloned { OnOk result (ClonesOver T.is_clone (take N from.now) N to.old to.new) }
    ensures refused { OnErr result ((j : ℕ) × RefusedAt T.is_infallible from.now j
        × ClonesOver T.is_clone (take j from.now) j to.old to.new) }
{
    let mut block: [T; N] = Default::default();
    let made = clone_until_refused(&mut block, &from[..N]);
    if made < N {
        to[..made].swap_with_slice(&mut block[..made]);
        return Err(AllocError);
    }
    let Some(place) = to.first_chunk_mut::<N>() else {
        unreachable!();
    };
    *place = block;
    Ok(())
}
