//! Items put behind a list that has room for them, once for all vectors.
//!
//! Each loop holds the place itself, and the length of a list in slots is set once, at its end: LLVM makes vector code only
//! if no turn writes the length. A `Vec` is best in a local variable of the caller meanwhile.
ghost use Rattle.std.specs.Prelude.{◌≡◌, ◌+◌, ◌<◌, ◌≤◌, ◌++◌, ◌-◌, ◌^◌, List, length, take, drop, replicate, Some};
ghost use Rattle.std.specs.Prelude.{MatchResult, OnOk, OnErr, IsOk, slice_range, vec_len, vec_capacity};
ghost use Rattle.std.specs.List.{FoldsTo, AllZip};
ghost use Rattle.std.specs.Iterator.{IsFinite, Drains, YieldsThen};
ghost use Rattle.tinyvec_slots.specs.Ranges.{Within};
ghost use Rattle.tinyvec_slots.specs.Slots.{AreDefaults};
ghost use Rattle.tinyvec_slots.specs.Filling.{Follows, YieldsUpTo};

use crate::NoRoom;
use crate::authors::CanPut;
use crate::tuned::sizes::fit_registers;
use std::alloc::AllocError;
use std::mem;

/// Appends what `f` returns, up to `n` items.
#[inline(always)]
pub fn put_answers<V: CanPut, F: FnMut() -> V::Item>(vec: &mut V, n: usize, f: &mut F)
    requires longer { length (V.items vec.old) ≤ n }
    requires room { n ≤ V.room vec.old }
    requires callable { F.IsAlwaysCallable f.old }
    ensures { (ys : List V.Item) × FoldsTo F.step f.old ys f.new × (length (V.items vec.old) + length ys ≡ n)
        × V.Gets vec.old ys vec.new }
{
    for at in vec.len()..n {
        vec.put(at, f());
    }
    vec.keep(n);
}

/// Appends clones of `x`, up to `n` items.
#[inline(always)]
pub fn put_clones_of<V: CanPut>(vec: &mut V, n: usize, x: &V::Item) -> Result<(), AllocError>
where
    V::Item: Clone,
    requires longer { length (V.items vec.old) ≤ n }
    requires room { n ≤ V.room vec.old }
    ensures ok { OnOk result ((ys : List V.Item) × AllZip V.Item.is_clone (replicate (length ys) x.now) ys
        × (length (V.items vec.old) + length ys ≡ n) × V.Gets vec.old ys vec.new) }
    ensures refused { OnErr result ((ys : List V.Item) × AllZip V.Item.is_clone (replicate (length ys) x.now) ys
        × (length (V.items vec.old) + length ys < n) × ¬ (V.Item.is_infallible x.now) × V.Leaves vec.old ys vec.new) }
    ensures succeeds { V.Item.is_infallible x.now → IsOk result }
{
    let len = vec.len();
    for at in len..n {
        let Ok(y) = x.clone() else {
            vec.back_to(len);
            return Err(AllocError);
        };
        vec.put(at, y);
    }
    vec.keep(n);
    Ok(())
}

/// Moves the items of `from` to the end, and leaves defaults there.
// Bytes are moved as fast one by one, and a block of large items would fill the stack. By 16 `drain_into` 64: 312 > 260,
// `tiny_reserve_and_shrink` 64: 1224 > 671.
#[inline(always)]
pub fn put_taken<V: CanPut>(vec: &mut V, from: &mut [V::Item])
where
    V::Item: Default,
    requires { length (V.items vec.old) + length from.old ≤ V.room vec.old }
    ensures becomes { V.Gets vec.old from.old vec.new }
    ensures left { AreDefaults V.Item.is_default (length from.old) from.new }
{
    let len = vec.len();
    let mut done = 0;
    while 16 <= from.len() - done && fit_registers(from) {
        put_block::<V, 16>(vec, len + done, &mut from[done..]);
        done += 16;
    }
    put_each(vec, len + done, &mut from[done..]);
    vec.keep(len + from.len());
}

// Puts the first N items. All are read before one is written, so LLVM moves a block in registers.
#[inline(always)]
fn put_block<V: CanPut, const N: usize>(vec: &mut V, at: usize, from: &mut [V::Item])
where
    V::Item: Default,
    requires enough { N ≤ length from.old }
    requires room { (v : V) × (xs : List V.Item) × V.Puts v xs vec.old × (at ≡ length (V.items v) + length xs) × (at + N ≤ V.room v)
        × (V.room v < 2 ^ 64) }
    ensures put { (v : V) (xs : List V.Item) → V.Puts v xs vec.old → at ≡ length (V.items v) + length xs → at + N ≤ V.room v
        → V.Puts v (xs ++ take N from.old) vec.new }
    ensures left { (ds : List V.Item) × AreDefaults V.Item.is_default N ds × (from.new ≡ ds ++ drop N from.old) }
{
    let Some(first) = from.first_chunk_mut::<N>() else {
        unreachable!();
    };
    let mut block = mem::take(first);
    put_each(vec, at, &mut block);
}

// Puts the items one by one, behind `at` others, and leaves defaults.
#[inline(always)]
fn put_each<V: CanPut>(vec: &mut V, at: usize, from: &mut [V::Item])
where
    V::Item: Default,
    requires room { (v : V) × (xs : List V.Item) × V.Puts v xs vec.old × (at ≡ length (V.items v) + length xs)
        × (at + length from.old ≤ V.room v) × (V.room v < 2 ^ 64) }
    ensures put { (v : V) (xs : List V.Item) → V.Puts v xs vec.old → at ≡ length (V.items v) + length xs → at + length from.old ≤ V.room v
        → V.Puts v (xs ++ from.old) vec.new }
    ensures left { AreDefaults V.Item.is_default (length from.old) from.new }
{
    for i in 0..from.len() {
        vec.put(at + i, mem::take(&mut from[i]));
    }
}

/// Appends items while there is room. Returns the first that finds none, and the rest of the iterator.
#[inline(always)]
pub fn put_iter<V: CanPut, I: Iterator<Item = V::Item>>(
    vec: &mut V,
    mut iter: I,
) -> Result<(), NoRoom<V::Item, I>>
    requires { I.can_next iter × IsFinite (I.remaining iter) }
    ensures ran { (xs : List V.Item) × V.Gets vec.old xs vec.new
        × MatchResult result (λ _. Drains I.next_gives iter xs)
        (λ refused. YieldsThen I.next_gives iter xs (Some refused.item) refused.rest)
        × OnErr result (length (V.items vec.old) + length xs ≡ V.room vec.old)
        × Follows I.can_next I.remaining iter (length (V.items vec.old)) (length (V.items vec.old) + length xs) result }
{
    let mut at = vec.len();
    let room = vec.room();
    while let Some(item) = iter.next() {
        if at == room {
            vec.keep(at);
            return Err(NoRoom { item, rest: iter });
        }
        vec.put(at, item);
        at += 1;
    }
    vec.keep(at);
    Ok(())
}

/// Appends items until there is no room or there are no more. Returns the rest of the iterator.
#[inline(always)]
pub fn put_until_full<V: CanPut, I: Iterator<Item = V::Item>>(vec: &mut V, mut iter: I) -> I
    requires { I.can_next iter }
    ensures ran { (xs : List V.Item) × V.Gets vec.old xs vec.new
        × YieldsUpTo I.next_gives (V.room vec.old - length (V.items vec.old)) iter xs result
        × (length (V.items vec.old) + length xs ≡ V.room vec.old → I.can_next result) }
{
    let mut at = vec.len();
    while at < vec.room() {
        let Some(item) = iter.next() else {
            vec.keep(at);
            return iter;
        };
        vec.put(at, item);
        at += 1;
    }
    vec.keep(at);
    iter
}

/// Moves the items of the slots to the end of `vec`, and leaves defaults.
// `vec` is in a local variable meanwhile, whose length and pointer LLVM keeps in registers.
#[inline(always)]
pub fn take_all<T: Default + Drop>(slots: &mut [T], vec: &mut Vec<T>)
    requires { vec_len vec.old + length slots.old ≤ vec_capacity vec.old }
    ensures items { vec.new.items ≡ vec.old.items ++ slots.old }
    ensures capacity { vec_capacity vec.new ≡ vec_capacity vec.old }
    ensures emptied { AreDefaults T.is_default (length slots.old) slots.new }
{
    let mut local = mem::replace(vec, Vec::new(*vec.allocator()));
    put_taken(&mut local, slots);
    *vec = local;
}

/// Moves the items from `start` up to `end` to the end of `vec`, and leaves defaults.
#[inline(always)]
pub fn take_range<T: Default + Drop>(slots: &mut [T], start: usize, end: usize, vec: &mut Vec<T>)
    requires in_bounds { Within start end (length slots.old) }
    requires room { vec_len vec.old + (end - start) ≤ vec_capacity vec.old }
    ensures items { vec.new.items ≡ vec.old.items ++ slice_range slots.old start end }
    ensures capacity { vec_capacity vec.new ≡ vec_capacity vec.old }
    ensures emptied { (ds : List T) × AreDefaults T.is_default (end - start) ds
        × (slots.new ≡ take start slots.old ++ ds ++ drop end slots.old) }
{
    take_all(&mut slots[start..end], vec);
}
