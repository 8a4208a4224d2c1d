//! The calls of a `TinyVec`, in its array, on the heap or on its way there.

use crate::calls::{Call, Calls, Grown, Owned, Word};
use crate::items::{Item, is_kept, look_at};
use tinyvec::TinyVec;
use tinyvec_array::Array;

impl<T: Item, A: Array<Item = T>> Calls<Call, T> for TinyVec<A> {
    #[inline(always)]
    fn call(&mut self, other: &mut Self, source: &[T], benchmark: Call, x: u64) -> u64 {
        match benchmark {
            Call::FillAndEmpty => {
                push_all(self, source.len(), x);
                pop_all(self)
            }
            Call::InsertFront => insert_front(self, x),
            Call::RemoveFront => remove(self, 0, x),
            Call::RemoveMiddle => remove(self, source.len() / 2, x),
            Call::SwapRemove => swap_remove(self, source.len() / 2, x),
            Call::ExtendFromSlice => refill(self, source, x),
            _ => changed(self, other, source, benchmark, x),
        }
    }
}

impl<A: Array<Item = u64>> Calls<Word, u64> for TinyVec<A> {
    #[inline(always)]
    fn call(&mut self, _other: &mut Self, source: &[u64], benchmark: Word, x: u64) -> u64 {
        match benchmark {
            Word::Editor => editor(self, source, x),
            Word::ReplaceRange => replace_range(self, source, x),
            _ => changed_numbers(self, source, benchmark, x),
        }
    }
}

impl<T: Item, A: Array<Item = T>> Calls<Owned, T> for TinyVec<A> {
    #[inline(always)]
    fn call(&mut self, other: &mut Self, source: &[T], benchmark: Owned, x: u64) -> u64 {
        match benchmark {
            Owned::TwoPushes => look_at(two_pushes(self, x).as_slice(), x),
            Owned::IntoIter => sum_of_new(self, source, x),
            Owned::Clone => look_at(clone_of(self, other, x).as_slice(), x),
            Owned::SplitOff => split_off(self, source, x),
            Owned::Resize => resize(self, source.len(), x),
        }
    }
}

impl<A: Array<Item = u64>> Calls<Grown, u64> for TinyVec<A> {
    #[inline(always)]
    fn call(&mut self, _other: &mut Self, source: &[u64], benchmark: Grown, x: u64) -> u64 {
        let count = source.len();
        match benchmark {
            Grown::Push => push(self, count as u64, x),
            Grown::FromIter => from_iter(self, count as u64, x),
            Grown::ReserveAndExtend => reserve_and_extend(self, count, x),
            Grown::ReserveAndShrink => reserve_and_shrink(self, count, x),
        }
    }
}

// Makes the list the items.
#[inline(never)]
fn refill<T: Item, A: Array<Item = T>>(vec: &mut TinyVec<A>, source: &[T], x: u64) -> u64 {
    match vec {
        TinyVec::Inline(array, _) => array.set_len(0),
        TinyVec::Heap(heap) => heap.truncate(0),
    }
    let _ = vec.extend_from_slice(source);
    x.wrapping_add(vec.len() as u64)
}

// Pushes until there are `n` items.
#[inline(never)]
fn push_all<T: Item, A: Array<Item = T>>(vec: &mut TinyVec<A>, n: usize, x: u64) {
    for i in vec.len()..n {
        let _ = vec.push(T::of(x.wrapping_add(i as u64)));
    }
}

// Pops until the list is empty, and answers the sum.
#[inline(never)]
fn pop_all<T: Item, A: Array<Item = T>>(vec: &mut TinyVec<A>) -> u64 {
    let mut sum: u64 = 0;
    while let Some(item) = vec.pop() {
        sum = sum.wrapping_add(item.value());
    }
    sum
}

// Pops an item, and inserts one in front.
#[inline(never)]
fn insert_front<T: Item, A: Array<Item = T>>(vec: &mut TinyVec<A>, x: u64) -> u64 {
    let Some(last) = vec.pop() else {
        return 0;
    };
    let _ = vec.insert(0, T::of(x));
    last.value()
}

// Removes an item, and pushes one.
#[inline(never)]
fn remove<T: Item, A: Array<Item = T>>(vec: &mut TinyVec<A>, i: usize, x: u64) -> u64 {
    if i >= vec.len() {
        return 0;
    }
    let removed = vec.remove(i);
    let _ = vec.push(T::of(x));
    removed.value()
}

// Swaps an item out, and pushes one.
#[inline(never)]
fn swap_remove<T: Item, A: Array<Item = T>>(vec: &mut TinyVec<A>, i: usize, x: u64) -> u64 {
    if i >= vec.len() {
        return 0;
    }
    let removed = vec.swap_remove(i);
    let _ = vec.push(T::of(x));
    removed.value()
}

// Fills the list, or its first half if the call fills the second, and calls.
#[inline(always)]
fn changed<T: Item, A: Array<Item = T>>(
    vec: &mut TinyVec<A>,
    other: &mut TinyVec<A>,
    source: &[T],
    benchmark: Call,
    x: u64,
) -> u64 {
    let (front, back) = source.split_at(source.len() / 2);
    match benchmark {
        Call::Append | Call::ExtendFromWithin => refill(vec, front, x),
        _ => refill(vec, source, x),
    };
    let len = vec.len();
    match benchmark {
        Call::Append => {
            refill(other, back, x);
            let _ = vec.append(other);
        }
        Call::ExtendFromWithin => {
            let _ = vec.extend_from_within(..);
        }
        Call::Truncate => vec.truncate(len / 2),
        Call::Clear => vec.clear(),
        Call::RetainHalf => vec.retain(is_kept::<T>),
        Call::DrainTaken => {
            let mut sum = x;
            for item in vec.drain(len / 4..len - len / 4) {
                sum = sum.wrapping_add(item.value());
            }
            return sum;
        }
        _ => drop(vec.drain(len / 4..len - len / 4)),
    }
    x.wrapping_add(vec.len() as u64)
}

// The same of numbers. Splices put more of them, or fewer, in the place of the second quarter of three.
#[inline(always)]
fn changed_numbers<A: Array<Item = u64>>(
    vec: &mut TinyVec<A>,
    source: &[u64],
    benchmark: Word,
    x: u64,
) -> u64 {
    let quarter = source.len() / 4;
    let (front, back) = source.split_at(source.len() / 2);
    match benchmark {
        Word::ExtendCopy | Word::ExtendFromRange => refill(vec, front, x),
        Word::SpliceFewer | Word::SpliceMore => refill(vec, &source[..3 * quarter], x),
        _ => refill(vec, source, x),
    };
    match benchmark {
        Word::ExtendCopy => {
            let _ = vec.extend_from_slice_copy(back);
        }
        Word::ExtendFromRange => {
            let start = x % 65536;
            let _ = vec.extend(start..start.saturating_add(back.len() as u64));
        }
        Word::SpliceFewer | Word::SpliceMore => {
            let share = match benchmark {
                Word::SpliceFewer => 8,
                _ => 2,
            };
            if 2 * quarter <= vec.len() {
                let _ = vec
                    .splice(quarter..2 * quarter, 0..source.len() as u64 / share)
                    .finish();
            }
        }
        Word::ExtractHalf => {
            let mut sum = x;
            for number in vec.extract_if(.., |it| is_kept::<u64>(it)) {
                sum = sum.wrapping_add(number);
            }
            return sum;
        }
        _ => vec.dedup(),
    }
    x.wrapping_add(vec.len() as u64)
}

// Makes the list the first three quarters of `source`, and puts the second half in the place of the second quarter.
#[inline(never)]
fn replace_range<A: Array<Item = u64>>(vec: &mut TinyVec<A>, source: &[u64], x: u64) -> u64 {
    let quarter = source.len() / 4;
    refill(vec, &source[..3 * quarter], x);
    if 2 * quarter <= vec.len() {
        let _ = vec.replace_range(quarter..2 * quarter, &source[2 * quarter..]);
    }
    x.wrapping_add(vec.len() as u64)
}

/// Makes the list the first three quarters of `source`, puts the second half in the place of the second quarter, takes it out
/// again, and puts the second quarter back: an editor's change, cut and undo.
#[inline(never)]
pub fn editor<A: Array<Item = u64>>(vec: &mut TinyVec<A>, source: &[u64], x: u64) -> u64 {
    let quarter = source.len() / 4;
    replace_range(vec, source, x);
    if vec.len() < 3 * quarter {
        return 0;
    }
    let mut cut = x;
    vec.drain_each(
        quarter..3 * quarter,
        &mut |number| cut = cut.wrapping_add(number),
    );
    if quarter <= vec.len() {
        let _ = vec.replace_range(quarter..quarter, &source[quarter..2 * quarter]);
    }
    cut.wrapping_add(vec.len() as u64)
}

// A new vector as `like`, and two pushes.
#[inline(never)]
fn two_pushes<T: Item, A: Array<Item = T>>(like: &TinyVec<A>, x: u64) -> TinyVec<A> {
    let mut vec = TinyVec::new(*like.allocator());
    for _i in 0..2 {
        let _ = vec.push(T::of(x));
    }
    vec
}

// The sum of a new list, which is taken apart.
#[inline(never)]
fn sum_of_new<T: Item, A: Array<Item = T>>(like: &TinyVec<A>, source: &[T], x: u64) -> u64 {
    let Ok(vec) = TinyVec::<A>::from_slice(*like.allocator(), source) else {
        return 0;
    };
    let mut sum = x;
    for item in vec {
        sum = sum.wrapping_add(item.value());
    }
    sum
}

// A clone of the one or the other, as `x` is even or odd.
#[inline(never)]
fn clone_of<T: Item, A: Array<Item = T>>(
    even: &TinyVec<A>,
    odd: &TinyVec<A>,
    x: u64,
) -> TinyVec<A> {
    let vec = if x % 2 == 0 { even } else { odd };
    let Ok(copy) = vec.clone() else {
        return TinyVec::new(*vec.allocator());
    };
    copy
}

// Fills the list, and takes its second half off.
#[inline(never)]
fn split_off<T: Item, A: Array<Item = T>>(vec: &mut TinyVec<A>, source: &[T], x: u64) -> u64 {
    refill(vec, source, x);
    let half = vec.len() / 2;
    let Ok(tail) = vec.split_off(half) else {
        return 0;
    };
    look_at(tail.as_slice(), x)
}

// Makes an empty list as long as `n`.
#[inline(never)]
fn resize<T: Item, A: Array<Item = T>>(vec: &mut TinyVec<A>, n: usize, x: u64) -> u64 {
    vec.truncate(0);
    let _ = vec.resize(n, T::of(x));
    x.wrapping_add(vec.len() as u64)
}

// A new list of so many numbers, pushed one by one.
#[inline(never)]
fn push<A: Array<Item = u64>>(like: &TinyVec<A>, count: u64, x: u64) -> u64 {
    let mut vec = TinyVec::<A>::new(*like.allocator());
    for k in 0..count {
        if vec.push(x.wrapping_add(k)).is_err() {
            return 0;
        }
    }
    look_at(vec.as_slice(), x)
}

// The same, collected.
#[inline(never)]
fn from_iter<A: Array<Item = u64>>(like: &TinyVec<A>, count: u64, x: u64) -> u64 {
    let start = x % 65536;
    match TinyVec::<A>::from_iter(*like.allocator(), start..start.saturating_add(count)) {
        Ok(vec) => look_at(vec.as_slice(), x),
        Err(_) => 0,
    }
}

// The same, after room for them is reserved.
#[inline(never)]
fn reserve_and_extend<A: Array<Item = u64>>(like: &TinyVec<A>, count: usize, x: u64) -> u64 {
    let mut vec = TinyVec::<A>::new(*like.allocator());
    if vec.reserve(count).is_err() {
        return 0;
    }
    let start = x % 65536;
    match vec.extend(start..start.saturating_add(count as u64)) {
        Ok(()) => look_at(vec.as_slice(), x),
        Err(_) => 0,
    }
}

// Reserves room for so many items more, and gives it back.
#[inline(never)]
fn reserve_and_shrink<A: Array<Item = u64>>(vec: &mut TinyVec<A>, count: usize, x: u64) -> u64 {
    let _ = vec.reserve(count);
    vec.shrink_to_fit();
    x.wrapping_add(vec.len() as u64)
}
