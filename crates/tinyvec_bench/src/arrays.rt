//! The calls of an `ArrayVec` over slots of any kind: `SliceVec` is one. A list has as many items as there are slots.

use crate::calls::{Call, Calls, Owned, Word};
use crate::items::{Item, is_kept, look_at};
use tinyvec_array::{Array, ArrayVec, TakesClones};

impl<T: Item, S: TakesClones<Item = T>> Calls<Call, T> for ArrayVec<S> {
    #[inline(always)]
    fn call(&mut self, other: &mut Self, source: &[T], benchmark: Call, x: u64) -> u64 {
        match benchmark {
            Call::FillAndEmpty => {
                push_all(self, source.len(), x);
                pop_all(self)
            }
            Call::InsertFront => insert_front(self, x),
            Call::RemoveFront => remove(self, 0, x),
            Call::RemoveMiddle => remove(self, source.len() / 2, x),
            Call::SwapRemove => swap_remove(self, source.len() / 2, x),
            Call::ExtendFromSlice => refill(self, source, x),
            _ => changed(self, other, source, benchmark, x),
        }
    }
}

impl<S: TakesClones<Item = u64>> Calls<Word, u64> for ArrayVec<S> {
    #[inline(always)]
    fn call(&mut self, _other: &mut Self, source: &[u64], benchmark: Word, x: u64) -> u64 {
        match benchmark {
            Word::Editor => editor(self, source, x),
            Word::ReplaceRange => replace_range(self, source, x),
            _ => changed_numbers(self, source, benchmark, x),
        }
    }
}

impl<T: Item, A: Array<Item = T>> Calls<Owned, T> for ArrayVec<A> {
    #[inline(always)]
    fn call(&mut self, other: &mut Self, source: &[T], benchmark: Owned, x: u64) -> u64 {
        match benchmark {
            Owned::TwoPushes => look_at(two_pushes(self, x).as_slice(), x),
            Owned::IntoIter => sum_of_new(self, source, x),
            Owned::Clone => look_at(clone_of(self, other, x).as_slice(), x),
            Owned::SplitOff => split_off(self, source, x),
            Owned::Resize => resize(self, source.len(), x),
        }
    }
}

// Makes the list the items, if there is room for them.
#[inline(never)]
fn refill<T: Item, S: TakesClones<Item = T>>(vec: &mut ArrayVec<S>, source: &[T], x: u64) -> u64 {
    vec.set_len(0);
    if source.len() <= vec.remaining_capacity() {
        let _ = vec.extend_from_slice(source);
    }
    x.wrapping_add(vec.len() as u64)
}

// Pushes until there are `n` items.
#[inline(never)]
fn push_all<T: Item, S: TakesClones<Item = T>>(vec: &mut ArrayVec<S>, n: usize, x: u64) {
    for i in vec.len()..n {
        if !vec.is_full() {
            vec.push(T::of(x.wrapping_add(i as u64)));
        }
    }
}

// Pops until the list is empty, and answers the sum.
#[inline(never)]
fn pop_all<T: Item, S: TakesClones<Item = T>>(vec: &mut ArrayVec<S>) -> u64 {
    let mut sum: u64 = 0;
    while let Some(item) = vec.pop() {
        sum = sum.wrapping_add(item.value());
    }
    sum
}

// Pops an item, and inserts one in front.
#[inline(never)]
fn insert_front<T: Item, S: TakesClones<Item = T>>(vec: &mut ArrayVec<S>, x: u64) -> u64 {
    let Some(last) = vec.pop() else {
        return 0;
    };
    if !vec.is_full() {
        vec.insert(0, T::of(x));
    }
    last.value()
}

// Removes an item, and pushes one.
#[inline(never)]
fn remove<T: Item, S: TakesClones<Item = T>>(vec: &mut ArrayVec<S>, i: usize, x: u64) -> u64 {
    if i >= vec.len() {
        return 0;
    }
    let removed = vec.remove(i);
    if !vec.is_full() {
        vec.push(T::of(x));
    }
    removed.value()
}

// Swaps an item out, and pushes one.
#[inline(never)]
fn swap_remove<T: Item, S: TakesClones<Item = T>>(vec: &mut ArrayVec<S>, i: usize, x: u64) -> u64 {
    if i >= vec.len() {
        return 0;
    }
    let removed = vec.swap_remove(i);
    if !vec.is_full() {
        vec.push(T::of(x));
    }
    removed.value()
}

// Fills the list, or its first half if the call fills the second, and calls.
#[inline(always)]
fn changed<T: Item, S: TakesClones<Item = T>>(
    vec: &mut ArrayVec<S>,
    other: &mut ArrayVec<S>,
    source: &[T],
    benchmark: Call,
    x: u64,
) -> u64 {
    let (front, back) = source.split_at(source.len() / 2);
    match benchmark {
        Call::Append | Call::ExtendFromWithin => refill(vec, front, x),
        _ => refill(vec, source, x),
    };
    let len = vec.len();
    match benchmark {
        Call::Append => {
            refill(other, back, x);
            if other.len() <= vec.remaining_capacity() {
                vec.append(other);
            }
        }
        Call::ExtendFromWithin => {
            if vec.len() <= vec.remaining_capacity() {
                let _ = vec.extend_from_within(..);
            }
        }
        Call::Truncate => vec.truncate(len / 2),
        Call::Clear => vec.clear(),
        Call::RetainHalf => vec.retain(is_kept::<T>),
        Call::DrainTaken => {
            let mut sum = x;
            for item in vec.drain(len / 4..len - len / 4) {
                sum = sum.wrapping_add(item.value());
            }
            return sum;
        }
        _ => drop(vec.drain(len / 4..len - len / 4)),
    }
    x.wrapping_add(vec.len() as u64)
}

// The same of numbers. Splices put more of them, or fewer, in the place of the second quarter of three.
#[inline(always)]
fn changed_numbers<S: TakesClones<Item = u64>>(
    vec: &mut ArrayVec<S>,
    source: &[u64],
    benchmark: Word,
    x: u64,
) -> u64 {
    let quarter = source.len() / 4;
    let (front, back) = source.split_at(source.len() / 2);
    match benchmark {
        Word::ExtendCopy | Word::ExtendFromRange => refill(vec, front, x),
        Word::SpliceFewer | Word::SpliceMore => refill(vec, &source[..3 * quarter], x),
        _ => refill(vec, source, x),
    };
    match benchmark {
        Word::ExtendCopy => {
            if back.len() <= vec.remaining_capacity() {
                vec.extend_from_slice_copy(back);
            }
        }
        Word::ExtendFromRange => {
            let start = x % 65536;
            let _ = vec.extend(start..start.saturating_add(back.len() as u64));
        }
        Word::SpliceFewer | Word::SpliceMore => {
            let share = match benchmark {
                Word::SpliceFewer => 8,
                _ => 2,
            };
            if 2 * quarter <= vec.len() {
                let _ = vec
                    .splice(quarter..2 * quarter, 0..source.len() as u64 / share)
                    .finish();
            }
        }
        Word::ExtractHalf => {
            let mut sum = x;
            for number in vec.extract_if(.., |it| is_kept::<u64>(it)) {
                sum = sum.wrapping_add(number);
            }
            return sum;
        }
        _ => ArrayVec::dedup(vec),
    }
    x.wrapping_add(vec.len() as u64)
}

// Makes the list the first three quarters of `source`, and puts the second half in the place of the second quarter.
#[inline(never)]
fn replace_range<S: TakesClones<Item = u64>>(vec: &mut ArrayVec<S>, source: &[u64], x: u64) -> u64 {
    let quarter = source.len() / 4;
    refill(vec, &source[..3 * quarter], x);
    if 2 * quarter <= vec.len() {
        let _ = vec.replace_range(quarter..2 * quarter, &source[2 * quarter..]);
    }
    x.wrapping_add(vec.len() as u64)
}

// The same, which is taken out again for the second quarter of `source`: an editor's change, cut and undo.
#[inline(never)]
fn editor<S: TakesClones<Item = u64>>(vec: &mut ArrayVec<S>, source: &[u64], x: u64) -> u64 {
    let quarter = source.len() / 4;
    replace_range(vec, source, x);
    if vec.len() < 3 * quarter {
        return 0;
    }
    let mut cut = x;
    vec.drain_each(
        quarter..3 * quarter,
        &mut |number| cut = cut.wrapping_add(number),
    );
    if quarter <= vec.len() {
        let _ = vec.replace_range(quarter..quarter, &source[quarter..2 * quarter]);
    }
    cut.wrapping_add(vec.len() as u64)
}

// A new vector as long as `_like`, and two pushes.
#[inline(never)]
fn two_pushes<T: Item, A: Array<Item = T>>(_like: &ArrayVec<A>, x: u64) -> ArrayVec<A> {
    let mut vec = ArrayVec::new();
    for _i in 0..2 {
        if !vec.is_full() {
            vec.push(T::of(x));
        }
    }
    vec
}

// The sum of a new list, which is taken apart.
#[inline(never)]
fn sum_of_new<T: Item, A: Array<Item = T>>(_like: &ArrayVec<A>, source: &[T], x: u64) -> u64 {
    let Ok(vec) = ArrayVec::<A>::try_from_slice(source) else {
        return 0;
    };
    let mut sum = x;
    for item in vec {
        sum = sum.wrapping_add(item.value());
    }
    sum
}

// A clone of the one or the other, as `x` is even or odd.
#[inline(never)]
fn clone_of<T: Item, A: Array<Item = T>>(
    even: &ArrayVec<A>,
    odd: &ArrayVec<A>,
    x: u64,
) -> ArrayVec<A> {
    let vec = if x % 2 == 0 { even } else { odd };
    let Ok(copy) = vec.clone() else {
        return ArrayVec::new();
    };
    copy
}

// Fills the list, and takes its second half off.
#[inline(never)]
fn split_off<T: Item, A: Array<Item = T>>(vec: &mut ArrayVec<A>, source: &[T], x: u64) -> u64 {
    refill(vec, source, x);
    let tail = vec.split_off(vec.len() / 2);
    look_at(tail.as_slice(), x)
}

// Makes an empty list as long as `n`.
#[inline(never)]
fn resize<T: Item, A: Array<Item = T>>(vec: &mut ArrayVec<A>, n: usize, x: u64) -> u64 {
    vec.set_len(0);
    if n <= vec.capacity() {
        let _ = vec.resize(n, T::of(x));
    }
    x.wrapping_add(vec.len() as u64)
}
