//! A contract of a call of an `ArrayVec` that has the same mistake as its code would pass the check. The values are worked out by
//! hand.
use crate::lists::holds;
use crate::steps::{all_steps, granted_steps};
use std::alloc::Global;
use std::test::Fail;
use tinyvec::{ArrayVec, FromIterRest, NoRoom, TinyVec, TryFromSliceError};

#[test]
fn pushed_and_popped(rt: HostRuntime) -> Result<(), Fail> {
    let items = [10, 11, 12, 13];
    let mut v = ArrayVec::<[i32; 4]>::new();
    let was_empty = v.pop().is_none();
    let is_one = v.try_push(10).is_none() & v.iter().eq(&[10]) & (v.pop() == Some(10));
    let mut are_put = v.is_empty();
    for x in items {
        are_put &= v.try_push(x).is_none();
    }
    for at in 0..v.len() {
        are_put &= items.get(at) == Some(&v[at]);
    }
    are_put &= v.is_full();
    let mut are_popped = true;
    for x in items.into_iter().rev() {
        are_popped &= v.pop() == Some(x);
    }
    are_popped &= v.pop().is_none();
    let no_slots = ArrayVec::<[i32; 0]>::new().try_push(7) == Some(7);
    all_steps(&[was_empty, is_one, are_put, are_popped, no_slots])
}

#[test]
fn removed(rt: HostRuntime) -> Result<(), Fail> {
    let mut v = ArrayVec::from_array_len([1, 2, 3, 0], 3);
    let is_removed = (v.remove(1) == 2) & holds(&v, &[1, 3], &[0, 0]);
    let mut full = ArrayVec::from_array([87, 48, 33, 9, 26]);
    let is_popped = full.pop() == Some(26);
    let mut cut = ArrayVec::from_array([1, 2, 3, 4]);
    let is_cut = cut.drain(1..3).nth(1) == Some(3);
    all_steps(&[
        is_removed,
        is_popped & (full.into_inner() == [87, 48, 33, 9, 0]),
        is_cut & (cut.len() == 2),
        *cut.as_inner() == [1, 4, 0, 0],
    ])
}

// Of four items in ten slots one after the other, until none is left.
macro_rules! swap_removes {
    ($v:expr) => {{
        let mut v = $v;
        let mut is_right = true;
        for (at, item, left) in [
            (3, 4, [1, 2, 3].as_slice()),
            (0, 1, [3, 2].as_slice()),
            (0, 3, [2].as_slice()),
            (0, 2, [].as_slice()),
        ] {
            is_right &= at < v.len() && v.swap_remove(at) == item && v.as_slice() == left;
        }
        is_right
    }};
}

fn ten() -> ArrayVec<[i32; 10]> {
    ArrayVec::from_array_len([1, 2, 3, 4, 0, 0, 0, 0, 0, 0], 4)
}

#[test]
fn swap_removed_until_none_is_left(rt: HostRuntime) -> Result<(), Fail> {
    all_steps(&[
        swap_removes!(ten()),
        swap_removes!(TinyVec::Inline(ten(), rt.alloc())),
    ])
}

#[test]
fn joined(rt: HostRuntime) -> Result<(), Fail> {
    let mut v = ArrayVec::from_array_len([1, 2, 3, 0, 0, 0, 0, 0], 3);
    let mut other = ArrayVec::from_array_len([4, 5, 6, 0, 0, 0, 0, 0], 3);
    v.append(&mut other);
    let mut seven = ArrayVec::from_array_len([1, 2, 3, 4, 5, 6, 0], 6);
    let mut three = ArrayVec::from_array_len([7, 8, 9, 0, 0, 0, 0], 3);
    let is_refused = seven.try_append(&mut three).is_some();
    let are_left = holds(&seven, &[1, 2, 3, 4, 5, 6], &[0]) & holds(&three, &[7, 8, 9], &[0; 4]);
    let mut one = ArrayVec::from_array_len([6, 0, 0, 0, 0, 0, 0], 1);
    let is_joined = one.try_append(&mut three).is_none();
    all_steps(&[
        holds(&v, &[1, 2, 3, 4, 5, 6], &[0, 0]),
        holds(&other, &[], &[0; 8]),
        is_refused & are_left,
        is_joined & holds(&one, &[6, 7, 8, 9], &[0; 3]),
        holds(&three, &[], &[0; 7]),
    ])
}

#[test]
fn of_another_length(rt: HostRuntime) -> Result<(), Fail> {
    let mut v = ArrayVec::from_array_len([1, 2, 3, 0], 3);
    v.set_len(2);
    let is_shorter = holds(&v, &[1, 2], &[3, 0]);
    v.push(9);
    let is_pushed = holds(&v, &[1, 2, 9], &[0]);
    let mut filled = ArrayVec::<[i32; 4]>::new();
    let next = filled.fill(0..).next();
    let mut two = ArrayVec::from_array_len([1, 2, 0, 0], 2);
    let refused = match two.extend(3..=6) {
        Ok(()) => None,
        Err(NoRoom { item, mut rest }) => Some((item, rest.next(), rest.next())),
    };
    all_steps(&[
        is_shorter,
        is_pushed,
        holds(&filled, &[0, 1, 2, 3], &[]) & (next == Some(4)),
        holds(&two, &[1, 2, 3, 4], &[]) & (refused == Some((5, Some(6), None))),
    ])
}

#[test]
fn filtered(rt: HostRuntime) -> Result<(), Fail> {
    let mut repeats = ArrayVec::from_array([1, 1, 2, 3, 3, 1]);
    repeats.dedup();
    let mut runs = ArrayVec::from_array([1_i32, 2, 3, 5]);
    runs.dedup_by(|x, kept| *x == kept.wrapping_add(1));
    let mut keyed = ArrayVec::from_array([1, 2, 3, 10, 11]);
    keyed.dedup_by_key(|x| *x / 10);
    let mut doubled = ArrayVec::from_array([1_i32, 1, 2, 3, 3, 4]);
    doubled.retain_mut(|x| {
        let is_even = *x % 2 == 0;
        *x = x.wrapping_mul(2);
        is_even
    });
    all_steps(&[
        repeats.as_slice() == [1, 2, 3, 1].as_slice(),
        (*runs.as_inner() == [1, 3, 5, 0]) & (runs.len() == 3),
        keyed.as_slice() == [1, 10].as_slice(),
        doubled.as_slice() == [4, 8].as_slice(),
    ])
}

// Whether of an array the even numbers, which are these, are retained.
fn retains<const N: usize>(items: [i32; N], even: &[i32]) -> bool {
    let mut v = ArrayVec::from_array(items);
    v.retain_mut(|x| *x % 2 == 0);
    v.as_slice() == even
}

#[test]
fn even_numbers_retained(rt: HostRuntime) -> Result<(), Fail> {
    let mut none = ArrayVec::<[i32; 4]>::new();
    none.retain_mut(|x| *x % 2 == 0);
    all_steps(&[
        none.is_empty(),
        retains([2, 4, 6, 8], &[2, 4, 6, 8]),
        retains([1, 2, 3, 4], &[2, 4]),
        retains([1, 3, 5, 7], &[]),
        retains([], &[]),
    ])
}

#[test]
fn cloned_over(rt: HostRuntime) -> Result<(), Fail> {
    let mut longer = ArrayVec::from_array_len([1, 2, 3, 8], 3);
    let is_shortened = longer
        .clone_from(&ArrayVec::from_array_len([9, 7, 7, 7], 1))
        .is_ok();
    let mut shorter = ArrayVec::from_array_len([1, 5, 5, 5], 1);
    let is_grown = shorter
        .clone_from(&ArrayVec::from_array_len([7, 8, 0, 0], 2))
        .is_ok();
    all_steps(&[
        is_shortened & holds(&longer, &[9], &[0, 0, 8]),
        is_grown & holds(&shorter, &[7, 8], &[5, 5]),
    ])
}

#[test]
fn made_of_items(rt: HostRuntime) -> Result<(), Fail> {
    let none = ArrayVec::<[i32; 2]>::try_from_slice(&[]);
    let two = ArrayVec::<[i32; 2]>::try_from_slice(&[1, 2]);
    let four = ArrayVec::<[i32; 2]>::try_from_slice(&[1, 2, 3, 4]);
    let endless = match ArrayVec::<[i32; 2]>::from_iter(0..) {
        Ok(_) => false,
        Err(
            FromIterRest {
                vec,
                item,
                mut rest,
            },
        ) => { holds(&vec, &[0, 1], &[]) & (item == 2) & (rest.next() == Some(3)) }
    };
    all_steps(&[
        none == Ok(ArrayVec::new()),
        two == Ok(ArrayVec::from_array([1, 2])),
        four == Err(TryFromSliceError::TooLong),
        endless,
    ])
}

// `None` says that memory was refused.
fn moved(alloc: Global, v: &mut ArrayVec<[i32; 7]>) -> Option<bool> {
    match v.drain_to_vec_and_reserve(alloc, 10) {
        Ok(items) => Some((items.as_slice() == [1, 2, 3].as_slice()) & (items.capacity() >= 13)),
        Err(_) => None,
    }
}

#[test]
fn moved_to_a_vec(rt: HostRuntime) -> Result<(), Fail> {
    let mut v = ArrayVec::from_array_len([1, 2, 3, 0, 0, 0, 0], 3);
    let moved = moved(rt.alloc(), &mut v);
    let mut one = ArrayVec::from_array_len([1, 0, 0, 0], 1);
    let is_refused = one
        .drain_to_vec_and_reserve(rt.alloc(), usize::MAX)
        .is_err();
    granted_steps(
        moved.is_none(),
        &[
            moved == Some(true),
            (*v.as_inner() == [0; 7]) & v.is_empty(),
            is_refused & holds(&one, &[1], &[0, 0, 0]),
            TinyVec::<[i32; 4]>::with_capacity(rt.alloc(), usize::MAX).is_err(),
        ],
    )
}
