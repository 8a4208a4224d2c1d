//! An iterator that yields another item, or one more, by a contract with the same mistake, would pass the check.
use crate::steps::all_steps;
use std::test::Fail;
use tinyvec::{ArrayVec, TinyVec};

#[test]
fn of_an_array(rt: HostRuntime) -> Result<(), Fail> {
    let mut v = ArrayVec::<[i32; 4]>::new();
    for x in 10..14 {
        let _none = v.try_push(x);
    }
    let mut items = v.into_iter();
    let are_given = items.by_ref().eq(10..14) & items.next().is_none();
    let made = ArrayVec::<[i32; 4]>::from_iter(10..14);
    let mut negated = v;
    for x in &mut negated {
        *x = x.wrapping_neg();
    }
    let mut are_negated = true;
    let mut at = 10_i32;
    for x in &negated {
        are_negated &= x.wrapping_neg() == at;
        at = at.wrapping_add(1);
    }
    all_steps(&[are_given, made == Ok(v), are_negated, at == 14])
}

// One after the other from both ends, and then none.
macro_rules! both_ends {
    ($v:expr) => {{
        let mut items = $v.into_iter();
        let first = (items.next() == Some(1)) & (items.next_back() == Some(4));
        let second = (items.next() == Some(2)) & (items.next_back() == Some(3));
        first & second & items.next().is_none() & items.next_back().is_none()
    }};
}

macro_rules! ended {
    ($v:expr) => {{
        let mut items = $v.into_iter();
        items.by_ref().eq([1, 2, 3, 4]) & items.next().is_none() & items.last().is_none()
    }};
}

macro_rules! skipped_from_the_back {
    ($v:expr) => {{
        let mut items = $v.into_iter();
        let two = (items.nth_back(0) == Some(31)) & (items.nth_back(2) == Some(28));
        two & (items.nth_back(0) == Some(27)) & items.nth_back(99).is_none()
    }};
}

fn up_to_31() -> ArrayVec<[i32; 32]> {
    let mut v = ArrayVec::new();
    let _more = v.fill(0..);
    v
}

#[test]
fn from_both_ends(rt: HostRuntime) -> Result<(), Fail> {
    let four = ArrayVec::from_array([1, 2, 3, 4]);
    let alloc = rt.alloc();
    all_steps(&[
        both_ends!(four),
        both_ends!(TinyVec::Inline(four, alloc)),
        ended!(four),
        ended!(TinyVec::Inline(four, alloc)),
        skipped_from_the_back!(up_to_31()),
        skipped_from_the_back!(TinyVec::Inline(up_to_31(), alloc)),
        ArrayVec::from_array([1, 2, 3]).into_iter().next() == Some(1),
    ])
}

#[test]
fn past_the_greatest_number(rt: HostRuntime) -> Result<(), Fail> {
    let mut items = ArrayVec::from_array([1, 2, 3]).into_iter();
    let none = items.nth(usize::MAX).is_none();
    let ended = items.next().is_none() & items.next_back().is_none();
    let mut v = ArrayVec::from_array_len([1, 2, 3, 0], 3);
    let mut drain = v.drain(..);
    let not_drained = drain.nth(usize::MAX).is_none();
    drop(drain);
    all_steps(&[
        none & ended,
        not_drained,
        (*v.as_inner() == [0; 4]) & v.is_empty(),
    ])
}
