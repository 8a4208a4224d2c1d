//! A contract of a call of a `SliceVec` that has the same mistake as its code would pass the check, and so would one that tells the
//! owner of the slots of other slots. The values are worked out by hand.
use crate::lists::lends;
use crate::steps::all_steps;
use std::fmt::Write;
use std::test::Fail;
use tinyvec::{NoRoom, SliceVec};

#[test]
fn cut(rt: HostRuntime) -> Result<(), Fail> {
    let mut slots = [1, 2, 3, 4, 9];
    let mut v = SliceVec::from_slice_len(&mut slots, 4);
    v.retain(|x| *x % 2 == 0);
    let is_filtered = v.len() == 2;
    let is_kept = slots == [2, 4, 0, 0, 9];
    let mut others = [1, 2, 3, 4, 9];
    let mut v = SliceVec::from_slice_len(&mut others, 4);
    let is_drained = v.drain(1..3).next() == Some(2);
    let is_short = v.len() == 2;
    all_steps(&[
        is_filtered & is_kept,
        is_drained & is_short,
        others == [1, 4, 0, 0, 9],
    ])
}

// Emptied slots are filled too, the last one first.
#[test]
fn of_another_length(rt: HostRuntime) -> Result<(), Fail> {
    let mut slots = [1, 2, 3, 7, 7];
    let mut next = 9_i32;
    let mut v = SliceVec::from_slice_len(&mut slots, 3);
    v.resize_with(1, || {
        next = next.wrapping_add(1);
        next
    });
    let is_shorter = v.as_slice() == [1].as_slice();
    let mut two = [0, 0];
    let mut w = SliceVec::from_slice_len(&mut two, 0);
    let refused = match w.extend(1..=4) {
        Ok(()) => None,
        Err(NoRoom { item, mut rest }) => Some((item, rest.next(), rest.next())),
    };
    all_steps(&[
        is_shorter & (slots == [1, 11, 10, 7, 7]),
        refused == Some((3, Some(4), None)),
        two == [1, 2],
    ])
}

#[test]
fn split(rt: HostRuntime) -> Result<(), Fail> {
    let mut slots = [1, 2, 3, 9];
    let mut first = SliceVec::from_slice_len(&mut slots, 3);
    let mut second = first.split_off(1);
    second.push(4);
    let is_full = lends(&first, &[1], &[]) & lends(&second, &[2, 3, 4], &[]);
    let are_there = slots == [1, 2, 3, 4];
    let mut two = [1, 2];
    let mut first = SliceVec::from_slice_len(&mut two, 2);
    let second = first.split_off(0);
    let is_empty = (first.capacity() == 0) & first.is_full();
    let is_all = second.as_slice() == [1, 2].as_slice();
    let is_refused = SliceVec::try_from_slice_len(&mut two, 3).is_none();
    all_steps(&[
        is_full & are_there,
        is_empty & is_all,
        is_refused & (two == [1, 2]),
    ])
}

#[test]
fn written(rt: HostRuntime) -> Result<(), Fail> {
    let mut slots = [9, 9, 9, 9, 9];
    let mut v = SliceVec::from_slice_len(&mut slots, 1);
    let is_written = v.write_str("abc").is_ok() & lends(&v, &[9, 97, 98, 99], &[9]);
    let is_refused = v.write_str("de").is_err() & lends(&v, &[9, 97, 98, 99], &[9]);
    all_steps(&[is_written, is_refused])
}
