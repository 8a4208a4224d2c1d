//! A splice that puts an item elsewhere, or refuses another, by a contract with the same mistake, would pass the check.
use crate::lists::{holds, lies};
use crate::steps::{all_steps, granted_steps};
use std::test::Fail;
use tinyvec::{ArrayVec, TinyVec};

// Whether a splice yields these items from these ends, and leaves this refused item and the next of the replacement.
macro_rules! splices {
    ($v:ident, $range:expr, $new:expr, [$($end:ident $item:expr),*], $rest:expr) => {{
        let mut splice = $v.splice($range, $new);
        let mut is_right = true;
        $(is_right &= splice.$end() == $item;)*
        let rest = match splice.finish() {
            Ok(()) => None,
            Err(mut refused) => Some((refused.item, refused.rest.next())),
        };
        is_right & (rest == $rest)
    }};
}

#[test]
fn of_ten_slots(rt: HostRuntime) -> Result<(), Fail> {
    let three = ArrayVec::from_array_len([1, 2, 3, 0, 0, 0, 0, 0, 0, 0], 3);
    let four = ArrayVec::from_array_len([1, 2, 3, 4, 0, 0, 0, 0, 0, 0], 4);
    let (mut a, mut b, mut c, mut d) = (three, four, four, three);
    let is_grown = splices!(a, 1..2, 4..=6, [], None);
    let is_placed = splices!(b, 1..3, [7, 8, 9], [next_back Some(3), next Some(2)], None);
    let is_shrunk = splices!(c, 1..4, [7], [next_back Some(4), next Some(2)], None);
    let is_ended = splices!(d, 0..2, [7, 8, 9], [next Some(1), next Some(2), next None], None);
    all_steps(&[
        is_grown & holds(&a, &[1, 4, 5, 6, 3], &[0; 5]),
        is_placed & holds(&b, &[1, 7, 8, 9, 4], &[0; 5]),
        is_shrunk & holds(&c, &[1, 7], &[0; 8]),
        is_ended & holds(&d, &[7, 8, 9, 3], &[0; 6]),
    ])
}

#[test]
fn without_room(rt: HostRuntime) -> Result<(), Fail> {
    let three = ArrayVec::from_array_len([1, 2, 3, 0], 3);
    let (mut a, mut b, mut c) = (three, three, three);
    let is_refused = splices!(a, 1..2, [7, 8, 9, 10], [next Some(2)], Some((9, Some(10))));
    let from_the_back = splices!(b, 1..2, [7, 8, 9], [next_back Some(2)], Some((8, None)));
    let of_no_item = splices!(c, 1..1, [7, 8], [], Some((8, None)));
    all_steps(&[
        is_refused & holds(&a, &[1, 7, 8, 3], &[]),
        from_the_back & holds(&b, &[1, 7, 9, 3], &[]),
        of_no_item & holds(&c, &[1, 7, 2, 3], &[]),
    ])
}

// Each slot that is read out, written or swapped is one touch.
#[test]
fn touches(rt: HostRuntime) -> Result<(), Fail> {
    let mut v = ArrayVec::from_array_len([1, 2, 3, 4, 5, 0, 0, 0], 5);
    let mut splice = v.splice(1..3, [7, 8, 9, 10]);
    let is_taken = splice.next_back() == Some(3);
    let (grown, touches) = splice.finish_counted();
    let mut short = ArrayVec::from_array_len([1, 2, 3, 4, 0, 0, 0, 0, 0, 0], 4);
    let mut splice = short.splice(1..4, [7]);
    let are_taken = (splice.next_back() == Some(4)) & (splice.next() == Some(2));
    let (shrunk, fewer) = splice.finish_counted();
    all_steps(&[
        is_taken & grown.is_ok() & (touches <= 13),
        holds(&v, &[1, 7, 8, 9, 10, 4, 5], &[0]),
        are_taken & shrunk.is_ok() & (fewer <= 8),
        holds(&short, &[1, 7], &[0; 8]),
    ])
}

#[test]
fn past_the_array(rt: HostRuntime) -> Result<(), Fail> {
    let mut v = TinyVec::from_array_len(rt.alloc(), [1, 2, 3, 0], 3);
    let is_moved = splices!(v, 1..2, [7, 8, 9], [next_back Some(2)], None);
    granted_steps(!is_moved, &[lies(&v, &[1, 7, 8, 9, 3], false)])
}

#[test]
fn on_the_heap(rt: HostRuntime) -> Result<(), Fail> {
    let Ok(mut v) = TinyVec::<[i32; 4]>::from_slice(rt.alloc(), &[1, 2, 3, 4, 5]) else {
        return granted_steps(true, &[]);
    };
    let mut is_placed = false;
    if v.len() == 5 {
        is_placed = splices!(v, 1..4, [7], [next_back Some(4), next Some(2)], None);
    }
    all_steps(&[is_placed & lies(&v, &[1, 7, 5], false)])
}

// What found no room comes back: the list is as long as it was, inline.
#[test]
fn refused_a_move(rt: HostRuntime) -> Result<(), Fail> {
    let mut v = TinyVec::from_array_len(rt.alloc(), [1, 2, 3, 0], 3);
    let is_refused = splices!(v, 1..2, [7, 8, 9], [next_back Some(2)], Some((8, None)));
    let left = if is_refused {
        lies(&v, &[1, 7, 9, 3], true)
    } else {
        lies(&v, &[1, 7, 8, 9, 3], false)
    };
    all_steps(&[left])
}
