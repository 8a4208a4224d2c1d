//! A call that asks for memory twice, or for more room than it should, would pass the check. Each test here says how many requests it
//! makes, one a call, which `tests/refuse` counts.
use crate::steps::granted_steps;
use std::test::Fail;
use tinyvec::TinyVec;

type Two = TinyVec<[i32; 2]>;

// Makes each call of a full list: how many there are, whether all were granted, and whether each list has this capacity then.
macro_rules! each {
    ($alloc:ident, $capacity:literal, $($v:ident => $call:expr,)*) => {{
        let mut are_granted = true;
        let mut is_right = true;
        let mut calls = 0;
        $(
            let mut $v = Two::from_array($alloc, [1, 2]);
            are_granted &= $call.is_ok();
            is_right &= $v.capacity() == $capacity;
            calls += 1;
        )*
        (calls, are_granted, is_right)
    }};
}

// Ends a test of so many requests.
fn asked(rt: &impl Print, calls: u32, are_granted: bool, is_right: bool) -> Result<(), Fail> {
    println!(rt; "{calls} requests")?;
    granted_steps(!are_granted, &[is_right])
}

// One item more than there is room for doubles the capacity.
#[test]
fn of_one_item(rt: HostRuntime) -> Result<(), Fail> {
    let alloc = rt.alloc();
    let (calls, are_granted, is_right) = each! {
        alloc, 4,
        v => v.push(3),
        v => v.push_mut(3),
        v => v.insert(2, 3),
        v => v.insert_mut(1, 3),
        v => v.extend([3]),
        v => v.splice_all(2.., [3]),
        v => v.splice(2.., [3]).finish(),
    };
    asked(&rt, calls, are_granted, is_right)
}

// If the need is known the capacity is just that.
#[test]
fn of_as_many_items(rt: HostRuntime) -> Result<(), Fail> {
    let alloc = rt.alloc();
    let (calls, are_granted, is_right) = each! {
        alloc, 3,
        v => v.extend_from_slice(&[3]),
        v => v.extend_from_slice_copy(&[3]),
        v => v.extend_from_within(1..),
        v => v.extend_exact_size([3]),
        v => v.resize(3, 3),
        v => v.resize_with(3, || 3),
        v => v.replace_range(2.., &[3]),
        v => v.append(&mut TinyVec::from_array_len(alloc, [3, 0], 1)),
    };
    asked(&rt, calls, are_granted, is_right)
}

#[test]
fn of_room(rt: HostRuntime) -> Result<(), Fail> {
    let alloc = rt.alloc();
    let (calls, are_granted, is_right) = each! {
        alloc, 7,
        v => v.reserve(5),
        v => v.try_reserve(5),
        v => v.reserve_exact(5),
        v => v.try_reserve_exact(5),
        v => v.move_to_the_heap_and_reserve(5),
        v => v.try_move_to_the_heap_and_reserve(5),
    };
    let (moves, are_moved, is_exact) = each! {
        alloc, 2,
        v => v.move_to_the_heap(),
        v => v.try_move_to_the_heap(),
    };
    asked(
        &rt,
        calls + moves,
        are_granted & are_moved,
        is_right & is_exact,
    )
}

// Room that is given back, to what is to be kept and then to the list: a request each, but for the move into the array.
#[test]
fn of_less_room(rt: HostRuntime) -> Result<(), Fail> {
    let mut v = Two::from_array(rt.alloc(), [1, 2]);
    let is_granted = v.reserve(98).is_ok();
    v.shrink_to(50);
    let is_less = v.capacity() == 50;
    v.shrink_to(3);
    let is_least = v.capacity() == 3;
    v.shrink_to_fit();
    asked(&rt, 3, is_granted & is_less & is_least, v.is_inline())
}
