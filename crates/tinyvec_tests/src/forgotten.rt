//! A drain that is never dropped, and loses an item before its range or moves the list, would pass the check: no clause says
//! what it leaves.
use crate::steps::all_steps;
use std::mem;
use std::test::Fail;
use tinyvec::{ArrayVec, TinyVec};

#[test]
fn drains(rt: HostRuntime) -> Result<(), Fail> {
    let mut array = ArrayVec::from_array([1, 2, 3, 4]);
    let mut tiny = TinyVec::from_array(rt.alloc(), [1, 2, 3, 4]);
    mem::forget(array.drain(1..3));
    mem::forget(tiny.drain(1..3));
    all_steps(&[
        array.as_slice() == [1, 4].as_slice(),
        tiny.is_inline() & (tiny.capacity() == 4),
        tiny.as_slice().first() == Some(&1),
    ])
}
