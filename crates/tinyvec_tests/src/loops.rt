//! A loop over a vector that is lent for writing, and that lends a slot twice or not at all, would pass the check: no clause says
//! what items it leaves.
use crate::lists::{holds, lies_before};
use crate::steps::all_steps;
use std::test::Fail;
use tinyvec::{ArrayVec, SliceVec, TinyVec};

#[test]
fn over_vectors(rt: HostRuntime) -> Result<(), Fail> {
    let mut array = ArrayVec::from_array_len([1_u8, 2, 3, 8], 3);
    for x in array.iter_mut().rev() {
        *x = x.wrapping_add(10);
    }
    for x in &mut array {
        *x = x.wrapping_mul(2);
    }
    let mut tiny = TinyVec::from_array_len(rt.alloc(), [1_u8, 2, 7], 2);
    for x in &mut tiny {
        *x = x.wrapping_mul(2);
    }
    all_steps(&[
        holds(&array, &[22, 24, 26], &[8]),
        lies_before(&tiny, &[2, 4], &[7]),
    ])
}

#[test]
fn over_lent_slots(rt: HostRuntime) -> Result<(), Fail> {
    let mut slots = [1_u8, 2, 3];
    let mut count = 0_u8;
    for x in SliceVec::from_slice_len(&mut slots, 2) {
        *x = x.wrapping_add(10);
        count = count.wrapping_add(1);
    }
    all_steps(&[count == 2, slots == [11, 12, 3]])
}
