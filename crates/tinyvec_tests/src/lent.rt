//! What the owner of lent slots sees after calls of which no clause says it. A vector over other slots, and a call that writes to
//! the slots of a slice which it refuses, would pass the check. So would a longer list than there are slots: no vector has one.
use crate::steps::all_steps;
use std::test::Fail;
use tinyvec::{SliceVec, Slots};

// Adds 10 to each item.
fn write(mut v: SliceVec<'_, u8>) {
    for x in v.iter_mut() {
        *x = x.wrapping_add(10);
    }
}

#[test]
fn of_all_slots(rt: HostRuntime) -> Result<(), Fail> {
    let mut slots = [1, 2, 3];
    write(SliceVec::from(slots.as_mut_slice()));
    let is_slice = slots == [11, 12, 13];
    write(SliceVec::from(&mut slots));
    let is_array = slots == [21, 22, 23];
    write(SliceVec::try_from_slice_len(&mut slots, 2).unwrap_or_default());
    let is_front = slots == [31, 32, 23];
    SliceVec::from_slice_len(&mut slots, 1).as_mut_inner()[2] = 33;
    let is_inner = slots == [31, 32, 33];
    let is_refused = SliceVec::try_from_slice_len(&mut slots[..2], 3).is_none();
    all_steps(&[
        is_slice,
        is_array,
        is_front,
        is_inner,
        is_refused,
        slots == [31, 32, 33],
    ])
}

/// A part over slots of the other would pass it too: each item of each part is written, and one is pushed to the second.
#[test]
fn split_off_parts_write_their_own_slots(rt: HostRuntime) -> Result<(), Fail> {
    let mut is_right = true;
    for at in 0..5 {
        let mut slots = [0, 0, 0, 0, 0];
        let mut first = SliceVec::from_slice_len(&mut slots, 4);
        let mut second = first.split_off(at);
        first.as_mut_slice().fill(1);
        second.as_mut_slice().fill(2);
        if !second.is_full() {
            second.push(3);
        }
        let mut wanted = [2, 2, 2, 2, 3];
        wanted[..at].fill(1);
        is_right &= slots == wanted;
    }
    all_steps(&[is_right])
}

#[test]
fn lists_of_up_to_all_slots(rt: HostRuntime) -> Result<(), Fail> {
    let mut slots = [1, 2, 3];
    let lent = slots.as_mut_slice();
    all_steps(&[
        lent.used(&2) == 2,
        lent.used(&3) == 3,
        lent.used(&4) == 3,
        lent.used(&usize::MAX) == 3,
    ])
}
