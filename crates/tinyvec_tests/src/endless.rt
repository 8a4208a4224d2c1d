//! A call that takes an endless iterator and does not return, one that asks it for more than one item beyond those placed, and a
//! block that is lost, of an item that found no room or of one that a stopped splice removed, would pass the check.
//! `tests/refuse` counts the blocks.
use crate::lists::holds;
use crate::steps::all_steps;
use std::alloc::Global;
use std::test::Fail;
use tinyvec::{ArrayVec, FromIterRest, SliceVec};

// An item that owns memory, or was refused it.
type Owned = Option<Box<u8>>;

// Yields items that own the numbers from the next one on, and starts anew after the greatest.
#[derive(Drop)]
struct Numbers {
    alloc: Global,
    next: u8,
}

impl Iterator for Numbers {
    type Item = Owned;

    fn next(&mut self) -> Option<Owned> {
        let number = self.next;
        self.next = number.wrapping_add(1);
        Some(Box::new(self.alloc, number).ok())
    }
}

fn endless(alloc: Global) -> Numbers {
    Numbers { alloc, next: 0 }
}

// Whether an array of two slots is made of two items, and the rest goes on after one more.
fn is_made_of_two(alloc: Global) -> bool {
    match ArrayVec::<[Owned; 2]>::from_iter(endless(alloc)) {
        Ok(_) => false,
        Err(FromIterRest { vec, item: _, rest }) => vec.is_full() & (rest.next == 3),
    }
}

#[test]
fn into_an_array(rt: HostRuntime) -> Result<(), Fail> {
    let alloc = rt.alloc();
    let mut v = ArrayVec::<[Owned; 3]>::new();
    let is_filled = v.fill(endless(alloc)).next == 3;
    let is_refused = match v.extend(endless(alloc)) {
        Ok(()) => false,
        Err(refused) => refused.rest.next == 1,
    };
    all_steps(&[is_filled, is_refused, is_made_of_two(alloc)])
}

#[test]
fn a_replacement_without_end(rt: HostRuntime) -> Result<(), Fail> {
    let mut v = ArrayVec::from_array_len([1, 2, 0, 0], 2);
    let left = match v.splice(1..2, 5..).finish() {
        Ok(()) => None,
        Err(mut refused) => Some((refused.item, refused.rest.next())),
    };
    all_steps(&[left == Some((8, Some(9))), holds(&v, &[1, 5, 6, 7], &[])])
}

#[test]
fn in_the_place_of_a_list(rt: HostRuntime) -> Result<(), Fail> {
    let mut v = ArrayVec::<[Owned; 3]>::new();
    let is_refused = v.splice(.., endless(rt.alloc())).finish().is_err();
    let mut splice = v.splice(.., endless(rt.alloc()));
    let is_taken = splice.next().is_some();
    let is_stopped = splice.stop().next().is_some();
    all_steps(&[is_refused & is_taken, is_stopped & (v.len() == 1)])
}

#[test]
fn into_lent_slots(rt: HostRuntime) -> Result<(), Fail> {
    let mut slots: [Owned; 2] = [None, None];
    let mut v = SliceVec::from_slice_len(&mut slots, 0);
    let is_filled = v.fill(endless(rt.alloc())).next == 2;
    v.clear();
    let is_refused = v.extend(endless(rt.alloc())).is_err() & v.is_full();
    all_steps(&[is_filled, is_refused])
}
