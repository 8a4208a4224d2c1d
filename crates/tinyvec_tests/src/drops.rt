//! A call that drops an item twice, never, or in another order than the list's would pass the check: the logic has no drops.
use crate::steps::all_steps;
use std::alloc::Global;
use std::cell::Cell;
use std::test::Fail;
use tinyvec::{ArrayVec, SliceVec, TinyVec};

// Writes its digit at the end of a number when it is dropped.
struct Noted<'a> {
    digit: u32,
    order: &'a Cell<u32>,
}

impl Drop for Noted<'_> {
    fn drop(self) {
        let Noted { digit, order } = self;
        order.set(order.get().wrapping_mul(10).wrapping_add(digit));
    }
}

type Eight<'a> = [Option<Noted<'a>>; 8];

fn eight(order: &Cell<u32>) -> Eight<'_> {
    let noted = |digit| Some(Noted { digit, order });
    [1, 2, 3, 4, 5, 6, 7, 8].map(noted)
}

// Whether calls drop each of eight items once and, except for a drain and `retain`, in the order of the list.
macro_rules! cut_in_order {
    ($order:ident, $eight:expr) => {{
        let mut v = $eight;
        v.truncate(6);
        let truncated = $order.replace(0);
        v.drain(..v.len().min(2));
        let drained = $order.replace(0);
        v.retain(|it| matches!(it, Some(Noted { digit: 5.., .. })));
        let filtered = $order.replace(0);
        v.clear();
        let is_drained = (drained == 12) | (drained == 21);
        let is_filtered = (filtered == 34) | (filtered == 43);
        (truncated == 78) & is_drained & is_filtered & ($order.replace(0) == 56)
    }};
}

// The same of the end of an iterator that owns its items, and of the end of a vector.
macro_rules! end_in_order {
    ($order:ident, $eight:expr, $others:expr) => {{
        let mut items = $eight.into_iter();
        let first = items.next();
        drop(items);
        drop(first);
        let taken = $order.replace(0);
        drop($others);
        (taken == 23456781) & ($order.replace(0) == 12345678)
    }};
}

fn array(order: &Cell<u32>) -> ArrayVec<Eight<'_>> {
    ArrayVec::from_array(eight(order))
}

#[test]
fn cut_of_an_array(rt: HostRuntime) -> Result<(), Fail> {
    let order = Cell::new(0);
    all_steps(&[cut_in_order!(order, array(&order))])
}

#[test]
fn end_of_an_array(rt: HostRuntime) -> Result<(), Fail> {
    let order = Cell::new(0);
    all_steps(&[end_in_order!(order, array(&order), array(&order))])
}

fn tiny(alloc: Global, order: &Cell<u32>, inline: bool) -> TinyVec<Eight<'_>> {
    let mut v = TinyVec::from_array(alloc, eight(order));
    let _granted = inline || v.move_to_the_heap().is_ok();
    v
}

#[test]
fn cut_of_a_tiny_vec(rt: HostRuntime) -> Result<(), Fail> {
    let (order, alloc) = (Cell::new(0), rt.alloc());
    let mut is_right = true;
    for inline in [true, false] {
        is_right &= cut_in_order!(order, tiny(alloc, &order, inline));
    }
    all_steps(&[is_right])
}

#[test]
fn end_of_a_tiny_vec(rt: HostRuntime) -> Result<(), Fail> {
    let (order, alloc) = (Cell::new(0), rt.alloc());
    let mut is_right = true;
    for inline in [true, false] {
        let (taken, ended) = (tiny(alloc, &order, inline), tiny(alloc, &order, inline));
        is_right &= end_in_order!(order, taken, ended);
    }
    all_steps(&[is_right])
}

#[test]
fn end_of_lent_slots(rt: HostRuntime) -> Result<(), Fail> {
    let order = Cell::new(0);
    let mut slots = eight(&order);
    let mut v = SliceVec::from_slice_len(&mut slots, 8);
    v.truncate(6);
    let truncated = order.replace(0);
    drop(v);
    let ended = order.replace(0);
    drop(slots);
    all_steps(&[truncated == 78, ended == 0, order.get() == 123456])
}
