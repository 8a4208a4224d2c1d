//! A block that is lost where a request is refused, a call that stays refused once memory is there again, and an item that a
//! macro evaluates too early would pass the check. `tests/refuse` refuses each request in turn, and counts the blocks.
use crate::steps::{all_right, counted, first};
use std::alloc::{AllocError, Global};
use std::cell::Cell;
use std::test::Fail;
use tinyvec::{ArrayVec, TinyVec, tiny_vec};

// An item that owns memory, as a clone of it does.
type Owned = Option<Box<i32>>;

type Boxes = TinyVec<[Owned; 2]>;

// Calls that may allocate, and that would lose items of two vectors.
#[derive(Clone, Copy)]
enum Call {
    Append,
    Extend,
    IntoVec,
    Splice,
}

const CALLS: [Call; 4] = [Call::Append, Call::Extend, Call::IntoVec, Call::Splice];

// A full array. An item without memory is none.
fn two(alloc: Global) -> ArrayVec<[Owned; 2]> {
    ArrayVec::from_array([Box::new(alloc, 1).ok(), Box::new(alloc, 2).ok()])
}

impl Call {
    // Whether the call is granted memory.
    fn is_granted(self, alloc: Global, v: &mut Boxes) -> bool {
        let mut other = TinyVec::Inline(two(alloc), alloc);
        match self {
            Call::Append => v.append(&mut other).is_ok(),
            Call::Extend => v.extend(other).is_ok(),
            Call::IntoVec => other.into_vec().is_ok(),
            Call::Splice => v.splice(..0, other).finish().is_ok(),
        }
    }

    // If the call is refused memory, whether it is granted it then.
    fn is_granted_then(self, alloc: Global, inline: bool) -> Option<bool> {
        let mut v = TinyVec::Inline(two(alloc), alloc);
        let is_placed = inline || v.move_to_the_heap().is_ok();
        if !is_placed || self.is_granted(alloc, &mut v) {
            None
        } else {
            Some(self.is_granted(alloc, &mut v))
        }
    }
}

// Ends a test. The script asks each test here to say that it met a refusal.
fn told(rt: &impl Print, is_refused: bool, wrong: u32) -> Result<(), Fail> {
    if is_refused {
        println!(rt; "refused")?;
    }
    all_right(wrong)
}

// Ends a test of all calls.
fn refused_once(rt: &impl Print, alloc: Global, inline: bool) -> Result<(), Fail> {
    let mut is_refused = false;
    let mut wrong = 0;
    let mut step = 0_u32;
    for call in CALLS {
        step = step.wrapping_add(1);
        if let Some(is_granted) = call.is_granted_then(alloc, inline) {
            is_refused = true;
            wrong = first(wrong, step, is_granted);
        }
    }
    told(rt, is_refused, wrong)
}

#[test]
fn of_an_inline_list(rt: HostRuntime) -> Result<(), Fail> {
    refused_once(&rt, rt.alloc(), true)
}

#[test]
fn of_a_list_on_the_heap(rt: HostRuntime) -> Result<(), Fail> {
    refused_once(&rt, rt.alloc(), false)
}

fn listed(alloc: Global, count: &Cell<i32>) -> Result<TinyVec<[i32; 3]>, AllocError> {
    tiny_vec!(alloc; [i32; 3] => counted(count), counted(count), 3, 4)
}

fn listed_by_its_place(alloc: Global, count: &Cell<i32>) -> Result<TinyVec<[i32; 1]>, AllocError> {
    tiny_vec!(alloc; counted(count), counted(count))
}

// No item is evaluated before there is room for all, and each is evaluated once.
#[test]
fn of_items_that_a_macro_lists(rt: HostRuntime) -> Result<(), Fail> {
    let count = Cell::new(0);
    let is_refused = listed(rt.alloc(), &count).is_err();
    let wanted = if is_refused { 0 } else { 2_i32 };
    let mut wrong = first(0, 1, count.get() == wanted);
    let is_placed = listed_by_its_place(rt.alloc(), &count).is_ok();
    let more = if is_placed { 2 } else { 0_i32 };
    wrong = first(wrong, 2, count.get() == more.wrapping_add(wanted));
    told(&rt, is_refused | !is_placed, wrong)
}
