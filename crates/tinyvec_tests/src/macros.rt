//! `array_vec!` and `tiny_vec!` in their forms. One that drops an item, or is not read, would pass the check: a macro has no
//! contract.
use crate::lists::{holds, lies, lies_before};
use crate::steps::{all_steps, counted, granted_steps};
use std::alloc::AllocError;
use std::cell::Cell;
use std::test::Fail;
use tinyvec::{Array, ArrayVec, TinyVec, array_vec, tiny_vec};

#[test]
fn of_an_array(rt: HostRuntime) -> Result<(), Fail> {
    let inferred: ArrayVec<[i32; 4]> = array_vec!(1, 2);
    let comma: ArrayVec<[u8; 3]> = array_vec!(1, 2,);
    let none: ArrayVec<[i32; 2]> = array_vec!();
    all_steps(&[
        holds(&array_vec!([i32; 4] => 1, 2), &[1, 2], &[0, 0]),
        holds(&array_vec!([i32; 2] =>), &[], &[0, 0]),
        holds(&array_vec!([i32; 2]), &[], &[0, 0]),
        holds(&inferred, &[1, 2], &[0, 0]),
        holds(&comma, &[1, 2], &[0]),
        holds(&none, &[], &[0, 0]),
        holds(&array_vec!(5; 3), &[5, 5, 5], &[]),
    ])
}

// Whether a list was made of these items, inline before these spare slots.
fn makes<A: Array, E: Drop>(
    made: Result<TinyVec<A>, E>,
    items: &[A::Item],
    spare: &[A::Item],
) -> bool
where
    A::Item: PartialEq,
{
    match made {
        Ok(v) => lies_before(&v, items, spare),
        Err(_) => false,
    }
}

// The same on the heap.
fn makes_on_the_heap<A: Array, E: Drop>(made: Result<TinyVec<A>, E>, items: &[A::Item]) -> bool
where
    A::Item: PartialEq,
{
    match made {
        Ok(v) => lies(&v, items, false),
        Err(_) => false,
    }
}

type OfTwo = Result<TinyVec<[i32; 2]>, AllocError>;

#[test]
fn of_a_tiny_vec(rt: HostRuntime) -> Result<(), Fail> {
    let alloc = rt.alloc();
    let three = tiny_vec!(alloc; [i32; 2] => 1, 2, 3);
    let two: OfTwo = tiny_vec!(alloc; 1, 2,);
    let empty: OfTwo = tiny_vec!(alloc;);
    granted_steps(
        three.is_err(),
        &[
            makes(tiny_vec!(alloc; [i32; 3] => 1, 2), &[1, 2], &[0]),
            makes(tiny_vec!(alloc; [i32; 2] => 1, 2,), &[1, 2], &[]),
            makes_on_the_heap(three, &[1, 2, 3]),
            makes(tiny_vec!(alloc; [i32; 2] =>), &[], &[0, 0]),
            makes(tiny_vec!(alloc; [i32; 2]), &[], &[0, 0]),
            makes(two, &[1, 2], &[]),
            makes(empty, &[], &[0, 0]),
            makes(tiny_vec!(alloc; 5; 3), &[5, 5, 5], &[]),
        ],
    )
}

type Four = Result<TinyVec<[u8; 4]>, AllocError>;

#[test]
fn equal_by_each_form(rt: HostRuntime) -> Result<(), Fail> {
    let alloc = rt.alloc();
    let mut pushed = ArrayVec::<[i32; 3]>::new();
    let two = pushed.try_push(1).is_none() & pushed.try_push(2).is_none();
    let three = two & pushed.try_push(3).is_none();
    let listed: ArrayVec<[i32; 3]> = array_vec!(1, 2, 3);
    let (repeated, inferred): (Four, Four) = (
        tiny_vec!(alloc; 0u8; 4),
        tiny_vec!(alloc; 0, 0, 0, 0),
    );
    let named = tiny_vec!(alloc; [u8; 4] => 0, 0, 0, 0);
    let is_equal = (repeated == inferred) & (repeated == named);
    all_steps(&[
        three & (pushed == listed),
        is_equal & makes(repeated, &[0, 0, 0, 0], &[]),
    ])
}

// An item that is not `Copy`.
#[derive(Default, Drop, PartialEq)]
struct Own(u8);

#[test]
fn of_an_item_that_is_moved(rt: HostRuntime) -> Result<(), Fail> {
    let (x, y) = (Own(7), Own(8));
    let array = array_vec!([Own; 10] => x);
    let tiny = tiny_vec!(rt.alloc(); [Own; 10] => y);
    let is_moved = match tiny {
        Ok(v) => lies(&v, &[Own(8)], true),
        Err(_) => false,
    };
    all_steps(&[array.as_slice() == [Own(7)].as_slice(), is_moved])
}

/// An item that is evaluated twice, or out of turn, would pass the check.
#[test]
fn once_each_in_order(rt: HostRuntime) -> Result<(), Fail> {
    let alloc = rt.alloc();
    let count = Cell::new(0);
    let array: ArrayVec<[i32; 3]> = array_vec!(counted(&count), counted(&count));
    let same = array_vec!(counted(&count); 2);
    let inline: OfTwo = tiny_vec!(alloc; counted(&count), counted(&count));
    let heap: Result<TinyVec<[i32; 1]>, AllocError> =
        tiny_vec!(alloc; counted(&count), counted(&count));
    granted_steps(
        heap.is_err(),
        &[
            holds(&array, &[1, 2], &[0]),
            holds(&same, &[3, 3], &[]),
            makes(inline, &[4, 5], &[]),
            makes_on_the_heap(heap, &[6, 7]),
            count.get() == 7,
        ],
    )
}
