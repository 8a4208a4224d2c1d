//! A `TinyVec` that lies elsewhere, or holds other items, by a contract with the same mistake, would pass the check, and so would a
//! call that gives up where memory is granted. The values are worked out by hand.
ghost use Rattle.std.specs.Iterator.{at_most};

use crate::lists::lies;
use crate::steps::{all_steps, granted_steps};
use std::alloc::{AllocError, Global};
use std::io::Write;
use std::test::Fail;
use tinyvec::{NoMemory, TinyVec};

#[test]
fn without_slots(rt: HostRuntime) -> Result<(), Fail> {
    let mut v = TinyVec::<[i32; 0]>::new(rt.alloc());
    let mut granted = v.push(5).is_ok();
    let is_pushed = lies(&v, &[5], false);
    let mut w = TinyVec::<[i32; 0]>::new(rt.alloc());
    let stays = w.reserve(0).is_ok() & w.is_inline();
    granted &= w.reserve(1).is_ok();
    let is_moved = w.is_heap();
    w.shrink_to_fit();
    granted_steps(!granted, &[is_pushed, stays, is_moved, w.is_inline()])
}

#[test]
fn to_the_heap_and_back(rt: HostRuntime) -> Result<(), Fail> {
    let Ok(mut v) = TinyVec::<[i32; 2]>::from_slice(rt.alloc(), &[1, 2, 3]) else {
        return granted_steps(true, &[]);
    };
    let was_heap = v.is_heap();
    let is_popped = (v.pop() == Some(3)) & v.is_heap();
    v.shrink_to_fit();
    let mut one = TinyVec::from_array_len(rt.alloc(), [1, 0, 0, 0], 1);
    let is_refused = one.try_reserve(usize::MAX) == Err(AllocError);
    all_steps(&[
        was_heap & is_popped,
        lies(&v, &[1, 2], true),
        is_refused & lies(&one, &[1], true),
    ])
}

#[test]
fn joined_and_split(rt: HostRuntime) -> Result<(), Fail> {
    let mut v = TinyVec::from_array_len(rt.alloc(), [1, 2, 0, 0], 2);
    let mut other = TinyVec::from_array_len(rt.alloc(), [3, 4, 0, 0], 2);
    let mut granted = other.move_to_the_heap().is_ok();
    granted &= v.append(&mut other).is_ok();
    let is_joined = lies(&v, &[1, 2, 3, 4], true) & lies(&other, &[], false);
    granted &= v.insert(v.len().min(1), 9).is_ok();
    let is_inserted = lies(&v, &[1, 9, 2, 3, 4], false);
    let are_split = match v.split_off(v.len().min(4)) {
        Ok(tail) => lies(&v, &[1, 9, 2, 3], false) & lies(&tail, &[4], false),
        Err(_) => false,
    };
    granted_steps(!granted | !are_split, &[is_joined, is_inserted])
}

#[test]
fn cloned_over_in_their_place(rt: HostRuntime) -> Result<(), Fail> {
    let Ok(three) = TinyVec::<[i32; 2]>::from_slice(rt.alloc(), &[7, 8, 9]) else {
        return granted_steps(true, &[]);
    };
    let mut v = TinyVec::from_array_len(rt.alloc(), [1, 0], 1);
    let mut granted = v.clone_from(&three).is_ok();
    let is_moved = lies(&v, &[7, 8, 9], false);
    granted &= v
        .clone_from(&TinyVec::from_array_len(rt.alloc(), [5, 0], 1))
        .is_ok();
    granted_steps(!granted, &[is_moved, lies(&v, &[5], false)])
}

fn one_two(alloc: Global) -> TinyVec<[i32; 2]> {
    TinyVec::from_array(alloc, [1, 2])
}

// Calls that make an inline list of 1 and 2 one of 3 items, on the heap. Whether one was refused, and whether each left it so.
macro_rules! grow {
    ($alloc:ident, $($v:ident => $call:expr,)*) => {{
        let mut are_granted = true;
        let mut is_right = true;
        $(
            let mut $v = one_two($alloc);
            are_granted &= $call.is_ok();
            is_right &= lies(&$v, &[1, 2, 3], false);
        )*
        (are_granted, is_right)
    }};
}

#[test]
fn grown_past_the_array(rt: HostRuntime) -> Result<(), Fail> {
    let alloc = rt.alloc();
    let mut three = TinyVec::from_array_len(alloc, [3, 0], 1);
    let (are_granted, is_right) = grow! {
        alloc,
        v => v.append(&mut three),
        v => v.extend_from_slice(&[3]),
        v => v.extend(3..=3),
        v => v.resize(3, 3),
        v => v.resize_with(3, || 3),
    };
    granted_steps(!are_granted, &[is_right])
}

#[test]
fn taken_apart(rt: HostRuntime) -> Result<(), Fail> {
    let (Ok(items), Ok(boxed)) = (
        one_two(rt.alloc()).into_vec(),
        one_two(rt.alloc()).into_boxed_slice(),
    ) else {
        return granted_steps(true, &[]);
    };
    all_steps(&[
        items.as_slice() == [1, 2].as_slice(),
        boxed.as_slice() == [1, 2].as_slice(),
    ])
}

// Whether a list was made of these items, in this place. `None` says that memory was refused.
macro_rules! makes {
    ($made:expr, $items:expr, $inline:expr) => {
        match $made {
            Ok(v) => Some(lies(&v, $items, $inline)),
            Err(_) => None,
        }
    };
}

type OfTwo = TinyVec<[i32; 2]>;

type OfFour = TinyVec<[i32; 4]>;

type OfTen = TinyVec<[i32; 10]>;

#[test]
fn made(rt: HostRuntime) -> Result<(), Fail> {
    let alloc = rt.alloc();
    let of_a_slice = OfTwo::from_slice(alloc, &[1, 2, 3]);
    let cloned = match &of_a_slice {
        Ok(v) => makes!(v.clone(), &[1, 2, 3], false),
        Err(_) => None,
    };
    let made = [
        makes!(of_a_slice, &[1, 2, 3], false),
        makes!(OfTwo::from_iter(alloc, 1..4), &[1, 2, 3], false),
        makes!(OfTwo::with_initial_len(alloc, 3), &[0, 0, 0], false),
        makes!(OfFour::with_capacity(alloc, 4), &[], true),
        makes!(OfFour::with_capacity(alloc, 5), &[], false),
        makes!(OfTen::with_capacity(alloc, 5), &[], true),
        makes!(OfTen::with_capacity(alloc, 20), &[], false),
        makes!(OfTen::with_initial_len(alloc, 5), &[0; 5], true),
        makes!(OfTen::with_initial_len(alloc, 20), &[0; 20], false),
        makes!(
            TinyVec::<[u8; 10]>::from_slice(alloc, b"hello world"),
            b"hello world",
            false
        ),
        makes!(
            TinyVec::<[u8; 10]>::from_slice(alloc, b"hello"),
            b"hello",
            true
        ),
        makes!(
            TinyVec::<[u8; 4]>::from_slice(alloc, b"abcd"),
            b"abcd",
            true
        ),
        cloned,
    ];
    let mut is_refused = false;
    let mut is_right = true;
    for it in made {
        is_refused |= it.is_none();
        is_right &= it != Some(false);
    }
    let whole = TinyVec::from_array(alloc, [9, 8, 7, 6, 5, 4, 3, 2, 1]);
    granted_steps(
        is_refused,
        &[is_right, lies(&whole, &[9, 8, 7, 6, 5, 4, 3, 2, 1], true)],
    )
}

// Yields so many numbers, and hints at none.
#[derive(Drop)]
struct Silent {
    next: i32,
    left: usize,
}

impl Iterator for Silent {
    type Item = i32;

    ghost remaining = { λ s. at_most s.left };

    fn next(&mut self) -> Option<i32> {
        if self.left == 0 {
            return None;
        }
        let number = self.next;
        self.next = number.wrapping_add(1);
        self.left -= 1;
        Some(number)
    }
}

#[test]
fn extended_without_a_hint(rt: HostRuntime) -> Result<(), Fail> {
    let mut v = TinyVec::from_array_len(rt.alloc(), [1, 0, 0, 0], 1);
    let mut granted = v.extend(Silent { next: 2, left: 1 }).is_ok();
    let mut longer = TinyVec::from_array_len(rt.alloc(), [1, 0, 0, 0], 1);
    granted &= longer.extend(Silent { next: 2, left: 4 }).is_ok();
    granted_steps(
        !granted,
        &[
            lies(&v, &[1, 2], true),
            lies(&longer, &[1, 2, 3, 4, 5], false),
        ],
    )
}

// Calls that make room: of two items in four slots for two more, which there are, for four, and of six on the heap for four.
macro_rules! reserves {
    ($alloc:ident, $reserve:ident) => {{
        let mut v = TinyVec::from_array_len($alloc, [1, 2, 0, 0], 2);
        let mut is_right = v.$reserve(2).is_ok() & lies(&v, &[1, 2], true) & (v.capacity() == 4);
        let mut are_granted = v.$reserve(4).is_ok();
        is_right &= v.capacity() >= 6;
        are_granted &= v.extend_from_slice(&[3, 4, 5, 6]).is_ok() && v.$reserve(4).is_ok();
        (are_granted, is_right & (v.capacity() >= 10) & lies(&v, &[1, 2, 3, 4, 5, 6], false))
    }};
}

#[test]
fn with_room(rt: HostRuntime) -> Result<(), Fail> {
    let alloc = rt.alloc();
    let made = [
        reserves!(alloc, reserve),
        reserves!(alloc, try_reserve),
        reserves!(alloc, reserve_exact),
        reserves!(alloc, try_reserve_exact),
    ];
    let mut are_granted = true;
    let mut is_right = true;
    for (granted, right) in made {
        are_granted &= granted;
        is_right &= right;
    }
    granted_steps(!are_granted, &[is_right])
}

// An empty list that moves, takes an item, shrinks, and moves again with room for three more.
macro_rules! moves_and_shrinks {
    ($alloc:ident, $move:ident, $more:expr, $move_and_reserve:ident) => {{
        let mut v = TinyVec::<[i32; 4]>::new($alloc);
        let mut are_granted = v.$move().is_ok() && v.reserve_exact($more).is_ok();
        are_granted &= v.push(1).is_ok();
        let was_heap = v.is_heap();
        v.shrink_to_fit();
        let is_back = lies(&v, &[1], true);
        are_granted &= v.$move_and_reserve(3).is_ok();
        let has_room = v.is_heap() & (v.capacity() >= 4);
        are_granted &= v.extend(2..=4).is_ok();
        (are_granted, was_heap & is_back & has_room & lies(&v, &[1, 2, 3, 4], false))
    }};
}

#[test]
fn moved_and_shrunk(rt: HostRuntime) -> Result<(), Fail> {
    let alloc = rt.alloc();
    let (first, is_right) = moves_and_shrinks!(
        alloc,
        move_to_the_heap,
        0,
        move_to_the_heap_and_reserve
    );
    let (second, is_same) = moves_and_shrinks!(
        alloc,
        try_move_to_the_heap,
        1,
        try_move_to_the_heap_and_reserve
    );
    granted_steps(!(first & second), &[is_right, is_same])
}

// One slot, and room for more on the heap.
#[test]
fn of_a_capacity(rt: HostRuntime) -> Result<(), Fail> {
    let mut v = TinyVec::<[i32; 1]>::new(rt.alloc());
    let is_one = v.capacity() == 1;
    let mut other = TinyVec::from_array(rt.alloc(), [1, 2, 3, 4]);
    let mut granted = v.move_to_the_heap().is_ok();
    granted &= v.extend_from_slice(other.as_slice()).is_ok();
    other.clear();
    let has_room = (v.capacity() >= 4) & lies(&v, &[1, 2, 3, 4], false);
    let mut ten = TinyVec::<[i32; 10]>::new(rt.alloc());
    granted &= ten.resize(20, 5).is_ok();
    granted_steps(!granted, &[is_one, has_room, lies(&ten, &[5; 20], false)])
}

// Each call of a full list is refused its first request or granted it, and leaves then what it should.
#[test]
fn of_a_full_list(rt: HostRuntime) -> Result<(), Fail> {
    let alloc = rt.alloc();
    let four = [1, 2, 3, 4];
    let mut a = TinyVec::from_array(alloc, four);
    let pushed = match a.push(5) {
        Ok(()) => lies(&a, &[1, 2, 3, 4, 5], false),
        Err(NoMemory(item)) => (item == 5) & lies(&a, &four, true),
    };
    let mut b = TinyVec::from_array(alloc, four);
    let reserved = if b.try_reserve(1).is_ok() {
        lies(&b, &four, false)
    } else {
        lies(&b, &four, true)
    };
    let mut c = TinyVec::from_array(alloc, four);
    let moved = if c.move_to_the_heap().is_ok() {
        lies(&c, &four, false)
    } else {
        lies(&c, &four, true)
    };
    let taken = match TinyVec::from_array(alloc, four).into_vec() {
        Ok(items) => items.as_slice() == four.as_slice(),
        Err(NoMemory(back)) => lies(&back, &four, true),
    };
    all_steps(&[pushed, reserved, moved, taken])
}

// Calls that need no more room succeed, whatever is refused.
#[test]
fn within_its_room(rt: HostRuntime) -> Result<(), Fail> {
    let mut v = TinyVec::from_array(rt.alloc(), [1, 2, 3, 4]);
    let is_popped = v.pop() == Some(4);
    let is_pushed = v.push(6).is_ok() & lies(&v, &[1, 2, 3, 6], true);
    v.drain(..v.len().min(3));
    v.shrink_to_fit();
    let is_drained = lies(&v, &[6], true);
    let is_moved = v.move_to_the_heap().is_ok() && v.reserve(2).is_ok();
    let are_pushed = !is_moved || v.push(7).is_ok() & v.push(8).is_ok();
    all_steps(&[is_popped & is_pushed, is_drained, are_pushed])
}

#[test]
fn written(rt: HostRuntime) -> Result<(), Fail> {
    let mut v = TinyVec::<[u8; 3]>::new(rt.alloc());
    let is_written = matches!(v.write(b"foo"), Ok(3)) & lies(&v, b"foo", true);
    let is_longer = matches!(v.write(b"bar"), Ok(3));
    let left = if is_longer {
        lies(&v, b"foobar", false)
    } else {
        lies(&v, b"foo", true)
    };
    granted_steps(!is_longer, &[is_written, left])
}
