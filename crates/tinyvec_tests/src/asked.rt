//! A hint that is read, an iterator that is asked after it ended, and a writer that is asked after it failed would pass the check.
ghost use Rattle.std.specs.Iterator.{at_most};

use crate::steps::{all_right, first, granted};
use std::alloc::Global;
use std::cell::Cell;
use std::fmt;
use std::fmt::{Display, Write};
use std::test::Fail;
use tinyvec::{ArrayVec, SliceVec, TinyVec};
use tinyvec_text::InlineText;

// Counts one more.
fn count(asked: &Cell<usize>) {
    asked.set(asked.get().wrapping_add(1));
}

// Yields an item three times, and counts how often it is asked for a hint, or for an item after it ended. Its hint says nothing,
// or promises more items than come.
#[derive(Drop)]
struct Hinting<'a, T> {
    item: T,
    promised: usize,
    kept_back: usize,
    is_silent: bool,
    is_ended: bool,
    asked: &'a Cell<usize>,
}

impl<'a, T: Copy> Iterator for Hinting<'a, T> {
    type Item = T;

    ghost remaining = { λ s. at_most s.promised };

    fn next(&mut self) -> Option<T> {
        if self.is_ended {
            count(self.asked);
            return None;
        }
        if self.promised <= self.kept_back {
            self.is_ended = true;
            return None;
        }
        self.promised -= 1;
        Some(self.item)
    }

    fn size_hint(&self) -> (usize, Option<usize>) {
        count(self.asked);
        if self.is_silent {
            return (0, None);
        }
        (self.promised, Some(self.promised))
    }
}

// It promises this many items, or is silent at 0.
fn three<T: Copy>(item: T, asked: &Cell<usize>, promised: usize) -> Hinting<'_, T> {
    Hinting {
        item,
        promised: promised.max(3),
        kept_back: promised.saturating_sub(3),
        is_silent: promised == 0,
        is_ended: false,
        asked,
    }
}

const PROMISED: [usize; 3] = [0, 4, usize::MAX];

fn fills_an_array(asked: &Cell<usize>, promised: usize) -> bool {
    let mut v = ArrayVec::<[i32; 7]>::new();
    let is_extended = v.extend(three(5, asked, promised)).is_ok();
    let is_filled = v.fill(three(5, asked, promised)).is_ended & (v.len() == 6);
    let is_spliced = v.splice_all(.., three(5, asked, promised)).is_ok() & (v.len() == 3);
    is_extended & is_filled & is_spliced
}

fn fills_lent_slots(asked: &Cell<usize>, promised: usize) -> bool {
    let mut slots = [0; 6];
    let mut v = SliceVec::from_slice_len(&mut slots, 0);
    let is_filled = v.fill(three(5, asked, promised)).is_ended & (v.len() == 3);
    is_filled & v.extend(three(5, asked, promised)).is_ok() & (v.len() == 6)
}

#[test]
fn hints_of_what_fills_slots(rt: HostRuntime) -> Result<(), Fail> {
    let asked = Cell::new(0);
    let mut wrong = 0;
    for promised in PROMISED {
        let is_made = ArrayVec::<[i32; 3]>::from_iter(three(5, &asked, promised)).is_ok();
        wrong = first(wrong, 1, fills_an_array(&asked, promised));
        wrong = first(wrong, 2, fills_lent_slots(&asked, promised));
        wrong = first(wrong, 3, is_made & (asked.get() == 0));
    }
    all_right(wrong)
}

// `None` says that memory was refused.
fn fills_a_tiny_vec(alloc: Global, asked: &Cell<usize>, promised: usize) -> Option<bool> {
    match TinyVec::from_iter(alloc, three(5, asked, promised)) {
        Ok(mut v) => extends(&mut v, asked, promised),
        Err(_) => None,
    }
}

fn extends(v: &mut TinyVec<[i32; 3]>, asked: &Cell<usize>, promised: usize) -> Option<bool> {
    let is_refused = v.extend(three(5, asked, promised)).is_err();
    let is_extended = v.len() == 6;
    if is_refused || v.splice_all(.., three(5, asked, promised)).is_err() {
        return None;
    }
    Some(is_extended & (v.len() == 3))
}

#[test]
fn hints_of_what_fills_a_tiny_vec(rt: HostRuntime) -> Result<(), Fail> {
    let asked = Cell::new(0);
    let mut wrong = 0;
    for promised in PROMISED {
        wrong = granted(wrong, 1, fills_a_tiny_vec(rt.alloc(), &asked, promised));
        wrong = first(wrong, 2, asked.get() == 0);
    }
    all_right(wrong)
}

#[test]
fn hints_of_what_fills_a_text(rt: HostRuntime) -> Result<(), Fail> {
    let asked = Cell::new(0);
    let filled = match three('é', &asked, 0).collect(rt.alloc()) {
        Ok(mut text) => extends_text(&mut text, &asked),
        Err(_) => None,
    };
    all_right(first(granted(0, 1, filled), 2, asked.get() == 0))
}

fn extends_text(text: &mut InlineText<8>, asked: &Cell<usize>) -> Option<bool> {
    if text.extend(three('y', asked, 0)).is_err() || text.extend(three("a", asked, 0)).is_err() {
        return None;
    }
    Some(text.as_str() == "éééyyyaaa")
}

// An item whose text is one piece.
#[derive(Clone, Copy, Default, Debug, Drop)]
struct Mark(u8);

impl Display for Mark {
    fn fmt<W: fmt::Write>(&self, f: &mut fmt::Formatter<W>) -> fmt::Result {
        f.write_str("x")
    }
}

// Counts its pieces, and fails at the one of this number.
#[derive(Drop)]
struct Pieces {
    asked: usize,
    fails_at: usize,
    has_empty: bool,
}

impl Pieces {
    fn failing_at(number: usize) -> Self {
        Pieces {
            asked: 0,
            fails_at: number,
            has_empty: false,
        }
    }
}

impl Write for Pieces {
    fn write_str(&mut self, s: &str) -> fmt::Result {
        self.asked = self.asked.wrapping_add(1);
        self.has_empty |= s.is_empty();
        if self.asked == self.fails_at {
            return Err(fmt::Error);
        }
        Ok(())
    }
}

// Whether a list of so many items is written in these pieces: the brackets, the items, and a comma with its blank between
// two. Where one fails it is the last.
fn is_written<V: Display>(v: &V, items: usize) -> bool {
    let pieces = items
        .saturating_add(items.saturating_sub(1))
        .saturating_add(2);
    let mut all = Pieces::failing_at(0);
    let mut is_right = write!(all, "{v}").is_ok() & (all.asked == pieces) & !all.has_empty;
    for number in 1..=pieces {
        let mut some = Pieces::failing_at(number);
        is_right &= write!(some, "{v}").is_err() & (some.asked == number);
    }
    is_right
}

#[test]
fn pieces_of_texts(rt: HostRuntime) -> Result<(), Fail> {
    let mut v = ArrayVec::<[Mark; 3]>::new();
    let mut is_right = true;
    for items in 0..3_usize {
        is_right &= is_written(&v, items) & v.try_push(Mark(1)).is_none();
    }
    let heap = TinyVec::<[Mark; 1]>::from_slice(rt.alloc(), v.as_slice());
    let on_the_heap = match heap {
        Ok(heap) => Some(is_written(&heap, 3)),
        Err(_) => None,
    };
    is_right &= is_written(&v, 3) & is_written(&TinyVec::Inline(v, rt.alloc()), 3);
    is_right &= is_written(&SliceVec::from_slice(v.as_mut_slice()), 3);
    all_right(first(granted(0, 1, on_the_heap), 2, is_right))
}
