//! A request for memory that is made for nothing would pass the check. `tests/refuse` sees that these tests make none.
use crate::lists::lies;
use crate::steps::{all_steps, is_debugged, is_shown};
use std::default::MadeWith;
use std::mem;
use std::test::Fail;
use tinyvec::{ArrayVec, TinyVec};
use tinyvec_text::InlineText;

type Three = TinyVec<[i32; 3]>;

// What a map makes, and what is left of a list that is taken out, are empty.
#[test]
fn made_and_emptied(rt: HostRuntime) -> Result<(), Fail> {
    let mut v: Three = MadeWith::made_with(rt.alloc());
    let is_made = lies(&v, &[], true);
    if v.len() < v.capacity() {
        v.push_reserved(1);
    }
    let is_taken = match mem::try_take(&mut v) {
        Ok(taken) => lies(&taken, &[1], true),
        Err(_) => false,
    };
    all_steps(&[is_made, is_taken, lies(&v, &[], true)])
}

#[test]
fn lists_that_are_looked_at(rt: HostRuntime) -> Result<(), Fail> {
    let other: Three = TinyVec::from_array_len(rt.alloc(), [4, 3, 0], 2);
    let mut v: Three = TinyVec::from_array_vec(*other.allocator(), ArrayVec::from_array([3, 2, 1]));
    v.reverse();
    all_steps(&[
        v.first() == Some(&1),
        v.iter().count() == other.iter().count().wrapping_add(1),
        lies(&v, &[1, 2, 3], true),
        lies(&other, &[4, 3], true),
    ])
}

// Calls that take items out, or look at them.
#[test]
fn lists_that_are_cut(rt: HostRuntime) -> Result<(), Fail> {
    let alloc = rt.alloc();
    let Ok(mut v) = TinyVec::try_from_array_len(alloc, [1_i32, 2, 3, 4, 5, 6, 7, 8], 8) else {
        return all_steps(&[false]);
    };
    let popped = (v.pop() == Some(8))
        & (v.pop_if(|x| *x == 7) == Some(7))
        & (v.pop_at(0) == Some(1));
    let removed = v.len() == 5 && v.remove(0) == 2 && v.len() == 4 && v.swap_remove(0) == 3;
    let is_left = lies(&v, &[6, 4, 5], true);
    for x in v.iter_mut() {
        *x = x.wrapping_add(1);
    }
    v.as_mut_slice().reverse();
    let is_written = lies(&v, &[6, 5, 7], true);
    let is_drained = v.drain(..v.len().min(1)).next() == Some(6);
    let mut sum = 0;
    v.drain_each(..v.len().min(1), &mut |x: i32| sum = x);
    let mut out = Vec::new(alloc);
    v.drain_into(..0, &mut out);
    v.truncate(1);
    let is_cut = lies(&v, &[7], true) & (sum == 5) & out.is_empty();
    v.clear();
    all_steps(&[
        popped,
        removed,
        is_left,
        is_written,
        is_drained & is_cut,
        v.is_empty(),
    ])
}

#[test]
fn lists_that_are_filtered(rt: HostRuntime) -> Result<(), Fail> {
    let mut v = TinyVec::from_array(rt.alloc(), [1, 1, 2, 13, 4, 14, 5, 6]);
    v.retain(|x| *x != 5);
    v.retain_mut(|x| *x != 6);
    v.dedup();
    v.dedup_by(|x, kept| *x == 2 && *kept == 1);
    v.dedup_by_key(|x| *x % 10);
    let is_filtered = lies(&v, &[1, 13, 4], true);
    let is_taken = v.extract_if(.., |x| *x == 13).next() == Some(13);
    let is_put = v.splice(..v.len().min(1), [7, 8]).finish().is_ok();
    let empty = TinyVec::<[i32; 3]>::from_vec(Vec::new(rt.alloc()));
    all_steps(&[
        is_filtered,
        is_taken & is_put,
        lies(&v, &[7, 8, 4], true),
        lies(&empty, &[], false),
    ])
}

#[test]
fn texts_that_are_cut(rt: HostRuntime) -> Result<(), Fail> {
    let bytes = TinyVec::from_array_len(rt.alloc(), [b'h', 0xc3, 0xa9, b'y', 0, 0, 0, 0], 4);
    let Some(mut text) = InlineText::from_utf8_or_none(bytes) else {
        return all_steps(&[false]);
    };
    let is_pushed = text.len() == 4 && text.push_str("lo").is_ok();
    let is_popped = (text.pop() == Some('o')) & (text.as_str() == "héyl");
    let is_removed = text.len() == 5 && text.is_char_boundary(1) && text.remove(1) == 'é';
    text.retain(|x| x != 'y');
    let is_retained = text.as_str() == "hl";
    if text.is_char_boundary(1) {
        text.truncate(1);
    }
    let is_cut = text.as_str() == "h";
    text.clear();
    let bytes = text.into_bytes();
    all_steps(&[
        is_pushed & is_popped & is_removed,
        is_retained & is_cut,
        bytes.is_empty(),
    ])
}

const DEBUGGED: &str =
    "FromUtf8Error { bytes: [111, 255], error: Utf8Error { valid_up_to: 1, error_len: Some(1) } }";

#[test]
fn texts_of_bytes(rt: HostRuntime) -> Result<(), Fail> {
    let is_text = match InlineText::from_utf8(TinyVec::from_array(rt.alloc(), [b'o', b'k'])) {
        Ok(text) => text.starts_with("o"),
        Err(_) => false,
    };
    let is_refused = match InlineText::from_utf8(TinyVec::from_array(rt.alloc(), [b'o', 255])) {
        Ok(_) => false,
        Err(error) => {
            let shown = is_shown(&error, "invalid utf-8 sequence of 1 bytes from index 1");
            shown & is_debugged(&error, DEBUGGED)
        }
    };
    all_steps(&[is_text, is_refused])
}
