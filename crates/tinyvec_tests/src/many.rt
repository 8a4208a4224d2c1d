//! A call whose stack or time grows with its slots, and an index that the compiler cuts short, would pass the check: it bounds
//! neither. Calls that go through all slots go through 65536.
use crate::steps::{all_steps, granted_steps};
use std::iter;
use std::test::Fail;
use tinyvec::{ArrayVec, TinyVec};
use tinyvec_borsh::{BorshDeserialize, BorshError};
use tinyvec_io::Counted;

const SLOTS: usize = 65536;

type Many = ArrayVec<[u8; SLOTS]>;

// Whether these are as many items, all of them this one.
fn are(items: &[u8], count: usize, item: u8) -> bool {
    (items.len() == count) & items.iter().all(|x| *x == item)
}

/// As many items as slots, and one more. A call that takes a result of this many slots by value takes LLVM minutes.
#[test]
fn of_an_array_and_a_length(rt: HostRuntime) {
    let Ok(full) = Many::try_from_array_len([7; SLOTS], SLOTS) else {
        panic!(&rt; "there are as many slots");
    };
    let Err(back) = Many::try_from_array_len([7; SLOTS], SLOTS + 1) else {
        panic!(&rt; "there are fewer slots");
    };
    assert!(rt; are(full.as_slice(), SLOTS, 7) & are(&back, SLOTS, 7));
}

#[test]
fn an_array_is_filled(rt: HostRuntime) -> Result<(), Fail> {
    let mut v = Many::new();
    let _more = v.fill(iter::repeat(1));
    let is_filled = are(v.as_slice(), SLOTS, 1) & v.grab_spare_slice().is_empty();
    let has_no_room = (v.capacity() == SLOTS) & (v.try_push(2) == Some(2));
    v.clear();
    let is_full = v.extend(iter::repeat(6)).is_err() & are(v.as_slice(), SLOTS, 6);
    v.truncate(1);
    let is_vacated = are(v.grab_spare_slice(), SLOTS - 1, 0);
    let is_grown = v.resize(SLOTS, 6).is_ok() & is_cloned(&v);
    let is_shifted = (v.pop_at(0) == Some(6)) & v.try_insert(0, 6).is_none();
    all_steps(&[
        is_filled & has_no_room,
        is_full,
        is_vacated,
        is_grown,
        is_shifted,
        are(v.as_slice(), SLOTS, 6),
    ])
}

fn is_cloned(v: &Many) -> bool {
    match v.clone() {
        Ok(copy) => *v == copy,
        Err(_) => false,
    }
}

#[test]
fn an_array_is_filtered_and_drained(rt: HostRuntime) -> Result<(), Fail> {
    let mut v: Many = ArrayVec::from_array([7; SLOTS]);
    let mut keeps = false;
    v.retain(|_| {
        keeps = !keeps;
        keeps
    });
    let is_halved = are(v.as_slice(), SLOTS / 2, 7) & are(v.grab_spare_slice(), SLOTS / 2, 0);
    let is_put = v.splice(.., iter::repeat_n(8, SLOTS)).finish().is_ok();
    let is_there = are(v.as_slice(), SLOTS, 8);
    let is_drained = v.drain(..).last() == Some(8);
    let is_vacated = are(v.grab_spare_slice(), SLOTS, 0);
    all_steps(&[is_halved, is_put & is_there, is_drained & is_vacated])
}

type Tiny = TinyVec<[u8; SLOTS]>;

// Whether the list is there, and has as many items, all of them this one.
fn is(v: &Tiny, count: usize, item: u8, inline: bool) -> bool {
    (v.is_inline() == inline) & are(v.as_slice(), count, item)
}

#[test]
fn a_tiny_vec_is_filled(rt: HostRuntime) -> Result<(), Fail> {
    let mut v = Tiny::from_array(rt.alloc(), [7; SLOTS]);
    let mut is_granted = v.insert(0, 7).is_ok();
    let is_inserted = is(&v, SLOTS + 1, 7, false) & (v.pop_at(0) == Some(7));
    v.shrink_to_fit();
    let is_shrunk = is(&v, SLOTS, 7, true);
    v.clear();
    is_granted &= v.resize(SLOTS + 1, 9).is_ok();
    granted_steps(
        !is_granted,
        &[is_inserted, is_shrunk, is(&v, SLOTS + 1, 9, false)],
    )
}

// Room for as many items as there are slots.
#[test]
fn a_tiny_vec_has_room(rt: HostRuntime) -> Result<(), Fail> {
    let is_inline = match Tiny::with_capacity(rt.alloc(), SLOTS) {
        Ok(v) => v.is_inline() & (v.capacity() == SLOTS),
        Err(_) => false,
    };
    all_steps(&[is_inline])
}

/// As many items as slots, and one more, which is read too.
#[test]
fn an_array_is_read(rt: HostRuntime) {
    let mut bytes = [7; 8 + SLOTS + 1];
    bytes[..8].copy_from_slice(&[0, 0, 1, 0, 0, 0, 0, 0]);
    let mut reader = Counted::new(&bytes[..8 + SLOTS]);
    let Ok(full) = Many::deserialize_reader(rt.alloc(), &mut reader) else {
        panic!(&rt; "there are as many bytes");
    };
    bytes[0] = 1;
    let mut reader = Counted::new(bytes.as_slice());
    let refused = Many::deserialize_reader(rt.alloc(), &mut reader)
        == Err(BorshError::InvalidLength);
    let are_read = reader.into_inner().is_empty();
    assert!(rt; are(full.as_slice(), SLOTS, 7) & refused & are_read);
}

/// A splice that touches the slots after its range once for each item of it would pass the check where no caller counts.
#[test]
fn a_half_is_cut(rt: HostRuntime) -> Result<(), Fail> {
    let mut v = ArrayVec::<[i32; 1000]>::new();
    let is_filled = v.extend(0..1000).is_ok();
    let (_none_refused, touches) = v.splice(..v.len().min(500), None).finish_counted();
    let are_left = v.iter().copied().eq(500..1000);
    let are_zeros = v.grab_spare_slice().iter().all(|x| *x == 0);
    all_steps(&[
        is_filled,
        touches <= 1500,
        are_left,
        are_zeros & (v.len() == 500),
    ])
}
