//! A clone that is made twice, or after one was refused, would pass the check: each item of these refuses one clone, though there is
//! memory. So would a contract of what a refused clone leaves that has the same mistake as its call.
use crate::steps::{all_steps, granted_steps};
use std::alloc::AllocError;
use std::cell::Cell;
use std::test::Fail;
use tinyvec::{ArrayVec, NoMemory, SliceVec, TinyVec};

// Of a letter so many clones are made, and then one is refused.
#[derive(Drop)]
struct Shy {
    letter: u8,
    clones: Cell<usize>,
}

impl Default for Shy {
    fn default() -> Shy {
        Shy {
            letter: b'-',
            clones: Cell::new(usize::MAX),
        }
    }
}

impl Clone for Shy {
    fn clone(&self) -> Result<Shy, AllocError> {
        let left = self.clones.get();
        if left == 0 {
            return Err(AllocError);
        }
        self.clones.set(left - 1);
        Ok(with_clones(self.letter, usize::MAX))
    }
}

fn with_clones(letter: u8, clones: usize) -> Shy {
    Shy {
        letter,
        clones: Cell::new(clones),
    }
}

// Whether these are the letters.
fn spell(items: &[Shy], letters: &[u8]) -> bool {
    items.iter().map(|x| x.letter).eq(letters.iter().copied())
}

fn many(letter: u8) -> Shy {
    with_clones(letter, usize::MAX)
}

// The clones before are in spare slots, or in the list in the place of what they replace.
#[test]
fn refused_of_an_array(rt: HostRuntime) -> Result<(), Fail> {
    let mut v = ArrayVec::<[Shy; 4]>::new();
    let is_put = v.try_push(many(b'a')).is_none();
    let is_refused = v
        .extend_from_slice(&[many(b'b'), many(b'c'), with_clones(b'd', 0)])
        .is_err();
    let slots = spell(v.as_slice(), b"a") & spell(v.grab_spare_slice(), b"bc-");
    let mut over = ArrayVec::from_array([many(b'a'), many(b'b'), many(b'c')]);
    let from = ArrayVec::from_array_len([many(b'x'), with_clones(b'y', 0), many(b'z')], 2);
    let is_ended = over.clone_from(&from).is_err();
    all_steps(&[
        is_put & is_refused,
        slots,
        is_ended & spell(over.as_slice(), b"xb") & spell(over.grab_spare_slice(), b"-"),
    ])
}

#[test]
fn refused_of_lent_slots(rt: HostRuntime) -> Result<(), Fail> {
    let mut slots = [many(b'a'), many(b'b'), many(b'c'), many(b'd')];
    let mut v = SliceVec::from_slice_len(&mut slots, 4);
    let back = match v.resize(1, with_clones(b'v', 1)) {
        Ok(()) => None,
        Err(NoMemory(item)) => Some(item.letter),
    };
    all_steps(&[
        back == Some(b'v'),
        spell(v.as_slice(), b"abc") & spell(v.grab_spare_slice(), b"v"),
    ])
}

// Each item has one clone, in blocks and one by one.
#[test]
fn made_once(rt: HostRuntime) -> Result<(), Fail> {
    let mut is_right = true;
    for count in [1, 4, 17, 513, 530] {
        let mut from = ArrayVec::<[Shy; 530]>::new();
        for _item in 0..count {
            is_right &= from.try_push(with_clones(b'x', 2)).is_none();
        }
        let mut v = ArrayVec::<[Shy; 530]>::new();
        is_right &= v.try_extend_from_slice(from.as_slice()).is_ok() & (v.len() == count);
        let mut w = ArrayVec::<[Shy; 530]>::new();
        is_right &= w.clone_from(&from).is_ok() & (w.len() == count);
        is_right &= from.iter().all(|x| x.clones.get() == 0);
    }
    all_steps(&[is_right])
}

#[test]
fn made_once_on_the_heap(rt: HostRuntime) -> Result<(), Fail> {
    let mut is_granted = true;
    let mut is_right = true;
    for count in [1, 4, 17, 513, 530] {
        let mut from = ArrayVec::<[Shy; 530]>::new();
        for _item in 0..count {
            is_right &= from.try_push(with_clones(b'x', 1)).is_none();
        }
        let mut v = TinyVec::<[Shy; 1]>::new(rt.alloc());
        is_granted &= v.extend_from_slice(from.as_slice()).is_ok();
        is_right &= v.len() == count;
    }
    granted_steps(!is_granted, &[is_right])
}
