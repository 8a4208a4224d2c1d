//! A filter that asks its closure twice about an item, or in another order, would pass the check, and so would a `resize_with` that
//! makes an item for no slot: the vectors' contracts do not say how often.
use crate::steps::all_steps;
use std::cell::Cell;
use std::test::Fail;
use tinyvec::{ArrayVec, TinyVec};

// Writes what a closure is asked about, a digit each, and returns it.
fn note(asked: &Cell<u64>, x: u64) -> u64 {
    asked.set(asked.get().wrapping_mul(10).wrapping_add(x));
    x
}

// Each filter of the items 1, 1, 2, 3: about each once, and the first one by none that removes repeats. Of two keys that of the
// current item is asked for first.
macro_rules! asks {
    ($asked:ident, $v:expr) => {{
        let mut v = $v;
        v.retain(|x| note(&$asked, *x) != 9);
        let retained = $asked.replace(0) == 1123;
        v.retain_mut(|x| note(&$asked, *x) != 9);
        let retained_mut = $asked.replace(0) == 1123;
        v.dedup_by(|x, kept| note(&$asked, *x) == note(&$asked, *kept).wrapping_add(5));
        let compared = $asked.replace(0) == 112132;
        v.dedup_by_key(|x| note(&$asked, *x).wrapping_div(2));
        let keyed = $asked.replace(0) == 112132;
        let _ = v.resize_with(5, || note(&$asked, 7));
        retained & retained_mut & compared & keyed & ($asked.replace(0) == 777)
    }};
}

fn four() -> ArrayVec<[u64; 8]> {
    ArrayVec::from_array_len([1, 1, 2, 3, 0, 0, 0, 0], 4)
}

#[test]
fn once_each_in_order(rt: HostRuntime) -> Result<(), Fail> {
    let asked = Cell::new(0);
    all_steps(&[
        asks!(asked, four()),
        asks!(asked, TinyVec::Inline(four(), rt.alloc())),
    ])
}
