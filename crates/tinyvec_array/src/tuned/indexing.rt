//! How slots are indexed, and whether items move one by one.
ghost use Rattle.std.specs.Prelude.{◌≡◌, ◌<◌, ◌≤◌, length};
ghost use Rattle.tinyvec_slots.specs.Ranges.{Within};

use crate::{Array, Slots};
use std::mem;

// Returns `i`. Going through `u32` shows LLVM that the address cannot wrap onto the length field, which precedes the slots.
// So the length stays in a register. `tiny_into_iter` 64: 1181 > 731, `drain_taken` 64: 519 > 451.
#[inline(always)]
pub(crate) fn bounded_index(i: usize, most: usize) -> usize
    requires { i ≤ most }
    ensures { result ≡ i }
{
    if most > u32::MAX as usize {
        return i;
    }
    i as u32 as usize
}

// Whether all items together take up to 128 bytes.
#[inline(always)]
pub(crate) fn prefers_shifting<T>(items: &[T]) -> bool {
    items.len() * mem::size_of::<T>() <= 128
}

// Whether the slots from `start` up to `end` are moved one by one. For an array of few slots the result is a constant.
#[inline(always)]
pub(crate) fn prefers_shifting_in<S: Slots>(slots: &S, start: usize, end: usize) -> bool
    requires { Within start end (length (S.slots slots.now)) }
{
    let all = slots.as_slice();
    // For a lent slice, whose number of slots is not known, the range alone decides. A few larger items are moved faster so
    // too.
    slots.most() <= 128 && prefers_shifting(all)
        || slots.most() <= 16 && all.len() * mem::size_of::<S::Item>() <= 1024
        || prefers_shifting(&all[start..end])
}

// Tells a proof that an array has as many slots as its type says.
#[inline(always)]
pub(crate) fn knows_slots<A: Array>(array: &A)
    ensures { length (A.Slots.slots array.now) ≡ A.CAPACITY }
{
    let _slots = array.as_slice();
}
