//! The iterator that owns its items.
ghost use Rattle.std.specs.Prelude.{◌≤◌, length, codes, All};

use crate::TinyVec;
use std::alloc::AllocError;
use std::mem;
use tinyvec_array::Array;
use tinyvec_slots::OwnedItems;
use tinyvec_slots::authors::OwnsItems;

/// Yields the items of a vector from both ends.
pub type TinyVecIterator<A> = OwnedItems<TinyVec<A>>;

impl<A: Array> OwnsItems for TinyVec<A> {
    ghost name = { codes "TinyVecIterator" };

    ghost infallible = { λ I left. (length left ≤ A.CAPACITY) × All I left };

    fn iterator_name() -> &'static str {
        "TinyVecIterator"
    }

    #[inline]
    fn take_at(&mut self, i: usize) -> A::Item {
        // Each variant for itself: LLVM then knows that a write changes neither variant nor indices.
        match self {
            TinyVec::Inline(v, _) => v.take_at(i),
            TinyVec::Heap(v) => mem::take(&mut v.as_mut_slice()[i]),
        }
    }

    // The clones are inline if they fit.
    fn clone_items(&self, part: &[A::Item]) -> Result<Self, AllocError>
    where
        A::Item: Clone,
    {
        TinyVec::from_slice(*self.allocator(), part)
    }
}
