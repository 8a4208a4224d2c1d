//! The iterator that owns its items.
ghost use Rattle.std.specs.Prelude.{codes, All};

use crate::tuned::indexing::{bounded_index, knows_slots};
use crate::{Array, ArrayVec};
use std::alloc::AllocError;
use std::mem;
use tinyvec_slots::OwnedItems;
use tinyvec_slots::authors::OwnsItems;

/// Yields the items of a vector from both ends.
pub type ArrayVecIterator<A> = OwnedItems<ArrayVec<A>>;

impl<A: Array> OwnsItems for ArrayVec<A> {
    ghost name = { codes "ArrayVecIterator" };

    ghost infallible = { λ I. All I };

    fn iterator_name() -> &'static str {
        "ArrayVecIterator"
    }

    #[inline]
    fn take_at(&mut self, i: usize) -> A::Item {
        let slots = self.as_mut_slots();
        let at = bounded_index(i, slots.len());
        mem::take(&mut slots[at])
    }

    fn clone_items(&self, part: &[A::Item]) -> Result<Self, AllocError>
    where
        A::Item: Clone,
    {
        knows_slots(self.as_inner());
        let mut vec = ArrayVec::new();
        vec.extend_from_slice(part)?;
        Ok(vec)
    }
}
