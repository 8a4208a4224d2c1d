//! The trait `TakesClones`.
ghost use Rattle.std.specs.Prelude.{◌+◌, ◌≤◌, length};
ghost use Rattle.tinyvec_slots.specs.Clones.{ClonesOverFrom, WritesClones};

use crate::Slots;
use crate::tuned::cloning::clone_each_from;
use std::alloc::AllocError;
use tinyvec_slots::authors::clone_over_from;

/// Slots over which clones are written: in an array by blocks of small items, which are made on the stack from defaults, in
/// a lent slice one by one.
pub trait TakesClones: Slots {
    /// Writes clones of `from` over the slots from `start` on.
    fn write_clones(
        slots: &mut [Self::Item],
        start: usize,
        from: &[Self::Item],
    ) -> Result<(), AllocError>
    where
        Self::Item: Clone,
        requires fits { start + length from.now ≤ length slots.old }
        ensures { WritesClones Self.Item.Clone
            (λ ys n. ClonesOverFrom Self.Item.is_clone start ys n slots.old slots.new) from.now result };
}

impl<T: Default + Drop, const N: usize> TakesClones for [T; N] {
    #[inline(always)]
    fn write_clones(slots: &mut [T], start: usize, from: &[T]) -> Result<(), AllocError>
    where
        T: Clone,
    {
        clone_over_from(slots, start, from)
    }
}

impl<'s, T: Drop> TakesClones for &'s mut [T] {
    #[inline(always)]
    fn write_clones(slots: &mut [T], start: usize, from: &[T]) -> Result<(), AllocError>
    where
        T: Clone,
    {
        clone_each_from(slots, start, from)
    }
}
