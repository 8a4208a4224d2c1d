//! Writing clones into slots, without a default.
ghost use Rattle.std.specs.Prelude.{◌+◌, ◌-◌, ◌≤◌, length, slice_range};
ghost use Rattle.tinyvec_slots.specs.Ranges.{Within};
ghost use Rattle.tinyvec_slots.specs.Clones.{ClonesOver, ClonesOverFrom, WritesClones};

use std::alloc::AllocError;
use tinyvec_slots::authors::clone_each;

// Writes clones of `from` over the slots from `start` on.
pub(crate) fn clone_each_from<T: Clone>(
    slots: &mut [T],
    start: usize,
    from: &[T],
) -> Result<(), AllocError>
    requires fits { start + length from.now ≤ length slots.old }
    ensures { WritesClones T.Clone (λ ys n. ClonesOverFrom T.is_clone start ys n slots.old slots.new) from.now result }
{
    clone_each(&mut slots[start..], from)
}

// Writes clones of the slots from `start` up to `end` over those from `to` on.
pub(crate) fn clone_within<T: Clone>(
    slots: &mut [T],
    start: usize,
    end: usize,
    to: usize,
) -> Result<(), AllocError>
    requires before { Within start end to }
    requires fits { to + (end - start) ≤ length slots.old }
    ensures { WritesClones T.Clone (λ ys n. ClonesOverFrom T.is_clone to ys n slots.old slots.new)
        (slice_range slots.old start end) result }
{
    let (front, back) = slots.split_at_mut(to);
    clone_range(back, front, start, end)
}

// Writes clones of `from[start..end]` over the first slots of `to`.
#[inline(always)]
fn clone_range<T: Clone>(
    to: &mut [T],
    from: &[T],
    start: usize,
    end: usize,
) -> Result<(), AllocError>
    requires in_bounds { Within start end (length from.now) }
    requires fits { end - start ≤ length to.old }
    ensures { WritesClones T.Clone (λ ys n. ClonesOver T.is_clone ys n to.old to.new)
        (slice_range from.now start end) result }
{
    clone_each_from(to, 0, &from[start..end])
}
