//! `CanPut`, for what appends.
ghost use Rattle.std.specs.Prelude.{length};

use crate::{ArrayVec, Slots};
use tinyvec_slots::authors::CanPut;

impl<S: Slots> CanPut for ArrayVec<S> {
    ghost use Rattle.tinyvec_array.specs.ArrayVec.{slots_of};
    ghost use Rattle.tinyvec_array.specs.View.{view};
    ghost use Rattle.tinyvec_array.specs.PutLaws.{PutsOf, GetsOf, LeavesOf, puts_none_of, puts_room_of};

    type Item = S::Item;

    ghost items = { λ v. (view S.Slots v).items };

    ghost room = { λ v. length (slots_of S.Slots v) };

    ghost Puts = { PutsOf S.Slots };

    ghost Gets = { GetsOf S.Slots };

    ghost Leaves = { LeavesOf S.Slots };

    #[inline(always)]
    fn len(&self) -> usize {
        self.len()
    }

    #[inline(always)]
    fn room(&self) -> usize {
        self.capacity()
    }

    #[inline(always)]
    fn put(&mut self, at: usize, x: S::Item) {
        self.as_mut_slots()[at] = x;
    }

    #[inline(always)]
    fn keep(&mut self, n: usize) {
        self.set_len(n);
    }

    #[inline(always)]
    fn back_to(&mut self, _n: usize) {}

    ghost puts_none = { puts_none_of S.Slots };

    ghost puts_room = { puts_room_of S.Slots };
}
