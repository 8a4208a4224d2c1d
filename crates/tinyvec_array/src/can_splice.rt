//! `CanSplice`, which `replace_range` needs.
ghost use Rattle.std.specs.Prelude.{codes, false, true};

use crate::{ArrayVec, Slots};
use tinyvec_slots::NoRoom;
use tinyvec_slots::authors::{CanSplice, Touches};

impl<S: Slots> CanSplice for ArrayVec<S>
where
    S::Item: Default,
{
    ghost use Rattle.tinyvec_array.specs.View.{view, StaysInPlace};
    ghost use Rattle.tinyvec_array.specs.SpliceLaws.{kept_refl, kept_then, kept_count, changed_around, cut_changes};
    ghost use Rattle.tinyvec_array.specs.SpliceLaws.{not_fewer};

    ghost counted = { true };

    ghost must_end = { false };

    ghost splice_word = { codes "ArrayVecSplice" };

    ghost Grown = { λ v w. StaysInPlace S.Item.is_default (view S.Slots v) (view S.Slots w) };

    fn splice_name() -> &'static str {
        "ArrayVecSplice"
    }

    #[inline(always)]
    fn is_counted() -> bool {
        true
    }

    #[inline]
    fn len(&self) -> usize {
        self.len()
    }

    #[inline]
    fn append_counted<I: Iterator<Item = S::Item>>(
        &mut self,
        iter: I,
        touches: &mut Touches,
    ) -> Result<(), NoRoom<S::Item, I>> {
        let mut rest = iter;
        let len = self.len();
        let end = touches.append(self.as_mut_slots(), len, &mut rest);
        self.set_len(end);
        if end < self.capacity() {
            return Ok(());
        }
        match rest.next() {
            Some(item) => Err(NoRoom { item, rest }),
            None => Ok(()),
        }
    }

    #[inline]
    fn cut_emptied(&mut self, n: usize) {
        self.set_len(n);
    }

    ghost kept_same = { kept_refl S.Slots };

    ghost kept_then = { kept_then S.Slots };

    ghost kept_room = { kept_count S.Slots };

    ghost kept_len = { λ v w k. k.1.1 };

    ghost kept_grown = { changed_around S.Slots S.Item.is_default };

    ghost cut_grown = { λ v w h fits. cut_changes S.Slots S.Item.is_default v w h };

    ghost grown_room = { not_fewer S.Slots S.Item.is_default };
}
