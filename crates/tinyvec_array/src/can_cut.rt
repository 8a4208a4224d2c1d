//! `CanCut`, which the filters need.
ghost use Rattle.std.specs.Prelude.{length};

use crate::{ArrayVec, Slots};
use tinyvec_slots::authors::CanCut;

impl<S: Slots> CanCut for ArrayVec<S>
where
    S::Item: Default,
{
    ghost use Rattle.tinyvec_array.specs.ArrayVec.{slots_of};
    ghost use Rattle.tinyvec_array.specs.View.{view};
    ghost use Rattle.tinyvec_array.specs.Lends.{with_items_of};
    ghost use Rattle.tinyvec_array.specs.CutLaws.{KeptOf, CutOf, written_of, kept_cut_of};

    type Item = S::Item;

    ghost items = { λ v. (view S.Slots v).items };

    ghost with_items = { with_items_of S.Slots };

    ghost room = { λ v. length (slots_of S.Slots v) };

    ghost Kept = { KeptOf S.Slots };

    ghost Truncated = { CutOf S.Slots S.Item.is_default };

    #[inline]
    fn as_slice(&self) -> &[S::Item] {
        self.as_slice()
    }

    #[inline]
    fn as_mut_slice(&mut self) -> &mut [S::Item] {
        self.as_mut_slice()
    }

    #[inline]
    fn truncate(&mut self, new_len: usize) {
        self.truncate(new_len);
    }

    ghost written = { written_of S.Slots };

    ghost kept_cut = { kept_cut_of S.Slots S.Item.is_default };
}
