//! Clones.
ghost use Rattle.std.specs.Prelude.{IsTrue, ◌≡◌, ◌≤◌, ◌++◌, ℕ, All, min, false, length, take, IfOk, OnOk, OnErr, IsOk};
ghost use Rattle.std.specs.List.{AllZip};
ghost use Rattle.tinyvec_slots.specs.Clones.{RefusedAt, AreClones, ClonesOver, ClonesInPart};
ghost use Rattle.tinyvec.specs.TinyVec.{view};
ghost use Rattle.tinyvec.specs.View.{BecomesIn, Reserved, place_for, SameFrame, IsTinyClone, IsTinyInfallible};
ghost use Rattle.tinyvec.specs.Refused.{RefusedFor};

use crate::TinyVec;
use crate::tuned::push_clones;
use std::alloc::AllocError;
use tinyvec_array::Array;
use tinyvec_slots::authors::clone_over;

impl<A: Array> TinyVec<A> {
    /// Clones the vector, spare slots too. The clone is inline exactly if this one is.
    // Inlined, and with one return for each variant: a shared return copies the whole value once more.
    #[inline(always)]
    pub fn clone(&self) -> Result<Self, AllocError>
    where
        A::Item: Clone,
        ensures copied { IfOk result (λ v. IsTinyClone A.Item.is_clone (view A.Slots self.now)
            (view A.Slots v)) }
        ensures refused { OnErr result (IsTrue (view A.Slots self.now).place.inline
            → (j : ℕ) × RefusedAt A.Item.is_infallible ((view A.Slots self.now).items
            ++ (view A.Slots self.now).spare) j) }
        ensures succeeds { IsTrue (view A.Slots self.now).place.inline
            → All A.Item.is_infallible ((view A.Slots self.now).items ++ (view A.Slots self.now).spare)
            → IsOk result }
        ensures succeeds_empty { (view A.Slots self.now).place.inline ≡ false → length (view A.Slots self.now).items ≡ 0 → IsOk result }
    {
        let v = match self {
            TinyVec::Inline(v, alloc) => {
                let copy = v.clone()?;
                return Ok(TinyVec::Inline(copy, *alloc));
            }
            TinyVec::Heap(v) => v,
        };
        let mut copy = Vec::with_capacity(*v.allocator(), v.len())?;
        push_clones(&mut copy, v.as_slice())?;
        Ok(TinyVec::Heap(copy))
    }

    // Writes clones of `source`, which is as long as the list, over the items.
    fn overwrite(&mut self, source: &[A::Item]) -> Result<(), AllocError>
    where
        A::Item: Clone,
        requires same_len { length source.now ≡ length (view A.Slots self.old).items }
        ensures ok { OnOk result (AllZip A.Item.is_clone source.now (view A.Slots self.new).items) }
        ensures refused { OnErr result ((j : ℕ) × RefusedAt A.Item.is_infallible source.now j
            × ClonesOver A.Item.is_clone (take j source.now) j (view A.Slots self.old).items
            (view A.Slots self.new).items) }
        ensures frame { SameFrame (view A.Slots self.old) (view A.Slots self.new) }
        ensures succeeds { All A.Item.is_infallible source.now → IsOk result }
    {
        clone_over(self.as_mut_slice(), source)
    }

    /// Replaces the list by clones of `source`'s items. If the allocator refuses the room of a longer list, nothing changes.
    pub fn clone_from(&mut self, source: &Self) -> Result<(), AllocError>
    where
        A::Item: Clone,
        ensures items { OnOk result (AreClones A.Item.is_clone (view A.Slots source.now).items
            (view A.Slots self.new).items) }
        ensures ok { OnOk result (BecomesIn A.Item.is_default (view A.Slots self.old)
            (view A.Slots self.new) (view A.Slots self.new).items
            (place_for Reserved (length (view A.Slots source.now).items) (view A.Slots self.old).place)) }

        // If there is room only clones allocate.
        ensures succeeds { length (view A.Slots source.now).items ≤ (view A.Slots self.old).place.capacity
            → All A.Item.is_infallible (view A.Slots source.now).items → IsOk result }
        ensures refused { OnErr result (RefusedFor (length (view A.Slots source.now).items)
            (ClonesInPart A.Item.is_default A.Item.is_infallible A.Item.is_clone
            (view A.Slots source.now).items (view A.Slots self.old).items (view A.Slots self.new).items
            (min (length (view A.Slots self.old).items) (length (view A.Slots source.now).items))
            (IsTrue (view A.Slots self.new).place.inline) (view A.Slots self.old).spare (view A.Slots self.new).spare)
            (view A.Slots self.old) (view A.Slots self.new)) }
    {
        let len = self.len();
        let count = source.len();
        if count <= len {
            self.truncate(count);
            return self.overwrite(source.as_slice());
        }
        self.reserve(count - len)?;
        self.overwrite(&source.as_slice()[..len])?;
        self.extend_reserved(&source.as_slice()[len..])
    }
}

impl<A: Array> Clone for TinyVec<A>
where
    A::Item: Clone,
{
    ghost is_clone = { λ v w. IsTinyClone A.Item.is_clone (view A.Slots v) (view A.Slots w) };

    ghost is_infallible = { λ v. IsTinyInfallible A.Item.is_infallible (view A.Slots v) };

    /// Clones the vector, spare slots too. The clone is inline exactly if this one is.
    fn clone(&self) -> Result<Self, AllocError> {
        self.clone()
    }
}
