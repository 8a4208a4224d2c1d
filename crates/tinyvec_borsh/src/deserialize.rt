//! Reading.
ghost use Rattle.std.specs.Prelude.{ℕ, ◌+◌, Bool, false, List, length, map, IfErr, IfOk, OnOk};
ghost use Rattle.std.specs.List.{AllByRecursion};
ghost use Rattle.tinyvec_borsh.specs.Items.{AfterItems, SpellsItems};
ghost use Rattle.tinyvec_borsh.specs.Reading.{FailsFor, LeavesSlots, ReadsSpelling};
ghost use Rattle.tinyvec_borsh.specs.Apart.{AreApart};
ghost use Rattle.tinyvec_borsh.specs.declared.borsh_error.BorshError.{BorshError};

use crate::{BorshError, BorshForm};
use std::alloc::Global;
use std::io::Read;
use tinyvec_io::Counted;

/// What can be read.
pub trait BorshDeserialize: BorshForm + Sized {
    // What an input is if reading it fails with an error other than `Io`: too short, or a list with more items than there is
    // room for, or a text that is not UTF-8, or one that may need an allocation.
    ghost Reason: { BorshError → List ℕ → Type 0 };

    /// Reads the value at the start of the input, and leaves the rest unread. A whole number is read by one `fill`, and a
    /// list of whole numbers in blocks. Allocates only if a `TinyVec` moves to the heap.
    fn deserialize_reader<R: Read>(
        alloc: Global,
        reader: &mut Counted<R>,
    ) -> Result<Self, BorshError>
        ensures ok { IfOk result (λ v. ReadsSpelling (Self.Spells (Self.content_of v))
            (R.remaining reader.old.inner) (R.remaining reader.new.inner)) }
        ensures valid { IfOk result (λ v. Self.Fits (Self.content_of v)) }
        ensures fails { FailsFor R.remaining Reason reader.old reader.new result };

    // Whether `deserialize_slots` hands the slots themselves to the reader, which may write behind what it says that it read.
    ghost in_place: { Bool } = { false };

    // How many values, which were spelled whole, `deserialize_slots` may take from the reader and lose if it fails.
    ghost lost: { ℕ } = { 0 };

    /// Reads a value into each slot, one after the other. Whole numbers but `u8` are read in blocks, and those of a
    /// block that is not read whole are lost.
    fn deserialize_slots<R: Read>(
        alloc: Global,
        slots: &mut [Self],
        reader: &mut Counted<R>,
    ) -> Result<(), BorshError>
    where
        Self: Drop,
        ensures ok { OnOk result (ReadsSpelling (SpellsItems Self.Spells (map Self.content_of slots.new))
            (R.remaining reader.old.inner) (R.remaining reader.new.inner)) }
        ensures valid { OnOk result (AllByRecursion Self.Fits (map Self.content_of slots.new)) }
        ensures fails { FailsFor R.remaining (AfterItems Self.Spells Self.Fits Reason (length slots.old))
            reader.old reader.new result }
        ensures left { IfErr result (LeavesSlots Self.content_of Self.Spells Self.Fits in_place
            (AfterItems Self.Spells Self.Fits Reason (lost + 1) BorshError.Ended) slots.old slots.new
            (R.remaining reader.old.inner) (R.remaining reader.new.inner)) }
    {
        for i in 0..slots.len() {
            slots[i] = Self::deserialize_reader(alloc, reader)?;
        }
        Ok(())
    }

    // By these, which of the answers it is follows from the input, faults and want of memory aside.
    ghost apart: { AreApart Self.Spells Self.Fits Reason };
}
