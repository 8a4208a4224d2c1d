//! An `ArrayVec` of what can be written and read.
ghost use Rattle.std.specs.Prelude.{◌<◌, ◌-◌, List, map, IfOk, IfErr, length};
ghost use Rattle.tinyvec_array.specs.View.{view};
ghost use Rattle.tinyvec_slots.specs.Slots.{AreDefaults};
ghost use Rattle.tinyvec_borsh.specs.Items.{SpellsList, ListFits, ListReason, InItem};
ghost use Rattle.tinyvec_borsh.specs.Reading.{FailsFor, LeavesRest, ReadsSpelling};
ghost use Rattle.tinyvec_borsh.specs.ItemsLaws.{list_code, list_apart, list_spelled};

use super::{read_items, write_list};
use crate::{BorshDeserialize, BorshError, BorshForm, BorshSerialize};
use std::alloc::Global;
use std::io::{Read, Write};
use tinyvec_array::{Array, ArrayVec, Slots};
use tinyvec_io::Counted;

impl<A: Array> BorshForm for ArrayVec<A>
where
    A::Item: BorshForm,
{
    ghost Content = { List A.Item.Content };

    ghost content_of = { λ v. map A.Item.content_of (view A.Slots v).items };

    ghost Spells = { SpellsList A.Item.Spells };

    ghost Fits = { ListFits A.Item.Spells A.Item.Fits A.CAPACITY };

    ghost code = { list_code A.Item.Spells A.Item.code };

    ghost spelled = { list_spelled A.Item.Spells A.Item.Fits A.Item.spelled A.CAPACITY };
}

impl<A: Array> BorshSerialize for ArrayVec<A>
where
    A::Item: BorshSerialize,
{
    fn serialize<W: Write>(&self, writer: &mut Counted<W>) -> Result<(), BorshError> {
        write_list(self.len(), self.as_slice(), writer)
    }
}

impl<A: Array> BorshDeserialize for ArrayVec<A>
where
    A::Item: BorshDeserialize,
{
    ghost Reason = { ListReason A.Item.Spells A.Item.Fits A.Item.Reason (λ _. ⊥) A.CAPACITY };

    ghost apart = { list_apart A.Item.Spells A.Item.code A.Item.Fits A.Item.Reason A.Item.apart (λ _. ⊥) A.CAPACITY };

    fn deserialize_reader<R: Read>(
        alloc: Global,
        reader: &mut Counted<R>,
    ) -> Result<Self, BorshError>
        ensures ok { IfOk result (λ v. ReadsSpelling (SpellsList A.Item.Spells (map A.Item.content_of (view A.Slots v).items))
            (R.remaining reader.old.inner) (R.remaining reader.new.inner)) }
        ensures valid { IfOk result (λ v. ListFits A.Item.Spells A.Item.Fits A.CAPACITY
            (map A.Item.content_of (view A.Slots v).items)) }
        ensures fails { FailsFor R.remaining (ListReason A.Item.Spells A.Item.Fits A.Item.Reason (λ _. ⊥) A.CAPACITY)
            reader.old reader.new result }
        ensures spare { IfOk result (λ v.
            AreDefaults A.Item.is_default (A.CAPACITY - length (view A.Slots v).items) (view A.Slots v).spare) }
        ensures rest { IfErr result (LeavesRest A.Item.Spells
            (InItem A.Item.Spells A.Item.Fits (A.Item.Reason BorshError.InvalidLength) A.CAPACITY) A.CAPACITY
            (R.remaining reader.old.inner) (R.remaining reader.new.inner)) }
    {
        let count = u64::deserialize_reader(alloc, reader)?;
        let len = count.min(A::CAPACITY as u64) as usize;
        let mut array = A::default();
        read_items(alloc, array.as_slice_mut(), 0, len, reader)?;
        if (len as u64) < count {
            A::Item::deserialize_reader(alloc, reader)?;
            return Err(BorshError::InvalidLength);
        }
        Ok(ArrayVec::from_array_len(array, len))
    }
}
