//! A `TinyVec` of what can be written and read.
ghost use Rattle.std.specs.Prelude.{◌≡◌, ◌<◌, ◌≤◌, ◌^◌, ◌+◌, ◌-◌, ◌*◌, ◌/◌, ◌++◌, ◌⊎◌, ◌↔◌, List, length, map, max};
ghost use Rattle.std.specs.Prelude.{min, IfOk, IsTrue, OnOk};
ghost use Rattle.std.specs.List.{AllByRecursion};
ghost use Rattle.tinyvec_slots.specs.Slots.{AreDefaults};
ghost use Rattle.tinyvec.specs.TinyVec.{view};
ghost use Rattle.tinyvec.specs.View.{BecomesIn, Growth, place_for};
ghost use Rattle.tinyvec_borsh.specs.Both.{IsBehind};
ghost use Rattle.tinyvec_borsh.specs.Items.{AfterItems, ListFits, MayAllocate, TinyReason};
ghost use Rattle.tinyvec_borsh.specs.Items.{SpellsItems, SpellsList};
ghost use Rattle.tinyvec_borsh.specs.ItemsLaws.{list_apart, list_code, list_spelled};
ghost use Rattle.tinyvec_borsh.specs.Place.{GrowsBy, place_read};
ghost use Rattle.tinyvec_borsh.specs.Reading.{FailsFor, ReadsSpelling};

use super::{read_items, write_list};
use crate::{BorshDeserialize, BorshError, BorshForm, BorshSerialize};
use std::alloc::Global;
use std::io::{Read, Write};
use std::mem;
use tinyvec::{Array, Slots, TinyVec};
use tinyvec_io::Counted;

/// For so many items at most room is allocated before the first of them is read.
const ITEMS_AHEAD: u64 = 1024;

/// The most bytes that defaults take before the items are read into them, each with the tag of an `Option`.
const BYTES_AHEAD: usize = 8192;

// How many defaults are made before the first item is read into them. The size of a type parameter is known only of a value:
// `None` is one that makes no default.
fn items_in_block<T: Drop>() -> usize
    ensures some { 0 < result }
    ensures most { result ≤ BYTES_AHEAD }
{
    items_in_bytes_ahead(mem::size_of_val(&None::<T>))
}

// How many items of this size take at most `BYTES_AHEAD` bytes, or one.
fn items_in_bytes_ahead(size: usize) -> usize
    ensures { result ≡ BYTES_AHEAD / min (max size 1) BYTES_AHEAD }
{
    BYTES_AHEAD / size.clamp(1, BYTES_AHEAD)
}

impl<A: Slots> BorshForm for TinyVec<A>
where
    A::Item: BorshForm,
{
    ghost Content = { List A.Item.Content };

    ghost content_of = { λ v. map A.Item.content_of (view A.Slots v).items };

    ghost Spells = { SpellsList A.Item.Spells };

    // A count of eight bytes is at most `usize::MAX`.
    ghost Fits = { ListFits A.Item.Spells A.Item.Fits (2 ^ 64 - 1) };

    ghost code = { list_code A.Item.Spells A.Item.code };

    ghost spelled = { list_spelled A.Item.Spells A.Item.Fits A.Item.spelled (2 ^ 64 - 1) };
}

impl<A: Slots> BorshSerialize for TinyVec<A>
where
    A::Item: BorshSerialize,
{
    fn serialize<W: Write>(&self, writer: &mut Counted<W>) -> Result<(), BorshError> {
        let items = self.as_slice();
        write_list(items.len(), items, writer)
    }
}

impl<A: Array> BorshDeserialize for TinyVec<A>
where
    A::Item: BorshDeserialize,
{
    ghost Reason = { TinyReason A.Item.Spells A.Item.Fits A.Item.Reason A.CAPACITY };

    ghost apart = { list_apart A.Item.Spells A.Item.code A.Item.Fits A.Item.Reason A.Item.apart
        (MayAllocate A.Item.Spells A.Item.Fits A.CAPACITY) (2 ^ 64 - 1) };

    fn deserialize_reader<R: Read>(
        alloc: Global,
        reader: &mut Counted<R>,
    ) -> Result<Self, BorshError>
        ensures ok { IfOk result (λ v. ReadsSpelling (SpellsList A.Item.Spells (map A.Item.content_of (view A.Slots v).items))
            (R.remaining reader.old.inner) (R.remaining reader.new.inner)) }
        ensures valid { IfOk result (λ v. ListFits A.Item.Spells A.Item.Fits (2 ^ 64 - 1)
            (map A.Item.content_of (view A.Slots v).items)) }
        ensures fails { FailsFor R.remaining (TinyReason A.Item.Spells A.Item.Fits A.Item.Reason A.CAPACITY)
            reader.old reader.new result }
        ensures place { IfOk result (λ v. IsTrue (view A.Slots v).place.inline ↔ (length (view A.Slots v).items ≤ A.CAPACITY)) }
        ensures spare { IfOk result (λ v. IsTrue (view A.Slots v).place.inline
            → AreDefaults A.Item.is_default (A.CAPACITY - length (view A.Slots v).items) (view A.Slots v).spare) }
        ensures capacity { IfOk result (λ v. (view A.Slots v).place.capacity ≤ max A.CAPACITY (2 * length (view A.Slots v).items)) }
        ensures fits { IfOk result (λ v. length (view A.Slots v).items ≤ (view A.Slots v).place.capacity) }
        ensures exact { IfOk result (λ v. (view A.Slots v).place ≡ place_read A.CAPACITY (length (view A.Slots v).items)) }
        ensures inline_capacity { IfOk result (λ v. IsTrue (view A.Slots v).place.inline → (view A.Slots v).place.capacity ≡ A.CAPACITY) }
    {
        let count = u64::deserialize_reader(alloc, reader)?;
        let mut v = TinyVec::new(alloc);
        if count <= A::CAPACITY as u64 {
            // The slots hold defaults already, so that a list which fits them is read in one block.
            let len = count as usize;
            let TinyVec::Inline(list, _) = &mut v else {
                unreachable!();
            };
            read_items(alloc, list.as_mut_slots(), 0, len, reader)?;
            list.set_len(len);
            return Ok(v);
        }
        let ahead = count.min(ITEMS_AHEAD) as usize;
        let Ok(()) = v.reserve(ahead) else {
            return Err(BorshError::Memory);
        };
        while (v.len() as u64) < count {
            read_more(alloc, &mut v, count, reader)?;
        }
        Ok(v)
    }
}

// Reads more of the items, which are `count` in all: a block into defaults while there is room, else one, which is pushed. The
// last has its room before it is read, so that no list is read to its end and lost.
fn read_more<A: Array, R: Read>(
    alloc: Global,
    v: &mut TinyVec<A>,
    count: u64,
    reader: &mut Counted<R>,
) -> Result<(), BorshError>
where
    A::Item: BorshDeserialize,
    requires { length (view A.Slots v.old).items < count }
    ensures ok { OnOk result ((xs : List A.Item) × (how : Growth)
        × BecomesIn A.Item.is_default (view A.Slots v.old) (view A.Slots v.new) ((view A.Slots v.old).items ++ xs)
        (place_for how (length (view A.Slots v.new).items) (view A.Slots v.old).place)
        × (0 < length xs) × (length (view A.Slots v.new).items ≤ count)
        × GrowsBy how (length (view A.Slots v.new).items) count (view A.Slots v.old).place
        × AllByRecursion A.Item.Fits (map A.Item.content_of xs)
        × ReadsSpelling (SpellsItems A.Item.Spells (map A.Item.content_of xs))
        (R.remaining reader.old.inner) (R.remaining reader.new.inner)) }
    ensures fails { FailsFor R.remaining (λ e input.
        AfterItems A.Item.Spells A.Item.Fits A.Item.Reason (count - length (view A.Slots v.old).items) e input
        ⊎ ((e ≡ BorshError.Memory) × (length (view A.Slots v.old).items ≡ (view A.Slots v.old).place.capacity)
        × ((length (view A.Slots v.old).items + 1 ≡ count) ⊎ IsBehind A.Item.Spells A.Item.Fits (λ _. Unit {0}) input)))
        reader.old reader.new result }
{
    let start = v.len();
    let room = v.capacity() - start;
    let left = count - start as u64;
    if room == 0 && left > 1 {
        let item = A::Item::deserialize_reader(alloc, reader)?;
        let Ok(()) = v.push(item) else {
            return Err(BorshError::Memory);
        };
        return Ok(());
    }
    let many = room.min(items_in_block::<A::Item>()).max(1);
    let end = start + left.min(many as u64) as usize;
    let Ok(()) = v.resize_with(end, || A::Item::default()) else {
        return Err(BorshError::Memory);
    };
    read_items(alloc, v.as_mut_slice(), start, end, reader)
}
