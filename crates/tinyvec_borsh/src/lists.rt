//! Lists and texts: the count, and then the items.
ghost use Rattle.std.specs.Prelude.{◌≡◌, ◌-◌, ◌≤◌, ◌++◌, List, length, map, take, drop, OnOk};
ghost use Rattle.std.specs.List.{AllByRecursion};
ghost use Rattle.tinyvec_borsh.specs.Items.{AfterItems, SpellsItems, SpellsList};
ghost use Rattle.tinyvec_borsh.specs.Reading.{FailsFor, ReadsSpelling};
ghost use Rattle.tinyvec_borsh.specs.Writing.{WritesValue};

mod array_vec;
mod inline_text;
mod tiny_vec;

use crate::{BorshDeserialize, BorshError, BorshSerialize};
use std::alloc::Global;
use std::io::{Read, Write};
use tinyvec_io::Counted;

// Writes the count of the items, and then the items. Inlined, so that LLVM knows how many a vector holds at most.
#[inline(always)]
fn write_list<T: BorshSerialize, W: Write>(
    len: usize,
    items: &[T],
    writer: &mut Counted<W>,
) -> Result<(), BorshError>
    requires { len ≡ length items.now }
    ensures writes { WritesValue W.contents (SpellsList T.Spells (map T.content_of items.now))
        writer.old writer.new result }
    ensures valid { OnOk result (AllByRecursion T.Fits (map T.content_of items.now)) }
{
    (len as u64).serialize(writer)?;
    T::serialize_items(items, writer)
}

// Reads items into the slots from `start` up to `end`.
fn read_items<T: BorshDeserialize + Drop, R: Read>(
    alloc: Global,
    slots: &mut [T],
    start: usize,
    end: usize,
    reader: &mut Counted<R>,
) -> Result<(), BorshError>
    requires start_le_end { start ≤ end }
    requires in_bounds { end ≤ length slots.old }
    ensures ok { OnOk result ((xs : List T) × (take end slots.new ≡ take start slots.old ++ xs)
        × (length xs ≡ end - start) × AllByRecursion T.Fits (map T.content_of xs)
        × ReadsSpelling (SpellsItems T.Spells (map T.content_of xs))
        (R.remaining reader.old.inner) (R.remaining reader.new.inner)) }
    ensures behind { drop end slots.new ≡ drop end slots.old }
    ensures fails { FailsFor R.remaining (AfterItems T.Spells T.Fits T.Reason (end - start))
        reader.old reader.new result }
{
    T::deserialize_slots(alloc, &mut slots[start..end], reader)
}
