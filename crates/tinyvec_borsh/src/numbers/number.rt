//! Numbers as bytes, one and a block of them.
ghost use Rattle.std.specs.Prelude.{ℕ, ◌≡◌, ◌+◌, ◌*◌, ◌/◌, ◌≤◌, Bool, false, length, take, IfErr, OnOk};
ghost use Rattle.std.specs.Int.{byte_len, from_le_bytes, to_le_bytes};
ghost use Rattle.std.specs.List.{AllByRecursion};
ghost use Rattle.tinyvec_borsh.specs.Items.{AfterItems, SpellsItems};
ghost use Rattle.tinyvec_borsh.specs.Number.{NumberForm, TooFewBytes};
ghost use Rattle.tinyvec_borsh.specs.Reading.{FailsFor, LeavesSlots, ReadsSpelling};
ghost use Rattle.tinyvec_borsh.specs.Writing.{WritesValue};
ghost use Rattle.tinyvec_borsh.specs.declared.borsh_error.BorshError.{BorshError};

use crate::BorshError;
use crate::bytes::{read_bytes, write_bytes};
use std::io::{Read, Write};
use tinyvec_array::{Array, Slots};
use tinyvec_io::Counted;

/// So many bytes are read or written at once.
const ROOM: usize = 256;

/// So many are read at once of a list that takes more than `ROOM`.
const LONG_ROOM: usize = 1024;

/// A whole number, whose spelling is its bytes, least first.
pub(crate) trait FixedWidth: Copy {
    /// An array of them.
    type Bytes: Array<Item = u8>;

    ghost form: { NumberForm Self };

    fn to_bytes(self) -> Self::Bytes
        ensures bytes { Self.Bytes.Slots.slots result ≡ to_le_bytes form.width (form.to_bits self) }
        ensures valid { form.Fits self };

    fn from_bytes(bytes: Self::Bytes) -> Self
        ensures { result ≡ form.of_bits (from_le_bytes form.width (Self.Bytes.Slots.slots bytes)) };

    ghost sized: { Self.Bytes.CAPACITY ≡ byte_len form.width };
}

/// How a list of such numbers is written and read.
pub(crate) trait Number: FixedWidth {
    ghost in_place: { Bool };

    ghost lost: { ℕ };

    fn write_all<W: Write>(items: &[Self], writer: &mut Counted<W>) -> Result<(), BorshError>
        ensures writes { WritesValue W.contents (SpellsItems Self.form.Spells items.now) writer.old writer.new result }
        ensures valid { OnOk result (AllByRecursion Self.form.Fits items.now) };

    fn read_all<R: Read>(slots: &mut [Self], reader: &mut Counted<R>) -> Result<(), BorshError>
        ensures ok { OnOk result (ReadsSpelling (SpellsItems Self.form.Spells slots.new)
            (R.remaining reader.old.inner) (R.remaining reader.new.inner)) }
        ensures valid { OnOk result (AllByRecursion Self.form.Fits slots.new) }
        ensures fails { FailsFor R.remaining
            (AfterItems Self.form.Spells Self.form.Fits (TooFewBytes (byte_len Self.form.width)) (length slots.old))
            reader.old reader.new result }
        ensures left { IfErr result (LeavesSlots (λ (n : Self). n) Self.form.Spells Self.form.Fits in_place
            (AfterItems Self.form.Spells Self.form.Fits (TooFewBytes (byte_len Self.form.width)) (lost + 1) BorshError.Ended)
            slots.old slots.new (R.remaining reader.old.inner) (R.remaining reader.new.inner)) };
}

/// Numbers of which a list is written and read in blocks of bytes.
pub(crate) trait InBlocks: FixedWidth {}

impl<T: InBlocks> Number for T {
    ghost in_place = { false };

    // Those of a block that ends within a number.
    ghost lost = { 1024 / byte_len T.form.width };

    fn write_all<W: Write>(items: &[Self], writer: &mut Counted<W>) -> Result<(), BorshError> {
        let width = T::Bytes::CAPACITY;
        let mut room = [0; ROOM];
        let mut start = 0;
        while start < items.len() {
            let count = (items.len() - start).min(ROOM / width);
            encode(&items[start..start + count], &mut room);
            write_bytes(writer, &room[..count * width])?;
            start += count;
        }
        Ok(())
    }

    fn read_all<R: Read>(slots: &mut [Self], reader: &mut Counted<R>) -> Result<(), BorshError> {
        if slots.len() <= ROOM / T::Bytes::CAPACITY {
            return read_blocks::<T, R, ROOM>(slots, reader);
        }
        read_blocks::<T, R, LONG_ROOM>(slots, reader)
    }
}

// Reads the numbers in blocks of at most `MOST` bytes.
#[inline(always)]
fn read_blocks<T: FixedWidth, R: Read, const MOST: usize>(
    slots: &mut [T],
    reader: &mut Counted<R>,
) -> Result<(), BorshError>
    requires some { 16 ≤ MOST }
    requires few { MOST ≤ LONG_ROOM }
    ensures ok { OnOk result (ReadsSpelling (SpellsItems T.form.Spells slots.new)
        (R.remaining reader.old.inner) (R.remaining reader.new.inner)) }
    ensures valid { OnOk result (AllByRecursion T.form.Fits slots.new) }
    ensures fails { FailsFor R.remaining
        (AfterItems T.form.Spells T.form.Fits (TooFewBytes (byte_len T.form.width)) (length slots.old))
        reader.old reader.new result }
    ensures left { IfErr result (LeavesSlots (λ (n : T). n) T.form.Spells T.form.Fits false
        (AfterItems T.form.Spells T.form.Fits (TooFewBytes (byte_len T.form.width)) (1024 / byte_len T.form.width + 1) BorshError.Ended)
        slots.old slots.new (R.remaining reader.old.inner) (R.remaining reader.new.inner)) }
{
    let width = T::Bytes::CAPACITY;
    let mut room = [0; MOST];
    let mut start = 0;
    while start < slots.len() {
        let count = (slots.len() - start).min(MOST / width);
        let bytes = &mut room[..count * width];
        read_bytes(reader, bytes)?;
        decode(&mut slots[start..start + count], bytes);
        start += count;
    }
    Ok(())
}

// The number that the bytes spell.
pub(super) fn from_slice<T: FixedWidth>(spelling: &[u8]) -> T
    requires { length spelling.now ≡ T.Bytes.CAPACITY }
    ensures spelled { T.form.Spells result spelling.now }
    ensures valid { T.form.Fits result }
{
    let mut bytes = T::Bytes::default();
    bytes.as_slice_mut().copy_from_slice(spelling);
    T::from_bytes(bytes)
}

// Writes into each slot the number that its bytes spell.
#[tactic(auto, using(crate::proofs::NumberBlocks::next_within))]
fn decode<T: FixedWidth>(slots: &mut [T], bytes: &[u8])
    requires { length bytes.now ≡ length slots.old * T.Bytes.CAPACITY }
    ensures spelled { SpellsItems T.form.Spells slots.new bytes.now }
    ensures valid { AllByRecursion T.form.Fits slots.new }
    ensures len { length slots.new ≡ length slots.old }
{
    let width = T::Bytes::CAPACITY;
    for i in 0..slots.len() {
        let at = i * width;
        slots[i] = from_slice(&bytes[at..at + width]);
    }
}

// Puts the bytes of the numbers at the front of the room.
#[tactic(auto, using(crate::proofs::NumberBlocks::next_within))]
fn encode<T: FixedWidth>(items: &[T], room: &mut [u8; ROOM])
    requires { length items.now * T.Bytes.CAPACITY ≤ 256 }
    ensures spelled { SpellsItems T.form.Spells items.now (take (length items.now * T.Bytes.CAPACITY) room.new) }
    ensures valid { AllByRecursion T.form.Fits items.now }
{
    let width = T::Bytes::CAPACITY;
    for i in 0..items.len() {
        let at = i * width;
        room[at..at + width].copy_from_slice(items[i].to_bytes().as_slice());
    }
}
