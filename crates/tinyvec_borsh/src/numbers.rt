//! Whole numbers: their bytes, least significant first.
ghost use Rattle.std.specs.Int.{byte_len};
ghost use Rattle.tinyvec_borsh.specs.Number.{TooFewBytes};
ghost use Rattle.tinyvec_borsh.specs.NumberLaws.{apart_by_length, bytes-of};

mod number;
mod widths;

use crate::bytes::{read_bytes, write_bytes};
use crate::{BorshDeserialize, BorshError, BorshForm, BorshSerialize};
use number::{Number, from_slice};
use std::alloc::Global;
use std::io::{Read, Write};
use tinyvec_array::{Array, Slots};
use tinyvec_io::Counted;

impl<T: Number> BorshForm for T {
    ghost Content = { T };

    ghost content_of = { λ n. n };

    ghost Spells = { T.form.Spells };

    ghost Fits = { T.form.Fits };

    ghost code = { T.form.code };

    ghost spelled = { λ n fits. (_, T.form.written n fits) };
}

impl<T: Number> BorshSerialize for T {
    fn serialize<W: Write>(&self, writer: &mut Counted<W>) -> Result<(), BorshError> {
        write_bytes(writer, self.to_bytes().as_slice())
    }

    fn serialize_items<W: Write>(
        items: &[Self],
        writer: &mut Counted<W>,
    ) -> Result<(), BorshError> {
        T::write_all(items, writer)
    }
}

impl<T: Number> BorshDeserialize for T {
    ghost Reason = { TooFewBytes (byte_len T.form.width) };

    ghost in_place = { T.in_place };

    ghost lost = { T.lost };

    ghost apart = { apart_by_length (byte_len T.form.width) (bytes-of T.form.width).1
        T.form.Spells T.form.Fits T.form.many };

    fn deserialize_reader<R: Read>(
        _alloc: Global,
        reader: &mut Counted<R>,
    ) -> Result<Self, BorshError> {
        let mut room = [0; 16];
        let bytes = &mut room[..T::Bytes::CAPACITY];
        read_bytes(reader, bytes)?;
        Ok(from_slice(bytes))
    }

    fn deserialize_slots<R: Read>(
        _alloc: Global,
        slots: &mut [Self],
        reader: &mut Counted<R>,
    ) -> Result<(), BorshError> {
        T::read_all(slots, reader)
    }
}
