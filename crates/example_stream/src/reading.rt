//! `Reading`, and its Borsh form.
ghost use Rattle.example_stream.specs.Readings.{ReadingFits, ReadingReason, Said, SpellsReading, reading_apart};
ghost use Rattle.example_stream.specs.Readings.{reading_code, reading_spelled, said};

use std::alloc::Global;
use std::io::{Read, Write};
use tinyvec::{ArrayVec, TinyVec};
use tinyvec_borsh::{BorshDeserialize, BorshError, BorshForm, BorshSerialize};
use tinyvec_io::Counted;

/// What a station measured.
#[derive(Debug, Drop)]
pub struct Reading {
    /// The number of the station.
    pub station: u32,
    /// Up to eight samples.
    pub samples: ArrayVec<[u16; 8]>,
    /// A note, of any length. Up to 16 bytes of it need no memory.
    pub note: TinyVec<[u8; 16]>,
}

impl BorshForm for Reading {
    ghost Content = { Said };

    ghost content_of = { said };

    ghost Spells = { SpellsReading };

    ghost Fits = { ReadingFits };

    ghost code = { reading_code };

    ghost spelled = { reading_spelled };
}

impl BorshSerialize for Reading {
    fn serialize<W: Write>(&self, writer: &mut Counted<W>) -> Result<(), BorshError> {
        self.station.serialize(writer)?;
        self.samples.serialize(writer)?;
        self.note.serialize(writer)
    }
}

impl BorshDeserialize for Reading {
    ghost Reason = { ReadingReason };

    ghost apart = { reading_apart };

    fn deserialize_reader<R: Read>(
        alloc: Global,
        reader: &mut Counted<R>,
    ) -> Result<Self, BorshError> {
        let station = u32::deserialize_reader(alloc, reader)?;
        let samples = ArrayVec::deserialize_reader(alloc, reader)?;
        let note = TinyVec::deserialize_reader(alloc, reader)?;
        Ok(Reading {
            station,
            samples,
            note,
        })
    }
}
