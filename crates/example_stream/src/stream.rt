//! A stream of records: a tag before each, and no byte after the last.
ghost use Rattle.std.specs.Prelude.{◌≡◌, ◌≤◌, ◌++◌, ℕ, List, Result, Some, IfErr, IfOk, OnErr, OnOk, IsErrOf, map};
ghost use Rattle.std.specs.List.{AllByRecursion};
ghost use Rattle.tinyvec_io.specs.Counted.{CountsFault, Reported};
ghost use Rattle.tinyvec_borsh.specs.Reading.{MayBe};
ghost use Rattle.tinyvec_borsh.specs.Writing.{WritesValue};
ghost use Rattle.example_stream.specs.Readings.{ReadingFits, Said, said};
ghost use Rattle.example_stream.specs.Stream.{BeginsWith, Gives, GivesCut, IsCopy, IsEnd, NextIs, SpellsFrame, ends_by_io};
ghost use Rattle.example_stream.specs.Stream.{SpellsStream, StandsBehind, Takes};
ghost use Rattle.example_stream.specs.declared.stream_error.StreamError.{StreamError};

use crate::length::frame_len;
use crate::reading::Reading;
use crate::stream_error::StreamError;
use std::alloc::{AllocError, Global};
use std::io::{Read, Write};
use tinyvec_borsh::{BorshDeserialize, BorshError, BorshSerialize};
use tinyvec_io::Counted;

/// The byte before each record: the letter R.
pub const TAG: u8 = b'R';

/// Appends a record to the stream.
pub fn append<W: Write>(reading: &Reading, writer: &mut Counted<W>) -> Result<(), BorshError>
    ensures writes { WritesValue W.contents (SpellsFrame (said reading.now)) writer.old writer.new result }
    ensures valid { OnOk result (ReadingFits (said reading.now)) }
{
    TAG.serialize(writer)?;
    reading.serialize(writer)
}

/// Appends records to the stream, in order.
pub fn append_all<W: Write>(readings: &[Reading], writer: &mut Counted<W>) -> Result<(), BorshError>
    ensures writes { WritesValue W.contents (SpellsStream (map said readings.now)) writer.old writer.new result }
    ensures valid { OnOk result (AllByRecursion ReadingFits (map said readings.now)) }
{
    for reading in readings {
        append(reading, writer)?;
    }
    Ok(())
}

/// Appends a record to a stream in memory. If memory is refused, the stream is as it was.
pub fn append_to(alloc: Global, reading: &Reading, stream: &mut Vec<u8>) -> Result<(), AllocError>
    ensures ok { OnOk result ((frame : List ℕ) × SpellsFrame (said reading.now) frame
        × ReadingFits (said reading.now) × (stream.new.items ≡ stream.old.items ++ frame)) }
    ensures refused { OnErr result (stream.new.items ≡ stream.old.items) }
{
    let len = frame_len(reading) as usize;
    let mut writer = Counted::new(Vec::with_capacity(alloc, len)?);
    let Ok(()) = append(reading, &mut writer) else {
        return Err(AllocError);
    };
    let frame = writer.into_inner();
    stream.extend_from_slice(frame.as_slice())
}

/// What was read of a stream.
#[derive(Debug, Drop)]
pub struct Recovered {
    /// The records, in order.
    pub records: Vec<Reading>,
    /// `Ok` if no byte follows them, else what follows, or why no more was read.
    pub end: Result<(), StreamError>,
}

/// Reads the records of a stream up to its end, or up to what is no record.
pub fn read_all<R: Read>(alloc: Global, reader: &mut Counted<R>) -> Recovered
    // What was read is at the front of the input, in order, followed by what the end says.
    ensures stands { MayBe (R.remaining reader.old.inner)
        (BeginsWith (map said result.records.items) (StandsBehind result.end)) }
    ensures valid { AllByRecursion ReadingFits (map said result.records.items) }

    // Just their bytes were taken, and then no more than show the end.
    ensures taken { Takes (map said result.records.items) result.end
        (R.remaining reader.old.inner) (R.remaining reader.new.inner) }
    ensures fault { IsErrOf result.end StreamError.Io → Reported reader.old.faults reader.new.faults }

    // Exactly one call of the reader fails if `end` is `Err(Io)`, and none otherwise.
    ensures failed { CountsFault (ends_by_io result.end) reader.old.failed reader.new.failed }

    // The records at the front of the input are all read, and the end is described.
    ensures all { (cs : List Said) (bytes tail : List ℕ) (end : Result (Unit {0}) StreamError)
        → AllByRecursion ReadingFits cs → SpellsStream cs bytes → IsEnd end tail
        → R.remaining reader.old.inner ≡ Some (bytes ++ tail)
        → Gives cs end reader.old.faults reader.new.faults (map said result.records.items) result.end }

    // If a stream is cut after any byte, the records before the cut are read.
    ensures cut { (cs : List Said) (front back : List ℕ)
        → AllByRecursion ReadingFits cs → SpellsStream cs (front ++ back)
        → R.remaining reader.old.inner ≡ Some front
        → GivesCut cs front reader.old.faults reader.new.faults (map said result.records.items) result.end }
{
    let mut records = Vec::new(alloc);
    let end = read_records(alloc, &mut records, reader);
    Recovered { records, end }
}

/// Appends the records to a new stream, and reads that. What is read is what was written, in order.
pub fn copied(alloc: Global, readings: &[Reading]) -> Result<Recovered, BorshError>
    ensures ok { IfOk result (λ copy. IsCopy (map said readings.now) (map said copy.records.items) copy.end) }
    ensures err { IfErr result (λ e. e ≡ BorshError.Io) }
{
    let mut writer = Counted::new(Vec::new(alloc));
    append_all(readings, &mut writer)?;
    let bytes = writer.into_inner();
    let copy = read_all(alloc, &mut Counted::new(bytes.as_slice()));
    match copy.end {
        // No read of a slice fails, but the contract of a reader cannot state that.
        Err(StreamError::Io) => Err(BorshError::Io),
        _ => Ok(copy),
    }
}

// Reads records after those that are there.
fn read_records<R: Read>(
    alloc: Global,
    records: &mut Vec<Reading>,
    reader: &mut Counted<R>,
) -> Result<(), StreamError>
    ensures stands { (more : List Reading) × (records.new.items ≡ records.old.items ++ more)
        × AllByRecursion ReadingFits (map said more)
        × MayBe (R.remaining reader.old.inner) (BeginsWith (map said more) (StandsBehind result))
        × Takes (map said more) result (R.remaining reader.old.inner) (R.remaining reader.new.inner) }
    ensures fault { IsErrOf result StreamError.Io → Reported reader.old.faults reader.new.faults }
    ensures failed { CountsFault (ends_by_io result) reader.old.failed reader.new.failed }
{
    while has_next(alloc, reader)? {
        // Room first, so that no record is read and lost.
        let Ok(()) = records.reserve(1) else {
            return Err(StreamError::Memory);
        };
        let reading = Reading::deserialize_reader(alloc, reader)?;
        records.push_reserved(reading);
    }
    Ok(())
}

// Reads the tag of the next record, and tells whether there is one, or no byte is left.
fn has_next<R: Read>(alloc: Global, reader: &mut Counted<R>) -> Result<bool, StreamError>
    ensures next { NextIs (R.remaining reader.old.inner) (R.remaining reader.new.inner) result }
    ensures fault { IsErrOf result StreamError.Io → Reported reader.old.faults reader.new.faults }
    ensures faults_grow { reader.old.faults ≤ reader.new.faults }
    ensures failed { CountsFault (ends_by_io result) reader.old.failed reader.new.failed }
{
    let tag = match u8::deserialize_reader(alloc, reader) {
        Ok(tag) => tag,
        Err(BorshError::Ended) => return Ok(false),
        Err(error) => return Err(StreamError::from(error)),
    };
    if tag != TAG {
        return Err(StreamError::WrongTag);
    }
    Ok(true)
}
