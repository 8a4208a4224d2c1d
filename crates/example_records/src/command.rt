//! The commands of the program.
ghost use Rattle.std.specs.Prelude.{◌≡◌, ◌↔◌, ◌-◌, ◌^◌, ◌++◌, ℕ, List, [], Err, codes, length, map, min, IfErr, IfOk};
ghost use Rattle.std.specs.Prelude.{OnErr, OnOk, IsTrue, IsUtf8, string_bytes};
ghost use Rattle.std.specs.Option.{option_copied};
ghost use Rattle.tinyvec_array.specs.ArrayVec.{items};
ghost use Rattle.example_records.specs.Commands.{Answers, AreSamples, Commands, HasTag, IsCommand, IsMemoryOr, IsRead};
ghost use Rattle.example_records.specs.Commands.{IsRecord, Says, Tells};
ghost use Rattle.example_records.specs.Commands.{behind_comma, part_of, rest_of, word_of};
ghost use Rattle.example_records.specs.Errors.{end_text};
ghost use Rattle.example_stream.specs.Readings.{ReadingFits, Said, SamplesFit, said};
ghost use Rattle.example_records.specs.Shown.{IsLineOf, IsShown};
ghost use Rattle.example_stream.specs.Stream.{SpellsStream};
ghost use Rattle.example_records.specs.declared.command_error.CommandError.TheVariants.{Samples, Text, Unknown};

use crate::command_error::CommandError;
use crate::hex::bytes_of_hex;
use example_stream::{
    Reading, Recovered, StreamError, TAG, append_to, copied, read_all, stream_len,
};
use std::alloc::{AllocError, Global};
use std::str;
use tinyvec::{ArrayVec, TinyVec};
use tinyvec_io::Counted;

/// Carries out the command on a line. Answers what was read if the command is to read the stream or a copy of it.
pub fn run(
    alloc: Global,
    line: &[u8],
    stream: &mut Vec<u8>,
) -> Result<Option<Recovered>, CommandError>
    ensures answers { Answers (Commands line.now) stream.old.items stream.new.items result }

    // What is no text, and what has no command's word, is refused as that.
    ensures text { (IsUtf8 line.now → ⊥) → result ≡ Err Text }
    ensures unknown { IsUtf8 line.now → (IsCommand (word_of line.now) → ⊥) → result ≡ Err Unknown }
    ensures tells { IsUtf8 line.now → IfErr result (Tells (word_of line.now) (rest_of line.now)) }
{
    match str::from_utf8(line) {
        Ok(text) => obey(alloc, text, stream),
        Err(_) => Err(CommandError::Text),
    }
}

/// Appends the records, a line each, and then where they end, and why no more were read.
pub fn push_shown(
    text: &mut Vec<u8>,
    piece: &mut String,
    recovered: &Recovered,
) -> Result<(), AllocError>
    ensures ok { OnOk result ((shown : List ℕ) × (text.new.items ≡ text.old.items ++ shown)
        × IsShown (map said recovered.now.records.items) recovered.now.end shown) }
    ensures refused { OnErr result ((some : List ℕ) × (text.new.items ≡ text.old.items ++ some)) }
{
    // Each line is written apart: of a note that is not ASCII, `write!` does not state that the text before it stays.
    for reading in &recovered.records {
        show_reading(piece, reading)?;
        text.extend_from_slice(piece.as_bytes())?;
    }
    show_end(piece, recovered)?;
    text.extend_from_slice(piece.as_bytes())?;
    Ok(())
}

// Carries out the command of a text.
fn obey(alloc: Global, text: &str, stream: &mut Vec<u8>) -> Result<Option<Recovered>, CommandError>
    ensures answers { Answers (Says (word_of text.now) (rest_of text.now)) stream.old.items stream.new.items result }
    ensures unknown { (IsCommand (word_of text.now) → ⊥) → result ≡ Err Unknown }
    ensures tells { IfErr result (Tells (word_of text.now) (rest_of text.now)) }
{
    let (word, rest) = first_word(text);
    match word {
        "add" => add(alloc, rest, stream),
        "hex" => append_hex(alloc, rest, stream),
        "cut" => cut(rest, stream),
        "read" => read(alloc, rest, stream.as_slice()),
        "copy" => copy(alloc, rest, stream.as_slice()),
        _ => Err(CommandError::Unknown),
    }
}

// Appends a record.
fn add(alloc: Global, text: &str, stream: &mut Vec<u8>) -> Result<Option<Recovered>, CommandError>
    ensures answers { Answers (Says (codes "add") text.now) stream.old.items stream.new.items result }
    ensures tells { IfErr result (Tells (codes "add") text.now) }
{
    let reading = parse_reading(alloc, text)?;
    append_to(alloc, &reading, stream)?;
    Ok(None)
}

// The text before the first blank, and the text after it.
fn first_word(text: &str) -> (&str, &str)
    ensures word { result.0.now ≡ word_of text.now }
    ensures rest { result.1.now ≡ rest_of text.now }
{
    text.split_once(' ').unwrap_or((text, ""))
}

// The text before the first comma, and the text after it, if there is one.
fn first_part(text: &str) -> (&str, Option<&str>)
    ensures part { result.0.now ≡ part_of text.now }
    ensures behind { option_copied result.1 ≡ behind_comma text.now }
{
    match text.split_once(',') {
        Some((part, behind)) => (part, Some(behind)),
        None => (text, None),
    }
}

// `STATION SAMPLE,SAMPLE,.. NOTE`, or `STATION - NOTE` for no samples.
fn parse_reading(alloc: Global, text: &str) -> Result<Reading, CommandError>
    ensures ok { IfOk result (λ reading. IsRecord text.now (said reading)) }
    ensures err { IfErr result (IsMemoryOr ((c : Said) → IsRecord text.now c → ReadingFits c → ⊥)) }
    ensures tells { IfErr result (Tells (codes "add") text.now) }
{
    let (station, rest) = first_word(text);
    let (samples, note) = first_word(rest);
    let Ok(station) = station.parse::<u32>() else {
        return Err(CommandError::Station);
    };
    let samples = parse_samples(samples)?;
    let note = TinyVec::from_slice(alloc, note.as_bytes())?;
    Ok(Reading {
        station,
        samples,
        note,
    })
}

fn parse_samples(text: &str) -> Result<ArrayVec<[u16; 8]>, CommandError>
    ensures ok { IfOk result (λ samples. AreSamples text.now (items samples)) }
    ensures refused { OnErr result ((samples : List ℕ) → AreSamples text.now samples → SamplesFit samples → ⊥) }
    ensures err { IfErr result (λ e. e ≡ Samples) }
{
    let mut samples = ArrayVec::new();
    if text == "-" {
        return Ok(samples);
    }
    let mut rest = Some(text);
    while let Some(text) = rest {
        let (part, behind) = first_part(text);
        let Ok(sample) = part.parse::<u16>() else {
            return Err(CommandError::Samples);
        };
        if samples.try_push(sample).is_some() {
            return Err(CommandError::Samples);
        }
        rest = behind;
    }
    Ok(samples)
}

// Appends bytes.
fn append_hex(
    alloc: Global,
    text: &str,
    stream: &mut Vec<u8>,
) -> Result<Option<Recovered>, CommandError>
    ensures answers { Answers (Says (codes "hex") text.now) stream.old.items stream.new.items result }
    ensures tells { IfErr result (Tells (codes "hex") text.now) }
{
    let bytes = bytes_of_hex(alloc, text.as_bytes())?;
    stream.extend_from_slice(bytes.as_slice())?;
    Ok(None)
}

// Keeps the first bytes.
fn cut(text: &str, stream: &mut Vec<u8>) -> Result<Option<Recovered>, CommandError>
    ensures answers { Answers (Says (codes "cut") text.now) stream.old.items stream.new.items result }
    ensures tells { IfErr result (Tells (codes "cut") text.now) }
{
    match text.parse::<usize>() {
        Ok(len) if len <= stream.len() => {
            stream.truncate(len);
            Ok(None)
        }
        _ => Err(CommandError::Length),
    }
}

// Reads the stream, if no words follow the command.
fn read(alloc: Global, rest: &str, stream: &[u8]) -> Result<Option<Recovered>, CommandError>
    ensures answers { Answers (Says (codes "read") rest.now) stream.now stream.now result }
    ensures tells { IfErr result (Tells (codes "read") rest.now) }
{
    if !rest.is_empty() {
        return Err(CommandError::Words);
    }
    // Without a tag at its start a stream has no record, and to say so allocates nothing.
    if stream.is_empty() {
        return Ok(Some(no_records(alloc, Ok(()))));
    }
    if !has_tag(stream) {
        return Ok(Some(no_records(alloc, Err(StreamError::WrongTag))));
    }
    match recover(alloc, stream) {
        Ok(recovered) => Ok(Some(recovered)),
        Err(_) => Err(CommandError::Memory),
    }
}

// Reads the stream. No read of a slice fails, but the contract of a reader cannot state that: what would be a fault is told as
// a refusal of memory.
fn recover(alloc: Global, stream: &[u8]) -> Result<Recovered, AllocError>
    ensures { IfOk result (λ recovered. IsRead stream.now (map said recovered.records.items) recovered.end) }
{
    let recovered = read_all(alloc, &mut Counted::new(stream));
    match recovered.end {
        Err(StreamError::Io) => Err(AllocError),
        _ => Ok(recovered),
    }
}

// What is read of a stream that has no record.
fn no_records(alloc: Global, end: Result<(), StreamError>) -> Recovered
    ensures records { result.records.items ≡ [] }
    ensures end { result.end ≡ end }
{
    Recovered {
        records: Vec::new(alloc),
        end,
    }
}

// Whether a record may begin the stream.
fn has_tag(stream: &[u8]) -> bool
    ensures { IsTrue result ↔ HasTag stream.now }
{
    match stream {
        [first, ..] => *first == TAG,
        [] => false,
    }
}

// Reads a new stream to which the records of this one were appended, if no words follow the command.
fn copy(alloc: Global, rest: &str, stream: &[u8]) -> Result<Option<Recovered>, CommandError>
    ensures answers { Answers (Says (codes "copy") rest.now) stream.now stream.now result }
    ensures tells { IfErr result (Tells (codes "copy") rest.now) }
{
    if !rest.is_empty() {
        return Err(CommandError::Words);
    }
    // Without a tag at its start a stream has no record, so its copy is empty, and allocates nothing.
    if !has_tag(stream) {
        return Ok(Some(no_records(alloc, Ok(()))));
    }
    let Ok(recovered) = recover(alloc, stream) else {
        return Err(CommandError::Memory);
    };
    if is_refused(recovered.end) {
        return Err(CommandError::Memory);
    }
    match copied(alloc, recovered.records.as_slice()) {
        Ok(copy) => Ok(Some(copy)),
        Err(_) => Err(CommandError::Memory),
    }
}

// Whether memory was refused.
fn is_refused(end: Result<(), StreamError>) -> bool
    ensures { IsTrue result ↔ (end ≡ Err StreamError.Memory) }
{
    matches!(end, Err(StreamError::Memory))
}

// The text becomes the line of a record.
fn show_reading(text: &mut String, reading: &Reading) -> Result<(), AllocError>
    ensures { OnOk result (IsLineOf (said reading.now) (string_bytes text.new)) }
{
    let station = reading.station;
    let samples = &reading.samples;
    text.clear();
    match str::from_utf8(reading.note.as_slice()) {
        Ok(note) => write!(text, "{station} {samples:?} {note:?}\n"),
        Err(_) => {
            let note = &reading.note;
            write!(text, "{station} {samples:?} {note:?}\n")
        }
    }
}

// The text becomes what says where the records end, and why no more were read.
fn show_end(text: &mut String, recovered: &Recovered) -> Result<(), AllocError>
    ensures { OnOk result ((bytes : List ℕ) → SpellsStream (map said recovered.now.records.items) bytes
        → string_bytes text.new ≡ end_text (min (length bytes) (2 ^ 64 - 1)) recovered.now.end) }
{
    let len = stream_len(recovered.records.as_slice());
    text.clear();
    match recovered.end {
        Ok(()) => write!(text, "end after {len} bytes"),
        Err(error) => write!(text, "end after {len} bytes: {error}"),
    }
}
