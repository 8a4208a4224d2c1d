//! A script, read and answered.
ghost use Rattle.std.specs.Prelude.{◌≡◌, ◌⊎◌, ◌≤◌, ◌^◌, ◌-◌, ◌++◌, ◌∷◌, List, ℕ, [], Some, OnOk, IsErrOf, length, true};
ghost use Rattle.std.specs.Io.KnownBytes.{Appends, Consumes, IsAtEnd};
ghost use Rattle.tinyvec_io.specs.Counted.{AppendsFront, CountsEnds, Reported};
ghost use Rattle.tinyvec_script.specs.Failed.{is_read, is_write};
ghost use Rattle.tinyvec_script.specs.Writes.{Gathers, Writes};
ghost use Rattle.tinyvec_script.specs.State.{state_of};
ghost use Rattle.tinyvec_script.specs.Script.{Answered, Script, CompleteLines};
ghost use Rattle.tinyvec_script.specs.History.{kept, Feeds, Ends};

use crate::Answer;
use crate::command::{Command, parse_line, split_at_byte};
use crate::gathered::Gathered;
use crate::line::Line;
use crate::vectors::Vectors;
use std::alloc::Global;
use std::io;
use std::io::{Read, Write};
use thiserror::Error;
use tinyvec::{ArrayVec, SliceVec, Slots, TinyVec};
use tinyvec_io::Counted;
use tinyvec_text::InlineText;

// How many bytes are read at a time.
const CHUNK: usize = 4096;

/// Why a script ended before its input.
#[derive(Debug, Clone, Copy, PartialEq, Eq, Error)]
pub enum RunError {
    /// The reader failed.
    #[error("cannot read input")]
    Read,
    /// The writer failed.
    #[error("cannot write output")]
    Write,
    /// `u64::MAX` pieces were read, and none was the end.
    #[error("input too long")]
    TooLong,
}

/// Reads lines, and writes an answer line to each. The answers to all lines read so far are written before more is read, and
/// the writer is flushed once, at the end of the input. Only calls allocate, and the reading of a
/// splice's line.
pub fn run<R: Read, W: Write>(
    alloc: Global,
    reader: &mut Counted<R>,
    writer: &mut Counted<W>,
) -> Result<(), RunError>
    // All was read, and what was written is the output to it.
    ensures ok { OnOk result ((input output : List ℕ)
        × Consumes (R.remaining reader.old.inner) (R.remaining reader.new.inner) input
        × IsAtEnd (R.remaining reader.new.inner)
        × Appends (W.contents writer.old.inner) (W.contents writer.new.inner) output
        × Script input output) }
    ensures flushed { OnOk result (writer.new.flushed ≡ true) }
    // One call of the reader failed exactly at `Read`, one of the writer exactly at `Write`.
    ensures failed { CountsEnds is_read is_write reader.old reader.new writer.old writer.new result }

    // The complete lines before the fault were answered.
    ensures read { IsErrOf result RunError.Read → (input output : List ℕ)
        × Consumes (R.remaining reader.old.inner) (R.remaining reader.new.inner) input
        × Appends (W.contents writer.old.inner) (W.contents writer.new.inner) output
        × CompleteLines input output }
    ensures read_fault { IsErrOf result RunError.Read
        → Reported reader.old.faults reader.new.faults }

    // What was written is a front of the output.
    ensures write { IsErrOf result RunError.Write → (input output : List ℕ)
        × Consumes (R.remaining reader.old.inner) (R.remaining reader.new.inner) input
        × AppendsFront (W.contents writer.old.inner) (W.contents writer.new.inner) output
        × (CompleteLines input output ⊎ Script input output) }
    ensures write_fault { IsErrOf result RunError.Write
        → Reported writer.old.faults writer.new.faults }

    // So long an input is not read on.
    ensures too_long { IsErrOf result RunError.TooLong → (input output : List ℕ)
        × Consumes (R.remaining reader.old.inner) (R.remaining reader.new.inner) input
        × (2 ^ 64 - 1 ≤ length input)
        × Appends (W.contents writer.old.inner) (W.contents writer.new.inner) output
        × CompleteLines input output }
{
    let mut slots = [0; 4];
    let mut vectors = Vectors {
        a: ArrayVec::new(),
        s: SliceVec::from_slice_len(&mut slots, 0),
        t: TinyVec::new(alloc),
        x: InlineText::new(alloc),
    };
    let mut line = Line::new();
    let mut gathered = Gathered::new();
    let mut chunk = [0; CHUNK];
    for _piece in 0..u64::MAX {
        let count = match reader.read_some(&mut chunk) {
            Ok(count) => count,
            Err(_) => return Err(RunError::Read),
        };
        if count == 0 {
            match finish(alloc, &mut vectors, &line, &mut gathered, writer) {
                Ok(()) => return Ok(()),
                Err(_) => return Err(RunError::Write),
            }
        }
        match answer_chunk(
            alloc,
            &mut vectors,
            &mut line,
            &mut gathered,
            writer,
            &chunk[..count],
        ) {
            Ok(()) => {}
            Err(_) => return Err(RunError::Write),
        }
    }
    Err(RunError::TooLong)
}

// Answers the lines that these bytes of the input end, and writes the answers.
fn answer_chunk<W: Write, B: Slots<Item = i32>>(
    alloc: Global,
    vectors: &mut Vectors<B>,
    line: &mut Line,
    gathered: &mut Gathered,
    writer: &mut Counted<W>,
    bytes: &[u8],
) -> io::Result<()>
    requires { gathered.old ≡ Some [] }
    ensures writes { (output : List ℕ) × Writes W.contents writer.old writer.new result output
        × Feeds (state_of B.Slots vectors.old) line.old bytes.now output (state_of B.Slots vectors.new) line.new }
    ensures gathered { OnOk result (gathered.new ≡ Some []) }
{
    feed(alloc, vectors, line, gathered, writer, bytes);
    gathered.send(writer)
}

// Answers the last line, if it has bytes, writes the answer and flushes.
fn finish<W: Write, B: Slots<Item = i32>>(
    alloc: Global,
    vectors: &mut Vectors<B>,
    line: &Line,
    gathered: &mut Gathered,
    writer: &mut Counted<W>,
) -> io::Result<()>
    requires { gathered.old ≡ Some [] }
    ensures writes { (output : List ℕ) × Writes W.contents writer.old writer.new result output
        × Ends (state_of B.Slots vectors.old) line.now output }
    ensures flushed { OnOk result (writer.new.flushed ≡ true) }
{
    answer_last(alloc, vectors, line, gathered, writer);
    match gathered.send(writer) {
        Ok(()) => writer.flush(),
        Err(error) => Err(error),
    }
}

// Answers the last line, if it has bytes.
fn answer_last<W: Write, B: Slots<Item = i32>>(
    alloc: Global,
    vectors: &mut Vectors<B>,
    line: &Line,
    gathered: &mut Gathered,
    writer: &mut Counted<W>,
)
    ensures { (output : List ℕ) × Gathers W.contents writer.old gathered.old writer.new gathered.new output
        × Ends (state_of B.Slots vectors.old) line.now output }
{
    if line.is_empty() {
        return;
    }
    answer_line(alloc, vectors, line, gathered, writer);
}

// Answers the lines that these bytes of the input end.
fn feed<W: Write, B: Slots<Item = i32>>(
    alloc: Global,
    vectors: &mut Vectors<B>,
    line: &mut Line,
    gathered: &mut Gathered,
    writer: &mut Counted<W>,
    bytes: &[u8],
)
    ensures { (output : List ℕ) × Gathers W.contents writer.old gathered.old writer.new gathered.new output
        × Feeds (state_of B.Slots vectors.old) line.old bytes.now output (state_of B.Slots vectors.new) line.new }
{
    let mut rest = bytes;
    while let Some((front, after)) = split_at_byte(rest, b'\n') {
        line.extend(front);
        answer_line(alloc, vectors, line, gathered, writer);
        line.clear();
        rest = after;
    }
    line.extend(rest);
}

// Answers a complete line.
fn answer_line<W: Write, B: Slots<Item = i32>>(
    alloc: Global,
    vectors: &mut Vectors<B>,
    line: &Line,
    gathered: &mut Gathered,
    writer: &mut Counted<W>,
)
    ensures { (text : List ℕ) × Gathers W.contents writer.old gathered.old writer.new gathered.new (text ++ 10 ∷ [])
        × ((rest : List ℕ) → line.now ≡ kept rest
        → Answered (state_of B.Slots vectors.old) rest text (state_of B.Slots vectors.new)) }
{
    let Some(text) = line.as_slice() else {
        gathered.put(writer, b"bad\n");
        return;
    };
    match parse_line(alloc, text) {
        Command::Vector(name, call) => {
            let answered = vectors.answer(alloc, name, call);
            vectors.write_line(gathered, writer, &answered, name);
        }
        Command::Text(call) => {
            let answered = vectors.answer_text(call);
            vectors.write_text_line(gathered, writer, &answered);
        }
        Command::Bad => gathered.put(writer, b"bad\n"),
        Command::Memory(name) => vectors.write_line(gathered, writer, &Answer::Memory, name),
    }
}
