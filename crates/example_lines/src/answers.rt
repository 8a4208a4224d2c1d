//! A text that is answered line by line.
ghost use Rattle.std.specs.Prelude.{◌≡◌, ◌⊎◌, ◌≤◌, ◌-◌, ◌^◌, ◌++◌, ◌∷◌, [], List, ℕ, true, length, IfSome, IfNone};
ghost use Rattle.std.specs.Prelude.{OnOk, OnErr, IsErrOf, map};
ghost use Rattle.std.specs.Io.KnownBytes.{Appends, Consumes, IsAtEnd, Keeps};
ghost use Rattle.std.specs.Str.Lines.{strip_carriage_return};
ghost use Rattle.tinyvec_io.specs.Counted.{AppendsFront, CountsEnds, Reported};
ghost use Rattle.tinyvec_io.specs.Lines.{IsLine, last_line};
ghost use Rattle.example_lines.specs.Answers.{Advances, AdvancesSome, AnsweredSome, AnswersAs, AnswersEach};
ghost use Rattle.example_lines.specs.Answers.{AnswersUpTo, AppendsAnswer, IsAnswered};
ghost use Rattle.example_lines.specs.Stops.{Reports, is_input, is_output};
ghost use Rattle.std.specs.declared.io.Error.{Error as IoError};

use crate::failure::{Failure, Stop};
use std::alloc::{AllocError, Global};
use std::io::{Read, Write};
use tinyvec_io::Counted;

// How many bytes are read at a time.
const CHUNK: usize = 4096;

/// What answers lines, one after another.
pub trait Answer {
    // What it is before a line, the line, the answer, and what it is after it.
    ghost IsAnswer: { Self → List ℕ → List ℕ → Self → Type 0 };

    /// Appends the answer to a line. The one error is that memory was refused; then nothing was appended, and later lines are
    /// answered as if this one had not come.
    fn answer(&mut self, alloc: Global, line: &[u8], text: &mut Vec<u8>) -> Result<(), AllocError>
        ensures answered { OnOk result (AppendsAnswer IsAnswer self.old line.now self.new text.old.items text.new.items) }
        ensures refused { OnErr result (text.new.items ≡ text.old.items) }
        ensures kept { OnErr result (AnswersAs IsAnswer self.old self.new) };
}

/// Answers each line of the input. The answers to the lines that have come are written before more is waited for.
pub fn answer_lines<A: Answer, R: Read, W: Write>(
    alloc: Global,
    program: &mut A,
    reader: &mut Counted<R>,
    writer: &mut Counted<W>,
) -> Result<(), Failure>
    // All was read, and each line was answered.
    ensures ok { OnOk result ((input output : List ℕ)
        × Consumes (R.remaining reader.old.inner) (R.remaining reader.new.inner) input
        × IsAtEnd (R.remaining reader.new.inner)
        × Appends (W.contents writer.old.inner) (W.contents writer.new.inner) output
        × IsAnswered A.IsAnswer program.old input output program.new) }
    ensures flushed { OnOk result (writer.new.flushed ≡ true) }
    // One call of the reader failed exactly if the input did, one of the writer exactly if the output did.
    ensures failed { CountsEnds is_input is_output reader.old reader.new writer.old writer.new result }

    // Each line that came whole before the fault was answered.
    ensures input { (error : IoError) → IsErrOf result (Failure.Input error) → (input output line : List ℕ)
        × Consumes (R.remaining reader.old.inner) (R.remaining reader.new.inner) input
        × Appends (W.contents writer.old.inner) (W.contents writer.new.inner) output
        × AnswersUpTo A.IsAnswer program.old input output line program.new }
    ensures input_fault { (error : IoError) → IsErrOf result (Failure.Input error)
        → Reported reader.old.faults reader.new.faults }

    // So was each line before the one that memory was refused for. Later ones were read perhaps, and none was taken: the
    // program answers as if that line had not come.
    ensures memory { IsErrOf result Failure.Memory → (input left output line : List ℕ)
        × Consumes (R.remaining reader.old.inner) (R.remaining reader.new.inner) (input ++ left)
        × Appends (W.contents writer.old.inner) (W.contents writer.new.inner) output
        × AnsweredSome A.IsAnswer program.old input output line program.new }

    // What was written is a front of the answers.
    ensures output { (error : IoError) → IsErrOf result (Failure.Output error) → (input left output line : List ℕ)
        × Consumes (R.remaining reader.old.inner) (R.remaining reader.new.inner) (input ++ left)
        × AppendsFront (W.contents writer.old.inner) (W.contents writer.new.inner) output
        × (AnsweredSome A.IsAnswer program.old input output line program.new
        ⊎ IsAnswered A.IsAnswer program.old input output program.new) }
    ensures output_fault { (error : IoError) → IsErrOf result (Failure.Output error)
        → Reported writer.old.faults writer.new.faults }

    // So long an input is not read on.
    ensures too_long { IsErrOf result Failure.TooLong → (input output line : List ℕ)
        × Consumes (R.remaining reader.old.inner) (R.remaining reader.new.inner) input
        × (2 ^ 64 - 1 ≤ length input)
        × Appends (W.contents writer.old.inner) (W.contents writer.new.inner) output
        × AnswersUpTo A.IsAnswer program.old input output line program.new }
{
    let mut line = Vec::new(alloc);
    let mut text = Vec::new(alloc);
    let mut chunk = [0; CHUNK];
    for _piece in 0..u64::MAX {
        let count = match reader.read_some(&mut chunk) {
            Ok(count) => count,
            Err(error) => return Err(Failure::Input(error)),
        };
        if count == 0 {
            match finish(alloc, program, line.as_slice(), &mut text, writer) {
                Ok(()) => return Ok(()),
                Err(Stop::Memory) => return Err(Failure::Memory),
                Err(Stop::Output(error)) => return Err(Failure::Output(error)),
            }
        }
        match answer_chunk(
            alloc,
            program,
            &mut line,
            &chunk[..count],
            &mut text,
            writer,
        ) {
            Ok(()) => {}
            Err(Stop::Memory) => return Err(Failure::Memory),
            Err(Stop::Output(error)) => return Err(Failure::Output(error)),
        }
    }
    Err(Failure::TooLong)
}

// Takes bytes of the input, and writes the answers to the lines that they end: to all of them, or to those before the one
// that memory was refused for. The memory of `text` is used for the answers to each piece.
fn answer_chunk<A: Answer, W: Write>(
    alloc: Global,
    program: &mut A,
    line: &mut Vec<u8>,
    bytes: &[u8],
    text: &mut Vec<u8>,
    writer: &mut Counted<W>,
) -> Result<(), Stop>
    ensures ok { OnOk result ((said : List ℕ) × Appends (W.contents writer.old.inner) (W.contents writer.new.inner) said
        × Advances A.IsAnswer program.old line.old.items bytes.now said line.new.items program.new) }
    ensures memory { IsErrOf result Stop.Memory → (front rest said next : List ℕ) × (bytes.now ≡ front ++ rest)
        × Appends (W.contents writer.old.inner) (W.contents writer.new.inner) said
        × AdvancesSome A.IsAnswer program.old line.old.items front said next program.new }
    ensures output { (error : IoError) → IsErrOf result (Stop.Output error)
        → (front rest said next : List ℕ) × (bytes.now ≡ front ++ rest)
        × AppendsFront (W.contents writer.old.inner) (W.contents writer.new.inner) said
        × AdvancesSome A.IsAnswer program.old line.old.items front said next program.new }
    ensures faults { Reports writer.old writer.new result }
{
    text.clear();
    let answered = push_answers(alloc, program, line, bytes, text);
    write_out(text.as_slice(), writer)?;
    Ok(answered?)
}

// Appends the answers to the lines that the bytes end, and keeps what has come of the next line.
fn push_answers<A: Answer>(
    alloc: Global,
    program: &mut A,
    line: &mut Vec<u8>,
    bytes: &[u8],
    text: &mut Vec<u8>,
) -> Result<(), AllocError>
    ensures ok { OnOk result ((said : List ℕ) × (text.new.items ≡ text.old.items ++ said)
        × Advances A.IsAnswer program.old line.old.items bytes.now said line.new.items program.new) }
    // If memory is refused, what was appended answers lines before.
    ensures some { (front rest said next : List ℕ) × (bytes.now ≡ front ++ rest)
        × (text.new.items ≡ text.old.items ++ said)
        × AdvancesSome A.IsAnswer program.old line.old.items front said next program.new }
{
    let mut rest = bytes;
    while let Some((end, after)) = split_line(rest) {
        push_answer(alloc, program, line, end, text)?;
        rest = after;
    }
    Ok(line.extend_from_slice(rest)?)
}

// Appends the answer to the line that `end` ends. Where `line` has nothing of it, it is read where it is.
fn push_answer<A: Answer>(
    alloc: Global,
    program: &mut A,
    line: &mut Vec<u8>,
    end: &[u8],
    text: &mut Vec<u8>,
) -> Result<(), AllocError>
    ensures ok { OnOk result (AppendsAnswer A.IsAnswer program.old (strip_carriage_return (line.old.items ++ end.now))
        program.new text.old.items text.new.items) }
    ensures next { OnOk result (line.new.items ≡ []) }
    ensures refused { OnErr result (text.new.items ≡ text.old.items) }
    ensures kept { OnErr result (AnswersAs A.IsAnswer program.old program.new) }
{
    if line.is_empty() {
        return program.answer(alloc, strip_return(end), text);
    }
    line.extend_from_slice(end)?;
    program.answer(alloc, strip_return(line.as_slice()), text)?;
    line.clear();
    Ok(())
}

// The bytes before the first line feed, and those after it.
fn split_line(bytes: &[u8]) -> Option<(&[u8], &[u8])>
    ensures whole { IfSome result (λ parts. bytes.now ≡ parts.0.now ++ 10 ∷ parts.1.now) }
    ensures line { IfSome result (λ parts. IsLine parts.0.now) }
    ensures none { IfNone result (IsLine bytes.now) }
{
    for index in 0..bytes.len() {
        if bytes[index] == b'\n' {
            return Some((&bytes[..index], &bytes[index + 1..]));
        }
    }
    None
}

// The line, without a carriage return at its end.
fn strip_return(line: &[u8]) -> &[u8]
    ensures { result.now ≡ strip_carriage_return line.now }
{
    match line.strip_suffix(b"\r") {
        Some(stripped) => stripped,
        None => line,
    }
}

// Writes the bytes, and flushes.
fn write_out<W: Write>(bytes: &[u8], writer: &mut Counted<W>) -> Result<(), Stop>
    ensures ok { OnOk result (Appends (W.contents writer.old.inner) (W.contents writer.new.inner) bytes.now) }
    ensures output { OnErr result (AppendsFront (W.contents writer.old.inner) (W.contents writer.new.inner) bytes.now) }
    ensures flushed { OnOk result (writer.new.flushed ≡ true) }
    ensures not_memory { IsErrOf result Stop.Memory → ⊥ }
    ensures faults { Reports writer.old writer.new result }
{
    writer.write_all(bytes)?;
    writer.flush()?;
    Ok(())
}

// Answers the last line, if it has bytes, and flushes.
fn finish<A: Answer, W: Write>(
    alloc: Global,
    program: &mut A,
    line: &[u8],
    text: &mut Vec<u8>,
    writer: &mut Counted<W>,
) -> Result<(), Stop>
    ensures ok { OnOk result ((output : List ℕ) × Appends (W.contents writer.old.inner) (W.contents writer.new.inner) output
        × AnswersEach A.IsAnswer program.old (map strip_carriage_return (last_line line.now)) output program.new) }
    ensures flushed { OnOk result (writer.new.flushed ≡ true) }
    ensures memory { IsErrOf result Stop.Memory → Keeps (W.contents writer.old.inner) (W.contents writer.new.inner)
        × AnswersAs A.IsAnswer program.old program.new }
    ensures output { (error : IoError) → IsErrOf result (Stop.Output error) → (output : List ℕ)
        × AppendsFront (W.contents writer.old.inner) (W.contents writer.new.inner) output
        × AnswersEach A.IsAnswer program.old (map strip_carriage_return (last_line line.now)) output program.new }
    ensures faults { Reports writer.old writer.new result }
{
    if line.is_empty() {
        writer.flush()?;
        return Ok(());
    }
    text.clear();
    program.answer(alloc, strip_return(line), text)?;
    write_out(text.as_slice(), writer)?;
    Ok(())
}
