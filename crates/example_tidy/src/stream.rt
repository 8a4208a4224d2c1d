//! A text that is read and written as its lines come.
ghost use Rattle.std.specs.Prelude.{◌≡◌, ◌≤◌, ◌↔◌, ◌^◌, ◌-◌, ◌++◌, IsTrue, List, ℕ, Some, OnOk, IsErrOf, length, true};
ghost use Rattle.std.specs.IoError.{error_kind};
ghost use Rattle.std.specs.Io.KnownBytes.{Appends, Consumes, IsAtEnd, Keeps};
ghost use Rattle.tinyvec.specs.TinyVec.{tiny_items, tiny_capacity};
ghost use Rattle.tinyvec_io.specs.Counted.{CountsEnds, CountsFailed, Reported};
ghost use Rattle.std.specs.declared.io.Error.{Error as IoError};
ghost use Rattle.example_tidy.specs.Failed.{is_read, is_write};
ghost use Rattle.example_tidy.specs.Tidy.{Advances, AllShort, Ends, EndsBeforeLong, EndsSome, IsBegun, IsShort, Tidied};
ghost use Rattle.example_tidy.specs.Tidy.{TidiedBeforeLong, TidiedUpTo};

use crate::line::LineText;
use crate::text::{end_text, feed};
use std::alloc::Global;
use std::io::{self, ErrorKind, Read, Write};
use thiserror::Error;
use tinyvec::TinyVec;
use tinyvec_io::Counted;

// How many bytes are read at a time. What is said for them, and for a line of 80 bytes that they end, fits `Output`.
const CHUNK: usize = 4016;

/// Why a text was not read or written to its end.
#[derive(Debug, Error, Drop)]
pub enum TidyError {
    /// The reader reported a fault.
    #[error("cannot read input: {0}")]
    Read(io::Error),
    /// The writer reported a fault.
    #[error("cannot write output: {0}")]
    Write(io::Error),
    /// Memory was refused, for a line that does not fit its place in the program.
    #[error("out of memory")]
    Memory,
    /// `u64::MAX` pieces were read, and none was the end.
    #[error("cannot read input: too long")]
    TooLong,
}

impl TidyError {
    /// Nobody reads the output any more.
    pub fn is_closed_pipe(&self) -> bool
        ensures { IsTrue result
            ↔ ((error : IoError) × (self.now ≡ TidyError.Write error) × (error_kind error ≡ ErrorKind.BrokenPipe)) }
    {
        match self {
            TidyError::Write(error) => error.kind() == ErrorKind::BrokenPipe,
            _ => false,
        }
    }
}

/// Reads a text to its end, and writes its normal form. The complete lines of what has come are written before more is
/// read, and the writer is flushed once, at the end of the input.
pub fn tidy<R: Read, W: Write>(
    alloc: Global,
    reader: &mut Counted<R>,
    writer: &mut Counted<W>,
) -> Result<(), TidyError>
    // All was read, and what was written is its normal form, and also its own.
    ensures ok { OnOk result ((input output : List ℕ)
        × Consumes (R.remaining reader.old.inner) (R.remaining reader.new.inner) input
        × IsAtEnd (R.remaining reader.new.inner)
        × Appends (W.contents writer.old.inner) (W.contents writer.new.inner) output
        × Tidied input output × Tidied output output) }
    ensures flushed { OnOk result (writer.new.flushed ≡ true) }
    // One call of the reader failed exactly at `Read`, one of the writer exactly at `Write`.
    ensures failed { CountsEnds is_read is_write reader.old reader.new writer.old writer.new result }

    // What came before the fault was read, and the normal forms of its complete lines were written.
    ensures read { (error : IoError) → IsErrOf result (TidyError.Read error) → (input output line : List ℕ)
        × Consumes (R.remaining reader.old.inner) (R.remaining reader.new.inner) input
        × Appends (W.contents writer.old.inner) (W.contents writer.new.inner) output
        × TidiedUpTo input output line }

    // The normal forms of exactly the lines before the one that memory was refused for were written. That line is not
    // short, so this comes of no text whose lines are.
    ensures memory { IsErrOf result TidyError.Memory → (input output : List ℕ)
        × Consumes (R.remaining reader.old.inner) (R.remaining reader.new.inner) input
        × Appends (W.contents writer.old.inner) (W.contents writer.new.inner) output
        × TidiedBeforeLong input output }
    ensures short { (text : List ℕ) → R.remaining reader.old.inner ≡ Some text → AllShort text
        → IsErrOf result TidyError.Memory → ⊥ }

    // What was written is a beginning of what was to be written.
    ensures write { (error : IoError) → IsErrOf result (TidyError.Write error) → (input output : List ℕ)
        × Consumes (R.remaining reader.old.inner) (R.remaining reader.new.inner) input
        × Appends (W.contents writer.old.inner) (W.contents writer.new.inner) output
        × IsBegun input output }

    // So long an input is not read on.
    ensures too_long { IsErrOf result TidyError.TooLong → (input output line : List ℕ)
        × Consumes (R.remaining reader.old.inner) (R.remaining reader.new.inner) input
        × (2 ^ 64 - 1 ≤ length input)
        × Appends (W.contents writer.old.inner) (W.contents writer.new.inner) output
        × TidiedUpTo input output line }
    ensures read_fault { (error : IoError) → IsErrOf result (TidyError.Read error)
        → Reported reader.old.faults reader.new.faults }
    ensures write_fault { (error : IoError) → IsErrOf result (TidyError.Write error)
        → Reported writer.old.faults writer.new.faults }
{
    let mut line = TinyVec::new(alloc);
    let mut chunk = [0; CHUNK];
    for _piece in 0..u64::MAX {
        let count = match reader.read_some(&mut chunk) {
            Ok(count) => count,
            Err(error) => return Err(TidyError::Read(error)),
        };
        if count == 0 {
            return finish(alloc, line.as_slice(), writer);
        }
        tidy_chunk(alloc, &mut line, &chunk[..count], writer)?;
    }
    Err(TidyError::TooLong)
}

// Takes bytes of the input, and writes the normal forms of the lines that they end.
fn tidy_chunk<W: Write>(
    alloc: Global,
    line: &mut LineText,
    bytes: &[u8],
    writer: &mut Counted<W>,
) -> Result<(), TidyError>
    ensures ok { OnOk result ((said : List ℕ) × Appends (W.contents writer.old.inner) (W.contents writer.new.inner) said
        × Advances (tiny_items line.old) bytes.now said (tiny_items line.new)) }
    ensures memory { IsErrOf result TidyError.Memory → 80 ≤ tiny_capacity line.old → length bytes.now ≤ CHUNK
        → (said : List ℕ) × Appends (W.contents writer.old.inner) (W.contents writer.new.inner) said
        × EndsBeforeLong (tiny_items line.old) bytes.now said }
    ensures line_room { tiny_capacity line.old ≤ tiny_capacity line.new }
    ensures write { (error : IoError) → IsErrOf result (TidyError.Write error) → (said missing : List ℕ)
        × Appends (W.contents writer.old.inner) (W.contents writer.new.inner) said
        × EndsSome (tiny_items line.old) bytes.now (said ++ missing) }
    ensures no_read { (error : IoError) → IsErrOf result (TidyError.Read error) → ⊥ }
    ensures not_long { IsErrOf result TidyError.TooLong → ⊥ }
    ensures faults_grow { writer.old.faults ≤ writer.new.faults }
    ensures failed { CountsFailed is_write writer.old.failed writer.new.failed result }
    ensures write_fault { (error : IoError) → IsErrOf result (TidyError.Write error)
        → Reported writer.old.faults writer.new.faults }
{
    let mut output = TinyVec::new(alloc);
    // No more is said than has come, so that a short line after a long one needs no memory.
    let Ok(()) = output.reserve(line.len() + bytes.len()) else {
        return Err(TidyError::Memory);
    };
    let fed = feed(alloc, line, &mut output, bytes);
    match writer.write_all(output.as_slice()) {
        Ok(()) => {}
        Err(error) => return Err(TidyError::Write(error)),
    }
    let Ok(()) = fed else {
        return Err(TidyError::Memory);
    };
    Ok(())
}

// Ends the last line, if it has bytes.
fn finish<W: Write>(alloc: Global, line: &[u8], writer: &mut Counted<W>) -> Result<(), TidyError>
    ensures ok { OnOk result ((said : List ℕ) × Appends (W.contents writer.old.inner) (W.contents writer.new.inner) said
        × Ends line.now said) }
    ensures flushed { OnOk result (writer.new.flushed ≡ true) }
    ensures memory { IsErrOf result TidyError.Memory
        → Keeps (W.contents writer.old.inner) (W.contents writer.new.inner) }
    ensures long { IsErrOf result TidyError.Memory → IsShort line.now → ⊥ }
    ensures write { (error : IoError) → IsErrOf result (TidyError.Write error) → (said missing : List ℕ)
        × Appends (W.contents writer.old.inner) (W.contents writer.new.inner) said
        × Ends line.now (said ++ missing) }
    ensures no_read { (error : IoError) → IsErrOf result (TidyError.Read error) → ⊥ }
    ensures not_long { IsErrOf result TidyError.TooLong → ⊥ }
    ensures faults_grow { writer.old.faults ≤ writer.new.faults }
    ensures failed { CountsFailed is_write writer.old.failed writer.new.failed result }
    ensures write_fault { (error : IoError) → IsErrOf result (TidyError.Write error)
        → Reported writer.old.faults writer.new.faults }
{
    let mut output = TinyVec::new(alloc);
    let Ok(()) = end_text(alloc, line, &mut output) else {
        return Err(TidyError::Memory);
    };
    match writer.write_all(output.as_slice()) {
        Ok(()) => {}
        Err(error) => return Err(TidyError::Write(error)),
    }
    match writer.flush() {
        Ok(()) => Ok(()),
        Err(error) => Err(TidyError::Write(error)),
    }
}
