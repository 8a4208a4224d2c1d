//! The normal form of a whole text.
ghost use Rattle.std.specs.Prelude.{◌≡◌, ◌+◌, ◌-◌, ◌<◌, ◌≤◌, ◌++◌, ◌∷◌, [], List, ℕ, map, length, IsOk, IfOk, IfSome};
ghost use Rattle.std.specs.Prelude.{IfNone, OnOk, OnErr};
ghost use Rattle.std.specs.Str.Lines.{lines};
ghost use Rattle.tinyvec.specs.TinyVec.{tiny_items, tiny_len, tiny_capacity};
ghost use Rattle.tinyvec_io.specs.Lines.{IsLine, ended};
ghost use Rattle.example_tidy.specs.Tidy.{Advances, AllShort, Ends, IsShort, Refuses, Tidied, normal_line};

use crate::line::{LineText, Output, end_line};
use std::alloc::{AllocError, Global};
use tinyvec::TinyVec;

/// The normal form of a text. The one error is that memory was refused.
pub fn tidy_text(alloc: Global, text: &[u8]) -> Result<Output, AllocError>
    ensures tidied { IfOk result (λ output. Tidied text.now (tiny_items output)) }
    ensures twice { IfOk result (λ output. Tidied (tiny_items output) (tiny_items output)) }
    ensures succeeds { AllShort text.now → length (ended (map normal_line (lines text.now))) ≤ 4096 → IsOk result }
{
    let mut line = TinyVec::new(alloc);
    let mut output = TinyVec::new(alloc);
    feed(alloc, &mut line, &mut output, text)?;
    end_text(alloc, line.as_slice(), &mut output)?;
    Ok(output)
}

// Takes bytes of the text, and appends the normal forms of the lines that they end: of all of them, or of those before
// the one that memory was refused for.
pub(crate) fn feed(
    alloc: Global,
    line: &mut LineText,
    output: &mut Output,
    bytes: &[u8],
) -> Result<(), AllocError>
    ensures ok { OnOk result ((said : List ℕ) × (tiny_items output.new ≡ tiny_items output.old ++ said)
        × Advances (tiny_items line.old) bytes.now said (tiny_items line.new)) }
    ensures refused { OnErr result ((said kept : List ℕ) × (tiny_items output.new ≡ tiny_items output.old ++ said)
        × Refuses (tiny_items line.old) bytes.now said kept (tiny_capacity line.old)
        (tiny_capacity output.old - tiny_len output.old)) }
    ensures line_room { tiny_capacity line.old ≤ tiny_capacity line.new }
    ensures capacity { tiny_capacity output.old ≤ tiny_capacity output.new }
{
    let mut rest = bytes;
    while let Some((end, after)) = split_line(rest) {
        feed_end(alloc, line, output, end)?;
        rest = after;
    }
    let _len = line.len();
    Ok(line.extend_from_slice_copy(rest)?)
}

// Takes the end of a line and its line feed. If memory was refused, nothing was appended. Where `line` has nothing of it, it
// is read where it is.
fn feed_end(
    alloc: Global,
    line: &mut LineText,
    output: &mut Output,
    end: &[u8],
) -> Result<(), AllocError>
    requires { IsLine end.now }
    ensures ok { OnOk result ((said : List ℕ) × (tiny_items output.new ≡ tiny_items output.old ++ said)
        × Advances (tiny_items line.old) (end.now ++ 10 ∷ []) said (tiny_items line.new)) }
    ensures refused { OnErr result ((kept : List ℕ) × (tiny_items output.new ≡ tiny_items output.old)
        × Refuses (tiny_items line.old) (end.now ++ 10 ∷ []) [] kept (tiny_capacity line.old)
        (tiny_capacity output.old - tiny_len output.old)) }
    ensures line_room { tiny_capacity line.old ≤ tiny_capacity line.new }
    ensures capacity { tiny_capacity output.old ≤ tiny_capacity output.new }
{
    if line.is_empty() {
        end_line(alloc, end, output)?;
        return Ok(());
    }
    // A vector that was lent is not known to fit until a call says so.
    let _len = line.len();
    line.extend_from_slice_copy(end)?;
    end_line(alloc, line.as_slice(), output)?;
    line.clear();
    Ok(())
}

// The bytes before the first line feed, and those after it.
fn split_line(bytes: &[u8]) -> Option<(&[u8], &[u8])>
    ensures whole { IfSome result (λ parts. bytes.now ≡ parts.0.now ++ 10 ∷ parts.1.now) }
    ensures line { IfSome result (λ parts. IsLine parts.0.now) }
    ensures none { IfNone result (IsLine bytes.now) }
{
    for (index, byte) in bytes.iter().enumerate() {
        if *byte == b'\n' {
            return Some((&bytes[..index], &bytes[index + 1..]));
        }
    }
    None
}

// Ends the last line, if it has bytes. If memory was refused, nothing was appended.
pub(crate) fn end_text(alloc: Global, line: &[u8], output: &mut Output) -> Result<(), AllocError>
    ensures ok { OnOk result ((said : List ℕ) × (tiny_items output.new ≡ tiny_items output.old ++ said)
        × Ends line.now said) }
    ensures refused { OnErr result (tiny_items output.new ≡ tiny_items output.old) }
    ensures succeeds { IsShort line.now → (0 < length line.now
        → tiny_len output.old + length (normal_line line.now) < tiny_capacity output.old) → IsOk result }
{
    if line.is_empty() {
        return Ok(());
    }
    end_line(alloc, line, output)
}
