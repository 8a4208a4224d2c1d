//! The normal form of a line.
ghost use Rattle.std.specs.Prelude.{◌≡◌, ◌+◌, ◌<◌, ◌≤◌, ◌++◌, ◌∷◌, [], List, ℕ, map, length, IfOk, IsOk, OnOk, OnErr};
ghost use Rattle.std.specs.Char.{to_ascii_lowercase};
ghost use Rattle.std.specs.List.{dedup, join_with_byte};
ghost use Rattle.std.specs.Str.{bytes_eq};
ghost use Rattle.tinyvec.specs.TinyVec.{tiny_items, tiny_len, tiny_capacity};
ghost use Rattle.example_tidy.specs.Tidy.{IsShort, normal_line, words};

use crate::words::next_word;
use std::alloc::{AllocError, Global};
use tinyvec::TinyVec;

/// The bytes of a line, of which up to 80 fit the value.
pub type LineText = TinyVec<[u8; 80]>;

/// Lines that are to be written, of which up to 4096 bytes fit the value.
pub type Output = TinyVec<[u8; 4096]>;

/// Appends the normal form of a line and a line feed. If memory was refused, nothing was appended.
#[tactic(auto, unfolding(crate::specs::Tidy::normal_line))]
pub fn end_line(alloc: Global, line: &[u8], output: &mut Output) -> Result<(), AllocError>
    ensures ok { OnOk result (tiny_items output.new ≡ tiny_items output.old ++ (normal_line line.now ++ 10 ∷ [])) }
    ensures refused { OnErr result (tiny_items output.new ≡ tiny_items output.old) }
    ensures capacity { tiny_capacity output.old ≤ tiny_capacity output.new }
    ensures succeeds { IsShort line.now
        → tiny_len output.old + length (normal_line line.now) < tiny_capacity output.old → IsOk result }
{
    // An empty line needs no vector.
    if line.is_empty() {
        output.push(b'\n')?;
        return Ok(());
    }
    let low = lower(alloc, line)?;
    let len = output.len();
    match push_words(low.as_slice(), output) {
        Ok(()) => Ok(()),
        Err(refused) => {
            output.truncate(len);
            Err(refused)
        }
    }
}

// The line in lower case.
fn lower(alloc: Global, line: &[u8]) -> Result<LineText, AllocError>
    ensures lower { IfOk result (λ low. tiny_items low ≡ map to_ascii_lowercase line.now) }
    ensures succeeds { length line.now ≤ 80 → IsOk result }
{
    let mut low = TinyVec::new(alloc);
    low.extend_from_slice_copy(line)?;
    low.as_mut_slice().make_ascii_lowercase();
    Ok(low)
}

// Appends the words with one space between each two, without those that repeat the one before, and a line feed.
fn push_words(line: &[u8], output: &mut Output) -> Result<(), AllocError>
    ensures ok { OnOk result (tiny_items output.new
        ≡ tiny_items output.old ++ (join_with_byte 32 (dedup bytes_eq (words line.now)) ++ 10 ∷ [])) }
    ensures refused { OnErr result ((front : List ℕ) × (tiny_items output.new ≡ tiny_items output.old ++ front)) }
    ensures capacity { tiny_capacity output.old ≤ tiny_capacity output.new }
    ensures succeeds { tiny_len output.old + length (join_with_byte 32 (dedup bytes_eq (words line.now)))
        < tiny_capacity output.old → IsOk result }
{
    let Some((first, rest)) = next_word(line) else {
        output.push(b'\n')?;
        return Ok(());
    };
    output.extend_from_slice(first)?;
    let mut last = first;
    let mut left = rest;
    while let Some((word, more)) = next_word(left) {
        if word != last {
            output.push(b' ')?;
            output.extend_from_slice(word)?;
            last = word;
        }
        left = more;
    }
    output.push(b'\n')?;
    Ok(())
}
