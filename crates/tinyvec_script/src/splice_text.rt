//! The text of a splice.
ghost use Rattle.std.specs.Prelude.{◌≡◌, ◌≢◌, ◌+◌, ◌*◌, ◌<◌, ◌≤◌, ◌^◌, ◌++◌, [], List, ℕ, ℤ, All, length, false};
ghost use Rattle.std.specs.Prelude.{IsTrue, MatchOption, IfOk, OnErr, FitsSigned};
ghost use Rattle.std.specs.Int.{w32};
ghost use Rattle.tinyvec_array.specs.ArrayVec.{items, items_len};
ghost use Rattle.tinyvec_script.specs.Command.{letter_code, word_text, numbers_text, splice_text};
ghost use Rattle.tinyvec_script.specs.Words.{StartsBlank, IsLetter};
ghost use Rattle.tinyvec_script.specs.declared.call.End.{End};

use crate::End;
use crate::command::parse_first_index;
use crate::number::parse_number;
use std::alloc::{AllocError, Global};
use tinyvec::ArrayVec;

// The numbers of a line.
pub(crate) type Numbers = ArrayVec<[i32; 64]>;

// The range and the letters of the splice that the text spells, if it spells one. Appends its numbers to `numbers`.
pub(crate) fn parse_splice<'a>(
    text: &'a [u8],
    numbers: &mut Numbers,
) -> Option<(usize, usize, &'a [u8])>
    requires short { length text.now ≤ 128 }
    requires empty { items numbers.old ≡ [] }
    ensures { MatchOption result ((start end : ℕ) (word : List End) (ns : List ℤ) → start < 2 ^ 64 → end < 2 ^ 64
        → All (FitsSigned w32) ns → text.now ≢ splice_text start end word ns)
        (λ parts. (word : List End) × (parts.2.now ≡ word_text word)
        × (text.now ≡ splice_text parts.0 parts.1 word (items numbers.new)) × All (FitsSigned w32) (items numbers.new)) }
{
    let (start, rest) = parse_first_index(text)?;
    let (end, rest) = parse_first_index(rest)?;
    let (word, rest) = until_blank(rest);
    if !is_word(word) {
        return None;
    }
    if !parse_numbers(rest, numbers) {
        return None;
    }
    Some((start, end, word))
}

// The text before the first blank, and the text from it on.
fn until_blank(text: &[u8]) -> (&[u8], &[u8])
    ensures whole { text.now ≡ result.0.now ++ result.1.now }
    ensures word { All (λ byte. byte ≢ 32) result.0.now }
    ensures rest { StartsBlank result.1.now }
{
    for (index, byte) in text.iter().enumerate() {
        if *byte == b' ' {
            return (&text[..index], &text[index..]);
        }
    }
    (text, &text[text.len()..])
}

// Whether the text is a word of ends.
fn is_word(text: &[u8]) -> bool
    ensures yes { IsTrue result → (word : List End) × (text.now ≡ word_text word) }
    ensures no { result ≡ false → (word : List End) → text.now ≢ word_text word }
{
    if text == b"-".as_slice() {
        return true;
    }
    if text.is_empty() {
        return false;
    }
    for byte in text {
        if *byte != b'f' && *byte != b'b' {
            return false;
        }
    }
    true
}

// Appends the numbers that the text spells, each after a blank. If it spells none, some may be appended all the same.
fn parse_numbers(text: &[u8], numbers: &mut Numbers) -> bool
    requires { 2 * items_len numbers.old + length text.now ≤ 128 }
    ensures yes { IsTrue result → (ns : List ℤ) × (text.now ≡ numbers_text ns) × All (FitsSigned w32) ns
        × (items numbers.new ≡ items numbers.old ++ ns) }
    ensures no { result ≡ false → (ns : List ℤ) → All (FitsSigned w32) ns → text.now ≢ numbers_text ns }
{
    if text.is_empty() {
        return true;
    }
    let Some(rest) = text.strip_prefix(b" ") else {
        return false;
    };
    let (number, rest) = until_blank(rest);
    let Some(number) = parse_number(number) else {
        return false;
    };
    // Tells the proof how many slots there are.
    let _slots = numbers.capacity();
    numbers.push(number);
    parse_numbers(rest, numbers)
}

// The letters of a word of ends.
pub(crate) fn letters(alloc: Global, text: &[u8]) -> Result<Vec<End>, AllocError>
    requires { (word : List End) × (text.now ≡ word_text word) }
    ensures ok { IfOk result (λ word. text.now ≡ word_text word.items) }
    ensures refused { OnErr result ((word : List End) × (text.now ≡ word_text word) × (0 < length word)) }
{
    if text == b"-".as_slice() {
        return Ok(Vec::new(alloc));
    }
    let mut word = Vec::with_capacity(alloc, text.len())?;
    for byte in text {
        word.push_reserved(letter(*byte));
    }
    Ok(word)
}

fn letter(byte: u8) -> End
    requires { IsLetter byte }
    ensures { letter_code result ≡ byte }
{
    if byte == b'f' { End::Front } else { End::Back }
}
