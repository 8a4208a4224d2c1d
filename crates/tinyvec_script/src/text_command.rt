//! The call of the text that a line spells.
ghost use Rattle.std.specs.Prelude.{◌≡◌, ◌<◌, ◌≤◌, length, MatchOption, IsUtf8};
ghost use Rattle.tinyvec_script.specs.TextCalls.{IsTextCommand, call_of};
ghost use Rattle.tinyvec_script.specs.TextCalls as calls;

use crate::number::parse_index;
use std::str;

// A call of the text.
#[derive(Clone, Copy, Drop)]
pub(crate) enum TextCall<'a> {
    /// Appends these characters.
    Add(&'a str),
    /// Keeps the first characters, whose bytes are this many.
    Cut(usize),
}

// The call of the text that the line spells.
pub(crate) fn parse_text_line(line: &[u8]) -> Option<TextCall<'_>>
    requires { length line.now ≤ 128 }
    ensures { MatchOption result ((call : calls.TextCall) → IsTextCommand line.now call → ⊥)
        (λ call. IsTextCommand line.now (call_of call)) }
{
    let Some(text) = line.strip_prefix(b"X ") else {
        return None;
    };
    if let Some(added) = text.strip_prefix(b"add ") {
        return match parse_characters(added) {
            Some(added) => Some(TextCall::Add(added)),
            None => None,
        };
    }
    let Some(index) = text.strip_prefix(b"cut ") else {
        return None;
    };
    match parse_index(index) {
        Some(index) => Some(TextCall::Cut(index)),
        None => None,
    }
}

// The characters of these bytes, one at least.
fn parse_characters(bytes: &[u8]) -> Option<&str>
    ensures { MatchOption result (0 < length bytes.now → IsUtf8 bytes.now → ⊥)
        (λ text. (text.now ≡ bytes.now) × (0 < length text.now) × IsUtf8 text.now) }
{
    if bytes.is_empty() {
        return None;
    }
    match str::from_utf8(bytes) {
        Ok(text) => Some(text),
        Err(_) => None,
    }
}
