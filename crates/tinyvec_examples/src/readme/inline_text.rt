//! A name joined from its parts, and a line.
ghost use Rattle.std.specs.Prelude.{◌≡◌, ◌+◌, ◌≤◌, ◌++◌, ◌∷◌, [], ◌↔◌, length, chars, codes, IsTrue, IfOk, OnOk};
ghost use Rattle.tinyvec_text.specs.InlineText.{text_chars};

use std::alloc::{AllocError, Global};
use tinyvec_text::InlineText;

/// Both names with a blank between, in the value itself exactly if 22 bytes have room for them.
pub fn full_name(alloc: Global, first: &str, last: &str) -> Result<InlineText<22>, AllocError>
    ensures text { IfOk result (λ name. text_chars name ≡ chars first.now ++ 32 ∷ [] ++ chars last.now) }
    ensures place { IfOk result (λ name. IsTrue name.place.inline ↔ (length first.now + 1 + length last.now ≤ 22)) }
{
    let mut name = InlineText::from_str(alloc, first)?;
    name.push(' ')?;
    name.push_str(last)?;
    Ok(name)
}

/// Appends a line, whose room is reserved at once.
pub fn push_line(text: &mut InlineText<64>, path: &str) -> Result<(), AllocError>
    ensures { OnOk result (text.new.bytes ≡ text.old.bytes ++ codes "GET " ++ path.now ++ codes " HTTP/1.1") }
{
    text.reserve(path.len() + 13)?;
    text.push_str("GET ")?;
    text.push_str(path)?;
    text.push_str(" HTTP/1.1")
}
