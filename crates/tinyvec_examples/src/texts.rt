//! Callers of an `InlineText`. Where it may be cut, search knows of each place here but that of `with_front`:
//!
//! | Place | Caller |
//! |---|---|
//! | one that `is_char_boundary` tested | `cut_if_whole` |
//! | one that `find` returned | `cut_at_mark`, `marked_twice` |
//! | the length | `with_end` |
//! | the ends of `..` | `put_in` |
//! | 0 | `without_first` |
ghost use Rattle.std.specs.Prelude.{◌≡◌, ◌+◌, ◌≤◌, ◌++◌, length, drop, IsTrue, IfOk, IsOk, IfErr, OnOk, IsUtf8};
ghost use Rattle.tinyvec.specs.TinyVec.{tiny_items};
ghost use Rattle.tinyvec_text.specs.InlineText.{text_len, SplitsAt};

use std::alloc::AllocError;
use tinyvec::TinyVec;
use tinyvec_text::{FromUtf8Error, InlineText};

/// The text up to the byte `at`, if a character ends there.
pub fn cut_if_whole(text: &mut InlineText<8>, at: usize) -> bool
    ensures { IsTrue result → length text.new.bytes ≡ at }
{
    if !text.is_char_boundary(at) {
        return false;
    }
    text.truncate(at);
    true
}

/// The text of bytes from outside, or the bytes again if they are no UTF-8.
pub fn from_outside(bytes: TinyVec<[u8; 8]>) -> Result<InlineText<8>, FromUtf8Error<8>>
    ensures text { IfOk result (λ text. text.bytes ≡ tiny_items bytes) }
    ensures kept { IfErr result (λ refused. refused.bytes ≡ bytes) }
    ensures succeeds { IsUtf8 (tiny_items bytes) → IsOk result }
{
    InlineText::from_utf8(bytes)
}

/// The first `n` bytes replaced.
pub fn with_front(text: &mut InlineText<8>, n: usize, front: &str) -> Result<(), AllocError>
    requires { SplitsAt text.old n }
    ensures { OnOk result (text.new.bytes ≡ front.now ++ drop n text.old.bytes) }
{
    text.replace_range(..n, front)
}

/// What precedes the first semicolon, or all.
pub fn cut_at_mark(text: &mut InlineText<8>)
    ensures { text_len text.new ≤ text_len text.old }
{
    if let Some(at) = text.as_str().find(';') {
        text.truncate(at);
    }
}

/// A further semicolon before the first one.
pub fn marked_twice(text: &mut InlineText<8>) -> Result<(), AllocError>
    ensures { text_len text.old ≤ text_len text.new }
{
    let Some(at) = text.as_str().find(';') else {
        return Ok(());
    };
    text.insert(at, ';')
}

/// `end` at the end.
pub fn with_end(text: &mut InlineText<8>, end: &str) -> Result<(), AllocError>
    ensures { OnOk result (text.new.bytes ≡ text.old.bytes ++ end.now) }
{
    text.insert_str(text.len(), end)
}

/// Another text in its place.
pub fn put_in(text: &mut InlineText<8>, whole: &str) -> Result<(), AllocError>
    ensures { OnOk result (text.new.bytes ≡ whole.now) }
{
    text.replace_range(.., whole)
}

/// Without the first character, if it has one.
pub fn without_first(text: &mut InlineText<8>)
    ensures { text_len text.new ≤ text_len text.old }
{
    if !text.is_empty() {
        let _first = text.remove(0);
    }
}
