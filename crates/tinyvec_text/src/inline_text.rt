//! `InlineText`.
ghost use Rattle.std.specs.Prelude.{◌≡◌, ◌<◌, ◌≤◌, ◌==◌, ◌↔◌, [], drop, All, true, false, IsTrue, IsOk, IsSome, IfOk};
ghost use Rattle.std.specs.Prelude.{IfErr, IfSome, MatchResult, encode_utf8_all, IsUtf8, if◌then◌else◌};
ghost use Rattle.std.specs.Str.{valid_up_to, error_len};
ghost use Rattle.std.specs.Str.Lossy.{utf8_valid_len, utf8_error_len};
ghost use Rattle.std.specs.String.{string_bytes, string_capacity};
ghost use Rattle.std.specs.Str.{all_scalars};
ghost use Rattle.tinyvec.specs.View.{in_array};
ghost use Rattle.tinyvec.specs.TinyVec.{tiny_items, tiny_spare};
ghost use Rattle.tinyvec_text.specs.InlineText.{text_of, text_chars, text_len, TextMadeFor};

mod drain;
mod edits;
mod extending;
mod filters;
mod from_utf8_error;
mod traits;

pub use drain::InlineTextDrain;
pub use from_utf8_error::FromUtf8Error;
use std::alloc::{AllocError, Global};
use std::convert::{AsSlice, AsStr};
use std::marker::Model;
use std::str;
use tinyvec::{NoMemory, TinyVec};

/// A text in an array of N bytes, or on the heap once it needed more room than the array has.
#[derive(Drop)]
pub struct InlineText<const N: usize> {
    list: TinyVec<[u8; N]>,
}

impl<const N: usize> Model for InlineText<N> {
    ghost use Rattle.tinyvec_text.specs.InlineText.{Text, text_of, IsText};

    ghost Value = { Text };

    ghost view = { λ t. text_of t.list };

    ghost invariant = { λ t. IsText t.list };
}

impl<const N: usize> InlineText<N> {
    /// An empty text, inline.
    pub fn new(alloc: Global) -> Self
        ensures bytes { result.bytes ≡ [] }
        ensures text { text_chars result ≡ [] }
        ensures place { result.place ≡ in_array N }
    {
        InlineText {
            list: TinyVec::new(alloc),
        }
    }

    /// An empty text with room for `capacity` bytes, inline if the array has it. Otherwise allocates it.
    pub fn with_capacity(alloc: Global, capacity: usize) -> Result<Self, AllocError>
        ensures bytes { IfOk result (λ t. t.bytes ≡ []) }
        ensures text { IfOk result (λ t. text_chars t ≡ []) }
        ensures made { IfOk result (TextMadeFor N capacity) }
        ensures succeeds { capacity ≤ N → IsOk result }
    {
        let list = TinyVec::with_capacity(alloc, capacity)?;
        Ok(InlineText { list })
    }

    /// The text of these bytes, in their place, or the bytes if they are not UTF-8. Allocates nothing. Sets the spare
    /// slots to zero.
    pub fn from_utf8(mut bytes: TinyVec<[u8; N]>) -> Result<Self, FromUtf8Error<N>>
        ensures variant { IsOk result ↔ IsUtf8 (tiny_items bytes.entry) }
        ensures value { IfOk result (λ t. t ≡ text_of bytes.entry) }
        ensures bytes_returned { IfErr result (λ refused. refused.bytes ≡ bytes.entry) }
        ensures valid_len { IfErr result (λ refused. valid_up_to refused.error ≡ utf8_valid_len (tiny_items bytes.entry)) }
        ensures fault { IfErr result (λ refused. error_len refused.error
            ≡ utf8_error_len (drop (utf8_valid_len (tiny_items bytes.entry)) (tiny_items bytes.entry))) }
    {
        if let Err(error) = str::from_utf8(bytes.as_slice()) {
            return Err(FromUtf8Error { bytes, error });
        }
        clear_spare(&mut bytes);
        Ok(InlineText { list: bytes })
    }

    /// The text of these bytes, as by `from_utf8`, or `None` if they are not UTF-8, and then they are dropped.
    // A caller for every N can't prove that a `FromUtf8Error<N>` is small enough to be a value.
    pub fn from_utf8_or_none(mut bytes: TinyVec<[u8; N]>) -> Option<Self>
        ensures variant { IsSome result ↔ IsUtf8 (tiny_items bytes.entry) }
        ensures value { IfSome result (λ t. t ≡ text_of bytes.entry) }
    {
        if let Err(_) = str::from_utf8(bytes.as_slice()) {
            return None;
        }
        clear_spare(&mut bytes);
        Some(InlineText { list: bytes })
    }

    /// The length in bytes.
    pub fn len(&self) -> usize
        ensures value { result ≡ text_len self.now }
        ensures fits { result ≤ self.now.place.capacity }
        ensures inline_capacity { IsTrue self.now.place.inline → self.now.place.capacity ≡ N }
    {
        self.list.len()
    }

    /// Whether the text has no character.
    pub fn is_empty(&self) -> bool
        ensures { result ≡ (text_len self.now == 0) }
    {
        self.list.is_empty()
    }

    /// Whether the text is in the array.
    pub fn is_inline(&self) -> bool
        ensures { result ≡ self.now.place.inline }
    {
        self.list.is_inline()
    }

    /// How many bytes fit in the text's place.
    pub fn capacity(&self) -> usize
        ensures value { result ≡ self.now.place.capacity }
        ensures fits { text_len self.now ≤ result }
        ensures inline_capacity { IsTrue self.now.place.inline → result ≡ N }
    {
        self.list.capacity()
    }

    /// The text.
    // The bytes are checked at each call: no call of std takes bytes for text without a look at them and is safe.
    pub fn as_str(&self) -> &str
        ensures value { result.now ≡ self.now.bytes }
        ensures spelled { encode_utf8_all (text_chars self.now) ≡ result.now }
        ensures characters { all_scalars (text_chars self.now) ≡ true }
    {
        match str::from_utf8(self.list.as_slice()) {
            Ok(text) => text,
            Err(_) => unreachable!(),
        }
    }

    /// The bytes of the text.
    pub fn as_bytes(&self) -> &[u8]
        ensures value { result.now ≡ self.now.bytes }
        ensures utf8 { IsUtf8 result.now }
    {
        self.list.as_slice()
    }

    /// The bytes of the text, in their place. The spare slots are zero. Does not allocate.
    pub fn into_bytes(self) -> TinyVec<[u8; N]>
        ensures value { text_of result ≡ self.entry }
        ensures utf8 { IsUtf8 (tiny_items result) }
        ensures spare { All (λ b. b ≡ 0) (tiny_spare result) }
    {
        let InlineText { list } = self;
        list
    }

    /// Converts to a `String`. A text on the heap keeps its allocation; an inline one gets a capacity of its length. If the
    /// allocator refuses, the text is returned.
    pub fn into_string(self) -> Result<String, NoMemory<Self>>
        ensures bytes { IfOk result (λ s. string_bytes s ≡ self.entry.bytes) }
        ensures capacity { IfOk result (λ s. string_capacity s ≡ (if self.entry.place.inline
            then text_len self.entry else self.entry.place.capacity)) }
        ensures succeeds { self.entry.place.inline ≡ false → IsOk result }
        ensures succeeds_empty { text_len self.entry ≡ 0 → IsOk result }
        ensures value_returned { IfErr result (λ refused. refused.0 ≡ self.entry) }
    {
        let InlineText { list } = self;
        let bytes = match list.into_vec() {
            Ok(bytes) => bytes,
            Err(NoMemory(list)) => return Err(NoMemory(InlineText { list })),
        };
        match String::from_utf8(bytes) {
            Ok(text) => Ok(text),
            Err(_) => unreachable!(),
        }
    }
}

/// The text as a `String`, by `into_string`.
impl<const N: usize> TryFrom<InlineText<N>> for String {
    type Error = NoMemory<InlineText<N>>;

    // It fails only for an inline text that has a character.
    ghost try_from_gives = { λ t r. MatchResult r
        (λ s. (string_bytes s ≡ t.bytes)
        × (string_capacity s ≡ (if t.place.inline then text_len t else t.place.capacity)))
        (λ refused. (refused.0 ≡ t) × IsTrue t.place.inline × (0 < text_len t)) };

    fn try_from(text: InlineText<N>) -> Result<String, NoMemory<InlineText<N>>> {
        text.into_string()
    }
}

// Sets the spare slots to zero.
fn clear_spare<const N: usize>(list: &mut TinyVec<[u8; N]>)
    ensures value { text_of list.new ≡ text_of list.old }
    ensures spare { All (λ b. b ≡ 0) (tiny_spare list.new) }
{
    if let TinyVec::Inline(v, _) = list {
        v.grab_spare_slice_mut().fill(0);
    }
}

impl<const N: usize> AsStr for InlineText<N> {
    ghost text = { λ t. t.bytes };

    fn as_str(&self) -> &str {
        self.as_str()
    }
}

impl<const N: usize> AsSlice<u8> for InlineText<N> {
    ghost items = { λ t. t.bytes };

    fn as_slice(&self) -> &[u8] {
        self.as_bytes()
    }
}
