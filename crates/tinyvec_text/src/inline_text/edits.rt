//! Text that is pushed, popped, inserted, removed, replaced and cut off.
ghost use Rattle.std.specs.Prelude.{◌≡◌, ◌+◌, ◌-◌, ◌%◌, ◌<◌, ◌≤◌, ◌++◌, ◌∷◌, [], ◌↔◌, length, min, max, false, IsTrue};
ghost use Rattle.std.specs.Prelude.{IsOk, IfOk, OnOk, OnErr, chars, encode_utf8, ℕ, List, take, drop, All, IsSome};
ghost use Rattle.std.specs.Prelude.{IfSome, IfNone, IsUtf8, slice_index};
ghost use Rattle.std.specs.Char.{IsScalar};
ghost use Rattle.tinyvec.specs.View.{Reserved, Exact, Becomes};
ghost use Rattle.tinyvec.specs.TinyVec.{tiny_items, tiny_len, tiny_spare, tiny_view};
ghost use Rattle.tinyvec_text.specs.InlineText.{text_chars, text_len, TextGrows, TextPushes, TextReserves, TextShrinks};
ghost use Rattle.tinyvec_text.specs.InlineText.{TextStaysInPlace, TextBecomes, TextKeepsFront, TextMadeFor, IsTextTail};
ghost use Rattle.tinyvec_text.specs.InlineText.{IsFirstChar, SplitsAt};
ghost use Rattle.tinyvec_slots.specs.Ranges.{range_start, range_end, items_before, items_within, items_after};
ghost use Rattle.std.specs.String.Boundary.{IsSplitPoint};

use super::InlineText;
use std::alloc::{AllocError, Global};
use std::ops::RangeBounds;
use tinyvec::TinyVec;

impl<const N: usize> InlineText<N> {
    /// A copy of `s`, inline if its bytes fit the array. Otherwise allocates once.
    pub fn from_str(alloc: Global, s: &str) -> Result<Self, AllocError>
        ensures bytes { IfOk result (λ t. t.bytes ≡ s.now) }
        ensures made { IfOk result (TextMadeFor N (length s.now)) }
        ensures succeeds { length s.now ≤ N → IsOk result }
    {
        let mut text = Self::with_capacity(alloc, s.len())?;
        let _room_was_there = text.push_str(s);
        Ok(text)
    }

    /// Appends `ch` to a text that has room. It allocates nothing, so it cannot fail.
    #[inline(always)]
    pub fn push_reserved(&mut self, ch: char)
        requires { text_len self.old + length (encode_utf8 ch) ≤ self.old.place.capacity }
        ensures becomes { TextBecomes self.old self.new (self.old.bytes ++ encode_utf8 ch) (text_chars self.old ++ ch ∷ []) }
        ensures ascii { ch < 128 → self.new.bytes ≡ self.old.bytes ++ ch ∷ [] }
    {
        if ch.is_ascii() {
            self.list.push_reserved(ch as u8);
            return;
        }
        let _room_was_there = self.push_wide(ch);
    }

    /// Appends `string`. Allocates only if the bytes don't fit.
    #[inline(always)]
    pub fn push_str(&mut self, string: &str) -> Result<(), AllocError>
        ensures { TextGrows Reserved (text_len self.old + length string.now) self.old self.new
            (self.old.bytes ++ string.now) (text_chars self.old ++ chars string.now) result }
    {
        self.list.extend_from_slice_copy(string.as_bytes())
    }

    /// Appends `ch`. Allocates only if the bytes don't fit.
    #[inline(always)]
    pub fn push(&mut self, ch: char) -> Result<(), AllocError>
        ensures grows { TextPushes ch self.old self.new result }
        ensures ascii { ch < 128 → OnOk result (self.new.bytes ≡ self.old.bytes ++ ch ∷ []) }
    {
        // Most characters are ASCII, and have room.
        if ch.is_ascii() && self.len() < self.capacity() {
            self.push_reserved(ch);
            return Ok(());
        }
        self.push_slow(ch)
    }

    // `push` of any character. A call of its own, so that in a row of pushes LLVM keeps length and place in registers.
    #[cold]
    #[inline(never)]
    fn push_slow(&mut self, ch: char) -> Result<(), AllocError>
        ensures { TextPushes ch self.old self.new result }
    {
        if ch.is_ascii() {
            self.list.push(ch as u8)?;
            return Ok(());
        }
        self.push_wide(ch)
    }

    // `push` of a character that takes more than a byte.
    #[inline(never)]
    fn push_wide(&mut self, c: char) -> Result<(), AllocError>
        requires { 128 ≤ c }
        ensures { TextPushes c self.old self.new result }
    {
        let code = c as u32;
        if code < 0x800 {
            return self.push_spelled(c, &[(0xC0 + code / 0x40) as u8, next_byte(code)]);
        }
        let third = next_byte(code / 0x40);
        let fourth = next_byte(code);
        if code < 0x1_0000 {
            return self.push_spelled(c, &[(0xE0 + code / 0x1000) as u8, third, fourth]);
        }
        let second = next_byte(code / 0x1000);
        self.push_spelled(c, &[(0xF0 + code / 0x4_0000) as u8, second, third, fourth])
    }

    // `push` of the character that has these bytes. Inlined, so that LLVM knows how many they are.
    #[inline(always)]
    fn push_spelled(&mut self, c: char, bytes: &[u8]) -> Result<(), AllocError>
        requires wide { 128 ≤ c }
        requires spelled { encode_utf8 c ≡ bytes.now }
        ensures { TextPushes c self.old self.new result }
    {
        self.list.extend_from_slice_copy(bytes)
    }

    /// Makes room for `additional` more bytes. An inline text moves to the heap if they don't fit the array.
    pub fn reserve(&mut self, additional: usize) -> Result<(), AllocError>
        ensures { TextReserves Reserved additional self.old self.new result }
    {
        self.list.reserve(additional)
    }

    /// As `reserve`, but room that is allocated is for no further bytes.
    pub fn reserve_exact(&mut self, additional: usize) -> Result<(), AllocError>
        ensures { TextReserves Exact additional self.old self.new result }
    {
        self.list.reserve_exact(additional)
    }

    /// Moves a text on the heap into the array if it fits, which allocates nothing. Otherwise shrinks the allocation; if
    /// the allocator refuses, nothing changes and no error is returned.
    pub fn shrink_to_fit(&mut self)
        ensures { TextShrinks N self.old self.new }
    {
        self.list.shrink_to_fit();
    }

    /// As `shrink_to_fit`, but keeps room for `min_capacity` bytes, if there was that room.
    pub fn shrink_to(&mut self, min_capacity: usize)
        ensures bytes { self.new.bytes ≡ self.old.bytes }
        ensures place { self.old.place.inline ≡ false
            → (IsTrue self.new.place.inline ↔ (max (text_len self.old) min_capacity ≤ N)) }
        ensures kept { IsTrue self.old.place.inline → self.new ≡ self.old }
        ensures capacity { self.new.place.inline ≡ false
            → self.new.place.capacity ≤ self.old.place.capacity }
        ensures lower_bound { min min_capacity self.old.place.capacity ≤ self.new.place.capacity }
        ensures fits { text_len self.new ≤ self.new.place.capacity }
    {
        self.list.shrink_to(min_capacity);
    }

    /// Whether the bytes before `index` are those of some first characters.
    pub fn is_char_boundary(&self, index: usize) -> bool
        ensures { IsTrue result ↔ SplitsAt self.now index }
    {
        splits_at(&self.list, index)
    }

    /// Keeps the first `new_len` bytes, which end at a character, or all if there are no more. Does not allocate, and the text
    /// stays in its place.
    pub fn truncate(&mut self, new_len: usize)
        requires { new_len ≤ text_len self.old → SplitsAt self.old new_len }
        ensures { TextKeepsFront new_len self.old self.new }
    {
        self.list.truncate(new_len);
    }

    /// Empties the text. Does not allocate, and the text stays in its place.
    pub fn clear(&mut self)
        ensures { TextBecomes self.old self.new [] [] }
    {
        self.list.clear();
    }

    /// Puts `ch` at the byte `index`, where a character begins or the text ends. Allocates only if the bytes don't fit.
    pub fn insert(&mut self, index: usize, ch: char) -> Result<(), AllocError>
        requires { SplitsAt self.old index }
        ensures { TextGrows Reserved (text_len self.old + length (encode_utf8 ch)) self.old self.new
            (take index self.old.bytes ++ encode_utf8 ch ++ drop index self.old.bytes)
            (chars (take index self.old.bytes) ++ ch ∷ [] ++ chars (drop index self.old.bytes)) result }
    {
        let mut buffer = [0; 4];
        self.insert_str(index, ch.encode_utf8(&mut buffer))
    }

    /// Puts `string` at the byte `index`, where a character begins or the text ends. Allocates only if the bytes don't fit.
    // Inlined, so that LLVM knows how many bytes there are.
    #[inline(always)]
    pub fn insert_str(&mut self, index: usize, string: &str) -> Result<(), AllocError>
        requires { SplitsAt self.old index }
        ensures { TextGrows Reserved (text_len self.old + length string.now) self.old self.new
            (take index self.old.bytes ++ string.now ++ drop index self.old.bytes)
            (chars (take index self.old.bytes) ++ chars string.now ++ chars (drop index self.old.bytes)) result }
    {
        self.list.replace_range(index..index, string.as_bytes())
    }

    /// Puts `replace_with` in the place of the range, whose ends are boundaries. Allocates only if the bytes don't fit.
    pub fn replace_range<R: RangeBounds<usize>>(
        &mut self,
        range: R,
        replace_with: &str,
    ) -> Result<(), AllocError>
        requires not_exhausted { R.has_bounds range }
        requires start_le_end { range_start (R.start_bound range) ≤ range_end (R.end_bound range) (text_len self.old) }
        requires start_boundary { SplitsAt self.old (range_start (R.start_bound range)) }
        requires end_boundary { SplitsAt self.old (range_end (R.end_bound range) (text_len self.old)) }
        ensures { TextGrows Reserved (text_len self.old - (range_end (R.end_bound range) (text_len self.old)
            - range_start (R.start_bound range)) + length replace_with.now) self.old self.new
            (items_before self.old.bytes (R.start_bound range) ++ replace_with.now ++ items_after self.old.bytes (R.end_bound range))
            (chars (items_before self.old.bytes (R.start_bound range)) ++ chars replace_with.now
            ++ chars (items_after self.old.bytes (R.end_bound range))) result }
    {
        self.list.replace_range(range, replace_with.as_bytes())
    }

    /// Appends the characters of the range, whose ends are boundaries. Allocates only if the bytes don't fit.
    pub fn extend_from_within<R: RangeBounds<usize>>(&mut self, range: R) -> Result<(), AllocError>
        requires not_exhausted { R.has_bounds range }
        requires start_le_end { range_start (R.start_bound range) ≤ range_end (R.end_bound range) (text_len self.old) }
        requires start_boundary { SplitsAt self.old (range_start (R.start_bound range)) }
        requires end_boundary { SplitsAt self.old (range_end (R.end_bound range) (text_len self.old)) }
        ensures { TextGrows Reserved
            (text_len self.old + length (items_within self.old.bytes (R.start_bound range) (R.end_bound range))) self.old self.new
            (self.old.bytes ++ items_within self.old.bytes (R.start_bound range) (R.end_bound range))
            (text_chars self.old ++ chars (items_within self.old.bytes (R.start_bound range) (R.end_bound range))) result }
    {
        self.list.extend_from_within(range)
    }

    /// Removes and returns the character at the byte `index`. Does not allocate, and the text stays in its place.
    pub fn remove(&mut self, index: usize) -> char
        requires boundary { SplitsAt self.old index }
        requires in_bounds { index < text_len self.old }
        ensures bytes { (rest : List ℕ) × (drop index self.old.bytes ≡ encode_utf8 result ++ rest)
            × (self.new.bytes ≡ take index self.old.bytes ++ rest) }
        ensures text { (rest : List ℕ) × (text_chars self.old ≡ chars (take index self.old.bytes) ++ result ∷ rest)
            × (text_chars self.new ≡ chars (take index self.old.bytes) ++ rest) }
        ensures frame { TextStaysInPlace self.old self.new }
    {
        let (c, width) = first_char(&self.list.as_slice()[index..]);
        remove_bytes(&mut self.list, index, index + width);
        c
    }

    /// Splits the text at the byte `at`, where a character begins or the text ends, and returns what follows, inline exactly
    /// if the text is. An inline text allocates nothing; one on the heap allocates room for what follows.
    pub fn split_off(&mut self, at: usize) -> Result<Self, AllocError>
        requires { SplitsAt self.old at }
        ensures bytes { OnOk result (self.new.bytes ≡ take at self.old.bytes) }
        ensures tail { IfOk result (IsTextTail N at self.old) }
        ensures text { IfOk result (λ t. text_chars self.old ≡ text_chars self.new ++ text_chars t) }
        ensures frame { TextStaysInPlace self.old self.new }
        ensures succeeds { IsTrue self.old.place.inline → IsOk result }
        ensures succeeds_at_the_end { at ≡ text_len self.old → IsOk result }
        ensures refused { OnErr result (self.new ≡ self.old) }
    {
        let list = self.list.split_off(at)?;
        Ok(InlineText { list })
    }

    /// Removes and returns the last character, if any. Does not allocate, and the text stays in its place.
    #[inline(always)]
    pub fn pop(&mut self) -> Option<char>
        ensures variant { IsSome result ↔ (0 < text_len self.old) }
        ensures bytes { IfSome result (λ c. self.old.bytes ≡ self.new.bytes ++ encode_utf8 c) }
        ensures text { IfSome result (λ c. text_chars self.old ≡ text_chars self.new ++ c ∷ []) }
        ensures none { IfNone result (self.new ≡ self.old) }
        ensures frame { TextStaysInPlace self.old self.new }
    {
        let Some(last) = self.list.pop() else {
            return None;
        };
        if last < 0x80 {
            return Some(last as char);
        }
        Some(pop_wide(&mut self.list, last))
    }
}

// Pops the other bytes of a character, of which `last` was popped. A call of its own, since most are ASCII.
#[inline(never)]
fn pop_wide<const N: usize>(list: &mut TinyVec<[u8; N]>, last: u8) -> char
    requires wide { 128 ≤ last }
    requires utf8 { IsUtf8 (tiny_items list.old ++ last ∷ []) }
    ensures parts { tiny_items list.old ++ last ∷ [] ≡ tiny_items list.new ++ encode_utf8 result }
    ensures front { IsUtf8 (tiny_items list.new) }
    ensures place { (tiny_view list.new).place ≡ (tiny_view list.old).place }
    ensures spare { All (λ b. b ≡ 0) (tiny_spare list.old) → All (λ b. b ≡ 0) (tiny_spare list.new) }
{
    let Some(third) = list.pop() else {
        unreachable!();
    };
    if third >= 0xC0 {
        return char_of(third as u32 % 0x20 * 0x40 + last as u32 % 0x40);
    }
    let end = third as u32 % 0x40 * 0x40 + last as u32 % 0x40;
    let Some(second) = list.pop() else {
        unreachable!();
    };
    if second >= 0xC0 {
        return char_of(second as u32 % 0x10 * 0x1000 + end);
    }
    let Some(first) = list.pop() else {
        unreachable!();
    };
    char_of(first as u32 % 8 * 0x4_0000 + second as u32 % 0x40 * 0x1000 + end)
}

// The character with this code.
#[inline(always)]
fn char_of(code: u32) -> char
    requires { IsScalar code }
    ensures { result ≡ code }
{
    let Some(c) = char::from_u32(code) else {
        unreachable!();
    };
    c
}

// A byte of a character behind its first one, with the low six bits.
fn next_byte(bits: u32) -> u8
    ensures { result ≡ 128 + bits % 64 }
{
    (0x80 + bits % 0x40) as u8
}

// `is_split_point` of a list's bytes. A branch for each place, in which LLVM knows it for what follows.
#[inline(always)]
fn splits_at<const N: usize>(list: &TinyVec<[u8; N]>, i: usize) -> bool
    requires { 0 < length (tiny_items list.now) → 128 ≤ slice_index (tiny_items list.now) 0
        → 192 ≤ slice_index (tiny_items list.now) 0 }
    ensures { IsTrue result ↔ IsSplitPoint (tiny_items list.now) i }
{
    match list {
        TinyVec::Inline(v, _) => is_split_point(v.as_slice(), i),
        TinyVec::Heap(v) => is_split_point(v.as_slice(), i),
    }
}

// Whether a character begins at `i`, or the bytes end there. One begins at 0 if there are bytes.
fn is_split_point(bytes: &[u8], i: usize) -> bool
    requires { 0 < length bytes.now → 128 ≤ slice_index bytes.now 0 → 192 ≤ slice_index bytes.now 0 }
    ensures { IsTrue result ↔ IsSplitPoint bytes.now i }
{
    if i < bytes.len() {
        return bytes[i] < 0x80 || 0xC0 <= bytes[i];
    }
    i == bytes.len()
}

// The first character, and how many bytes it takes. No more than its own bytes are read.
#[inline(always)]
pub(crate) fn first_char(bytes: &[u8]) -> (char, usize)
    requires some { 0 < length bytes.now }
    requires utf8 { IsUtf8 bytes.now }
    ensures { IsFirstChar bytes.now result.0 result.1 }
{
    let byte = bytes[0];
    if byte < 0x80 {
        return (byte as char, 1);
    }
    first_wide(bytes)
}

// `first_char` of a character that is not ASCII. A call of its own, since most are.
#[inline(never)]
fn first_wide(bytes: &[u8]) -> (char, usize)
    requires some { 0 < length bytes.now }
    requires utf8 { IsUtf8 bytes.now }
    requires wide { 128 ≤ slice_index bytes.now 0 }
    ensures { IsFirstChar bytes.now result.0 result.1 }
{
    let lead = bytes[0] as u32;
    let second = bytes[1] as u32 % 0x40;
    if lead < 0xE0 {
        return (char_of(lead % 0x20 * 0x40 + second), 2);
    }
    let third = bytes[2] as u32 % 0x40;
    if lead < 0xF0 {
        return (char_of(lead % 0x10 * 0x1000 + (second * 0x40 + third)), 3);
    }
    let fourth = bytes[3] as u32 % 0x40;
    (
        char_of(lead % 8 * 0x4_0000 + second * 0x1000 + (third * 0x40 + fourth)),
        4,
    )
}

// Removes the bytes from `start` up to `end`.
pub(crate) fn remove_bytes<const N: usize>(list: &mut TinyVec<[u8; N]>, start: usize, end: usize)
    requires start_le_end { start ≤ end }
    requires in_list { end ≤ tiny_len list.old }
    ensures { Becomes (λ b. b ≡ 0) (tiny_view list.old) (tiny_view list.new)
        (take start (tiny_items list.old) ++ drop end (tiny_items list.old)) }
{
    let _room_was_there = list.replace_range(start..end, &[]);
}
