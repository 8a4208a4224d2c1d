//! The characters of a range, which are removed.
ghost use Rattle.std.specs.Prelude.{◌≡◌, ℕ, ◌≤◌, ◌++◌, List, length, drop, codes, MatchOption, Some, IsOk, IfOk};
ghost use Rattle.std.specs.Prelude.{IfSome, OnOk, OnErr, chars, encode_utf8};
ghost use Rattle.std.specs.Fmt.{debug_str, debug_variant};
ghost use Rattle.std.specs.Int.{div_ceil};
ghost use Rattle.std.specs.Iterator.{at_most, UpTo};
ghost use Rattle.std.specs.Iterator.SizeHint.{IsWithinCount};
ghost use Rattle.std.specs.String.Boundary.{IsSplitPoint};
ghost use Rattle.tinyvec_slots.specs.Ranges.{range_start, range_end, items_before, items_within, items_after};
ghost use Rattle.tinyvec_text.specs.InlineText.{text_chars, text_len, TextStaysInPlace, SplitsAt};

use super::InlineText;
use super::edits::{first_char, remove_bytes};
use std::alloc::AllocError;
use std::iter::FusedIterator;
use std::marker::Model;
use std::ops::RangeBounds;
use std::{fmt, str};
use tinyvec::TinyVec;
use tinyvec_slots::authors::{resolve_range, subslice};

/// Yields the characters that `drain` removed, from both ends. In a contract it is the bytes that are left.
#[derive(Drop)]
pub struct InlineTextDrain<const N: usize> {
    // What is left are the bytes from `at` on.
    text: InlineText<N>,
    at: usize,
}

impl<const N: usize> Model for InlineTextDrain<N> {
    ghost Value = { List ℕ };

    ghost view = { λ d. drop d.at d.text.bytes };

    ghost invariant = { λ d. IsSplitPoint d.text.bytes d.at };
}

impl<const N: usize> InlineText<N> {
    /// Removes the range, whose ends are boundaries, and yields its characters from both ends. They are copied first, which
    /// allocates if they don't fit an array of the same length. The text stays in its place.
    pub fn drain<R: RangeBounds<usize>>(
        &mut self,
        range: R,
    ) -> Result<InlineTextDrain<N>, AllocError>
        requires not_exhausted { R.has_bounds range }
        requires start_le_end { range_start (R.start_bound range) ≤ range_end (R.end_bound range) (text_len self.old) }
        requires start_boundary { SplitsAt self.old (range_start (R.start_bound range)) }
        requires end_boundary { SplitsAt self.old (range_end (R.end_bound range) (text_len self.old)) }
        ensures removed { IfOk result (λ d. d ≡ items_within self.old.bytes (R.start_bound range) (R.end_bound range)) }
        ensures bytes { OnOk result (self.new.bytes
            ≡ items_before self.old.bytes (R.start_bound range) ++ items_after self.old.bytes (R.end_bound range)) }
        ensures text { OnOk result (text_chars self.new ≡ chars (items_before self.old.bytes (R.start_bound range))
            ++ chars (items_after self.old.bytes (R.end_bound range))) }
        ensures frame { TextStaysInPlace self.old self.new }
        ensures succeeds { length (items_within self.old.bytes (R.start_bound range) (R.end_bound range)) ≤ N → IsOk result }
        ensures refused { OnErr result (self.new ≡ self.old) }
    {
        let part = resolve_range(range, self.list.len());
        let bytes = subslice(self.list.as_slice(), part.start, part.end);
        let mut list = TinyVec::with_capacity(*self.list.allocator(), bytes.len())?;
        let _room_was_there = list.extend_from_slice_copy(bytes);
        let text = InlineText { list };
        remove_bytes(&mut self.list, part.start, part.end);
        Ok(InlineTextDrain { text, at: 0 })
    }
}

impl<const N: usize> InlineTextDrain<N> {
    /// The characters that are left.
    pub fn as_str(&self) -> &str
        ensures { result.now ≡ self.now }
    {
        match str::from_utf8(&self.text.as_bytes()[self.at..]) {
            Ok(text) => text,
            Err(_) => unreachable!(),
        }
    }
}

impl<const N: usize> Iterator for InlineTextDrain<N> {
    type Item = char;

    ghost next_gives = { λ s r t. MatchOption r ((length s ≡ 0) × (t ≡ s)) (λ c. s ≡ encode_utf8 c ++ t) };

    ghost remaining = { λ s. at_most (length s) };

    fn next(&mut self) -> Option<char> {
        let at = self.at;
        if self.text.len() <= at {
            return None;
        }
        let (c, width) = first_char(&self.text.as_bytes()[at..]);
        self.at = at + width;
        Some(c)
    }

    /// A character has one to four bytes.
    fn size_hint(&self) -> (usize, Option<usize>)
        ensures lower { IsWithinCount result.0 (at_most (length self.now)) }
        ensures upper { IfSome result.1 (UpTo (at_most (length self.now))) }
        ensures exact { (result.0 ≡ div_ceil (length self.now) 4) × (result.1 ≡ Some (length self.now)) }
    {
        let len = self.text.len().saturating_sub(self.at);
        (len.div_ceil(4), Some(len))
    }
}

impl<const N: usize> DoubleEndedIterator for InlineTextDrain<N> {
    ghost next_back_gives = { λ s r t. MatchOption r ((length s ≡ 0) × (t ≡ s)) (λ c. s ≡ t ++ encode_utf8 c) };

    fn next_back(&mut self) -> Option<char> {
        if self.text.as_bytes().len() <= self.at {
            return None;
        }
        let Some(c) = self.text.pop() else {
            unreachable!();
        };
        Some(c)
    }
}

impl<const N: usize> FusedIterator for InlineTextDrain<N> {}

impl<const N: usize> fmt::Debug for InlineTextDrain<N> {
    ghost debug_output = { λ d. debug_variant (codes "InlineTextDrain") (debug_str d) };

    fn fmt<W: fmt::Write>(&self, f: &mut fmt::Formatter<W>) -> fmt::Result {
        f.write_str("InlineTextDrain(")?;
        fmt::Debug::fmt(&self.as_str(), f)?;
        f.write_str(")")
    }
}
