//! Empty texts, clones, comparisons, hashes, printing and writing.
ghost use Rattle.std.specs.Prelude.{◌≡◌, ◌⊎◌, [], false, IsTrue, IsOk, IfOk, MatchResult, Some, nat_eq, refl, ◌+◌};
ghost use Rattle.std.specs.Prelude.{◌++◌, length, chars};
ghost use Rattle.tinyvec.specs.View.{Reserved, in_array};
ghost use Rattle.tinyvec_text.specs.InlineText.{IsTextClone, text_chars, text_len, TextGrows};
ghost use Rattle.std.specs.Ordering.{nat_cmp};
ghost use Rattle.std.specs.Cmp.{on_equiv, on_total, on_po, on_per, partial_equiv_from_equiv};
ghost use Rattle.std.specs.Cmp.Lexicographic.{pointwise, slice_cmp, nat_list_eq_equiv, nat_list_cmp_total, texts_po};
ghost use Rattle.std.specs.Cmp.Lexicographic.{texts_ties};
ghost use Rattle.std.specs.Cmp.Rules.{hashing};
ghost use Rattle.std.proofs.Common.{rules};
ghost use Rattle.std.specs.Fmt.{debug_str};
ghost use Rattle.std.specs.Hash as fed;

use super::InlineText;
use std::alloc::{AllocError, Global};
use std::cmp::Ordering;
use std::default::{Emptied, MadeWith};
use std::fmt;
use std::hash::{Hash, Hasher};
use std::ops::DerefStr;
use tinyvec_slots::authors::cmp_short_slices;

/// So that `map.entry(k)?.or_default()` makes an empty text, as `new` does.
impl<const N: usize> MadeWith<Global> for InlineText<N> {
    ghost is_made_with = { λ t. (t.bytes ≡ []) × (t.place ≡ in_array N) };

    fn made_with(alloc: Global) -> Self {
        Self::new(alloc)
    }
}

/// So that `mem::try_take` moves a text out. What it leaves is empty and inline, and has the same allocator.
impl<const N: usize> Emptied for InlineText<N> {
    ghost is_emptied = { λ t. (t.bytes ≡ []) × (t.place ≡ in_array N) };

    fn emptied(like: &Self) -> Result<Self, AllocError>
        ensures empty { IfOk result (λ t. (t.bytes ≡ []) × (t.place ≡ in_array N)) }
        ensures succeeds { IsOk result }
    {
        Ok(Self::new(*like.list.allocator()))
    }
}

impl<const N: usize> Clone for InlineText<N> {
    ghost is_clone = { IsTextClone N };

    // The array is copied, and an empty text on the heap allocates nothing.
    ghost is_infallible = { λ t. IsTrue t.place.inline ⊎ (text_len t ≡ 0) };

    /// The same text, inline exactly if this one is. A text on the heap is copied into an allocation of its length.
    fn clone(&self) -> Result<Self, AllocError>
        ensures cases { MatchResult result (IsTextClone N self.now)
            (λ _. ¬ (IsTrue self.now.place.inline ⊎ (text_len self.now ≡ 0))) }
        ensures place { IfOk result (λ t. t.place.inline ≡ self.now.place.inline) }
        ensures capacity { IfOk result (λ t. t.place.inline ≡ false → t.place.capacity ≡ text_len self.now) }
        ensures succeeds_empty { self.now.place.inline ≡ false → text_len self.now ≡ 0 → IsOk result }
    {
        let list = self.list.clone()?;
        Ok(InlineText { list })
    }
}

impl<const N: usize> DerefStr for InlineText<N> {
    ghost deref_gives = { λ t bytes. bytes ≡ t.bytes };

    fn deref(&self) -> &str {
        self.as_str()
    }
}

/// The order of the bytes, which is that of the characters.
impl<const N: usize> Ord for InlineText<N> {
    ghost matches_eq = { λ a b. texts_ties a.bytes b.bytes };

    ghost matches_partial_cmp = { λ a b. refl };

    ghost total = { on_total (λ a. a.bytes) nat_list_cmp_total };

    ghost cmp = { λ a b. slice_cmp nat_cmp a.bytes b.bytes };

    fn cmp(&self, other: &Self) -> Ordering {
        cmp_short_slices(self.list.as_slice(), other.list.as_slice())
    }
}

impl<const N: usize> PartialOrd for InlineText<N> {
    ghost laws = { on_po (λ a. a.bytes) texts_po };

    ghost partial_cmp = { λ a b. Some (slice_cmp nat_cmp a.bytes b.bytes) };

    fn partial_cmp(&self, other: &Self) -> Option<Ordering> {
        Some(self.cmp(other))
    }
}

impl<const N: usize> Eq for InlineText<N> {
    ghost laws = { on_equiv (λ a. a.bytes) nat_list_eq_equiv };
}

impl<const N: usize> PartialEq for InlineText<N> {
    ghost laws = { on_per (λ a. a.bytes) (partial_equiv_from_equiv nat_list_eq_equiv) };

    ghost eq = { λ a b. pointwise nat_eq a.bytes b.bytes };

    fn eq(&self, other: &Self) -> bool {
        self.list == other.list
    }
}

impl<const N: usize> Hash for InlineText<N> {
    ghost respects_eq = { Prim.search (hashing, rules) };

    ghost hash_input = { λ t. fed.str t.bytes };

    // The bytes, and then one that no UTF-8 has.
    fn hash<H: Hasher>(&self, state: &mut H) {
        state.write(self.list.as_slice());
        state.write_u8(0xFF);
    }
}

impl<const N: usize> fmt::Debug for InlineText<N> {
    ghost debug_output = { λ t. debug_str t.bytes };

    fn fmt<W: fmt::Write>(&self, f: &mut fmt::Formatter<W>) -> fmt::Result {
        fmt::Debug::fmt(&self.as_str(), f)
    }
}

impl<const N: usize> fmt::Display for InlineText<N> {
    ghost output = { λ t. Some t.bytes };

    fn fmt<W: fmt::Write>(&self, f: &mut fmt::Formatter<W>) -> fmt::Result {
        f.pad(self.as_str())
    }
}

/// `write_str` appends the whole text. If the allocator refuses, it fails and changes nothing.
impl<const N: usize> fmt::Write for InlineText<N> {
    ghost write_str_gives = { λ old bytes new. new.bytes ≡ old.bytes ++ bytes };

    fn write_str(&mut self, s: &str) -> fmt::Result
        ensures ok { IsOk result → self.new.bytes ≡ self.old.bytes ++ s.now }
        ensures grows { TextGrows Reserved (text_len self.old + length s.now) self.old self.new
            (self.old.bytes ++ s.now) (text_chars self.old ++ chars s.now) result }
    {
        match self.push_str(s) {
            Ok(()) => Ok(()),
            Err(_) => Err(fmt::Error),
        }
    }
}
