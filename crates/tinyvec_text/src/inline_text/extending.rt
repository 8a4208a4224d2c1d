//! The characters and texts of an iterator.
ghost use Rattle.std.specs.Prelude.{◌≡◌, ℕ, ◌+◌, ◌<◌, ◌≤◌, ◌++◌, List, length, ⊤, IsOk, IfOk, OnErr, Some, encode_utf8};
ghost use Rattle.std.specs.Prelude.{encode_utf8_all};
ghost use Rattle.std.specs.List.{flat_map};
ghost use Rattle.std.specs.Iterator.{IsFinite, HoldsAlong, YieldsThen, DrainsIf, ExtendsWithItems};
ghost use Rattle.tinyvec_slots.specs.Filling.{IntoIterYields};
ghost use Rattle.tinyvec_text.specs.InlineText.{text_len, empty_text, place_after_chars, place_after_texts};

use super::InlineText;
use std::alloc::{AllocError, Global};

/// Appends the characters. If the allocator refuses, those before stay.
impl<const N: usize> Extend<char> for InlineText<N> {
    // As pushes one after another leave it, also the capacity.
    ghost extend_gives = { λ t cs u. (u.bytes ≡ t.bytes ++ encode_utf8_all cs) × (u.place ≡ place_after_chars t cs) };

    fn extend<I: IntoIterator<Item = char>>(&mut self, iter: I) -> Result<(), AllocError>
        requires { (it : I.IntoIter) → I.into_iter_gives iter it
            → I.IntoIter.can_next it × IsFinite (I.IntoIter.remaining it) × HoldsAlong I.IntoIter.next_gives it (λ _. ⊤) }
        ensures ran { ExtendsWithItems I.into_iter_gives I.IntoIter.next_gives
            (λ t cs u. (u.bytes ≡ t.bytes ++ encode_utf8_all cs) × (u.place ≡ place_after_chars t cs))
            iter self.old self.new result }

        // It fails only at a character that finds no room.
        ensures full { OnErr result ((it : I.IntoIter) × (cs : List ℕ) × (c : ℕ) × (rest : I.IntoIter)
            × I.into_iter_gives iter it × YieldsThen I.IntoIter.next_gives it cs (Some c) rest
            × (self.new.bytes ≡ self.old.bytes ++ encode_utf8_all cs)
            × (self.new.place.capacity < text_len self.new + length (encode_utf8 c))
            × (self.new.place ≡ place_after_chars self.old cs)) }

        // If known characters fit, it allocates nothing.
        ensures known { (cs : List ℕ) → IntoIterYields I.into_iter_gives I.IntoIter.next_gives iter cs
            → text_len self.old + length (encode_utf8_all cs) ≤ self.old.place.capacity → IsOk result }
    {
        let _room = self.capacity();
        let mut rest = iter.into_iter();
        while let Some(c) = rest.next() {
            self.push(c)?;
        }
        Ok(())
    }
}

/// Appends the texts. If the allocator refuses, those before stay.
impl<'a, const N: usize> Extend<&'a str> for InlineText<N> {
    // As pushes one after another leave it, also the capacity.
    ghost extend_gives = { λ t xs u. (u.bytes ≡ t.bytes ++ flat_map (λ x. x.now) xs)
        × (u.place ≡ place_after_texts (λ x. x.now) t xs) };

    fn extend<I: IntoIterator<Item = &'a str>>(&mut self, iter: I) -> Result<(), AllocError>
        requires { (it : I.IntoIter) → I.into_iter_gives iter it
            → I.IntoIter.can_next it × IsFinite (I.IntoIter.remaining it) × HoldsAlong I.IntoIter.next_gives it (λ _. ⊤) }
        ensures ran { ExtendsWithItems I.into_iter_gives I.IntoIter.next_gives
            (λ t xs u. (u.bytes ≡ t.bytes ++ flat_map (λ x. x.now) xs)
            × (u.place ≡ place_after_texts (λ x. x.now) t xs)) iter self.old self.new result }

        // It fails only at a text that finds no room.
        ensures full { OnErr result ((it : I.IntoIter) × (xs : _) × (x : _) × (rest : I.IntoIter)
            × I.into_iter_gives iter it × YieldsThen I.IntoIter.next_gives it xs (Some x) rest
            × (self.new.bytes ≡ self.old.bytes ++ flat_map (λ y. y.now) xs)
            × (self.new.place.capacity < text_len self.new + length x.now)
            × (self.new.place ≡ place_after_texts (λ y. y.now) self.old xs)) }

        // If known texts fit, it allocates nothing.
        ensures known { (xs : _) → IntoIterYields I.into_iter_gives I.IntoIter.next_gives iter xs
            → text_len self.old + length (flat_map (λ x. x.now) xs) ≤ self.old.place.capacity → IsOk result }
    {
        let _room = self.capacity();
        let mut rest = iter.into_iter();
        while let Some(s) = rest.next() {
            self.push_str(s)?;
        }
        Ok(())
    }
}

/// The characters, as by `extend`. If the allocator refuses, they are dropped.
impl<const N: usize> FromIterator<char> for InlineText<N> {
    type Alloc = Global;

    ghost from_iter_gives = { λ cs t. (t.bytes ≡ encode_utf8_all cs)
        × (t.place ≡ place_after_chars (empty_text N) cs) };

    fn from_iter<I: IntoIterator<Item = char>>(
        alloc: Global,
        iter: I,
    ) -> Result<InlineText<N>, AllocError>
        requires { (it : I.IntoIter) → I.into_iter_gives iter it
            → I.IntoIter.can_next it × IsFinite (I.IntoIter.remaining it) × HoldsAlong I.IntoIter.next_gives it (λ _. ⊤) }
        ensures ran { IfOk result (λ t. (it : I.IntoIter) × (xs : List ℕ) × I.into_iter_gives iter it
            × DrainsIf I.IntoIter.next_gives ⊤ it xs × ((t.bytes ≡ encode_utf8_all xs)
            × (t.place ≡ place_after_chars (empty_text N) xs))) }

        // It fails only at a character that finds no room where those before it are.
        ensures full { OnErr result ((it : I.IntoIter) × (cs : List ℕ) × (c : ℕ) × (rest : I.IntoIter)
            × I.into_iter_gives iter it × YieldsThen I.IntoIter.next_gives it cs (Some c) rest
            × (N < length (encode_utf8_all cs) + length (encode_utf8 c))
            × ((place_after_chars (empty_text N) cs).capacity < length (encode_utf8_all cs) + length (encode_utf8 c))) }

        // If known items fit the array, it allocates nothing.
        ensures known { (xs : List ℕ) → IntoIterYields I.into_iter_gives I.IntoIter.next_gives iter xs
            → length (encode_utf8_all xs) ≤ N → IsOk result }
    {
        let mut text = Self::new(alloc);
        text.extend(iter)?;
        Ok(text)
    }
}

/// The texts, one after another, as by `extend`. If the allocator refuses, they are dropped.
impl<'a, const N: usize> FromIterator<&'a str> for InlineText<N> {
    type Alloc = Global;

    ghost from_iter_gives = { λ xs t. (t.bytes ≡ flat_map (λ x. x.now) xs)
        × (t.place ≡ place_after_texts (λ x. x.now) (empty_text N) xs) };

    fn from_iter<I: IntoIterator<Item = &'a str>>(
        alloc: Global,
        iter: I,
    ) -> Result<InlineText<N>, AllocError>
        requires { (it : I.IntoIter) → I.into_iter_gives iter it
            → I.IntoIter.can_next it × IsFinite (I.IntoIter.remaining it) × HoldsAlong I.IntoIter.next_gives it (λ _. ⊤) }
        ensures ran { IfOk result (λ t. (it : I.IntoIter) × (xs : _) × I.into_iter_gives iter it
            × DrainsIf I.IntoIter.next_gives ⊤ it xs × ((t.bytes ≡ flat_map (λ x. x.now) xs)
            × (t.place ≡ place_after_texts (λ x. x.now) (empty_text N) xs))) }

        // It fails only at a text that finds no room where those before it are.
        ensures full { OnErr result ((it : I.IntoIter) × (xs : _) × (x : _) × (rest : I.IntoIter)
            × I.into_iter_gives iter it × YieldsThen I.IntoIter.next_gives it xs (Some x) rest
            × (N < length (flat_map (λ y. y.now) xs) + length x.now)
            × ((place_after_texts (λ y. y.now) (empty_text N) xs).capacity
            < length (flat_map (λ y. y.now) xs) + length x.now)) }

        // If known items fit the array, it allocates nothing.
        ensures known { (xs : _) → IntoIterYields I.into_iter_gives I.IntoIter.next_gives iter xs
            → length (flat_map (λ x. x.now) xs) ≤ N → IsOk result }
    {
        let mut text = Self::new(alloc);
        text.extend(iter)?;
        Ok(text)
    }
}
