//! Comparisons, hashes, texts, writers, indexing and iteration.
ghost use Rattle.std.specs.Prelude.{◌≡◌, ◌<◌, List, length, slice_index_or, true, false, ◌+◌, ◌≤◌, ◌↔◌, ◌++◌, drop};
ghost use Rattle.std.specs.Prelude.{IsOk, OnOk, OnErr};
ghost use Rattle.std.specs.Borrow.{sem};
ghost use Rattle.tinyvec_array.specs.ArrayVec.{slots_of, name_of};
ghost use Rattle.tinyvec_array.specs.View.{view};
ghost use Rattle.tinyvec_array.specs.Lends.{lends_items, lends_item};
ghost use Rattle.tinyvec_slots.specs.Filling.{Iterates, IteratesMut};
ghost use Rattle.std.specs.Cmp.{on_equiv, on_total, on_po, on_per};
ghost use Rattle.std.specs.Cmp.Lexicographic.{pointwise, slice_cmp, slice_partial_cmp, lists_per, lists_equiv};
ghost use Rattle.std.specs.Cmp.Lexicographic.{lists_po, lists_total, lists_agrees, lists_ties};
ghost use Rattle.std.specs.Hash.{on_Alike, items_Alike};
ghost use Rattle.std.specs.Fmt.{DisplaysOnOk, debug_list};
ghost use Rattle.tinyvec_slots.specs.Texts.{list_in_radix};
ghost use Rattle.std.specs.Hash as fed;

use crate::parts::slot_of;
use crate::{ArrayVec, Slots};
use std::cmp::Ordering;
use std::fmt::HasDigits;
use std::hash::{Hash, Hasher};
use std::ops::{DerefSlice, DerefSliceMut, Index, IndexMut};
use std::{fmt, slice};
use tinyvec_slots::authors::{
    InBinary, InHex, InOctal, InUpperHex, Plain, cmp_slices, eq_slices, hash_items,
    partial_cmp_slices, write_items,
};

impl<S: Slots> Index<usize> for ArrayVec<S> {
    type Output = S::Item;

    ghost can_index = { λ v i. i < length (view S.Slots v).items };

    ghost index_gives = { λ v i x. x ≡ slice_index_or (view S.Slots v).items i x };

    fn index(&self, index: usize) -> &S::Item {
        &self.as_slice()[index]
    }
}

impl<S: Slots> IndexMut<usize> for ArrayVec<S> {
    fn index_mut(&mut self, index: usize) -> &mut S::Item
        requires { index < length (view S.Slots self.old).items }
        ensures* writes_back { sem 𝓛 (lends_item S.row S.Len.row S.Item.row S.Slots self.entry index result) }
        ensures value { result.now ≡ slice_index_or (view S.Slots self.old).items index result.now }
    {
        slot_of(&mut self.slots, index)
    }
}

// The item is a parameter here and below, so that its lifetime can be named.
impl<'a, T: Drop + 'a, S: Slots<Item = T>> IntoIterator for &'a ArrayVec<S> {
    type Item = &'a T;

    type IntoIter = slice::Iter<'a, T>;

    ghost into_iter_gives = { λ v it. Iterates (view S.Slots v.now).items it };

    fn into_iter(self) -> slice::Iter<'a, T> {
        self.iter()
    }
}

impl<'a, T: Drop + 'a, S: Slots<Item = T>> IntoIterator for &'a mut ArrayVec<S> {
    ghost use Rattle.tinyvec_array.specs.IterMut.{lends_iter};
    ghost use Rattle.tinyvec_array.specs.Lends.{with_items_of};

    type Item = &'a mut T;

    type IntoIter = slice::IterMut<'a, T>;

    ghost into_iter_gives = { λ v it. IteratesMut (view S.Slots v.now).items it };

    fn into_iter(self) -> slice::IterMut<'a, T>
        ensures* writes_back { sem 𝓛 (lends_iter S.row S.Len.row T.row S.Slots self.entry result) }
        ensures into_iter_gives { IteratesMut (view S.Slots self.old).items result }
        ensures keeps_len { (ws : List T)
            → length (view S.Slots (with_items_of S.Slots self.old ws)).items ≡ length (view S.Slots self.old).items }
    {
        self.iter_mut()
    }
}

impl<S: Slots> PartialEq for ArrayVec<S>
where
    S::Item: PartialEq,
{
    ghost eq = { λ v w. pointwise S.Item.eq (view S.Slots v).items (view S.Slots w).items };

    ghost laws = { on_per (λ v. (view S.Slots v).items) (lists_per S.Item.laws) };

    fn eq(&self, other: &Self) -> bool {
        eq_slices(self.as_slice(), other.as_slice())
    }
}

impl<S: Slots> Eq for ArrayVec<S>
where
    S::Item: Eq,
{
    ghost laws = { on_equiv (λ v. (view S.Slots v).items) (lists_equiv S.Item.Eq.laws) };
}

impl<S: Slots> PartialOrd for ArrayVec<S>
where
    S::Item: PartialOrd,
{
    ghost partial_cmp = { λ v w. slice_partial_cmp S.Item.partial_cmp (view S.Slots v).items (view S.Slots w).items };

    ghost laws = { on_po (λ v. (view S.Slots v).items) (lists_po S.Item.PartialOrd.laws) };

    fn partial_cmp(&self, other: &Self) -> Option<Ordering> {
        partial_cmp_slices(self.as_slice(), other.as_slice())
    }
}

impl<S: Slots> Ord for ArrayVec<S>
where
    S::Item: Ord,
{
    ghost cmp = { λ v w. slice_cmp S.Item.cmp (view S.Slots v).items (view S.Slots w).items };

    ghost total = { on_total (λ v. (view S.Slots v).items) (lists_total S.Item.total) };

    ghost matches_partial_cmp = { λ v w. lists_agrees S.Item.matches_partial_cmp (view S.Slots v).items
        (view S.Slots w).items };

    ghost matches_eq = { λ v w. lists_ties S.Item.cmp S.Item.matches_eq (view S.Slots v).items (view S.Slots w).items };

    fn cmp(&self, other: &Self) -> Ordering {
        cmp_slices(self.as_slice(), other.as_slice())
    }
}

impl<S: Slots> Hash for ArrayVec<S>
where
    S::Item: Hash,
{
    ghost hash_input = { λ v. fed.slice S.Item.hash_input (view S.Slots v).items };

    ghost respects_eq = { (on_Alike (λ v. (view S.Slots v).items) (items_Alike (record { fed = S.Item.respects_eq }))).fed };

    fn hash<H: Hasher>(&self, state: &mut H) {
        hash_items(self.as_slice(), state);
    }
}

impl<S: Slots> fmt::Debug for ArrayVec<S>
where
    S::Item: fmt::Debug,
{
    ghost debug_output = { λ v. debug_list S.Item.debug_output (view S.Slots v).items };

    fn fmt<W: fmt::Write>(&self, f: &mut fmt::Formatter<W>) -> fmt::Result {
        fmt::Debug::fmt(&self.as_slice(), f)
    }
}

impl<S: Slots> fmt::Display for ArrayVec<S>
where
    S::Item: fmt::Display,
{
    ghost output = { λ v. debug_list S.Item.output (view S.Slots v).items };

    fn fmt<W: fmt::Write>(&self, f: &mut fmt::Formatter<W>) -> fmt::Result {
        write_items(f, self.as_slice(), &Plain)
    }
}

impl<S: Slots> fmt::Binary for ArrayVec<S>
where
    S::Item: HasDigits + Copy,
{
    fn fmt<W: fmt::Write>(&self, f: &mut fmt::Formatter<W>) -> fmt::Result
        ensures { DisplaysOnOk W.write_str_gives f.old result
            (list_in_radix S.Item.word 2 false (view S.Slots self.now).items) f.new }
    {
        write_items(f, self.as_slice(), &InBinary)
    }
}

impl<S: Slots> fmt::Octal for ArrayVec<S>
where
    S::Item: HasDigits + Copy,
{
    fn fmt<W: fmt::Write>(&self, f: &mut fmt::Formatter<W>) -> fmt::Result
        ensures { DisplaysOnOk W.write_str_gives f.old result
            (list_in_radix S.Item.word 8 false (view S.Slots self.now).items) f.new }
    {
        write_items(f, self.as_slice(), &InOctal)
    }
}

impl<S: Slots> fmt::LowerHex for ArrayVec<S>
where
    S::Item: HasDigits + Copy,
{
    fn fmt<W: fmt::Write>(&self, f: &mut fmt::Formatter<W>) -> fmt::Result
        ensures { DisplaysOnOk W.write_str_gives f.old result
            (list_in_radix S.Item.word 16 false (view S.Slots self.now).items) f.new }
    {
        write_items(f, self.as_slice(), &InHex)
    }
}

impl<S: Slots> fmt::UpperHex for ArrayVec<S>
where
    S::Item: HasDigits + Copy,
{
    fn fmt<W: fmt::Write>(&self, f: &mut fmt::Formatter<W>) -> fmt::Result
        ensures { DisplaysOnOk W.write_str_gives f.old result
            (list_in_radix S.Item.word 16 true (view S.Slots self.now).items) f.new }
    {
        write_items(f, self.as_slice(), &InUpperHex)
    }
}

/// `write_str` appends the whole text. If it does not fit, it fails and changes nothing.
impl<S: Slots<Item = u8>> fmt::Write for ArrayVec<S> {
    ghost write_str_gives = { λ v bytes w. ((view S.Slots w).items ≡ (view S.Slots v).items ++ bytes)
        × ((view S.Slots w).spare ≡ drop (length bytes) (view S.Slots v).spare)
        × (name_of S.Slots w ≡ name_of S.Slots v) };

    fn write_str(&mut self, s: &str) -> fmt::Result
        ensures ok { IsOk result → ((view S.Slots self.new).items ≡ (view S.Slots self.old).items ++ s.now)
            × ((view S.Slots self.new).spare ≡ drop (length s.now) (view S.Slots self.old).spare)
            × (name_of S.Slots self.new ≡ name_of S.Slots self.old) }
        ensures spare { OnOk result ((view S.Slots self.new).spare ≡ drop (length s.now) (view S.Slots self.old).spare) }
        ensures variant { IsOk result
            ↔ (length (view S.Slots self.old).items + length s.now ≤ length (slots_of S.Slots self.old)) }
        ensures err { OnErr result (self.new ≡ self.old) }
        ensures slot_count { length (slots_of S.Slots self.new) ≡ length (slots_of S.Slots self.old) }
    {
        let bytes = s.as_bytes();
        if bytes.len() > self.capacity() - self.len() {
            return Err(fmt::Error);
        }
        self.extend_from_slice_copy(bytes);
        Ok(())
    }
}

impl<S: Slots> DerefSlice for ArrayVec<S> {
    type Elem = S::Item;

    ghost deref_gives = { λ v xs. xs ≡ (view S.Slots v).items };

    fn deref(&self) -> &[S::Item] {
        self.as_slice()
    }
}

impl<S: Slots> DerefSliceMut for ArrayVec<S> {
    fn deref_mut(&mut self) -> &mut [S::Item]
        ensures* writes_back { sem 𝓛 (lends_items S.row S.Len.row S.Item.row S.Slots self.entry result) }
        ensures value { result.now ≡ (view S.Slots self.old).items }
    {
        self.as_mut_slice()
    }
}
