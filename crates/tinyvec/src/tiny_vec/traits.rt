//! Comparisons, hashes, texts, writers, indexing and iteration.
ghost use Rattle.std.specs.Prelude.{◌≡◌, ◌<◌, ◌≤◌, slice_index_or, List, length, true, false, ◌+◌, ◌++◌, Some, IfOk, IfErr};
ghost use Rattle.std.specs.Prelude.{IsOk, OnOk, OnErr, ⊤};
ghost use Rattle.std.specs.Borrow.{sem};
ghost use Rattle.tinyvec.specs.TinyVec.{view};
ghost use Rattle.tinyvec.specs.View.{BecomesIn, Reserved, place_for, IsNew, TinyView};
ghost use Rattle.std.specs.Iterator.{IsFinite, HoldsAlong, DrainsIf, YieldsThen, ExtendsWithItems};
ghost use Rattle.tinyvec_slots.specs.Filling.{Iterates, IteratesMut, IntoIterYields};
ghost use Rattle.tinyvec_array.specs.IntoIter.{IteratesOver};
ghost use Rattle.tinyvec.specs.Lends.{tiny_with_items};
ghost use Rattle.std.specs.Cmp.{on_equiv, on_total, on_po, on_per};
ghost use Rattle.std.specs.Cmp.Lexicographic.{pointwise, slice_cmp, slice_partial_cmp, lists_per, lists_equiv, lists_po};
ghost use Rattle.std.specs.Cmp.Lexicographic.{lists_total, lists_agrees, lists_ties};
ghost use Rattle.std.specs.Hash.{on_Alike, items_Alike};
ghost use Rattle.std.specs.Fmt.{DisplaysOnOk, debug_list};
ghost use Rattle.tinyvec_slots.specs.Texts.{list_in_radix};
ghost use Rattle.std.specs.Io.{WritesAtMost};
ghost use Rattle.std.specs.IoError.{error_kind};
ghost use Rattle.std.specs.declared.io.ErrorKind.TheVariants.{OutOfMemory};
ghost use Rattle.std.specs.Io.KnownBytes.{Keeps, WriteAppends};
ghost use Rattle.tinyvec.specs.Room.{GrowsByPushes, IsCollected};
ghost use Rattle.std.specs.Hash as fed;

use crate::{TinyVec, TinyVecIterator};
use std::alloc::{AllocError, Global};
use std::cmp::Ordering;
use std::default::{Emptied, MadeWith};
use std::fmt::HasDigits;
use std::hash::{Hash, Hasher};
use std::ops::{DerefSlice, DerefSliceMut, Index, IndexMut};
use std::{fmt, io, slice};
use tinyvec_array::{Array, Slots};
use tinyvec_slots::authors::{
    InBinary, InHex, InOctal, InUpperHex, Plain, cmp_slices, eq_slices, hash_items, into_items,
    partial_cmp_slices, write_items,
};

/// So that `map.entry(k)?.or_default()` makes an empty vector. It is as `new` makes it.
impl<A: Array> MadeWith<Global> for TinyVec<A> {
    ghost is_made_with = { λ v. IsNew A.Item.is_default A.CAPACITY (view A.Slots v) };

    fn made_with(alloc: Global) -> Self {
        Self::new(alloc)
    }
}

/// So that `mem::try_take` moves a vector out. What it leaves is as `new` makes it, with the same allocator.
impl<A: Array> Emptied for TinyVec<A> {
    ghost is_emptied = { λ v. IsNew A.Item.is_default A.CAPACITY (view A.Slots v) };

    fn emptied(like: &Self) -> Result<Self, AllocError>
        ensures empty { IfOk result (λ v. IsNew A.Item.is_default A.CAPACITY (view A.Slots v)) }
        ensures succeeds { IsOk result }
    {
        Ok(Self::new(*like.allocator()))
    }
}

impl<A: Slots> Index<usize> for TinyVec<A> {
    type Output = A::Item;

    ghost can_index = { λ v i. i < length (view A.Slots v).items };

    ghost index_gives = { λ v i x. x ≡ slice_index_or (view A.Slots v).items i x };

    fn index(&self, index: usize) -> &A::Item {
        &self.as_slice()[index]
    }
}

impl<A: Slots> IndexMut<usize> for TinyVec<A> {
    ghost use Rattle.tinyvec.specs.Lends.{lends_item};

    fn index_mut(&mut self, index: usize) -> &mut A::Item
        requires { index < length (view A.Slots self.old).items }
        ensures* writes_back { sem 𝓛 (lends_item A.row A.Len.row A.Item.row A.Slots self.entry index result) }
        ensures value { result.now ≡ slice_index_or (view A.Slots self.old).items index result.now }
    {
        match self {
            TinyVec::Inline(v, _) => &mut v[index],
            TinyVec::Heap(v) => &mut v[index],
        }
    }
}

impl<A: Slots> DerefSlice for TinyVec<A> {
    type Elem = A::Item;

    ghost deref_gives = { λ v xs. xs ≡ (view A.Slots v).items };

    fn deref(&self) -> &[A::Item] {
        self.as_slice()
    }
}

impl<A: Slots> DerefSliceMut for TinyVec<A> {
    ghost use Rattle.tinyvec.specs.Lends.{lends_items};

    fn deref_mut(&mut self) -> &mut [A::Item]
        ensures* writes_back { sem 𝓛 (lends_items A.row A.Len.row A.Item.row A.Slots self.entry result) }
        ensures value { result.now ≡ (view A.Slots self.old).items }
    {
        self.as_mut_slice()
    }
}

// The item is a type parameter here and below, so that its lifetime can be named.
impl<'a, T: Drop + 'a, A: Slots<Item = T>> IntoIterator for &'a TinyVec<A> {
    type Item = &'a T;

    type IntoIter = slice::Iter<'a, T>;

    ghost into_iter_gives = { λ v it. Iterates (view A.Slots v.now).items it };

    fn into_iter(self) -> slice::Iter<'a, T> {
        self.iter()
    }
}

impl<'a, T: Drop + 'a, A: Slots<Item = T>> IntoIterator for &'a mut TinyVec<A> {
    ghost use Rattle.tinyvec.specs.IterMut.{lends_iter};

    type Item = &'a mut T;

    type IntoIter = slice::IterMut<'a, T>;

    ghost into_iter_gives = { λ v it. IteratesMut (view A.Slots v.now).items it };

    fn into_iter(self) -> slice::IterMut<'a, T>
        ensures* writes_back { sem 𝓛 (lends_iter A.row A.Len.row T.row A.Slots self.entry result) }
        ensures into_iter_gives { IteratesMut (view A.Slots self.old).items result }
        ensures keeps_len { (ws : List T) → length (view A.Slots (tiny_with_items A.Slots self.old ws)).items
            ≡ length (view A.Slots self.old).items }
    {
        self.iter_mut()
    }
}

impl<A: Array> IntoIterator for TinyVec<A> {
    type Item = A::Item;

    type IntoIter = TinyVecIterator<A>;

    ghost into_iter_gives = { λ v it. IteratesOver (view A.Slots v).items it };

    fn into_iter(self) -> TinyVecIterator<A> {
        into_items(self)
    }
}

impl<A: Array> FromIterator<A::Item> for TinyVec<A> {
    type Alloc = Global;

    ghost from_iter_gives = { λ xs v. IsCollected A.Item.is_default A.CAPACITY xs (view A.Slots v) };

    /// `TinyVec::from_iter`, which drops what a refusal leaves: for `collect`.
    fn from_iter<I: IntoIterator<Item = A::Item>>(
        alloc: Global,
        iter: I,
    ) -> Result<Self, AllocError>
        requires { (it : I.IntoIter) → I.into_iter_gives iter it
            → I.IntoIter.can_next it × IsFinite (I.IntoIter.remaining it) × HoldsAlong I.IntoIter.next_gives it (λ _. ⊤) }
        ensures ran { IfOk result (λ v. (it : I.IntoIter) × (xs : List A.Item) × I.into_iter_gives iter it
            × DrainsIf I.IntoIter.next_gives ⊤ it xs × IsCollected A.Item.is_default A.CAPACITY xs
            (view A.Slots v)) }

        // It fails only at an item for which the vector made of those before it has no room, in the array or on the heap.
        ensures full { OnErr result ((it : I.IntoIter) × (xs : List A.Item) × (x : A.Item) × (rest : I.IntoIter)
            × (made : TinyView A.Item) × I.into_iter_gives iter it × YieldsThen I.IntoIter.next_gives it xs (Some x) rest
            × (A.CAPACITY ≤ length xs) × IsCollected A.Item.is_default A.CAPACITY xs made
            × (length xs ≡ made.place.capacity)) }

        // If known items fit the array, it allocates nothing.
        ensures known { (xs : List A.Item) → IntoIterYields I.into_iter_gives I.IntoIter.next_gives iter xs
            → length xs ≤ A.CAPACITY → IsOk result }
    {
        match Self::from_iter(alloc, iter) {
            Ok(vec) => Ok(vec),
            Err(_) => Err(AllocError),
        }
    }
}

impl<A: Array> Extend<A::Item> for TinyVec<A> {
    ghost extend_gives = { λ v xs w. ((view A.Slots w).items ≡ (view A.Slots v).items ++ xs)
        × GrowsByPushes A.Item.is_default (view A.Slots v) (view A.Slots w) };

    /// `TinyVec::extend`, which drops what found no room and the rest of the iterator: for `try_collect` and `partition`.
    fn extend<I: IntoIterator<Item = A::Item>>(&mut self, iter: I) -> Result<(), AllocError>
        requires { (it : I.IntoIter) → I.into_iter_gives iter it
            → I.IntoIter.can_next it × IsFinite (I.IntoIter.remaining it) × HoldsAlong I.IntoIter.next_gives it (λ _. ⊤) }
        ensures ran { ExtendsWithItems I.into_iter_gives I.IntoIter.next_gives
            (λ v xs w. ((view A.Slots w).items ≡ (view A.Slots v).items ++ xs)
            × GrowsByPushes A.Item.is_default (view A.Slots v) (view A.Slots w))
            iter self.old self.new result }

        // It fails only if there is no room.
        ensures full { OnErr result (length (view A.Slots self.new).items ≡ (view A.Slots self.new).place.capacity) }

        // If known items fit, it allocates nothing.
        ensures known { (xs : List A.Item) → IntoIterYields I.into_iter_gives I.IntoIter.next_gives iter xs
            → length (view A.Slots self.old).items + length xs ≤ (view A.Slots self.old).place.capacity → IsOk result }
    {
        self.extend(iter)?;
        Ok(())
    }
}

impl<A: Slots> PartialEq for TinyVec<A>
where
    A::Item: PartialEq,
{
    ghost eq = { λ v w. pointwise A.Item.eq (view A.Slots v).items (view A.Slots w).items };

    ghost laws = { on_per (λ v. (view A.Slots v).items) (lists_per A.Item.laws) };

    fn eq(&self, other: &Self) -> bool {
        eq_slices(self.as_slice(), other.as_slice())
    }
}

impl<A: Slots> Eq for TinyVec<A>
where
    A::Item: Eq,
{
    ghost laws = { on_equiv (λ v. (view A.Slots v).items) (lists_equiv A.Item.Eq.laws) };
}

impl<A: Slots> PartialOrd for TinyVec<A>
where
    A::Item: PartialOrd,
{
    ghost partial_cmp = { λ v w. slice_partial_cmp A.Item.partial_cmp (view A.Slots v).items
        (view A.Slots w).items };

    ghost laws = { on_po (λ v. (view A.Slots v).items) (lists_po A.Item.PartialOrd.laws) };

    fn partial_cmp(&self, other: &Self) -> Option<Ordering> {
        partial_cmp_slices(self.as_slice(), other.as_slice())
    }
}

impl<A: Slots> Ord for TinyVec<A>
where
    A::Item: Ord,
{
    ghost cmp = { λ v w. slice_cmp A.Item.cmp (view A.Slots v).items (view A.Slots w).items };

    ghost total = { on_total (λ v. (view A.Slots v).items) (lists_total A.Item.total) };

    ghost matches_partial_cmp = { λ v w. lists_agrees A.Item.matches_partial_cmp (view A.Slots v).items
        (view A.Slots w).items };

    ghost matches_eq = { λ v w. lists_ties A.Item.cmp A.Item.matches_eq (view A.Slots v).items
        (view A.Slots w).items };

    fn cmp(&self, other: &Self) -> Ordering {
        cmp_slices(self.as_slice(), other.as_slice())
    }
}

impl<A: Slots> Hash for TinyVec<A>
where
    A::Item: Hash,
{
    ghost hash_input = { λ v. fed.slice A.Item.hash_input (view A.Slots v).items };

    ghost respects_eq = { (on_Alike (λ v. (view A.Slots v).items) (items_Alike (record { fed = A.Item.respects_eq }))).fed };

    fn hash<H: Hasher>(&self, state: &mut H) {
        hash_items(self.as_slice(), state);
    }
}

impl<A: Slots> fmt::Debug for TinyVec<A>
where
    A::Item: fmt::Debug,
{
    ghost debug_output = { λ v. debug_list A.Item.debug_output (view A.Slots v).items };

    fn fmt<W: fmt::Write>(&self, f: &mut fmt::Formatter<W>) -> fmt::Result {
        fmt::Debug::fmt(&self.as_slice(), f)
    }
}

impl<A: Slots> fmt::Display for TinyVec<A>
where
    A::Item: fmt::Display,
{
    ghost output = { λ v. debug_list A.Item.output (view A.Slots v).items };

    fn fmt<W: fmt::Write>(&self, f: &mut fmt::Formatter<W>) -> fmt::Result {
        write_items(f, self.as_slice(), &Plain)
    }
}

impl<A: Slots> fmt::Binary for TinyVec<A>
where
    A::Item: HasDigits + Copy,
{
    fn fmt<W: fmt::Write>(&self, f: &mut fmt::Formatter<W>) -> fmt::Result
        ensures { DisplaysOnOk W.write_str_gives f.old result
            (list_in_radix A.Item.word 2 false (view A.Slots self.now).items) f.new }
    {
        write_items(f, self.as_slice(), &InBinary)
    }
}

impl<A: Slots> fmt::Octal for TinyVec<A>
where
    A::Item: HasDigits + Copy,
{
    fn fmt<W: fmt::Write>(&self, f: &mut fmt::Formatter<W>) -> fmt::Result
        ensures { DisplaysOnOk W.write_str_gives f.old result
            (list_in_radix A.Item.word 8 false (view A.Slots self.now).items) f.new }
    {
        write_items(f, self.as_slice(), &InOctal)
    }
}

impl<A: Slots> fmt::LowerHex for TinyVec<A>
where
    A::Item: HasDigits + Copy,
{
    fn fmt<W: fmt::Write>(&self, f: &mut fmt::Formatter<W>) -> fmt::Result
        ensures { DisplaysOnOk W.write_str_gives f.old result
            (list_in_radix A.Item.word 16 false (view A.Slots self.now).items) f.new }
    {
        write_items(f, self.as_slice(), &InHex)
    }
}

impl<A: Slots> fmt::UpperHex for TinyVec<A>
where
    A::Item: HasDigits + Copy,
{
    fn fmt<W: fmt::Write>(&self, f: &mut fmt::Formatter<W>) -> fmt::Result
        ensures { DisplaysOnOk W.write_str_gives f.old result
            (list_in_radix A.Item.word 16 true (view A.Slots self.now).items) f.new }
    {
        write_items(f, self.as_slice(), &InUpperHex)
    }
}

/// `write` appends all the bytes. If the allocator refuses, it fails and nothing changes.
impl<A: Array<Item = u8>> io::Write for TinyVec<A> {
    ghost contents = { λ v. Some (view A.Slots v).items };

    fn write(&mut self, buf: &[u8]) -> io::Result<usize>
        ensures bound { WritesAtMost result buf.now }
        ensures bytes { WriteAppends (Some (view A.Slots self.old).items) (Some
            (view A.Slots self.new).items) result buf.now }
        ensures count { IfOk result (λ n. n ≡ length buf.now) }
        ensures ok { OnOk result (BecomesIn (λ b. b ≡ 0) (view A.Slots self.old)
            (view A.Slots self.new) (view A.Slots self.new).items
            (place_for Reserved (length (view A.Slots self.old).items + length buf.now) (view A.Slots self.old).place)) }
        ensures refused { OnErr result (view A.Slots self.new ≡ view A.Slots self.old) }
        ensures succeeds { length (view A.Slots self.old).items + length buf.now ≤ (view A.Slots self.old).place.capacity → IsOk result }
        ensures kind { IfErr result (λ e. error_kind e ≡ OutOfMemory) }
    {
        self.extend_from_slice(buf)?;
        Ok(buf.len())
    }

    fn flush(&mut self) -> io::Result<()>
        ensures bytes { Keeps (Some (view A.Slots self.old).items) (Some (view A.Slots self.new).items) }
        ensures ok { IsOk result }
        ensures unchanged { self.new ≡ self.old }
    {
        Ok(())
    }
}
