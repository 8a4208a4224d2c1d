//! The iterator that owns the vector whose items it yields.
ghost use Rattle.std.specs.Prelude.{◌≡◌, ◌<◌, ◌≤◌, ◌^◌, ℕ, List, length, slice_index_or, slice_set, Some, IfSome, IfOk};
ghost use Rattle.std.specs.Prelude.{IsOk};
ghost use Rattle.std.specs.Iterator.{UpTo, YieldsFirst, YieldsLast, item_count};
ghost use Rattle.std.specs.Iterator.SizeHint.{IsWithinCount};
ghost use Rattle.std.specs.Fmt.{debug_list, debug_variant};
ghost use Rattle.std.specs.List.{AllZip};

use crate::authors::{CanCut, write_named};
use std::alloc::AllocError;
use std::fmt;
use std::iter::FusedIterator;
use std::marker::Model;

/// A vector that an iterator may own.
pub trait OwnsItems: CanCut + Drop {
    // What `Debug` calls the iterator.
    ghost name: { List ℕ };

    // When an iterator over these items can be cloned for sure, if `I` holds of the items that can.
    ghost infallible: { (Self.Item → Type 0) → List Self.Item → Type 0 };

    /// What `Debug` calls the iterator.
    fn iterator_name() -> &'static str
        ensures { result.now ≡ name };

    /// Takes the item at `i`, and leaves a default.
    fn take_at(&mut self, i: usize) -> Self::Item
        requires { i < length (Self.items self.old) }
        ensures value { result ≡ slice_index_or (Self.items self.old) i result }
        ensures after { (d : Self.Item) × Self.Item.is_default d
            × (Self.items self.new ≡ slice_set (Self.items self.old) i d) };

    /// A vector of clones of `part`.
    fn clone_items(&self, part: &[Self::Item]) -> Result<Self, AllocError>
    where
        Self::Item: Clone,
        requires { length part.now ≤ length (Self.items self.now) }
        ensures ok { IfOk result (λ v. AllZip Self.Item.is_clone part.now (Self.items v)) }
        ensures succeeds { infallible Self.Item.is_infallible part.now → IsOk result };
}

/// Yields the items of a vector from both ends.
#[derive(Drop)]
pub struct OwnedItems<V: OwnsItems> {
    // The items from `front` up to `back` are left. Those that were taken are defaults.
    front: usize,
    back: usize,
    vec: V,
}

impl<V: OwnsItems> Model for OwnedItems<V> {
    ghost use Rattle.std.specs.Prelude.{◌≤◌, List, length, slice_range};

    ghost Value = { List V.Item };

    ghost view = { λ it. slice_range (V.items it.vec) it.front it.back };

    ghost invariant = { λ it. (it.front ≤ it.back) × (it.back ≤ length (V.items it.vec)) };
}

/// The iterator over the items of `vec`.
pub fn into_items<V: OwnsItems>(vec: V) -> OwnedItems<V>
    ensures items { result ≡ V.items vec }
    ensures bound { length result < 2 ^ 64 }
{
    let back = vec.as_slice().len();
    OwnedItems {
        front: 0,
        back,
        vec,
    }
}

impl<V: OwnsItems> OwnedItems<V> {
    /// The items that are left.
    pub fn as_slice(&self) -> &[V::Item]
        ensures { result.now ≡ self.now }
    {
        &self.vec.as_slice()[self.front..self.back]
    }
}

impl<V: OwnsItems> Iterator for OwnedItems<V> {
    type Item = V::Item;

    ghost next_gives = { YieldsFirst (λ left. left) };

    ghost remaining = { item_count (λ left. left) };

    fn next(&mut self) -> Option<V::Item> {
        let index = self.front;
        if index == self.back {
            return None;
        }
        self.front = index + 1;
        Some(self.vec.take_at(index))
    }

    /// Both bounds are the number of items that are left.
    fn size_hint(&self) -> (usize, Option<usize>)
        ensures lower { IsWithinCount result.0 (item_count (λ left. left) self.now) }
        ensures upper { IfSome result.1 (UpTo (item_count (λ left. left) self.now)) }
        ensures exact { (result.0 ≡ length self.now) × (result.1 ≡ Some (length self.now)) }
    {
        let len = self.len();
        (len, Some(len))
    }
}

impl<V: OwnsItems> DoubleEndedIterator for OwnedItems<V> {
    ghost next_back_gives = { YieldsLast (λ left. left) };

    fn next_back(&mut self) -> Option<V::Item> {
        if self.front == self.back {
            return None;
        }
        let index = self.back - 1;
        self.back = index;
        Some(self.vec.take_at(index))
    }
}

impl<V: OwnsItems> ExactSizeIterator for OwnedItems<V> {
    fn len(&self) -> usize {
        self.back - self.front
    }
}

impl<V: OwnsItems> FusedIterator for OwnedItems<V> {}

impl<V: OwnsItems> fmt::Debug for OwnedItems<V>
where
    V::Item: fmt::Debug,
{
    ghost debug_output = { λ left. debug_variant V.name (debug_list V.Item.debug_output left) };

    fn fmt<W: fmt::Write>(&self, f: &mut fmt::Formatter<W>) -> fmt::Result {
        write_named(f, V::iterator_name(), self.as_slice())
    }
}

impl<V: OwnsItems> Clone for OwnedItems<V>
where
    V::Item: Clone,
{
    ghost is_clone = { AllZip V.Item.is_clone };

    ghost is_infallible = { V.infallible V.Item.is_infallible };

    /// An iterator over clones of the items that are left. Only these are cloned.
    fn clone(&self) -> Result<Self, AllocError> {
        Ok(into_items(self.vec.clone_items(self.as_slice())?))
    }
}
