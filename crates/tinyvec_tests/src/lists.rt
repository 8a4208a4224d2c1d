//! What vectors hold. The first three have no branch, which would be one more case of each later step of a test's proof.
use tinyvec::{Array, ArrayVec, SliceVec, TinyVec};

/// Whether these are the items of an array, and these the spare slots after them.
pub fn holds<A: Array>(v: &ArrayVec<A>, items: &[A::Item], spare: &[A::Item]) -> bool
where
    A::Item: PartialEq,
{
    let count = (v.len() == items.len()) & (v.is_empty() == items.is_empty());
    let room = v.is_full() == spare.is_empty();
    count & room & (v.as_slice() == items) & (v.grab_spare_slice() == spare)
}

/// The same of lent slots, by each call that tells of them.
pub fn lends<T: PartialEq + Drop>(v: &SliceVec<'_, T>, items: &[T], spare: &[T]) -> bool {
    let count = (v.len() == items.len()) & (v.is_empty() == items.is_empty());
    let room = (v.remaining_capacity() == spare.len()) & (v.is_full() == spare.is_empty());
    let parts = (v.as_slice() == items) & (v.grab_spare_slice() == spare);
    let slots = v.as_inner();
    count & room & parts & slots.starts_with(items) & slots.ends_with(spare)
}

/// Whether these are the items of a `TinyVec`, in this place.
pub fn lies<A: Array>(v: &TinyVec<A>, items: &[A::Item], inline: bool) -> bool
where
    A::Item: PartialEq,
{
    let place = (v.is_inline() == inline) & (v.is_heap() != inline);
    let count = (v.len() == items.len()) & (v.is_empty() == items.is_empty());
    place & count & (v.as_slice() == items)
}

/// Whether these are the items, inline before these spare slots.
pub fn lies_before<A: Array>(v: &TinyVec<A>, items: &[A::Item], spare: &[A::Item]) -> bool
where
    A::Item: PartialEq,
{
    match v {
        TinyVec::Inline(array, _) => lies(v, items, true) & holds(array, items, spare),
        TinyVec::Heap(_) => false,
    }
}
