//! Calls of a vector, as values, and what answers them.

/// An end of a list.
#[derive(Clone, Copy, PartialEq, Debug, Drop)]
pub enum End {
    Front,
    Back,
}

/// A call of a vector of `T`.
#[derive(PartialEq, Debug, Drop)]
pub enum Call<T> {
    /// Appends the item.
    Push(T),
    /// Takes the last item.
    Pop,
    /// Puts the item at the index, and moves the later ones up.
    Insert(usize, T),
    /// Takes the item at the index, and moves the later ones down.
    Remove(usize),
    /// Takes the item at the index, and moves the last one into its place.
    SwapRemove(usize),
    /// Keeps the first items, this many, and drops the others.
    Truncate(usize),
    /// Takes the items from the first index up to the second.
    Drain(usize, usize),
    /// Replaces the items from the first index up to the second by these. Before that it takes an item from each end that
    /// the word names.
    Splice(usize, usize, Vec<End>, Vec<T>),
    /// Moves the border between the items and the spare slots.
    SetLen(usize),
    /// Reserves room for this many more items.
    Reserve(usize),
    /// Moves the items to the heap.
    Heap,
    /// Moves the items into the array if they fit.
    Shrink,
}

/// The answer to a call of a vector of `T`.
#[derive(PartialEq, Debug, Drop)]
pub enum Answer<T> {
    /// It was done.
    Done,
    /// The item that was taken.
    Some(T),
    /// There was no item to take.
    None,
    /// The items that were taken, in order.
    Items(Vec<T>),
    /// The items that were taken, in order, and those that found no room.
    Spliced(Vec<T>, Vec<T>),
    /// There was no room, and nothing has changed.
    Full,
    /// The index or range is not in the list, and nothing has changed.
    Range,
    /// Memory was refused, and nothing has changed.
    Memory,
    /// The vector has no such call, and nothing has changed.
    Unfit,
}
