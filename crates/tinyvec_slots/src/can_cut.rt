//! The trait `CanCut`.
ghost use Rattle.std.specs.Prelude.{◌≡◌, ◌≤◌, ℕ, List, length, take};
ghost use Rattle.std.specs.Borrow.{Lends, sem, Array as SliceOf};

/// A list whose items can be written, and whose tail can be cut off.
pub trait CanCut {
    /// What the list holds.
    type Item: Default + Drop;

    // The list, and the vector once the list was written as a slice, which keeps its length.
    ghost items: { Self → List Self.Item };

    ghost with_items: { Self → List Self.Item → Self };

    // How many items fit where the list is.
    ghost room: { Self → ℕ };

    // What a write of the list and a cut of its tail leave of all else.
    ghost Kept: { Self → Self → Type 0 };

    ghost Truncated: { Self → Self → Type 0 };

    /// The items.
    fn as_slice(&self) -> &[Self::Item]
        ensures { result.now ≡ items self.now };

    /// The items, for writing.
    fn as_mut_slice(&mut self) -> &mut [Self::Item]
        ensures* writes_back { sem 𝓛 (Lends Self.row (SliceOf Self.Item.row 0) self.entry result (with_items self.old)) }
        ensures value { result.now ≡ items self.old };

    /// Keeps the first `n` items, and drops the others.
    fn truncate(&mut self, n: usize)
        ensures items { items self.new ≡ take n (items self.old) }
        ensures cut { Truncated self.old self.new }
        ensures fits { length (items self.new) ≤ room self.new };

    ghost written: { (v : Self) (xs : List Self.Item) → length xs ≡ length (items v)
        → (items (with_items v xs) ≡ xs) × Kept v (with_items v xs) };

    ghost kept_cut: { (u v w : Self) → Kept u v → Truncated v w → Truncated u w };
}
