//! The trait `CanPut`.
ghost use Rattle.std.specs.Prelude.{◌≡◌, ◌+◌, ◌<◌, ◌≤◌, ◌++◌, ◌∷◌, ◌^◌, [], ℕ, List, length, vec_capacity};

/// A list with room for more items. What is put behind it is part of it once it is kept.
pub trait CanPut {
    /// What the list holds.
    type Item: Drop;

    ghost items: { Self → List Self.Item };

    // How many items fit.
    ghost room: { Self → ℕ };

    // The items were put behind the list of the first, which gave the second.
    ghost Puts: { Self → List Self.Item → Self → Type 0 };

    // The items were appended to the first, which gave the second.
    ghost Gets: { Self → List Self.Item → Self → Type 0 };

    // The items were put behind the list of the first, and it was left as it was, which gave the second.
    ghost Leaves: { Self → List Self.Item → Self → Type 0 };

    /// The number of items.
    fn len(&self) -> usize
        ensures value { result ≡ length (items self.now) }
        ensures fits { result ≤ room self.now }
        ensures small { room self.now < 2 ^ 64 };

    /// How many items fit.
    fn room(&self) -> usize
        ensures { result ≡ room self.now };

    /// Puts `x` behind the list and what was put, which are `at` items.
    fn put(&mut self, at: usize, x: Self::Item)
        requires { (v : Self) × (xs : List Self.Item) × Puts v xs self.old × (at ≡ length (items v) + length xs) × (at < room v) }
        ensures { (v : Self) (xs : List Self.Item) → Puts v xs self.old → at ≡ length (items v) + length xs
            → at < room v → Puts v (xs ++ x ∷ []) self.new };

    /// Makes what was put part of the list, which has `n` items then.
    fn keep(&mut self, n: usize)
        requires { (v : Self) × (xs : List Self.Item) × Puts v xs self.old × (n ≡ length (items v) + length xs) × (n ≤ room v) }
        ensures { (v : Self) (xs : List Self.Item) → Puts v xs self.old → n ≡ length (items v) + length xs → n ≤ room v
            → Gets v xs self.new };

    /// Leaves the list as it was before what was put, of `n` items.
    fn back_to(&mut self, n: usize)
        ensures { (v : Self) (xs : List Self.Item) → Puts v xs self.old → n ≡ length (items v) → Leaves v xs self.new };

    ghost puts_none: { (v : Self) → Puts v [] v };

    ghost puts_room: { (v : Self) (xs : List Self.Item) (w : Self) → Puts v xs w → room w ≡ room v };
}

impl<T: Drop> CanPut for Vec<T> {
    ghost use Rattle.tinyvec_slots.specs.Puts.{HeapPuts, HeapLeaves, heap_puts_none};

    type Item = T;

    ghost items = { λ v. v.items };

    ghost room = { vec_capacity };

    ghost Puts = { HeapPuts };

    ghost Gets = { HeapPuts };

    ghost Leaves = { HeapLeaves };

    #[inline(always)]
    fn len(&self) -> usize {
        self.len()
    }

    #[inline(always)]
    fn room(&self) -> usize {
        self.capacity()
    }

    #[inline(always)]
    fn put(&mut self, _at: usize, x: T) {
        self.push_reserved(x);
    }

    #[inline(always)]
    fn keep(&mut self, _n: usize) {}

    #[inline(always)]
    fn back_to(&mut self, n: usize) {
        self.truncate(n);
    }

    ghost puts_none = { heap_puts_none };

    ghost puts_room = { λ v xs w put. put.capacity };
}
