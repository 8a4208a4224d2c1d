//! The trait `Array`.
ghost use Rattle.std.specs.Prelude.{◌≡◌, ℕ, All, List, length};

use crate::TakesClones;

/// A type that is a fixed number of slots and nothing else, as `[T; N]` is. Emptied slots hold defaults.
pub trait Array: TakesClones<Item: Default, Len: Copy> {
    /// The number of slots.
    const CAPACITY: usize;

    ghost CAPACITY: { ℕ };

    /// An array with a default in every slot.
    fn default() -> Self
        ensures defaults { All Self.Item.is_default (Self.Slots.slots result) }
        ensures len { length (Self.Slots.slots result) ≡ CAPACITY };

    // There are as many slots.
    ghost counted: { (xs : List Self.Item) → Self.Slots.Counts xs → length xs ≡ CAPACITY };

    // The slots say all of an array.
    ghost same: { (a b : Self) → Self.Slots.slots a ≡ Self.Slots.slots b → a ≡ b };
}

impl<T: Default + Drop, const N: usize> Array for [T; N] {
    const CAPACITY: usize = N;

    ghost CAPACITY = { N };

    ghost counted = { λ xs h. h };

    ghost same = { λ a b h. h };

    #[inline(always)]
    fn default() -> Self {
        Default::default()
    }
}
