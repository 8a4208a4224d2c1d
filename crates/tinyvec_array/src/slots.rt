//! The trait `Slots`.
ghost use Rattle.std.specs.Prelude.{◌≡◌, ◌≤◌, ◌<◌, ◌^◌, ℕ, List, length, min, refl};
ghost use Rattle.std.specs.Borrow.{Lends, sem, GName, Array as SliceOf};
ghost use Rattle.tinyvec_array.specs.UpTo.{up_to, up_to-len};

use crate::UpTo;

/// A number of slots: an array, or a slice that is lent for writing. It asks only `Drop` of an item, so a type can hold
/// itself through a vector in an array.
pub trait Slots: Drop {
    /// What a slot holds.
    type Item: Drop;

    /// How long a list in such slots is. It is a type of its own, so that no vector needs an invariant: of an array it is
    /// at most the number of slots.
    type Len: Drop;

    // What the slots hold, in order.
    ghost slots: { Self → List Self.Item };

    // Which slots these are: of a lent slice the ghost name of the reference; an array is itself.
    ghost Name: { Type 0 };

    ghost name: { Self → Name };

    // The same storage, if the slots hold this.
    ghost with_slots: { Self → List Self.Item → Self };

    // What the type tells of the slots' number.
    ghost Counts: { List Self.Item → Type 0 };

    // The number that a length is, and the length that is a number.
    ghost count: { Self.Len → ℕ };

    ghost of_count: { ℕ → Self.Len };

    ghost count_of: { (n : ℕ) (xs : List Self.Item) → Counts xs → n ≤ length xs → count (of_count n) ≡ n };

    // What was written is what the slots hold.
    ghost slots_written: { (s : Self) (xs : List Self.Item) → slots (with_slots s xs) ≡ xs };

    // Of two writes the last remains.
    ghost rewritten: { (s : Self) (xs ys : List Self.Item) → with_slots (with_slots s xs) ys ≡ with_slots s ys };

    // A write does not change which slots they are.
    ghost name_kept: { (s : Self) (xs : List Self.Item) → name (with_slots s xs) ≡ name s };

    /// The slots.
    fn as_slice(&self) -> &[Self::Item]
        ensures value { result.now ≡ slots self.now }
        ensures counts { Counts (slots self.now) };

    /// The slots, for writing.
    fn as_slice_mut(&mut self) -> &mut [Self::Item]
        ensures* writes_back { sem 𝓛 (Lends Self.row (SliceOf Self.Item.row 0) self.entry result (with_slots self.old)) }
        ensures value { result.now ≡ slots self.old };

    /// How many of the slots hold a list of this length.
    fn used(&self, len: &Self::Len) -> usize
        ensures value { result ≡ min (count len.now) (length (slots self.now)) }
        ensures counts { Counts (slots self.now) }
        ensures small { length (slots self.now) < 2 ^ 64 };

    /// At least the number of slots. An array's is that number, so that LLVM knows it.
    fn most(&self) -> usize
        ensures { length (slots self.now) ≤ result };

    /// The length of a list in the first `n` slots.
    fn to_len(&self, n: usize) -> Self::Len
        requires { n ≤ length (slots self.now) }
        ensures value { result ≡ of_count n }
        ensures number { count result ≡ n };
}

impl<T: Drop, const N: usize> Slots for [T; N] {
    type Item = T;

    type Len = UpTo<N>;

    ghost slots = { λ a. a };

    ghost Name = { Unit };

    ghost name = { λ _. tt };

    ghost with_slots = { λ _ xs. xs };

    ghost Counts = { λ xs. length xs ≡ N };

    ghost count = { λ n. n.len };

    ghost of_count = { λ n. up_to N n };

    ghost count_of = { λ n xs all le. up_to-len N n xs all le };

    ghost slots_written = { λ a xs. refl };

    ghost rewritten = { λ a xs ys. refl };

    ghost name_kept = { λ a xs. refl };

    fn as_slice(&self) -> &[T] {
        self.as_slice()
    }

    fn as_slice_mut(&mut self) -> &mut [T] {
        self.as_mut_slice()
    }

    #[inline(always)]
    fn used(&self, len: &UpTo<N>) -> usize {
        len.len
    }

    #[inline(always)]
    fn most(&self) -> usize {
        N
    }

    #[inline(always)]
    fn to_len(&self, n: usize) -> UpTo<N> {
        UpTo { len: n }
    }
}

impl<'s, T: Drop> Slots for &'s mut [T] {
    type Item = T;

    // Nothing bounds this by the number of slots. If it is more, all slots hold the list.
    type Len = usize;

    ghost slots = { λ lent. lent.now };

    ghost Name = { GName };

    ghost name = { λ lent. lent.ghost_name };

    ghost with_slots = { λ lent xs. record lent { now = xs } };

    ghost Counts = { λ _. Unit };

    ghost count = { λ n. n };

    ghost of_count = { λ n. n };

    ghost count_of = { λ n xs all le. refl };

    ghost slots_written = { λ lent xs. refl };

    ghost rewritten = { λ lent xs ys. refl };

    ghost name_kept = { λ lent xs. refl };

    fn as_slice(&self) -> &[T] {
        &**self
    }

    fn as_slice_mut(&mut self) -> &mut [T] {
        // Proved by hand: the borrow checker does not follow a loan of what is itself lent.
        &mut **self
    }

    #[inline(always)]
    fn used(&self, len: &usize) -> usize {
        (*len).min(self.as_slice().len())
    }

    #[inline(always)]
    fn most(&self) -> usize {
        usize::MAX
    }

    #[inline(always)]
    fn to_len(&self, n: usize) -> usize {
        n
    }
}
