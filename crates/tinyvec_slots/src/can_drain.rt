//! The trait `CanDrain`.
ghost use Rattle.std.specs.Prelude.{◌≡◌, ◌<◌, ◌+◌, ℕ, List, length, slice_index_or, slice_set};
ghost use Rattle.std.specs.List.{remove_range};

/// A list that a drain moves a range of items out of.
pub trait CanDrain {
    /// What the list holds.
    type Item: Default + Drop;

    // What has the items of the range until they are taken: the list, or the spare slots.
    ghost drained_list: { Self → List Self.Item };

    // What it leaves of all else when one of them is taken.
    ghost Kept: { Self → Self → Type 0 };

    // What the end of a drain of the `gap` items from `start` on leaves.
    ghost Ended: { ℕ → ℕ → Self → Self → Type 0 };

    // What `Debug` calls a drain.
    ghost drain_word: { List ℕ };

    /// What `Debug` calls a drain.
    fn drain_name() -> &'static str
        ensures { result.now ≡ drain_word };

    /// What has the items of the range until they are taken.
    fn as_drained(&self) -> &[Self::Item]
        ensures { result.now ≡ drained_list self.now };

    /// Takes the item at `i` there, and leaves a default.
    fn take_drained(&mut self, i: usize) -> Self::Item
        requires { i < length (drained_list self.old) }
        ensures value { result ≡ slice_index_or (drained_list self.old) i result }
        ensures after { (d : Self.Item) × Self.Item.is_default d × (drained_list self.new ≡ slice_set (drained_list self.old) i d) }
        ensures kept { Kept self.old self.new };

    /// Ends a drain of the `gap` items from `start` on.
    fn end_drain(&mut self, start: usize, gap: usize)
        ensures { Ended start gap self.old self.new };

    ghost kept_same: { (v : Self) → Kept v v };

    ghost kept_then: { (u v w : Self) → Kept u v → Kept v w → Kept u w };

    // Takes change nothing else that the end reads.
    ghost kept_ended: { (start gap : ℕ) (u v w : Self) → Kept u v → length (drained_list v) ≡ length (drained_list u)
        → remove_range (drained_list v) start (start + gap) ≡ remove_range (drained_list u) start (start + gap)
        → Ended start gap v w → Ended start gap u w };
}
