//! The trait `CanSplice`.
ghost use Rattle.std.specs.Prelude.{◌≡◌, ◌++◌, ◌≤◌, ◌+◌, ◌-◌, ℕ, ⊤, true, All, take, drop, Bool, List, Some, length};
ghost use Rattle.std.specs.Prelude.{OnErr, IfErr, MatchResult};
ghost use Rattle.std.specs.Bool.{MatchBool};
ghost use Rattle.std.specs.Iterator.{Drains, YieldsThen, IsFinite};
ghost use Rattle.tinyvec_slots.specs.Touches.{touch_count, FitsBits};

use crate::NoRoom;
use crate::authors::CanCut;
use crate::touches::Touches;

/// A list whose items a splice can replace.
pub trait CanSplice: CanCut {
    // Whether a splice reaches its slots through `Touches` alone.
    ghost counted: { Bool };

    // Whether what is appended has to end.
    ghost must_end: { Bool };

    // What `Debug` calls a splice.
    ghost splice_word: { List ℕ };

    // What an append leaves of all else.
    ghost Grown: { Self → Self → Type 0 };

    /// What `Debug` calls a splice.
    fn splice_name() -> &'static str
        ensures { result.now ≡ splice_word };

    /// Whether its splice reaches its slots through `Touches` alone.
    fn is_counted() -> bool
        ensures { result ≡ counted };

    /// The number of items.
    fn len(&self) -> usize
        ensures value { result ≡ length (Self.items self.now) }
        ensures fits { result ≤ Self.room self.now };

    /// Appends what `iter` yields, each item through `touches` if they are counted. An item with no room is returned with
    /// those that follow it.
    fn append_counted<I: Iterator<Item = Self::Item>>(
        &mut self,
        iter: I,
        touches: &mut Touches,
    ) -> Result<(), NoRoom<Self::Item, I>>
        requires can { I.can_next iter }
        requires finite { MatchBool must_end (IsFinite (I.remaining iter)) ⊤ }
        requires few { FitsBits 80 (touch_count touches.old) }
        ensures ran { (placed : List Self.Item) × MatchResult result (λ _. Drains I.next_gives iter placed)
            (λ refused. YieldsThen I.next_gives iter placed (Some refused.item) refused.rest)
            × (Self.items self.new ≡ Self.items self.old ++ placed) }
        ensures full { OnErr result (length (Self.items self.new) ≡ Self.room self.new) }
        ensures grown { Grown self.old self.new }
        ensures fits { length (Self.items self.new) ≤ Self.room self.new }
        ensures goes_on { IfErr result (λ refused. I.can_next refused.rest) }
        ensures touched { counted ≡ true → touch_count touches.new
            ≡ touch_count touches.old + (length (Self.items self.new) - length (Self.items self.old)) }
        ensures few { touch_count touches.new
            ≤ touch_count touches.old + (length (Self.items self.new) - length (Self.items self.old)) };

    /// Keeps the first `n` items. If touches are counted, the others are defaults.
    fn cut_emptied(&mut self, n: usize)
        requires in_list { n ≤ length (Self.items self.old) }
        requires emptied { counted ≡ true → All Self.Item.is_default (drop n (Self.items self.old)) }
        ensures items { Self.items self.new ≡ take n (Self.items self.old) }
        ensures cut { Self.Truncated self.old self.new }
        ensures fits { length (Self.items self.new) ≤ Self.room self.new };

    ghost kept_same: { (v : Self) → Self.Kept v v };

    ghost kept_then: { (u v w : Self) → Self.Kept u v → Self.Kept v w → Self.Kept u w };

    ghost kept_room: { (v w : Self) → Self.Kept v w → Self.room w ≡ Self.room v };

    ghost kept_len: { (v w : Self) → Self.Kept v w → length (Self.items w) ≡ length (Self.items v) };

    ghost kept_grown: { (u v w x : Self) → Self.Kept u v → Grown v w → Self.Kept w x → Grown u x };

    ghost cut_grown: { (v w : Self) → Self.Truncated v w → length (Self.items w) ≤ Self.room w → Grown v w };

    ghost grown_room: { (v w : Self) → Grown v w → Self.room v ≤ Self.room w };
}
