//! A push and a pop.
ghost use Rattle.std.specs.Prelude.{◌≡◌, ◌<◌, ◌++◌, List, ℕ, length, drop, Some};
ghost use Rattle.tinyvec_array.specs.ArrayVec.{items, spare};
ghost use Rattle.tinyvec_array.specs.Slots.{AreDefaults};

use tinyvec_array::ArrayVec;

/// What was pushed is popped, the items are the same, and its slot holds a default.
pub fn push_then_pop(v: &mut ArrayVec<[u32; 8]>, x: u32) -> Option<u32>
    requires { 0 < length (spare v.old) }
    ensures back { result ≡ Some x }
    ensures same { items v.new ≡ items v.old }
    ensures emptied { (ds : List ℕ) × AreDefaults (λ d. d ≡ 0) 1 ds × (spare v.new ≡ ds ++ drop 1 (spare v.old)) }
{
    v.push(x);
    v.pop()
}
