//! A push into lent slots.
ghost use Rattle.std.specs.Prelude.{◌≡◌, ◌+◌, ◌≤◌, [], ◌∷◌, ◌++◌, length, take, drop};

use tinyvec_array::SliceVec;

/// A push writes the slot after the list, and no other: the owner of the slots sees it.
pub fn pushed(slots: &mut [u8])
    requires { 3 ≤ length slots.old }
    ensures { slots.new ≡ take 2 slots.old ++ 7 ∷ [] ++ drop 3 slots.old }
{
    let mut v = SliceVec::from_slice_len(slots, 2);
    v.push(7);
}
