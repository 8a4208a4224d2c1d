//! What the owner sees of two lists, each in a part of its slots.
ghost use Rattle.std.specs.Prelude.{◌≡◌, ◌<◌, ◌∷◌, ◌++◌, [], take, drop, length};
ghost use Rattle.tinyvec_array.specs.SliceVec.{slice_spare};
ghost use Rattle.tinyvec_array.specs.Appends.{Appends};

use tinyvec_array::SliceVec;

/// Puts a 1 first in the slots before `at`, and a 2 first in the others.
pub fn halves(slots: &mut [u8], at: usize)
    requires in_first { 0 < at }
    requires in_second { at < length slots.old }
    ensures { slots.new ≡ (1 ∷ drop 1 (take at slots.old)) ++ (2 ∷ drop 1 (drop at slots.old)) }
{
    let (left, right) = slots.split_at_mut(at);
    let mut first = SliceVec::from_slice_len(left, 0);
    let mut second = SliceVec::from_slice_len(right, 0);
    put(&mut first, 1);
    put(&mut second, 2);
}

fn put(v: &mut SliceVec<'_, u8>, x: u8)
    requires { 0 < length (slice_spare v.old) }
    ensures { Appends (x ∷ []) v.old v.new }
{
    v.push(x);
}
