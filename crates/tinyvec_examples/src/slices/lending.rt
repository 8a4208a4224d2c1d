//! Writes through what the vector lends. The owner sees each of them.
ghost use Rattle.std.specs.Prelude.{◌≡◌, ◌≤◌, length, slice_set};

use tinyvec_array::SliceVec;

/// A vector over each part of what is lent, which no caller of `split_off` can have: an item of the first is written, and
/// the second is pushed to.
pub fn both_parts(xs: &mut [u8])
    requires { 4 ≤ length xs.old }
    ensures { xs.new ≡ slice_set (slice_set xs.old 0 7) 3 6 }
{
    let mut v = SliceVec::from_slice_len(xs, 3);
    let (front, back) = v.as_mut_slots().split_at_mut(1);
    let mut first = SliceVec::from_slice_len(front, 1);
    let mut second = SliceVec::from_slice_len(back, 2);
    first[0] = 7;
    second.push(6);
}
