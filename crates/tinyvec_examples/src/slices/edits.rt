//! What the owner sees after pushes and edits.
ghost use Rattle.std.specs.Prelude.{◌≡◌, ◌<◌, ◌≤◌, ◌+◌, ◌∷◌, [], length, take, drop, insert, pos, remove};
ghost use Rattle.tinyvec_array.specs.SliceVec.{slice_items, slice_spare, slice_name};

use tinyvec_array::SliceVec;

/// Pushes in a loop.
pub fn push_fives(v: &mut SliceVec<'_, i32>, n: usize)
    requires { n ≤ length (slice_spare v.old) }
    ensures same_reference { slice_name v.new ≡ slice_name v.old }
    ensures items { take (length (slice_items v.old)) (slice_items v.new) ≡ slice_items v.old }
    ensures len { length (slice_items v.new) ≡ length (slice_items v.old) + n }
    ensures spare { slice_spare v.new ≡ drop n (slice_spare v.old) }
{
    for _i in 0..n {
        v.push(5);
    }
}

/// A list of four is cut to three, loses its second item and is given another.
pub fn edit(v: &mut SliceVec<'_, i32>)
    requires { length (slice_items v.old) ≡ 4 }
    ensures same_reference { slice_name v.new ≡ slice_name v.old }
    ensures items { slice_items v.new ≡ insert (remove (take 3 (slice_items v.old)) 1) 1 (pos 8) }
    ensures spare { slice_spare v.new ≡ pos 0 ∷ slice_spare v.old }
{
    v.truncate(3);
    let _second = v.remove(1);
    v.insert(1, 8);
}

/// The owner sees the list, then a default in the vacated slot, then what followed.
pub fn edited() -> [i32; 5]
    ensures { result ≡ pos 1 ∷ pos 8 ∷ pos 3 ∷ pos 0 ∷ pos 9 ∷ [] }
{
    let mut array = [1, 2, 3, 4, 9];
    {
        let mut v = SliceVec::from_slice_len(&mut array, 4);
        edit(&mut v);
    }
    array
}
