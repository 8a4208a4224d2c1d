//! Callers of `extract_if`: which items come out, and which stay.
ghost use Rattle.std.specs.Prelude.{◌≡◌, ◌++◌, ◌%◌, ◌==◌, not, nat_lt};
ghost use Rattle.std.specs.List.{filter, find, before_first, after_first};
ghost use Rattle.tinyvec_array.specs.ArrayVec.{items};
ghost use Rattle.tinyvec.specs.TinyVec.{tiny_items};

use tinyvec::{ArrayVec, TinyVec};

/// Drops the even numbers.
pub fn drop_even(v: &mut TinyVec<[u32; 8]>)
    ensures { tiny_items v.new ≡ filter (λ x. not (x % 2 == 0)) (tiny_items v.old) }
{
    for _ in v.extract_if(.., |x| *x % 2 == 0) {}
}

/// Takes out the first number above a limit.
pub fn first_above(v: &mut ArrayVec<[u32; 8]>, limit: u32) -> Option<u32>
    ensures found { result ≡ find (nat_lt limit) (items v.old) }
    ensures left { items v.new ≡ before_first (nat_lt limit) (items v.old) ++ after_first (nat_lt limit) (items v.old) }
{
    let mut chosen = v.extract_if(.., move |x| *x > limit);
    chosen.next()
}
