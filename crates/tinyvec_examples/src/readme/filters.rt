//! Numbers kept by a test.
ghost use Rattle.std.specs.Prelude.{◌≡◌, nat_lt};
ghost use Rattle.std.specs.List.{filter};
ghost use Rattle.tinyvec_array.specs.ArrayVec.{items};

use tinyvec_array::ArrayVec;

/// Keeps the numbers below a limit, in order.
pub fn keep_below(v: &mut ArrayVec<[u32; 8]>, limit: u32)
    ensures { items v.new ≡ filter (λ x. nat_lt x limit) (items v.old) }
{
    v.retain(|x| *x < limit);
}
