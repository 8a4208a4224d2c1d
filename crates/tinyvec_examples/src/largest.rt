//! The largest numbers of a list.
ghost use Rattle.std.specs.Prelude.{◌≡◌, ◌+◌, ◌≤◌, ◌∷◌, ℕ, min, length, OnOk, IfOk};
ghost use Rattle.std.specs.List.Sorted.{IsNonDecreasing};
ghost use Rattle.tinyvec.specs.TinyVec.{tiny_items, tiny_len};
ghost use Rattle.tinyvec_examples.specs.Largest.{HoldsLargest, IsFloor, IsPlace};

use std::alloc::{AllocError, Global};
use tinyvec::TinyVec;

/// The `limit` largest of the numbers, or all of them if they are fewer, in ascending order.
pub fn largest(
    alloc: Global,
    numbers: &[u64],
    limit: usize,
) -> Result<TinyVec<[u64; 8]>, AllocError>
    ensures ascending { IfOk result (λ top. IsNonDecreasing (tiny_items top)) }
    ensures largest { IfOk result (λ top. HoldsLargest numbers.now (tiny_items top)) }
    ensures count { IfOk result (λ top. tiny_len top ≡ min limit (length numbers.now)) }
{
    let mut top = TinyVec::new(alloc);
    for number in numbers {
        keep(&mut top, limit, *number)?;
    }
    Ok(top)
}

/// Puts a number among the largest so far, and drops the least of these if they are more than `limit` then.
pub fn keep(top: &mut TinyVec<[u64; 8]>, limit: usize, number: u64) -> Result<(), AllocError>
    requires ascending { IsNonDecreasing (tiny_items top.old) }
    requires few { tiny_len top.old ≤ limit }
    ensures ascending { OnOk result (IsNonDecreasing (tiny_items top.new)) }
    ensures largest { OnOk result (HoldsLargest (number ∷ tiny_items top.old) (tiny_items top.new)) }
    ensures count { OnOk result (tiny_len top.new ≡ min limit (tiny_len top.old + 1)) }
    ensures floor { OnOk result (tiny_len top.old ≡ limit → (m : ℕ) → IsFloor m (tiny_items top.old) → IsFloor m (tiny_items top.new)) }
{
    let at = place(top.as_slice(), number);
    top.insert(at, number)?;
    if top.len() > limit {
        top.remove(0);
    }
    Ok(())
}

// Where to put a number into an ascending list.
fn place(list: &[u64], number: u64) -> usize
    requires { IsNonDecreasing list.now }
    ensures { IsPlace list.now number result }
{
    match list.binary_search(&number) {
        Ok(at) => at,
        Err(at) => at,
    }
}
