//! Items pushed in a loop, where each push may be refused.
ghost use Rattle.std.specs.Prelude.{◌≡◌, ◌≤◌, ◌-◌, ◌++◌, ◌↔◌, ℕ, length, take, IsTrue, OnOk, OnErr};
ghost use Rattle.tinyvec_array.specs.ArrayVec.{items, items_len};
ghost use Rattle.tinyvec.specs.TinyVec.{tiny_items};

use std::alloc::AllocError;
use tinyvec::{ArrayVec, TinyVec};

/// Pushes the numbers until the vector is full. True if all found room.
pub fn push_while_room(v: &mut ArrayVec<[u32; 8]>, numbers: &[u32]) -> bool
    ensures all { IsTrue result ↔ (length numbers.now ≤ 8 - items_len v.old) }
    ensures items { items v.new ≡ items v.old ++ take (8 - items_len v.old) numbers.now }
    ensures fits { items_len v.new ≤ 8 }
{
    // A vector that was lent to this function is not known to fit until a call says so, and the loop may not turn.
    let _len = v.len();
    for number in numbers {
        if v.try_push(*number).is_some() {
            return false;
        }
    }
    true
}

/// Pushes the numbers until memory is refused: `?` drops the number that the refused push returns.
pub fn push_each(v: &mut TinyVec<[u32; 8]>, numbers: &[u32]) -> Result<(), AllocError>
    ensures ok { OnOk result (tiny_items v.new ≡ tiny_items v.old ++ numbers.now) }
    ensures refused { OnErr result ((k : ℕ) × (tiny_items v.new ≡ tiny_items v.old ++ take k numbers.now)) }
{
    for number in numbers {
        v.push(*number)?;
    }
    Ok(())
}
