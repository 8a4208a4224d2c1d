//! A stack, emptied item by item.
ghost use Rattle.std.specs.Prelude.{◌≡◌, ◌++◌, [], reverse, OnOk};
ghost use Rattle.tinyvec.specs.TinyVec.{tiny_items};

use std::alloc::AllocError;
use tinyvec::TinyVec;

/// Moves all items onto another stack, the last one first.
pub fn pour(from: &mut TinyVec<[u32; 8]>, to: &mut TinyVec<[u32; 8]>) -> Result<(), AllocError>
    ensures left { OnOk result (tiny_items from.new ≡ []) }
    ensures moved { OnOk result (tiny_items to.new ≡ tiny_items to.old ++ reverse (tiny_items from.old)) }
{
    while let Some(x) = from.pop() {
        to.push(x)?;
    }
    Ok(())
}
