//! A message spelled into an array.
ghost use Rattle.std.specs.Prelude.{◌≡◌, ◌++◌, codes, IfOk};
ghost use Rattle.std.specs.Fmt.{decimal};
ghost use Rattle.tinyvec_array.specs.ArrayVec.{items};

use std::fmt;
use std::fmt::Write;
use tinyvec_array::{ArrayVec, array_vec};

/// `copied 3 of 8`, of any two numbers.
pub fn progress(done: u32, all: u32) -> Result<ArrayVec<[u8; 64]>, fmt::Error>
    ensures { IfOk result (λ v. items v ≡ codes "copied " ++ (decimal done ++ (codes " of " ++ decimal all))) }
{
    let mut v = array_vec!([u8; 64]);
    write!(v, "copied {done} of {all}")?;
    Ok(v)
}
