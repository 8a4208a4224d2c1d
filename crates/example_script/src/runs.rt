//! Callers of lists of calls, and of splices that a word of ends drives.
ghost use Rattle.std.specs.Prelude.{◌≡◌, [], ◌∷◌, pos, IfOk, OnErr};
ghost use Rattle.tinyvec_array.specs.ArrayVec.{items};
ghost use Rattle.tinyvec_array.specs.SliceVec.{slice_name};

use std::alloc::{AllocError, Global};
use tinyvec::{ArrayVec, SliceVec, TinyVec};
use tinyvec_script::{
    Answer, Call, Driven, End, drive_array_splice, drive_splice, drive_tiny_splice, run_array,
    run_slice, run_tiny,
};

/// The answers of a vector in an array, or an error, if there is no memory for them.
pub fn answers_of_array(
    alloc: Global,
    v: &mut ArrayVec<[u8; 4]>,
    calls: Vec<Call<u8>>,
) -> Result<Vec<Answer<u8>>, AllocError>
    ensures { OnErr result (v.new ≡ v.old) }
{
    Ok(run_array(alloc, v, calls)?)
}

/// The same of a vector in lent slots, which stays in them.
pub fn answers_of_slice(
    alloc: Global,
    v: &mut SliceVec<'_, u8>,
    calls: Vec<Call<u8>>,
) -> Result<Vec<Answer<u8>>, AllocError>
    ensures same_reference { slice_name v.new ≡ slice_name v.old }
    ensures refused { OnErr result (v.new ≡ v.old) }
{
    Ok(run_slice(alloc, v, calls)?)
}

/// The same of a vector that may move to the heap.
pub fn answers_of_tiny(
    alloc: Global,
    v: &mut TinyVec<[u8; 4]>,
    calls: Vec<Call<u8>>,
) -> Result<Vec<Answer<u8>>, AllocError>
    ensures { OnErr result (v.new ≡ v.old) }
{
    Ok(run_tiny(alloc, v, calls)?)
}

/// Takes one of two items at each end, and puts one number in their place.
pub fn one_for_two(alloc: Global) -> Result<(Driven<i32>, ArrayVec<[i32; 4]>), AllocError>
    ensures yields { IfOk result (λ r. r.0.yields.items ≡ pos 2 ∷ pos 3 ∷ []) }
    ensures rest { IfOk result (λ r. r.0.rest.items ≡ []) }
    ensures list { IfOk result (λ r. items r.1 ≡ pos 1 ∷ pos 7 ∷ pos 4 ∷ []) }
{
    let mut vec = ArrayVec::from_array([1, 2, 3, 4]);
    let replacement = Vec::from_array(alloc, [7])?;
    let word = [End::Front, End::Back];
    let driven = drive_array_splice(alloc, &mut vec, 1, 3, replacement, &word)?;
    Ok((driven, vec))
}

/// Puts the bytes in the place of the list of a vector in lent slots, after the items at these ends were taken.
pub fn replaced_in_slice(
    alloc: Global,
    v: &mut SliceVec<'_, u8>,
    bytes: Vec<u8>,
    word: &[End],
) -> Result<Driven<u8>, AllocError>
    ensures { OnErr result (v.new ≡ v.old) }
{
    let len = v.len();
    Ok(drive_splice(alloc, v, 0, len, bytes, word)?)
}

/// Puts the bytes in the place of the list of a vector that may move to the heap, after the items at these ends were taken.
pub fn replaced_in_tiny(
    alloc: Global,
    v: &mut TinyVec<[u8; 4]>,
    bytes: Vec<u8>,
    word: &[End],
) -> Result<Driven<u8>, AllocError>
    ensures { OnErr result (v.new ≡ v.old) }
{
    let len = v.len();
    Ok(drive_tiny_splice(alloc, v, 0, len, bytes, word)?)
}
