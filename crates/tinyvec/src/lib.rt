//! A vector that is inline, in an array, while its list fits, and then moves to the heap.
#![tactic(auto)]

mod drain;
mod into_iter;
mod macros;
mod splice;
mod tiny_vec;
mod tuned;

pub use drain::TinyVecDrain;
pub use into_iter::TinyVecIterator;
pub use splice::TinyVecSplice;
pub use tiny_vec::TinyVec;
// All of `tinyvec_array`, and so of `tinyvec_slice`.
pub use tinyvec_array::{
    Array, ArrayVec, ArrayVecDrain, ArrayVecIterator, ArrayVecSplice, CapacityError, ExtractIf,
    FromIterRest, NoMemory, NoRoom, SliceVec, SliceVecDrain, Slots, Splice, SpliceRest,
    TakesClones, TryFromSliceError, UpTo, array_vec,
};
