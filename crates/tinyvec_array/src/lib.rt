//! A vector over slots that are always initialised: an array's, or those of a slice that is lent for writing.
#![tactic(auto)]

mod array;
mod array_vec;
mod bound;
mod can_cut;
mod can_put;
mod can_splice;
mod drain;
mod into_iter;
mod macros;
mod parts;
mod slots;
mod splice;
mod takes_clones;
mod try_from_slice_error;
mod tuned;

pub use array::Array;
pub use array_vec::{ArrayVec, SliceVec};
pub use bound::UpTo;
pub use drain::{ArrayVecDrain, SliceVecDrain};
pub use into_iter::ArrayVecIterator;
pub use slots::Slots;
pub use splice::ArrayVecSplice;
pub use takes_clones::TakesClones;
pub use tinyvec_slots::{
    CapacityError, ExtractIf, FromIterRest, NoMemory, NoRoom, Splice, SpliceRest,
};
pub use try_from_slice_error::TryFromSliceError;
