//! A vector over the slots of a slice that is lent for writing.
#![tactic(auto)]

pub use tinyvec_array::{NoMemory, NoRoom, SliceVec, SliceVecDrain};
