//! What is written for speed over slots, as `tuned.rt` of `tinyvec_slots` says.

pub(crate) mod cloning;
pub(crate) mod indexing;
pub(crate) mod resetting;
pub(crate) mod shifting;
