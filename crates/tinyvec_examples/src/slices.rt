//! Callers of a vector in a lent slice, whose owner sees what they did.

pub mod draining;
pub mod edits;
pub mod lending;
pub mod split;
