//! Code as programs over Rust's `tinyvec` have it, ported. No file here needs a file of proof.
pub mod marks;
pub mod own_error;
pub mod sentence;
