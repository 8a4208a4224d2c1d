//! What a caller of the vectors can prove, and how: what the documents quote, and what no other caller teaches. That is a loop
//! with its invariant, a caller that is generic over the array, the slots or the replacement, the owner of a lent slice, a drain
//! and a splice by their ends, a clone that fails, and code that is ported from Rust. What each call returns and leaves is
//! shown by an example of `docs/reference/examples.txt`.
#![tactic(auto)]

pub mod borsh;
pub mod clones;
pub mod counted;
pub mod derefs;
pub mod draining;
pub mod ends;
pub mod extracting;
pub mod idioms;
pub mod known_items;
pub mod largest;
pub mod lending;
pub mod ported;
pub mod printing;
pub mod readme;
pub mod replacing;
pub mod slices;
pub mod splicing;
pub mod tabs;
pub mod texts;
pub mod tiny_splicing;
pub mod tiny_vec;
pub mod trees;
