//! What is written for speed: plain loops would do the same.
//!
//! Each form was chosen by counting instructions (`docs/DECISIONS.md`), and the contracts say nothing of it. A comment says what a
//! block saves: a row of the benchmark, of how many items, and its instructions without the block > with it. In general:
//! - LLVM makes a loop vector code only if it knows the trip count, so blocks of a constant size come before the rest.
//! - An early return inside a block would undo that, so a block is first looked at whole.
//! - Short runs are moved or written one by one, since a rotation and `memset` cost more than a few items.
//! - If a constant bounds a length, the branches for longer slices are gone after inlining.
//! - LLVM moves numbers of 4 or 8 bytes in registers, several at once, if all of a block are read before one is written. It
//!   does so itself for bytes, 32 at a time. A block of larger items would fill the stack, so they are moved one by one.
//! - Up to 8 bytes, a move that takes no branch beats a test of whether it is needed.
//! - Up to 128 bytes, moves one by one beat `memmove`.

pub(crate) mod cloning;
pub(crate) mod comparing;
pub(crate) mod moving;
pub(crate) mod shifting;
pub(crate) mod sizes;
