//! A program that answers a text line by line.
#![tactic(auto)]

mod answers;
mod failure;

pub use answers::{Answer, answer_lines};
pub use failure::Failure;
