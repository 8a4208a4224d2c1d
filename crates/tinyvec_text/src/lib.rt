//! A text that lives in an array while its bytes fit, and then moves to the heap.
#![tactic(auto)]

mod inline_text;

pub use inline_text::{FromUtf8Error, InlineText, InlineTextDrain};
