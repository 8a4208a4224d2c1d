//! The examples of the documents, each as it is there.

pub mod array;
pub mod below;
pub mod filters;
pub mod inline_text;
pub mod keys;
pub mod loops;
pub mod names;
pub mod numbers;
pub mod slice;
pub mod stack;
pub mod texts;
pub mod tokens;
