//! A reader or writer that counts its faults.
//!
//! [`Counted`] passes each call on to a `Read` or `Write`, and counts its faults. So a caller of many
//! reads and writes can tell afterwards whether there was one.
#![tactic(auto)]

mod counted;

pub use counted::Counted;
