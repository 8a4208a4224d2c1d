//! Runs of calls of a vector, and the script that spells them, a line each.
#![tactic(auto)]

mod answers;
mod call;
mod command;
mod driving;
mod gathered;
mod line;
mod number;
mod runs;
mod script;
mod slots_step;
mod splice_text;
mod text_command;
mod text_step;
mod tiny_step;
mod vectors;

pub use call::{Answer, Call, End};
pub use command::Name;
pub use driving::{Driven, drive_array_splice, drive_splice, drive_tiny_splice};
pub use runs::{run_array, run_slice, run_tiny};
pub use script::{RunError, run};
