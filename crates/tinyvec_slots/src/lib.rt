//! What the vectors of this workspace share: the range rule, operations on a slice of slots, and the error types.
#![tactic(auto)]

pub mod authors;
mod can_cut;
mod can_drain;
mod can_put;
mod can_splice;
mod capacity_error;
mod drain;
mod extracting;
mod filtering;
mod gap;
mod no_memory;
mod no_room;
mod owned;
mod printing;
mod putting;
mod range;
mod splice;
mod touches;
mod tuned;

pub use capacity_error::CapacityError;
pub use drain::Drain;
pub use extracting::ExtractIf;
pub use no_memory::NoMemory;
pub use no_room::{FromIterRest, NoRoom, SpliceRest};
pub use owned::OwnedItems;
pub use splice::Splice;
