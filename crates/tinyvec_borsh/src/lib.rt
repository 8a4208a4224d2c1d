//! Numbers, vectors and texts written and read in the Borsh form.
//!
//! A whole number is its bytes, least significant first. A list is a count of eight bytes, then its items; a text is the
//! list of its bytes. What is written is read again, whatever follows it, and any input is read or refused with a reason.
#![tactic(auto)]

mod borsh_error;
mod bytes;
mod deserialize;
mod form;
mod lists;
mod numbers;
mod serialize;

pub use borsh_error::BorshError;
pub use deserialize::BorshDeserialize;
pub use form::BorshForm;
pub use serialize::BorshSerialize;
