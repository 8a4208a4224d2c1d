//! Records in a stream, each after a tag.
#![tactic(auto)]

mod length;
mod reading;
mod stream;
mod stream_error;

pub use length::stream_len;
pub use reading::Reading;
pub use stream::{Recovered, TAG, append, append_all, append_to, copied, read_all};
pub use stream_error::StreamError;
