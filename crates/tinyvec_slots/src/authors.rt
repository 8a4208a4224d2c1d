//! What those who write vectors use: both vectors in slots and the `TinyVec` go through it.

pub use crate::can_cut::CanCut;
pub use crate::can_drain::CanDrain;
pub use crate::can_put::CanPut;
pub use crate::can_splice::CanSplice;
pub use crate::drain::{drain_held, take_each};
pub use crate::extracting::extract_if;
pub use crate::filtering::{ask_last, dedup_by, dedup_by_key, retain, retain_mut};
pub use crate::gap::Gap;
pub use crate::owned::{OwnsItems, into_items};
pub use crate::printing::{
    InBinary, InHex, InOctal, InUpperHex, ItemText, Plain, write_items, write_named,
};
pub use crate::putting::{
    put_answers, put_clones_of, put_iter, put_taken, put_until_full, take_all, take_range,
};
pub use crate::range::{resolve_range, subslice};
pub use crate::splice::splice_over;
pub use crate::touches::Touches;
pub use crate::tuned::cloning::{clone_each, clone_over, clone_over_from};
pub use crate::tuned::comparing::{
    cmp_short_slices, cmp_slices, eq_slices, hash_items, partial_cmp_slices,
};
pub use crate::tuned::moving::{close_gap, move_to_end, move_within, replace_within};
pub use crate::tuned::shifting::remove_shifting;
pub use crate::tuned::sizes::{are_bytes, are_small, fit_registers};
