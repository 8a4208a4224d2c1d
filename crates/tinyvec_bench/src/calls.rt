//! The calls that users look up, as rows. What a row measures is a function that is not inlined and gets its vector by `&mut`,
//! as programs hold it, or follows one that fills the vector.

use crate::report::{Bench, Report, rows};

/// Calls of any vector, of any items.
#[derive(Clone, Copy)]
pub enum Call {
    FillAndEmpty,
    InsertFront,
    RemoveFront,
    RemoveMiddle,
    SwapRemove,
    ExtendFromSlice,
    Append,
    ExtendFromWithin,
    Truncate,
    Clear,
    RetainHalf,
    DrainTaken,
    DrainDropped,
}

/// Calls of any vector, of numbers.
#[derive(Clone, Copy)]
pub enum Word {
    Editor,
    ExtendFromRange,
    ExtendCopy,
    Dedup,
    ExtractHalf,
    SpliceFewer,
    SpliceMore,
    ReplaceRange,
}

/// Calls of a vector that owns its slots.
#[derive(Clone, Copy)]
pub enum Owned {
    TwoPushes,
    IntoIter,
    Clone,
    SplitOff,
    Resize,
}

/// Calls of a vector that grows.
#[derive(Clone, Copy)]
pub enum Grown {
    Push,
    FromIter,
    ReserveAndExtend,
    ReserveAndShrink,
}

/// A vector that has the calls `B`.
pub trait Calls<B: Copy, T> {
    /// Runs the call once, with the number of the round, and maybe with another vector and with the items that are put in.
    fn call(&mut self, other: &mut Self, source: &[T], benchmark: B, x: u64) -> u64;
}

/// A vector, another, and what both are filled with.
#[derive(Drop)]
pub struct Lists<'a, V, T> {
    pub vec: &'a mut V,
    pub other: &'a mut V,
    pub source: &'a [T],
}

impl<B: Copy, T, V: Calls<B, T>> Bench<B> for Lists<'_, V, T> {
    #[inline(always)]
    fn round(&mut self, benchmark: B, x: u64) -> u64 {
        self.vec.call(self.other, self.source, benchmark, x)
    }
}

/// The rows of any items.
pub fn of_items<R: Report, S: Bench<Call> + Bench<Owned>>(report: &mut R, n: usize, lists: &mut S) {
    lists.round(Call::ExtendFromSlice, 0);
    rows!(report, n, lists:
        "clone" Owned::Clone,
        "insert_front" Call::InsertFront,
        "remove_front" Call::RemoveFront,
        "extend_from_slice" Call::ExtendFromSlice,
        "clear" Call::Clear,
        "retain_half" Call::RetainHalf,
        "drain_taken" Call::DrainTaken,
        "fill_and_empty" Call::FillAndEmpty,
        "two_pushes" Owned::TwoPushes,
    );
}

/// Those of a list of numbers, of any vector.
pub fn of_numbers<R: Report, S: Bench<Call> + Bench<Word>>(
    report: &mut R,
    n: usize,
    lists: &mut S,
) {
    lists.round(Call::ExtendFromSlice, 0);
    rows!(report, n, lists:
        "insert_front" Call::InsertFront,
        "remove_front" Call::RemoveFront,
        "remove_middle" Call::RemoveMiddle,
        "swap_remove" Call::SwapRemove,
        "extend_from_slice" Call::ExtendFromSlice,
        "extend_copy" Word::ExtendCopy,
        "extend_from_range" Word::ExtendFromRange,
        "append" Call::Append,
        "extend_from_within" Call::ExtendFromWithin,
        "truncate" Call::Truncate,
        "clear" Call::Clear,
        "retain_half" Call::RetainHalf,
        "dedup" Word::Dedup,
        "extract_half" Word::ExtractHalf,
        "drain_taken" Call::DrainTaken,
        "drain_dropped" Call::DrainDropped,
        "splice_fewer" Word::SpliceFewer,
        "splice_more" Word::SpliceMore,
        "replace_range" Word::ReplaceRange,
        "editor" Word::Editor,
        "fill_and_empty" Call::FillAndEmpty,
    );
}

/// Those of a vector that owns its slots.
pub fn of_owned<R: Report, S: Bench<Call> + Bench<Owned>>(report: &mut R, n: usize, lists: &mut S) {
    lists.round(Call::ExtendFromSlice, 0);
    rows!(report, n, lists:
        "clone" Owned::Clone,
        "split_off" Owned::SplitOff,
        "resize" Owned::Resize,
    );
}
