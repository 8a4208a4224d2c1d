//! No clause speaks of sizes, nor of what crosses threads: a field more, or one that may not be sent, would pass the check.
use crate::steps::all_steps;
use std::mem::size_of;
use std::test::Fail;
use tinyvec::{
    ArrayVec, ArrayVecDrain, ArrayVecIterator, SliceVec, TinyVec, TinyVecDrain, TinyVecIterator,
};
use tinyvec_text::InlineText;

#[test]
fn sizes_are_those_of_the_pages(rt: HostRuntime) -> Result<(), Fail> {
    all_steps(&[
        size_of::<ArrayVec<[u8; 16]>>() == 24,
        size_of::<ArrayVec<[u128; 2]>>() == 48,
        size_of::<SliceVec<'_, u32>>() == 24,
        size_of::<TinyVec<[u32; 4]>>() == 32,
        size_of::<TinyVec<[i64; 8]>>() == 80,
        size_of::<TinyVec<[u8; 1]>>() == 32,
        size_of::<TinyVec<[u8; 28]>>() == 48,
        size_of::<TinyVec<[u128; 2]>>() == 64,
        size_of::<InlineText<15>>() == 32,
        size_of::<InlineText<16>>() == 32,
        size_of::<InlineText<17>>() == 40,
        size_of::<InlineText<24>>() == 40,
        size_of::<Vec<u32>>() == 24,
    ])
}

fn crosses_threads<T: Send + Sync>() {}

#[test]
fn vectors_cross_threads_if_their_items_do() {
    crosses_threads::<ArrayVec<[u32; 4]>>();
    crosses_threads::<SliceVec<'_, u32>>();
    crosses_threads::<TinyVec<[u32; 4]>>();
    crosses_threads::<InlineText<16>>();
    crosses_threads::<ArrayVecDrain<'_, [u32; 4]>>();
    crosses_threads::<TinyVecDrain<'_, [u32; 4]>>();
    crosses_threads::<ArrayVecIterator<[u32; 4]>>();
    crosses_threads::<TinyVecIterator<[u32; 4]>>();
}
