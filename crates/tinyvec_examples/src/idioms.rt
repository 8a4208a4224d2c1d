//! Idioms of code over Rust's `tinyvec`, as they are written here. None needs a file of proof.

use std::alloc::AllocError;
use std::collections::{BTreeMap, HashMap};
use tinyvec::{ArrayVec, NoMemory, TinyVec};

/// Appends a number, or else puts it into a list that does not allocate. What fits neither is returned.
pub fn push_or_keep(
    v: &mut TinyVec<[u32; 4]>,
    x: u32,
    kept: &mut ArrayVec<[u32; 8]>,
) -> Option<u32> {
    match v.push(x) {
        Ok(()) => None,
        Err(NoMemory(x)) => kept.try_push(x),
    }
}

/// `map.entry(k).or_default().push(x)`.
pub fn grouped(
    groups: &mut BTreeMap<u32, TinyVec<[u32; 4]>>,
    key: u32,
    value: u32,
) -> Result<(), AllocError> {
    groups.entry(key)?.or_default().push(value)?;
    Ok(())
}

/// `*map.entry(v).or_insert(0) += 1`, of lists as keys: how often each came.
pub fn count_list(
    counts: &mut HashMap<TinyVec<[u8; 4]>, u32>,
    list: TinyVec<[u8; 4]>,
) -> Result<(), AllocError> {
    let count = counts.entry(list)?.or_insert(0);
    *count = count.saturating_add(1);
    Ok(())
}

/// A struct with a vector in it derives these.
#[derive(Clone, Debug, Drop, PartialEq)]
pub struct Named {
    pub name: TinyVec<[u8; 8]>,
    pub number: u32,
}
