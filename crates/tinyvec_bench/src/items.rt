//! What the benchmarks' lists hold, and what they are filled with.

use std::alloc::Global;

/// An item that is made from a `u64` and adds up to one.
pub trait Item: Clone + Default + Drop {
    fn of(x: u64) -> Self;

    fn value(&self) -> u64;
}

impl Item for u64 {
    fn of(x: u64) -> u64 {
        x
    }

    fn value(&self) -> u64 {
        *self
    }
}

impl Item for u8 {
    fn of(x: u64) -> u8 {
        (x % 256) as u8
    }

    fn value(&self) -> u64 {
        *self as u64
    }
}

impl Item for u32 {
    fn of(x: u64) -> u32 {
        (x % 4294967296) as u32
    }

    fn value(&self) -> u64 {
        *self as u64
    }
}

impl Item for (u64, u64) {
    fn of(x: u64) -> (u64, u64) {
        (x, 1)
    }

    fn value(&self) -> u64 {
        self.0
    }
}

/// A node of a tree, which owns what follows it. The rows make nodes that have nothing: what a list of them costs is then the
/// list's own.
#[derive(Clone, Default, Drop)]
pub struct Node {
    kind: u64,
    next: Option<Box<u64>>,
}

impl Item for Node {
    fn of(x: u64) -> Node {
        Node {
            kind: x,
            next: None,
        }
    }

    fn value(&self) -> u64 {
        self.kind
    }
}

/// Which items a row keeps where it keeps half of them.
#[inline(always)]
pub fn is_kept<T: Item>(item: &T) -> bool {
    item.value() % 2 == 1
}

/// How many items there are, the value of one of them and `x`, added up.
pub fn look_at<T: Item>(items: &[T], x: u64) -> u64 {
    let value = match items.get((x % 64) as usize) {
        Some(item) => item.value(),
        None => 0,
    };
    x.wrapping_add(value).wrapping_add(items.len() as u64)
}

/// Runs of two, so many items in all.
pub fn runs_of<T: Item>(alloc: Global, n: usize) -> Vec<T> {
    let mut runs = Vec::new(alloc);
    for i in 0..n {
        let _ = runs.push(T::of(i as u64 / 2));
    }
    runs
}

/// Up to `n` items from `start` on.
pub fn part_of<T>(items: &[T], start: usize, n: usize) -> &[T] {
    let end = start.saturating_add(n).min(items.len());
    &items[start.min(end)..end]
}
