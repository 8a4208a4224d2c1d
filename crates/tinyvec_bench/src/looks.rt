//! Vectors and texts that are compared and hashed, each as a whole.

use crate::report::{Bench, Report, rows, run};
use std::hash::{DefaultHasher, Hash, Hasher};

/// What is done with a list.
#[derive(Clone, Copy)]
pub enum Look {
    Equal,
    Compare,
    Hash,
}

/// A list, and one that it is compared to.
#[derive(Drop)]
struct Looks<'a, V> {
    list: &'a V,
    other: &'a V,
}

impl<V: PartialOrd + Hash> Bench<Look> for Looks<'_, V> {
    #[inline(always)]
    fn round(&mut self, benchmark: Look, x: u64) -> u64 {
        match benchmark {
            Look::Equal => equal(self.list, self.other, x),
            Look::Compare => compare(self.list, self.other, x),
            Look::Hash => hash(self.list, x),
        }
    }
}

/// The rows of a list and one that is equal to it.
pub fn of_looks<'v, R: Report, V: PartialOrd + Hash>(
    report: &mut R,
    n: usize,
    list: &'v V,
    other: &'v V,
) {
    let looks = &mut Looks { list, other };
    rows!(report, n, looks:
        "equal" Look::Equal,
        "compare" Look::Compare,
        "hash" Look::Hash,
    );
}

/// The row of a list and one whose first item is higher.
pub fn compare_first<'v, R: Report, V: PartialOrd + Hash>(
    report: &mut R,
    n: usize,
    list: &'v V,
    other: &'v V,
) {
    let looks = &mut Looks { list, other };
    run(report, "compare_first", n, Look::Compare, looks);
}

// Those that only look use the round's number, or LLVM would look once for all rounds.
#[inline(never)]
fn equal<V: PartialEq>(list: &V, other: &V, x: u64) -> u64 {
    x ^ (*list == *other) as u64
}

#[inline(never)]
fn compare<V: PartialOrd>(list: &V, other: &V, x: u64) -> u64 {
    x ^ (*list < *other) as u64
}

// The hash of the list as the key of a map, and `x`.
#[inline(never)]
fn hash<V: Hash>(list: &V, x: u64) -> u64 {
    let mut state = DefaultHasher::new();
    list.hash(&mut state);
    x.wrapping_add(state.finish())
}
