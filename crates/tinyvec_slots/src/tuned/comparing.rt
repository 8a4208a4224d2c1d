//! Equality and order of slices, in blocks.
ghost use Rattle.std.specs.Prelude.{◌≡◌, ◌-◌, ◌%◌, ◌<◌, ◌≤◌, true, false, length, take};
ghost use Rattle.std.specs.Cmp.Lexicographic.{pointwise, slice_cmp, slice_partial_cmp};
ghost use Rattle.std.specs.Hash as fed;
ghost use Rattle.std.specs.List.{fold};
ghost use Rattle.tinyvec_slots.specs.Ranges.{Within};
ghost use Rattle.tinyvec_slots.specs.Comparing.{SameInFront, FirstDifference, DiffersAt};

use crate::tuned::sizes::are_large;
use std::cmp::Ordering;
use std::hash::{Hash, Hasher};

/// What `a == b` returns. Small items are compared in blocks with no branch inside a block, so LLVM compares several
/// numbers at once. No pair is compared twice.
// `equal` 64: 414 > 170, `bytes_equal` 16: 69 > 35.
#[inline(always)]
pub fn eq_slices<T: PartialEq>(a: &[T], b: &[T]) -> bool
    ensures { result ≡ pointwise T.eq a.now b.now }
{
    if a.len() != b.len() {
        return false;
    }
    // A pair of large items may take long to compare, so none is compared that does not decide.
    if are_large(a) {
        return *a == *b;
    }
    let front = a.len() % 16;
    same_by_4(&a[..front], &b[..front]) && same_blocks::<T, 16>(&a[front..], &b[front..])
}

// Compares the items before the first block of 4, then the blocks.
#[inline(always)]
fn same_by_4<T: PartialEq>(a: &[T], b: &[T]) -> bool
    requires as_long { length a.now ≡ length b.now }
    ensures { result ≡ pointwise T.eq a.now b.now }
{
    let front = a.len() % 4;
    a[..front] == b[..front] && same_blocks::<T, 4>(&a[front..], &b[front..])
}

// The same of slices that consist of blocks of N items.
#[inline(always)]
fn same_blocks<T: PartialEq, const N: usize>(a: &[T], b: &[T]) -> bool
    requires some { 0 < N }
    requires blocks { length a.now % N ≡ 0 }
    requires as_long { length a.now ≡ length b.now }
    ensures { result ≡ pointwise T.eq a.now b.now }
{
    let mut next = 0;
    while next < a.len() {
        if !same_block::<T, N>(&a[next..], &b[next..]) {
            return false;
        }
        next += N;
    }
    true
}

/// What `a.partial_cmp(b)` returns: the order of the first pair that is not equal, else of the lengths.
#[inline(always)]
pub fn partial_cmp_slices<T: PartialOrd>(a: &[T], b: &[T]) -> Option<Ordering>
    ensures { result ≡ slice_partial_cmp T.partial_cmp a.now b.now }
{
    let both = a.len().min(b.len());
    if differ_at_once(&a[..both], &b[..both]) {
        return partial_order_at(a, b, 0);
    }
    let first = difference_behind_first(&a[..both], &b[..both]);
    partial_order_at(a, b, first)
}

// The same, if `first` is the first pair that is not equal, or how many pairs there are.
#[inline(always)]
fn partial_order_at<T: PartialOrd>(a: &[T], b: &[T], first: usize) -> Option<Ordering>
    requires { DiffersAt T.eq a.now b.now first }
    ensures { result ≡ slice_partial_cmp T.partial_cmp a.now b.now }
{
    let both = a.len().min(b.len());
    if first < both {
        return a[first].partial_cmp(&b[first]);
    }
    Some(a.len().cmp(&b.len()))
}

/// What `a.cmp(b)` returns: the order of the first pair that is not equal, else of the lengths.
// `compare` 64: 922 > 250.
#[inline(always)]
pub fn cmp_slices<T: Ord>(a: &[T], b: &[T]) -> Ordering
    ensures { result ≡ slice_cmp T.cmp a.now b.now }
{
    let both = a.len().min(b.len());
    if differ_at_once(&a[..both], &b[..both]) {
        return order_at(a, b, 0);
    }
    let first = difference_behind_first(&a[..both], &b[..both]);
    order_at(a, b, first)
}

/// What `a.cmp(b)` returns, of slices that are mostly short and differ early: the first pair decides without a loop, then pair
/// by pair up to 16 items.
#[inline(always)]
pub fn cmp_short_slices<T: Ord>(a: &[T], b: &[T]) -> Ordering
    ensures { result ≡ slice_cmp T.cmp a.now b.now }
{
    let both = a.len().min(b.len());
    if differ_at_once(&a[..both], &b[..both]) {
        return order_at(a, b, 0);
    }
    if both > 16 {
        return cmp_long_slices(a, b);
    }
    let first = difference_before(&a[..both], &b[..both], 1, both);
    order_at(a, b, first)
}

// What `a.cmp(b)` returns, in a call of its own: short slices then save no registers.
#[cold]
#[inline(never)]
fn cmp_long_slices<T: Ord>(a: &[T], b: &[T]) -> Ordering
    ensures { result ≡ slice_cmp T.cmp a.now b.now }
{
    a.cmp(b)
}

// The same, if `first` is the first pair that is not equal, or how many pairs there are.
#[inline(always)]
fn order_at<T: Ord>(a: &[T], b: &[T], first: usize) -> Ordering
    requires { DiffersAt T.eq a.now b.now first }
    ensures { result ≡ slice_cmp T.cmp a.now b.now }
{
    let both = a.len().min(b.len());
    if first < both {
        return a[first].cmp(&b[first]);
    }
    a.len().cmp(&b.len())
}

/// Feeds the hasher what the slice's own `hash` does, in the caller's loop.
// `hash` 4: 223 > 169.
#[inline(always)]
pub fn hash_items<T: Hash, H: Hasher>(items: &[T], state: &mut H)
    ensures { state.new ≡ fold H.write state.old (fed.slice T.hash_input items.now) }
{
    let count = items.len();
    state.write_usize(count);
    for item in items {
        item.hash(state);
    }
}

// Whether there is no pair, or the first is not equal. Most lists that differ do so in their first items, and such a list is
// ordered without a loop. `compare_first`: 40 > 31.
#[inline(always)]
fn differ_at_once<T: PartialEq>(a: &[T], b: &[T]) -> bool
    requires as_long { length a.now ≡ length b.now }
    ensures differ { result ≡ true → FirstDifference T.eq a.now b.now (length a.now) 0 }
    ensures same { result ≡ false → (1 ≤ length a.now) × SameInFront T.eq a.now b.now 1 }
{
    a.is_empty() || a[0] != b[0]
}

// The index of the first pair that is not equal, or the number of pairs. The first is equal.
#[inline(always)]
fn difference_behind_first<T: PartialEq>(a: &[T], b: &[T]) -> usize
    requires as_long { length a.now ≡ length b.now }
    requires some { 1 ≤ length a.now }
    requires same_before { SameInFront T.eq a.now b.now 1 }
    ensures { FirstDifference T.eq a.now b.now (length a.now) result }
{
    if are_large(a) {
        return difference_before(a, b, 1, a.len());
    }
    let done = pass_same::<T, 4>(a, b, 1);
    difference_before(a, b, done, a.len())
}

// The index of the first pair in `start..end` that is not equal, or `end`. All pairs before `start` are equal.
#[inline(always)]
fn difference_before<T: PartialEq>(a: &[T], b: &[T], start: usize, end: usize) -> usize
    requires as_long { length a.now ≡ length b.now }
    requires in_bounds { Within start end (length a.now) }
    requires same_before { SameInFront T.eq a.now b.now start }
    ensures { FirstDifference T.eq a.now b.now end result }
{
    for i in start..end {
        if a[i] != b[i] {
            return i;
        }
    }
    end
}

// Passes equal blocks of N from `start` on. All pairs before `start` are equal.
#[inline(always)]
fn pass_same<T: PartialEq, const N: usize>(a: &[T], b: &[T], start: usize) -> usize
    requires some { 0 < N }
    requires as_long { length a.now ≡ length b.now }
    requires from_within { start ≤ length a.now }
    requires same_before { SameInFront T.eq a.now b.now start }
    ensures within { result ≤ length a.now }
    ensures same { SameInFront T.eq a.now b.now result }
    ensures differs { N ≤ length a.now - result → pointwise T.eq a.now b.now ≡ false }
{
    let mut done = start;
    while N <= a.len() - done {
        if !same_block::<T, N>(&a[done..], &b[done..]) {
            return done;
        }
        done += N;
    }
    done
}

// Whether the first N items are equal pair by pair.
#[inline(always)]
fn same_block<T: PartialEq, const N: usize>(a: &[T], b: &[T]) -> bool
    requires a_enough { N ≤ length a.now }
    requires b_enough { N ≤ length b.now }
    ensures { result ≡ pointwise T.eq (take N a.now) (take N b.now) }
{
    let mut same = true;
    for i in 0..N {
        same &= a[i] == b[i];
    }
    same
}
