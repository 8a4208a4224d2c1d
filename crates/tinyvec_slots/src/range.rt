//! The range rule, and a part of a slice.
ghost use Rattle.std.specs.Prelude.{◌≡◌, slice_range};
ghost use Rattle.std.specs.Range.Bound.{bound_map};
ghost use Rattle.tinyvec_slots.specs.Ranges.{after_index, range_start, range_end};

use std::ops::{Bound, Range, RangeBounds};

/// The start and end of the range in a list of `len` items. A bound past `usize::MAX` is `usize::MAX`.
pub fn resolve_range<R: RangeBounds<usize>>(range: R, len: usize) -> Range<usize>
    requires { R.has_bounds range }
    ensures start { result.start ≡ range_start (R.start_bound range) }
    ensures end { result.end ≡ range_end (R.end_bound range) len }
{
    first_index(range.start_bound())..end_index(range.end_bound(), len)
}

// The index of the first item in a range with this start.
fn first_index(start: Bound<&usize>) -> usize
    ensures { result ≡ range_start (bound_map (λ i. i.now) start.entry) }
{
    match start {
        Bound::Unbounded => 0,
        Bound::Included(first) => *first,
        Bound::Excluded(before) => index_after(*before),
    }
}

// The index after the last item in a range with this end.
fn end_index(end: Bound<&usize>, len: usize) -> usize
    ensures { result ≡ range_end (bound_map (λ i. i.now) end.entry) len }
{
    match end {
        Bound::Unbounded => len,
        Bound::Excluded(behind) => *behind,
        Bound::Included(last) => index_after(*last),
    }
}

fn index_after(i: usize) -> usize
    ensures { result ≡ after_index i }
{
    i.saturating_add(1)
}

/// The items from `start` up to `end`, as far as there are any.
pub fn subslice<T>(items: &[T], start: usize, end: usize) -> &[T]
    ensures { result.now ≡ slice_range items.now start end }
{
    let behind = &items[start.min(items.len())..];
    &behind[..end.saturating_sub(start).min(behind.len())]
}
