//! A form of a range that means another one than in Rust, by a contract with the same mistake, would pass the check.
ghost use Rattle.std.specs.Prelude.{◌≡◌, ◌≤◌, true};
ghost use Rattle.tinyvec_slots.specs.Ranges.{range_start, range_end};

use crate::steps::{all_right, first};
use std::ops::{Bound, RangeBounds};
use std::test::Fail;
use tinyvec::{ArrayVec, TinyVec};

type Span = (Bound<usize>, Bound<usize>);

fn bound(of: Bound<&usize>) -> Bound<usize> {
    match of {
        Bound::Included(at) => Bound::Included(*at),
        Bound::Excluded(at) => Bound::Excluded(*at),
        Bound::Unbounded => Bound::Unbounded,
    }
}

fn span<R: RangeBounds<usize>>(range: &R) -> Span {
    (bound(range.start_bound()), bound(range.end_bound()))
}

// Whether a range lies in a list of three items.
fn is_in_three(span: Span) -> bool
    ensures order { result ≡ true → range_start span.0 ≤ range_end span.1 3 }
    ensures end { result ≡ true → range_end span.1 3 ≤ 3 }
{
    let start = match span.0 {
        Bound::Included(first) => first,
        Bound::Excluded(before) => before.saturating_add(1),
        Bound::Unbounded => 0,
    };
    let end = match span.1 {
        Bound::Included(last) => last.saturating_add(1),
        Bound::Excluded(end) => end,
        Bound::Unbounded => 3,
    };
    start <= end && end <= 3
}

// Each form, with the index of its first item and that after its last one in a list of three.
fn forms() -> [(Span, usize, usize); 15] {
    [
        (span(&(..)), 0, 3),
        (span(&(..2)), 0, 2),
        (span(&(..3)), 0, 3),
        (span(&(..=1)), 0, 2),
        (span(&(..=2)), 0, 3),
        (span(&(0..)), 0, 3),
        (span(&(1..)), 1, 3),
        (span(&(0..2)), 0, 2),
        (span(&(0..3)), 0, 3),
        (span(&(1..2)), 1, 2),
        (span(&(1..3)), 1, 3),
        (span(&(0..=1)), 0, 2),
        (span(&(0..=2)), 0, 3),
        (span(&(1..=1)), 1, 2),
        (span(&(1..=2)), 1, 3),
    ]
}

// A list of three in ten slots.
macro_rules! three {
    () => {
        ArrayVec::from_array_len([1, 2, 3, 0, 0, 0, 0, 0, 0, 0], 3)
    };
}

macro_rules! drains {
    ($v:expr, $span:ident, $start:ident, $end:ident) => {{
        let mut v = $v;
        let given = v.drain($span).eq([1, 2, 3].iter().copied().take($end).skip($start));
        let before = [1, 2, 3].iter().copied().take($start);
        given & v.iter().copied().eq(before.chain([1, 2, 3].iter().copied().skip($end)))
    }};
}

#[test]
fn drained(rt: HostRuntime) -> Result<(), Fail> {
    let mut wrong = 0;
    let mut step = 0_u32;
    for (span, start, end) in forms() {
        step = step.wrapping_add(1);
        let mut is_right = is_in_three(span);
        if is_right {
            is_right &= drains!(three!(), span, start, end);
            is_right &= drains!(TinyVec::Inline(three!(), rt.alloc()), span, start, end);
        }
        wrong = first(wrong, step, is_right);
    }
    all_right(wrong)
}
