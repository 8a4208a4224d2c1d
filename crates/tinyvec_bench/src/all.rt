//! Every row: of each kind of list, at a few lengths.
ghost use Rattle.std.specs.Prelude.{◌*◌, ◌^◌, ◌<◌};

use crate::calls::{Call, Calls, Grown, Lists, Owned, Word, of_items, of_numbers, of_owned};
use crate::form::of_forms;
use crate::items::{Item, Node, part_of, runs_of};
use crate::looks::{compare_first, of_looks};
use crate::report::{Report, rows, run};
use crate::texts::{TextCall, Texts, letters_of, of_text};
use std::alloc::Global;
use std::hash::Hash;
use tinyvec::TinyVec;
use tinyvec_array::{ArrayVec, SliceVec, TakesClones};

// The rows of lists over each of these numbers of slots, as long as that.
macro_rules! at {
    ($rows:ident $report:ident $runs:ident, $list:ident $new:ident $from:tt $item:ty: $($n:literal)+) => {
        $($rows(
            $report,
            &mut $list::<[$item; $n]>::$new $from,
            &mut $list::<[$item; $n]>::$new $from,
            part_of($runs, 0, $n),
        );)+
    };
}

pub fn all_rows<R: Report>(report: &mut R, alloc: Global) {
    let runs = runs_of::<u64>(alloc, 16384);
    let numbers = runs.as_slice();
    report.set_prefix("");
    at!(of_owner report numbers, ArrayVec new() u64: 4 16 64 16384);
    report.set_prefix("tiny_");
    at!(of_owner report numbers, TinyVec new(alloc) u64: 4 16 64);
    report.set_prefix("tiny_heap_");
    at!(of_heap report numbers, TinyVec from_vec(Vec::new(alloc)) u64: 16 64);
    report.set_prefix("tiny_long_");
    of_long(report, alloc, part_of(numbers, 0, 64));
    of_long(report, alloc, numbers);
    report.set_prefix("slice_");
    of_slice::<R, 64>(report, numbers);
    of_slice::<R, 16384>(report, numbers);
    of_other_items(report, alloc);
    report.set_prefix("");
    of_forms::<R, 64>(report, alloc);
    of_forms::<R, 16384>(report, alloc);
    of_texts(report, alloc);
}

fn of_other_items<R: Report>(report: &mut R, alloc: Global) {
    let runs = runs_of::<u8>(alloc, 64);
    let bytes = runs.as_slice();
    report.set_prefix("bytes_");
    at!(of_bytes report bytes, ArrayVec new() u8: 16 64);
    report.set_prefix("tiny_bytes_");
    at!(of_bytes report bytes, TinyVec new(alloc) u8: 16 64);
    let runs = runs_of::<u32>(alloc, 64);
    let numbers = runs.as_slice();
    report.set_prefix("u32_");
    at!(of_any report numbers, ArrayVec new() u32: 16 64);
    report.set_prefix("tiny_u32_");
    at!(of_any report numbers, TinyVec new(alloc) u32: 16 64);
    let runs = runs_of::<(u64, u64)>(alloc, 64);
    let pairs = runs.as_slice();
    report.set_prefix("pairs_");
    at!(of_any report pairs, ArrayVec new() (u64, u64): 16 64);
    report.set_prefix("tiny_pairs_");
    at!(of_any report pairs, TinyVec new(alloc) (u64, u64): 16 64);
    let runs = runs_of::<Node>(alloc, 64);
    let nodes = runs.as_slice();
    report.set_prefix("nodes_");
    at!(of_any report nodes, ArrayVec new() Node: 4 16 64);
    report.set_prefix("tiny_nodes_");
    at!(of_any report nodes, TinyVec new(alloc) Node: 4 16 64);
}

// Items that may need a drop.
fn of_any<'v, R: Report, T: Item, V: Calls<Call, T> + Calls<Owned, T> + Drop>(
    report: &mut R,
    vec: &'v mut V,
    other: &'v mut V,
    source: &'v [T],
) {
    of_items(report, source.len(), &mut Lists { vec, other, source });
}

fn of_bytes<'v, R: Report, V: Calls<Call, u8> + Calls<Owned, u8> + Hash + PartialOrd + Drop>(
    report: &mut R,
    vec: &'v mut V,
    other: &'v mut V,
    source: &'v [u8],
) {
    of_any(report, vec, other, source);
    looks(report, vec, other, source);
}

// Of numbers, in a vector that owns its slots.
fn of_owner<
    'v,
    R: Report,
    V: Calls<Call, u64> + Calls<Word, u64> + Calls<Owned, u64> + Hash + PartialOrd + Drop,
>(report: &mut R, vec: &'v mut V, other: &'v mut V, source: &'v [u64]) {
    of_made(report, vec, other, source);
    of_heap(report, vec, other, source);
    looks(report, vec, other, source);
}

fn of_heap<'v, R: Report, V: Calls<Call, u64> + Calls<Word, u64> + Calls<Owned, u64> + Drop>(
    report: &mut R,
    vec: &'v mut V,
    other: &'v mut V,
    source: &'v [u64],
) {
    let n = source.len();
    let mut lists = Lists { vec, other, source };
    of_owned(report, n, &mut lists);
    of_numbers(report, n, &mut lists);
}

// Those that make a list.
fn of_made<'v, R: Report, V: Calls<Owned, u64> + Drop>(
    report: &mut R,
    vec: &'v mut V,
    other: &'v mut V,
    source: &'v [u64],
) {
    let n = source.len();
    let lists = &mut Lists { vec, other, source };
    if n <= 64 {
        run(report, "two_pushes", n, Owned::TwoPushes, lists);
    }
    run(report, "into_iter", n, Owned::IntoIter, lists);
}

// Out of four slots.
fn of_long<R: Report>(report: &mut R, alloc: Global, numbers: &[u64]) {
    let n = numbers.len();
    let mut vec = TinyVec::<[u64; 4]>::new(alloc);
    let mut other = TinyVec::<[u64; 4]>::new(alloc);
    let lists = &mut Lists {
        vec: &mut vec,
        other: &mut other,
        source: numbers,
    };
    rows!(report, n, lists:
        "push" Grown::Push,
        "from_iter" Grown::FromIter,
        "reserve_and_extend" Grown::ReserveAndExtend,
        "reserve_and_shrink" Grown::ReserveAndShrink,
    );
    of_owner(report, &mut vec, &mut other, numbers);
}

fn of_slice<R: Report, const N: usize>(report: &mut R, numbers: &[u64])
    requires { N * 64 < 2 ^ 63 }
{
    let mut slots = [0; N];
    let mut other_slots = [0; N];
    let mut vec = SliceVec::from_slice(&mut slots);
    let mut other = SliceVec::from_slice(&mut other_slots);
    of_any_slots(report, &mut vec, &mut other, part_of(numbers, 0, N));
}

// The borrow checker does not cover these lists where it knows that the slots are lent.
fn of_any_slots<'v, R: Report, S: TakesClones<Item = u64>>(
    report: &mut R,
    vec: &'v mut ArrayVec<S>,
    other: &'v mut ArrayVec<S>,
    source: &'v [u64],
) {
    let lists = &mut Lists { vec, other, source };
    of_numbers(report, source.len(), lists);
}

// A list beside one that is equal, and beside one whose first item is higher.
fn looks<R: Report, T: Item, V: Calls<Call, T> + Hash + PartialOrd + Drop>(
    report: &mut R,
    vec: &mut V,
    other: &mut V,
    source: &[T],
) {
    let n = source.len();
    vec.call(other, source, Call::ExtendFromSlice, 0);
    other.call(vec, source, Call::ExtendFromSlice, 0);
    of_looks(report, n, vec, other);
    other.call(vec, part_of(source, 2, n), Call::ExtendFromSlice, 0);
    compare_first(report, n, vec, other);
}

// In an array and on the heap.
fn of_texts<R: Report>(report: &mut R, alloc: Global) {
    let source = letters_of(alloc, 16384);
    let letters = source.as_str();
    report.set_prefix("text_");
    of_text(report, &mut Texts::<16>::new(alloc, letters, 4));
    of_text(report, &mut Texts::<32>::new(alloc, letters, 16));
    of_text(report, &mut Texts::<128>::new(alloc, letters, 64));
    of_text(report, &mut Texts::<16>::new(alloc, letters, 16384));
    let texts = &mut Texts::<64>::new(alloc, letters, 64);
    run(report, "mail_date", 64, TextCall::MailDate, texts);
    report.set_prefix("heap_text_");
    of_text(report, &mut Texts::<16>::new(alloc, letters, 64));
}
