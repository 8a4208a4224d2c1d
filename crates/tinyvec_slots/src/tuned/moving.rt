//! Items that change their places.
ghost use Rattle.std.specs.Prelude.{◌≡◌, ◌+◌, ◌-◌, ◌*◌, ◌<◌, ◌≤◌, ◌++◌, length, take, drop, slice_range};
ghost use Rattle.std.specs.List.{remove_range, copy_within};
ghost use lib.Seq.{paste};
ghost use Rattle.tinyvec_slots.specs.Ranges.{Within};

use crate::tuned::sizes::are_bytes;
use std::mem;

/// Moves the items `start..end` to the end.
pub fn move_to_end<T>(items: &mut [T], start: usize, end: usize)
    requires in_bounds { Within start end (length items.old) }
    ensures { items.new ≡ remove_range items.old start end ++ slice_range items.old start end }
{
    if end == items.len() {
        return;
    }
    // `rotate_left` clears a buffer first, unless it goes by one. For few items that costs more than swaps. `drain_dropped` 16:
    // 482 > 210.
    if end - start != 1 && items.len() - start <= 64 {
        rotate_few(&mut items[start..], end - start);
        return;
    }
    items[start..].rotate_left(end - start);
}

// Moves the first `count` items to the end: swaps the shorter side with as many items at the other end, which are then
// in place, until one side is empty.
fn rotate_few<T>(items: &mut [T], count: usize)
    requires { count ≤ length items.old }
    ensures { items.new ≡ drop count items.old ++ take count items.old }
{
    let rest = items.len() - count;
    if count == 0 || rest == 0 {
        return;
    }
    if count <= rest {
        swap_ends(items, count);
        rotate_few(&mut items[..rest], count);
    } else {
        swap_ends(items, rest);
        rotate_few(&mut items[rest..], count - rest);
    }
}

// Swaps the first `count` items with the last ones.
fn swap_ends<T>(items: &mut [T], count: usize)
    requires { count ≤ length items.old - count }
    ensures { items.new
        ≡ drop (length items.old - count) items.old ++ slice_range items.old count (length items.old - count)
        ++ take count items.old }
{
    let border = items.len() - count;
    let (front, back) = items.split_at_mut(border);
    front[..count].swap_with_slice(back);
}

/// Moves up to `gap` items from `start` on to the end, in any order, and returns how many items precede them.
pub fn close_gap<T>(items: &mut [T], start: usize, gap: usize) -> usize
    ensures kept { take result items.new ≡ remove_range items.old start (start + gap) }
{
    let len = items.len();
    let start = start.min(len);
    let gap = gap.min(len - start);
    let behind = len - start - gap;
    // If all that follows fits the gap, one swap of blocks beats a rotation. `tiny_drain_dropped` 64: 659 > 254.
    if behind <= gap {
        swap_ends(&mut items[start..], behind);
        return len - gap;
    }
    move_to_end(items, start, start + gap);
    len - gap
}

/// Puts copies of `new` in the place of the items `start..end` of the first `len`, of which the later ones move. Neither are
/// more than `most`.
// One move of what follows, in place of a splice. `replace_range` 64: 349 > 226, `tiny_replace_range` 64: 474 > 267.
#[inline(always)]
pub fn replace_within<T: Copy + Default>(
    items: &mut [T],
    start: usize,
    end: usize,
    len: usize,
    new: &[T],
    most: usize,
)
    requires in_list { Within start end len }
    requires bound { (len ≤ most) × (length new.now ≤ most) }
    requires in_bounds { len ≤ length items.old }
    requires room { start + length new.now + (len - end) ≤ length items.old }
    ensures { items.new ≡ take start items.old ++ new.now ++ slice_range items.old end len
        ++ drop (start + length new.now + (len - end)) items.old }
{
    let end_of_new = start + new.len();
    // A constant `most` removes the call for more items.
    let behind = (len - end).min(most);
    if behind <= 8 {
        move_few(items, end, end_of_new, behind);
    } else if behind <= 8192 && are_bytes(&items[end..]) {
        // One `memmove`, without the call that moves any number: `text_insert_str` of 64 156 > 135.
        move_block::<T, 8192>(items, end, end_of_new, behind);
    } else {
        move_within(items, end, len, end_of_new);
    }
    write_over(&mut items[start..end_of_new], new, most);
}

// Writes copies of the items, which are not more than `most`, over as many.
#[inline(always)]
fn write_over<T: Copy>(to: &mut [T], from: &[T], most: usize)
    requires same_len { length to.old ≡ length from.now }
    requires bound { length from.now ≤ most }
    ensures { to.new ≡ from.now }
{
    let count = from.len().min(most);
    if 8 < count {
        to.copy_from_slice(from);
        return;
    }
    if 4 <= count {
        write_ends::<T, 4>(to, from);
        return;
    }
    if 2 <= count {
        write_ends::<T, 2>(to, from);
        return;
    }
    if count == 1 {
        write_ends::<T, 1>(to, from);
    }
}

// The same, the first N and the last N. An undo log takes 3.7 % more without.
#[inline(always)]
fn write_ends<T: Copy, const N: usize>(to: &mut [T], from: &[T])
    requires same_len { length to.old ≡ length from.now }
    requires enough { N ≤ length from.now }
    requires no_gap { length from.now ≤ 2 * N }
    ensures { to.new ≡ from.now }
{
    let last = from.len() - N;
    let front = block_at::<T, N>(from, 0);
    let back = block_at::<T, N>(from, last);
    write_front(to, front);
    write_front(&mut to[last..], back);
}

// Moves the `count` items at `from` to `to`.
#[inline(always)]
fn move_few<T: Copy>(items: &mut [T], from: usize, to: usize, count: usize)
    requires few { count ≤ 8 }
    requires from_in_bounds { from + count ≤ length items.old }
    requires to_in_bounds { to + count ≤ length items.old }
    ensures { items.new ≡ paste items.old to (drop from items.old) count }
{
    if 4 <= count {
        move_ends::<T, 4>(items, from, to, count);
        return;
    }
    if 2 <= count {
        move_ends::<T, 2>(items, from, to, count);
        return;
    }
    if count == 1 {
        move_ends::<T, 1>(items, from, to, count);
    }
}

// The same, the first N and the last N. All are read before one is written.
#[inline(always)]
fn move_ends<T: Copy, const N: usize>(items: &mut [T], from: usize, to: usize, count: usize)
    requires enough { N ≤ count }
    requires no_gap { count ≤ 2 * N }
    requires from_in_bounds { from + count ≤ length items.old }
    requires to_in_bounds { to + count ≤ length items.old }
    ensures { items.new ≡ paste items.old to (drop from items.old) count }
{
    let last = count - N;
    let front = block_at::<T, N>(items, from);
    let back = block_at::<T, N>(items, from + last);
    write_front(&mut items[to..], front);
    write_front(&mut items[to + last..], back);
}

// The N items at `at`.
#[inline(always)]
fn block_at<T: Copy, const N: usize>(items: &[T], at: usize) -> [T; N]
    requires { at + N ≤ length items.now }
    ensures { result ≡ take N (drop at items.now) }
{
    let Some(block) = items[at..].first_chunk::<N>() else {
        unreachable!();
    };
    *block
}

// Writes the block over the first items.
#[inline(always)]
fn write_front<T: Copy, const N: usize>(to: &mut [T], block: [T; N])
    requires { N ≤ length to.old }
    ensures { to.new ≡ block ++ drop N to.old }
{
    let Some(place) = to.first_chunk_mut::<N>() else {
        unreachable!();
    };
    *place = block;
}

/// Does what `copy_within(start..end, to)` does, by `memmove`.
#[inline(never)]
pub fn move_within<T: Copy + Default>(items: &mut [T], start: usize, end: usize, to: usize)
    requires in_bounds { Within start end (length items.old) }
    requires to_in_bounds { to + (end - start) ≤ length items.old }
    ensures { items.new ≡ copy_within items.old start end to }
{
    let count = end - start;
    if count == 0 {
        return;
    }
    if are_bytes(items) {
        move_by::<T, 8192>(items, start, to, count);
    } else {
        move_by::<T, 512>(items, start, to, count);
    }
}

// Moves the `count` items at `from` to `to`, N at a time.
#[inline(always)]
fn move_by<T: Copy + Default, const N: usize>(items: &mut [T], from: usize, to: usize, count: usize)
    requires block { (0 < N) × (N ≤ 8192) }
    requires some { 0 < count }
    requires from_in_bounds { from + count ≤ length items.old }
    requires to_in_bounds { to + count ≤ length items.old }
    ensures { items.new ≡ paste items.old to (drop from items.old) count }
{
    if count <= N {
        move_block::<T, N>(items, from, to, count);
        return;
    }
    if to <= from {
        let mut done = 0;
        while done < count {
            let some = N.min(count - done);
            move_block::<T, N>(items, from + done, to + done, some);
            done += some;
        }
        return;
    }
    let mut left = count;
    while 0 < left {
        let some = N.min(left);
        left -= some;
        move_block::<T, N>(items, from + left, to + left, some);
    }
}

// The same of up to N items. LLVM makes one `memmove` of it, and no block, but only in a function of its own.
fn move_block<T: Copy + Default, const N: usize>(
    items: &mut [T],
    from: usize,
    to: usize,
    count: usize,
)
    requires block { N ≤ 8192 }
    requires some { 0 < count }
    requires few { count ≤ N }
    requires from_in_bounds { from + count ≤ length items.old }
    requires to_in_bounds { to + count ≤ length items.old }
    ensures { items.new ≡ paste items.old to (drop from items.old) count }
{
    // A block of larger items might fill the stack.
    if items[..1].len() * mem::size_of::<T>() > 64 {
        items.copy_within(from..from + count, to);
        return;
    }
    let mut block = [T::default(); N];
    move_through(items, from, to, count, &mut block);
}

// The same by way of `block`.
#[inline(always)]
fn move_through<T: Copy>(items: &mut [T], from: usize, to: usize, count: usize, block: &mut [T])
    requires few { count ≤ length block.old }
    requires from_in_bounds { from + count ≤ length items.old }
    requires to_in_bounds { to + count ≤ length items.old }
    ensures { items.new ≡ paste items.old to (drop from items.old) count }
{
    block[..count].copy_from_slice(&items[from..from + count]);
    items[to..to + count].copy_from_slice(&block[..count]);
}
