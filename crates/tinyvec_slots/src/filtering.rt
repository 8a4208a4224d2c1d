//! Keeping some items of a list: those kept move to its front, in order.
ghost use Rattle.std.specs.Prelude.{◌≡◌, ◌+◌, ◌-◌, ◌<◌, ◌≤◌, ◌++◌, Some, None, slice_get, true, false, length, take, drop};
ghost use Rattle.std.specs.Fn.{FnOnceTakesAtMut, CalledAt, CalledAtMut, CalledAtPairMut, ComparesKeys};
ghost use Rattle.std.specs.List.Retain.{IsFiltered, RetainsInTurn, IsDeduped, PopsIf};
ghost use Rattle.tinyvec_slots.specs.Filters.{AsksPair, Shortened, RetainsTo, IsFilteredTo, IsDedupedTo};

use crate::authors::CanCut;
use crate::tuned::sizes::are_small;
use std::mem;

/// Calls `f` on each item in turn, and keeps those for which it returns `true`.
pub fn retain<V: CanCut, F: FnMut(&V::Item) -> bool>(vec: &mut V, f: &mut F)
    requires { F.IsAlwaysCallable f.old }
    ensures filtered { IsFiltered (CalledAt F.FnMut) f.old (V.items vec.old) (V.items vec.new) }
    ensures asked { IsFilteredTo (CalledAt F.FnMut) f.old (V.items vec.old) (V.items vec.new) f.new }
    ensures shorter { Shortened V.items V.room V.Truncated vec.old vec.new }
{
    let kept = retain_in_front(vec.as_mut_slice(), f);
    vec.truncate(kept);
}

/// Like `retain`, but `f` may write to the items.
pub fn retain_mut<V: CanCut, F: FnMut(&mut V::Item) -> bool>(vec: &mut V, f: &mut F)
    requires { F.IsAlwaysCallable f.old }
    ensures filtered { RetainsInTurn (CalledAtMut F.FnMut) f.old (V.items vec.old) (V.items vec.new) }
    ensures asked { RetainsTo (CalledAtMut F.FnMut) f.old (V.items vec.old) (V.items vec.new) f.new }
    ensures shorter { Shortened V.items V.room V.Truncated vec.old vec.new }
{
    let kept = retain_mut_in_front(vec.as_mut_slice(), f);
    vec.truncate(kept);
}

/// Calls `same` on each item after the first and the last one kept, in this order, and removes the item if it returns
/// `true`.
pub fn dedup_by<V: CanCut, F: FnMut(&mut V::Item, &mut V::Item) -> bool>(vec: &mut V, same: &mut F)
    requires { F.IsAlwaysCallable same.old }
    ensures filtered { IsDeduped (CalledAtPairMut F.FnMut) same.old (V.items vec.old) (V.items vec.new) }
    ensures asked { IsDedupedTo (CalledAtPairMut F.FnMut) same.old (V.items vec.old) (V.items vec.new) same.new }
    ensures shorter { Shortened V.items V.room V.Truncated vec.old vec.new }
{
    let kept = dedup_in_front(vec.as_mut_slice(), same);
    vec.truncate(kept);
}

/// Removes each item whose key equals that of the last one kept. The item's own key is computed first.
pub fn dedup_by_key<V: CanCut, K: PartialEq + Drop, F: FnMut(&mut V::Item) -> K>(
    vec: &mut V,
    key: &mut F,
)
    requires { F.IsAlwaysCallable key.old }
    ensures filtered { IsDeduped (ComparesKeys F.FnMut K.eq) key.old (V.items vec.old) (V.items vec.new) }
    ensures asked { IsDedupedTo (ComparesKeys F.FnMut K.eq) key.old (V.items vec.old) (V.items vec.new) key.new }
    ensures shorter { Shortened V.items V.room V.Truncated vec.old vec.new }
{
    let kept = dedup_keys_in_front(vec.as_mut_slice(), key);
    vec.truncate(kept);
}

/// Calls `f` on the last item, and returns what it returns. Calls nothing and returns `false` if the list is empty.
pub fn ask_last<T, F: FnOnce(&mut T) -> bool>(items: &mut [T], f: F) -> bool
    requires { (x : T) → slice_get items.old (length items.old - 1) ≡ Some x → FnOnceTakesAtMut F.FnOnce f x }
    ensures goes { result ≡ true → PopsIf F.FnOnce items.old (take (length items.old - 1) items.new) f
        (slice_get items.new (length items.old - 1)) }
    ensures some { result ≡ true → 0 < length items.old }
    ensures stays { result ≡ false → PopsIf F.FnOnce items.old items.new f None }
{
    let len = items.len();
    if len == 0 {
        return false;
    }
    f(&mut items[len - 1])
}

// Moves the items for which `f` returns `true` to the front, and counts them.
fn retain_in_front<T: Default + Drop, F: FnMut(&T) -> bool>(items: &mut [T], f: &mut F) -> usize
    requires { F.IsAlwaysCallable f.old }
    ensures filtered { IsFiltered (CalledAt F.FnMut) f.old items.old (take result items.new) }
    ensures asked { IsFilteredTo (CalledAt F.FnMut) f.old items.old (take result items.new) f.new }
    ensures bound { result ≤ length items.old }
{
    let mut kept = 0;
    for i in 0..items.len() {
        let stays = f(&items[i]);
        move_down(items, kept, i, stays);
        if stays {
            kept += 1;
        }
    }
    kept
}

// Like `retain_in_front`, but `f` may write to the items.
fn retain_mut_in_front<T: Default + Drop, F: FnMut(&mut T) -> bool>(
    items: &mut [T],
    f: &mut F,
) -> usize
    requires { F.IsAlwaysCallable f.old }
    ensures filtered { RetainsInTurn (CalledAtMut F.FnMut) f.old items.old (take result items.new) }
    ensures asked { RetainsTo (CalledAtMut F.FnMut) f.old items.old (take result items.new) f.new }
    ensures bound { result ≤ length items.old }
{
    let mut kept = 0;
    for i in 0..items.len() {
        let stays = f(&mut items[i]);
        move_down(items, kept, i, stays);
        if stays {
            kept += 1;
        }
    }
    kept
}

// Moves the item at `i` to `kept` if it stays. An item of up to 8 bytes moves in any case, since that takes no branch.
// `retain_half` 64: 932 > 561.
#[inline(always)]
pub(crate) fn move_down<T: Default + Drop>(items: &mut [T], kept: usize, i: usize, stays: bool)
    requires order { kept ≤ i }
    requires in_bounds { i < length items.old }
    ensures behind { drop (i + 1) items.new ≡ drop (i + 1) items.old }
    ensures before { take kept items.new ≡ take kept items.old }
    ensures moved { stays ≡ true → take (kept + 1) items.new ≡ take kept items.old ++ take 1 (drop i items.old) }
{
    if are_small(items) {
        let item = mem::take(&mut items[i]);
        items[kept] = item;
        return;
    }
    if stays {
        items.swap(kept, i);
    }
}

// Moves the items that `dedup_by` keeps to the front, and counts them.
fn dedup_in_front<T, F: FnMut(&mut T, &mut T) -> bool>(items: &mut [T], same: &mut F) -> usize
    requires { F.IsAlwaysCallable same.old }
    ensures filtered { IsDeduped (CalledAtPairMut F.FnMut) same.old items.old (take result items.new) }
    ensures asked { IsDedupedTo (CalledAtPairMut F.FnMut) same.old items.old (take result items.new) same.new }
    ensures bound { result ≤ length items.old }
{
    let count = items.len();
    if count == 0 {
        return 0;
    }
    let mut kept = 1;
    for i in 1..count {
        if !ask_pair(items, same, i, kept - 1) {
            items.swap(kept, i);
            kept += 1;
        }
    }
    kept
}

// Moves the items that `dedup_by_key` keeps to the front, and counts them.
fn dedup_keys_in_front<T, F: FnMut(&mut T) -> K, K: PartialEq + Drop>(
    items: &mut [T],
    key: &mut F,
) -> usize
    requires { F.IsAlwaysCallable key.old }
    ensures filtered { IsDeduped (ComparesKeys F.FnMut K.eq) key.old items.old (take result items.new) }
    ensures asked { IsDedupedTo (ComparesKeys F.FnMut K.eq) key.old items.old (take result items.new) key.new }
    ensures bound { result ≤ length items.old }
{
    let count = items.len();
    if count == 0 {
        return 0;
    }
    let mut kept = 1;
    for i in 1..count {
        if !compare_keys(items, key, i, kept - 1) {
            items.swap(kept, i);
            kept += 1;
        }
    }
    kept
}

// Calls `same` on the item at `current` and the one at `last` before it.
fn ask_pair<T, F: FnMut(&mut T, &mut T) -> bool>(
    items: &mut [T],
    same: &mut F,
    current: usize,
    last: usize,
) -> bool
    requires callable { F.IsAlwaysCallable same.old }
    requires before { last < current }
    requires in_bounds { current < length items.old }
    ensures asked { AsksPair (CalledAtPairMut F.FnMut) same.old items.old current last result same.new items.new }
    ensures callable { F.IsAlwaysCallable same.new }
{
    let (front, back) = items.split_at_mut(current);
    ask_at_one_lifetime(same, &mut back[0], &mut front[last])
}

// Gives both references one lifetime, which the proof of the loan needs.
fn ask_at_one_lifetime<'a, T, F: FnMut(&mut T, &mut T) -> bool>(
    same: &mut F,
    current: &'a mut T,
    last: &'a mut T,
) -> bool
    requires { F.IsAlwaysCallable same.old }
    ensures called { CalledAtPairMut F.FnMut same.old current.old last.old result same.new current.new last.new }
    ensures callable { F.IsAlwaysCallable same.new }
{
    same(current, last)
}

// Compares the key of the item at `current` with that of the one at `last` before it.
fn compare_keys<T, F: FnMut(&mut T) -> K, K: PartialEq + Drop>(
    items: &mut [T],
    key: &mut F,
    current: usize,
    last: usize,
) -> bool
    requires callable { F.IsAlwaysCallable key.old }
    requires before { last < current }
    requires in_bounds { current < length items.old }
    ensures asked { AsksPair (ComparesKeys F.FnMut K.eq) key.old items.old current last result key.new items.new }
    ensures callable { F.IsAlwaysCallable key.new }
{
    let current_key = key(&mut items[current]);
    let last_key = key(&mut items[last]);
    current_key == last_key
}
