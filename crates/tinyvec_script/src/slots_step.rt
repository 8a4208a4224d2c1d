//! One call of a vector whose slots are all there from the start, answered.
ghost use Rattle.std.specs.Prelude.{length};
ghost use Rattle.tinyvec_array.specs.ArrayVec.{view_of, slots_of, SameLender};
ghost use Rattle.tinyvec_script.specs.Step.{ArrayStep, SliceStep};

use crate::driving::answer_driven;
use crate::{Answer, Call, drive_splice};
use std::alloc::Global;
use tinyvec::{ArrayVec, Slots};

pub(crate) fn answer_array<S: Slots>(
    alloc: Global,
    vec: &mut ArrayVec<S>,
    call: Call<S::Item>,
) -> Answer<S::Item>
where
    S::Item: Default,
    ensures step { ArrayStep S.Item.is_default (length (slots_of S.Slots vec.old)) (view_of S.Slots vec.old) call result
        (view_of S.Slots vec.new) }
    ensures lender { SameLender S.Slots vec.old vec.new }
{
    match call {
        Call::Push(x) => {
            if vec.is_full() {
                return Answer::Full;
            }
            vec.push(x);
            Answer::Done
        }
        Call::Pop => match vec.pop() {
            Some(x) => Answer::Some(x),
            None => Answer::None,
        },
        Call::Insert(i, x) => {
            if i > vec.len() {
                return Answer::Range;
            }
            if vec.is_full() {
                return Answer::Full;
            }
            vec.insert(i, x);
            Answer::Done
        }
        Call::Remove(i) => {
            if i >= vec.len() {
                return Answer::Range;
            }
            Answer::Some(vec.remove(i))
        }
        Call::SwapRemove(i) => {
            if i >= vec.len() {
                return Answer::Range;
            }
            Answer::Some(vec.swap_remove(i))
        }
        Call::Truncate(n) => {
            vec.truncate(n);
            Answer::Done
        }
        Call::Drain(start, end) => {
            if start > end || end > vec.len() {
                return Answer::Range;
            }
            let Ok(mut items) = Vec::with_capacity(alloc, end - start) else {
                return Answer::Memory;
            };
            vec.drain_into(start..end, &mut items);
            Answer::Items(items)
        }
        Call::Splice(start, end, word, replacement) => {
            if start > end || end > vec.len() {
                return Answer::Range;
            }
            match drive_splice(alloc, vec, start, end, replacement, word.as_slice()) {
                Ok(driven) => answer_driven(driven),
                Err(_) => Answer::Memory,
            }
        }
        Call::SetLen(n) => {
            if n > vec.capacity() {
                return Answer::Range;
            }
            vec.set_len(n);
            Answer::Done
        }
        Call::Reserve(_) => Answer::Unfit,
        Call::Heap => Answer::Unfit,
        Call::Shrink => Answer::Unfit,
    }
}

pub(crate) fn answer_slice<B: Slots>(
    alloc: Global,
    vec: &mut ArrayVec<B>,
    call: Call<B::Item>,
) -> Answer<B::Item>
where
    B::Item: Default,
    ensures step { SliceStep B.Item.is_default (view_of B.Slots vec.old) call result (view_of B.Slots vec.new) }
    ensures lender { SameLender B.Slots vec.old vec.new }
{
    match call {
        Call::Splice(_, _, _, _) => Answer::Unfit,
        other => answer_array(alloc, vec, other),
    }
}
