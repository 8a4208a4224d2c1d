//! One call of a `TinyVec`, answered.
ghost use Rattle.std.specs.Prelude.{◌≤◌, length};
ghost use Rattle.tinyvec.specs.TinyVec.{view};
ghost use Rattle.tinyvec_script.specs.TinyCalls.{TinyAnswers};

use crate::driving::answer_driven;
use crate::{Answer, Call, drive_splice};
use std::alloc::Global;
use tinyvec::{Array, TinyVec};

// Makes the call.
pub(crate) fn answer_tiny<A: Array>(
    alloc: Global,
    vec: &mut TinyVec<A>,
    call: Call<A::Item>,
) -> Answer<A::Item>
    ensures answered { TinyAnswers A.Item.is_default A.CAPACITY (view A.Slots vec.old) call result (view A.Slots vec.new) }
    ensures fits { length (view A.Slots vec.new).items ≤ (view A.Slots vec.new).place.capacity }
{
    let len = vec.len();
    match call {
        Call::Push(x) => match vec.push(x) {
            Ok(()) => Answer::Done,
            Err(_) => Answer::Memory,
        },
        Call::Pop => match vec.pop() {
            Some(x) => Answer::Some(x),
            None => Answer::None,
        },
        Call::Insert(i, x) => {
            if i > len {
                return Answer::Range;
            }
            match vec.insert(i, x) {
                Ok(()) => Answer::Done,
                Err(_) => Answer::Memory,
            }
        }
        Call::Remove(i) => {
            if i >= len {
                return Answer::Range;
            }
            Answer::Some(vec.remove(i))
        }
        Call::SwapRemove(i) => {
            if i >= len {
                return Answer::Range;
            }
            Answer::Some(vec.swap_remove(i))
        }
        Call::Truncate(n) => {
            vec.truncate(n);
            Answer::Done
        }
        Call::Drain(start, end) => {
            if start > end || end > len {
                return Answer::Range;
            }
            let Ok(mut items) = Vec::with_capacity(alloc, end - start) else {
                return Answer::Memory;
            };
            vec.drain_into(start..end, &mut items);
            Answer::Items(items)
        }
        Call::Splice(start, end, word, replacement) => {
            if start > end || end > len {
                return Answer::Range;
            }
            match drive_splice(alloc, vec, start, end, replacement, word.as_slice()) {
                Ok(driven) => answer_driven(driven),
                Err(_) => Answer::Memory,
            }
        }
        Call::SetLen(_) => Answer::Unfit,
        Call::Reserve(n) => match vec.reserve(n) {
            Ok(()) => Answer::Done,
            Err(_) => Answer::Memory,
        },
        Call::Heap => match vec.move_to_the_heap() {
            Ok(()) => Answer::Done,
            Err(_) => Answer::Memory,
        },
        Call::Shrink => {
            vec.shrink_to_fit();
            Answer::Done
        }
    }
}
