//! Lists of calls, each with its answer.
ghost use Rattle.std.specs.Prelude.{◌≡◌, ◌≢◌, [], IfOk, IfErr};
ghost use Rattle.tinyvec_array.specs.ArrayVec.{view_of, SameLender};
ghost use Rattle.tinyvec_array.specs.SliceVec.{slice_view};
ghost use Rattle.tinyvec_script.specs.Step.{ArrayStep, SliceStep, Run};
ghost use Rattle.tinyvec.specs.TinyVec.{view};
ghost use Rattle.tinyvec_script.specs.TinyCalls.{TinyStep};
ghost use Rattle.tinyvec_script.specs.declared.call.Call as calls;
ghost use Rattle.tinyvec_script.specs.declared.call.Answer as answers;

use crate::slots_step::{answer_array, answer_slice};
use crate::tiny_step::answer_tiny;
use crate::{Answer, Call};
use std::alloc::Global;
use tinyvec::{Array, ArrayVec, NoMemory, SliceVec, Slots, TinyVec};

// How a vector answers calls.
trait Answers<V: Drop> {
    type Item: Drop;

    // From the old vector the call may have this answer, and leave the new one.
    ghost step: { V → calls.Call Self.Item → answers.Answer Self.Item → V → Type 0 };

    fn answer(vec: &mut V, alloc: Global, call: Call<Self::Item>) -> Answer<Self::Item>
        ensures { step vec.old call result vec.new };
}

// A type for each kind of vector, since impls for `ArrayVec<A>` and for `SliceVec<T>`, which are one type, would overlap.
struct InArray;

struct InSlice;

struct InTiny;

impl<A: Array> Answers<ArrayVec<A>> for InArray {
    type Item = A::Item;

    ghost step = { λ old call answer new. ArrayStep A.Item.is_default A.CAPACITY (view_of A.Slots old) call answer (view_of A.Slots new) };

    fn answer(vec: &mut ArrayVec<A>, alloc: Global, call: Call<A::Item>) -> Answer<A::Item>
        ensures { ArrayStep A.Item.is_default A.CAPACITY (view_of A.Slots vec.old) call result (view_of A.Slots vec.new) }
    {
        // Tells the proof how many slots there are.
        let _slots = vec.capacity();
        answer_array(alloc, vec, call)
    }
}

impl<'s, T: Default + Drop> Answers<SliceVec<'s, T>> for InSlice {
    type Item = T;

    ghost step = { λ old call answer new. SliceStep T.is_default (slice_view old) call answer (slice_view new)
        × SameLender ⟦<&'s mut [T] as Slots>⟧ old new };

    fn answer(vec: &mut SliceVec<'s, T>, alloc: Global, call: Call<T>) -> Answer<T>
        ensures { SliceStep T.is_default (slice_view vec.old) call result (slice_view vec.new)
            × SameLender ⟦<&'s mut [T] as Slots>⟧ vec.old vec.new }
    {
        answer_slice(alloc, vec, call)
    }
}

impl<A: Array> Answers<TinyVec<A>> for InTiny {
    type Item = A::Item;

    ghost step = { λ old call answer new. TinyStep A.Item.is_default A.CAPACITY (view A.Slots old) call answer (view A.Slots new) };

    fn answer(vec: &mut TinyVec<A>, alloc: Global, call: Call<A::Item>) -> Answer<A::Item>
        ensures { TinyStep A.Item.is_default A.CAPACITY (view A.Slots vec.old) call result (view A.Slots vec.new) }
    {
        answer_tiny(alloc, vec, call)
    }
}

/// Makes the calls in order, and returns one answer to each. Allocates room for all answers first; if that fails, makes no
/// call and returns the calls.
pub fn run_array<A: Array>(
    alloc: Global,
    vec: &mut ArrayVec<A>,
    calls: Vec<Call<A::Item>>,
) -> Result<Vec<Answer<A::Item>>, NoMemory<Vec<Call<A::Item>>>>
    ensures run { IfOk result (λ answers. Run (ArrayStep A.Item.is_default A.CAPACITY)
        (view_of A.Slots vec.old) calls.items answers.items (view_of A.Slots vec.new)) }
    ensures refused { IfErr result (λ refused. (refused.0 ≡ calls) × (vec.new ≡ vec.old) × (calls.items ≢ [])) }
{
    run_calls::<InArray, _>(alloc, vec, calls)
}

/// Makes the calls in order, as `run_array` does. Here a `SliceVec` has no `Splice`: it is answered `Unfit`.
pub fn run_slice<'s, T: Default + Drop>(
    alloc: Global,
    vec: &mut SliceVec<'s, T>,
    calls: Vec<Call<T>>,
) -> Result<Vec<Answer<T>>, NoMemory<Vec<Call<T>>>>
    ensures run { IfOk result (λ answers. Run (SliceStep T.is_default)
        (slice_view vec.old) calls.items answers.items (slice_view vec.new)) }
    ensures refused { IfErr result (λ refused. (refused.0 ≡ calls) × (vec.new ≡ vec.old) × (calls.items ≢ [])) }
    ensures lender { SameLender ⟦<&'s mut [T] as Slots>⟧ vec.old vec.new }
{
    run_calls::<InSlice, _>(alloc, vec, calls)
}

/// Makes the calls in order, and returns one answer to each. Allocates room for all answers first; if that fails, makes no
/// call and returns the calls.
pub fn run_tiny<A: Array>(
    alloc: Global,
    vec: &mut TinyVec<A>,
    calls: Vec<Call<A::Item>>,
) -> Result<Vec<Answer<A::Item>>, NoMemory<Vec<Call<A::Item>>>>
    ensures run { IfOk result (λ answers. Run (TinyStep A.Item.is_default A.CAPACITY)
        (view A.Slots vec.old) calls.items answers.items (view A.Slots vec.new)) }
    ensures refused { IfErr result (λ refused. (refused.0 ≡ calls) × (vec.new ≡ vec.old) × (calls.items ≢ [])) }
{
    run_calls::<InTiny, _>(alloc, vec, calls)
}

fn run_calls<K: Answers<V>, V: Drop>(
    alloc: Global,
    vec: &mut V,
    calls: Vec<Call<K::Item>>,
) -> Result<Vec<Answer<K::Item>>, NoMemory<Vec<Call<K::Item>>>>
    ensures run { IfOk result (λ answers. Run K.step vec.old calls.items answers.items vec.new) }
    ensures refused { IfErr result (λ refused. (refused.0 ≡ calls) × (vec.new ≡ vec.old) × (calls.items ≢ [])) }
{
    let Ok(mut answers) = Vec::with_capacity(alloc, calls.len()) else {
        return Err(NoMemory(calls));
    };
    for call in calls {
        let answered = K::answer(vec, alloc, call);
        answers.push_reserved(answered);
    }
    Ok(answers)
}
