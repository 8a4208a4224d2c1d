//! A splice whose items are taken from the ends that a word names.
ghost use Rattle.std.specs.Prelude.{◌≡◌, ◌+◌, ◌<◌, ◌≤◌, ◌∷◌, ◌++◌, [], List, Option, length, IfOk, IfErr, OnErr};
ghost use Rattle.std.specs.Prelude.{vec_len, vec_capacity};
ghost use Rattle.std.specs.Iterator.Adapters.{fuse_steps};
ghost use Rattle.std.specs.Vec.Iter.{into_iter_items, into_iter_steps, into_iter_steps_back};
ghost use Rattle.tinyvec_slots.specs.Ends.{RunsWord, given_items};
ghost use Rattle.tinyvec_array.specs.ArrayVec.{view_of, slots_of};
ghost use Rattle.tinyvec_array.specs.View.{view as slots_view};
ghost use Rattle.tinyvec_slots.specs.Slots.{items_in, SlotRule};
ghost use Rattle.tinyvec_slots.specs.Fused.{fused_rest};
ghost use Rattle.tinyvec_slots.specs.Splice.{splice_left, SpliceCanStep, SpliceSteps, SpliceStepsBack};
ghost use Rattle.tinyvec.specs.TinyVec.{view};
ghost use Rattle.tinyvec.specs.Room.{GrowsByPushes};
ghost use Rattle.tinyvec_script.specs.Driving.{word_of, TakesAt, refused_items, DrivenSplices, SpliceComputes};
ghost use Rattle.tinyvec_script.specs.declared.call.Answer.TheVariants as answers;

use crate::{Answer, End};
use std::alloc::{AllocError, Global};
use std::iter::Fuse;
use std::vec::IntoIter;
use tinyvec::{Array, ArrayVec, TinyVec};
use tinyvec_slots::authors::{CanSplice, splice_over};
use tinyvec_slots::{NoMemory, NoRoom, Splice};

/// The items that a splice yielded, and the items of its replacement that found no room.
#[derive(PartialEq, Debug, Drop)]
pub struct Driven<T> {
    pub yields: Vec<T>,
    pub rest: Vec<T>,
}

/// Replaces the items from `start` up to `end`. Before that it takes an item from each end that the word names. Allocates
/// both result lists first; if that fails, returns the replacement and changes nothing.
pub fn drive_splice<V: CanSplice>(
    alloc: Global,
    vec: &mut V,
    start: usize,
    end: usize,
    replacement: Vec<V::Item>,
    word: &[End],
) -> Result<Driven<V::Item>, NoMemory<Vec<V::Item>>>
    requires start_le_end { start ≤ end }
    requires in_bounds { end ≤ length (V.items vec.old) }
    ensures splices { IfOk result (λ driven. DrivenSplices V.items V.Grown (V.room vec.new) vec.old start end word.now
        replacement.items driven.yields.items driven.rest.items vec.new) }
    ensures computed { IfOk result (λ driven. SpliceComputes (V.room vec.new) (V.items vec.old) start end word.now
        replacement.items driven.yields.items driven.rest.items (V.items vec.new)) }
    ensures refused { IfErr result (λ refused. (refused.0 ≡ replacement) × (vec.new ≡ vec.old)
        × (start < end + vec_len replacement)) }
{
    let Ok(mut driven) = with_room(alloc, end - start, replacement.len()) else {
        return Err(NoMemory(replacement));
    };
    let mut splice = splice_over(vec, start, end, replacement.into_iter());
    take_word(&mut splice, word, &mut driven.yields);
    keep_refused(&mut driven.rest, splice.finish());
    Ok(driven)
}

/// Replaces the items from `start` up to `end`, as `drive_splice` does.
pub fn drive_array_splice<A: Array>(
    alloc: Global,
    vec: &mut ArrayVec<A>,
    start: usize,
    end: usize,
    replacement: Vec<A::Item>,
    word: &[End],
) -> Result<Driven<A::Item>, NoMemory<Vec<A::Item>>>
    requires start_le_end { start ≤ end }
    requires in_bounds { end ≤ length (slots_view A.Slots vec.old).items }
    ensures splices { IfOk result (λ driven. DrivenSplices items_in (SlotRule A.Item.is_default)
        (length (slots_of A.Slots vec.old)) (view_of A.Slots vec.old) start end word.now replacement.items
        driven.yields.items driven.rest.items (view_of A.Slots vec.new)) }
    ensures computed { IfOk result (λ driven. SpliceComputes (length (slots_of A.Slots vec.old)) (slots_view A.Slots vec.old).items
        start end word.now replacement.items driven.yields.items driven.rest.items (slots_view A.Slots vec.new).items) }
    ensures refused { IfErr result (λ refused. (refused.0 ≡ replacement) × (vec.new ≡ vec.old)
        × (start < end + vec_len replacement)) }
{
    drive_splice(alloc, vec, start, end, replacement, word)
}

/// Replaces the items from `start` up to `end`, as `drive_splice` does. Items find no room only if the allocator refuses to
/// grow the vector.
pub fn drive_tiny_splice<A: Array>(
    alloc: Global,
    vec: &mut TinyVec<A>,
    start: usize,
    end: usize,
    replacement: Vec<A::Item>,
    word: &[End],
) -> Result<Driven<A::Item>, NoMemory<Vec<A::Item>>>
    requires start_le_end { start ≤ end }
    requires in_bounds { end ≤ length (view A.Slots vec.old).items }
    ensures splices { IfOk result (λ driven. DrivenSplices (λ v. v.items) (GrowsByPushes A.Item.is_default)
        (view A.Slots vec.new).place.capacity (view A.Slots vec.old) start end word.now replacement.items
        driven.yields.items driven.rest.items (view A.Slots vec.new)) }
    ensures computed { IfOk result (λ driven. SpliceComputes (view A.Slots vec.new).place.capacity (view A.Slots vec.old).items
        start end word.now replacement.items driven.yields.items driven.rest.items (view A.Slots vec.new).items) }
    ensures refused { IfErr result (λ refused. (refused.0 ≡ replacement) × (vec.new ≡ vec.old)
        × (start < end + vec_len replacement)) }
{
    drive_splice(alloc, vec, start, end, replacement, word)
}

// The answer to a splice: the items taken, and those that found no room if there are any.
pub(crate) fn answer_driven<T: Drop>(driven: Driven<T>) -> Answer<T>
    ensures items { driven.rest.items ≡ [] → result ≡ answers.Items driven.yields }
    ensures spliced { 0 < length driven.rest.items → result ≡ answers.Spliced driven.yields driven.rest }
{
    let Driven { yields, rest } = driven;
    if rest.is_empty() {
        return Answer::Items(yields);
    }
    Answer::Spliced(yields, rest)
}

// Empty lists with this room.
fn with_room<T: Drop>(alloc: Global, yields: usize, rest: usize) -> Result<Driven<T>, AllocError>
    ensures empty { IfOk result (λ driven. (driven.yields.items ≡ []) × (driven.rest.items ≡ [])) }
    ensures enough { IfOk result (λ driven. (yields ≤ vec_capacity driven.yields) × (rest ≤ vec_capacity driven.rest)) }
    ensures needed { OnErr result (0 < yields + rest) }
{
    let yields = Vec::with_capacity(alloc, yields)?;
    let rest = Vec::with_capacity(alloc, rest)?;
    Ok(Driven { yields, rest })
}

// Takes an item from each end that the word names, and appends it to `yields`.
fn take_word<V: CanSplice>(
    splice: &mut Splice<'_, V, Fuse<IntoIter<V::Item, Global>>>,
    word: &[End],
    yields: &mut Vec<V::Item>,
)
    requires ready { SpliceCanStep V.items splice.old }
    requires room { vec_len yields.old + length (splice_left V.items splice.old) ≤ vec_capacity yields.old }
    ensures asks { (answers : List (Option V.Item))
        × RunsWord (SpliceSteps V.items V.Kept (fuse_steps into_iter_steps))
        (SpliceStepsBack V.items V.Kept (fuse_steps into_iter_steps_back)) splice.old (word_of word.now) answers splice.new
        × (yields.new.items ≡ yields.old.items ++ given_items answers) }
{
    for letter in word {
        match take_from(splice, *letter) {
            Some(item) => yields.push_reserved(item),
            None => {}
        }
    }
}

// Takes an item from `end`.
fn take_from<V: CanSplice>(
    splice: &mut Splice<'_, V, Fuse<IntoIter<V::Item, Global>>>,
    end: End,
) -> Option<V::Item>
    requires ready { SpliceCanStep V.items splice.old }
    ensures { TakesAt (SpliceSteps V.items V.Kept (fuse_steps into_iter_steps))
        (SpliceStepsBack V.items V.Kept (fuse_steps into_iter_steps_back)) end splice.old result splice.new }
{
    match end {
        End::Front => splice.next(),
        End::Back => splice.next_back(),
    }
}

// Appends the items that found no room, if there are any.
fn keep_refused<T: Drop>(
    list: &mut Vec<T>,
    finished: Result<(), NoRoom<T, Fuse<IntoIter<T, Global>>>>,
)
    requires { vec_len list.old + length (refused_items (fused_rest into_iter_items) finished) ≤ vec_capacity list.old }
    ensures { list.new.items ≡ list.old.items ++ refused_items (fused_rest into_iter_items) finished }
{
    match finished {
        Ok(()) => {}
        Err(refused) => keep(list, refused),
    }
}

// Appends the refused item and those that follow it.
fn keep<T: Drop>(list: &mut Vec<T>, refused: NoRoom<T, Fuse<IntoIter<T, Global>>>)
    requires { vec_len list.old + length (fused_rest into_iter_items refused.rest) < vec_capacity list.old }
    ensures { list.new.items ≡ list.old.items ++ refused.item ∷ fused_rest into_iter_items refused.rest }
{
    let NoRoom { item, rest } = refused;
    list.push_reserved(item);
    for item in rest {
        list.push_reserved(item);
    }
}
