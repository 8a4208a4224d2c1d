//! What callers can prove of every type that can be written and read.
ghost use Rattle.std.specs.Prelude.{◌≡◌, ◌⊎◌, ◌++◌, ℕ, List, map, IfErr, IfOk};
ghost use Rattle.tinyvec_array.specs.View.{view as slots_view};
ghost use Rattle.tinyvec.specs.TinyVec.{view, tiny_items};
ghost use Rattle.tinyvec_borsh.specs.Code.{TellsApart};
ghost use Rattle.tinyvec_borsh.specs.Reading.{ReadsBack};

use std::alloc::Global;
use std::io::Read;
use tinyvec::{Array, ArrayVec, TinyVec};
use tinyvec_borsh::{BorshDeserialize, BorshError, BorshSerialize};
use tinyvec_io::Counted;

/// If the input begins with the encoding of a content that fits, a value of that content is read, and what follows
/// stays unread, unless the reader faults or memory is refused.
pub fn read_back<T: BorshDeserialize, R: Read>(
    alloc: Global,
    reader: &mut Counted<R>,
) -> Result<T, BorshError>
    ensures { (c : T.Content) (bytes rest : List ℕ) → T.Fits c → T.Spells c bytes
        → R.remaining reader.old.inner ≡ Some (bytes ++ rest)
        → ReadsBack T.content_of (T.Reason BorshError.Memory) c (bytes ++ rest) rest
        (R.remaining reader.new.inner) reader.old.faults reader.new.faults result }
{
    T::deserialize_reader(alloc, reader)
}

/// What was written is read again, with the same content, unless the reader faults or memory is refused.
pub fn copied<T: BorshSerialize + BorshDeserialize>(alloc: Global, v: &T) -> Result<T, BorshError>
    ensures same { IfOk result (λ w. T.content_of w ≡ T.content_of v.now) }
    ensures err { IfErr result (λ e. (e ≡ BorshError.Io) ⊎ (e ≡ BorshError.Memory)) }
{
    let mut writer = Counted::new(Vec::new(alloc));
    v.serialize(&mut writer)?;
    let bytes = writer.into_inner();
    let mut reader = Counted::new(bytes.as_slice());
    T::deserialize_reader(alloc, &mut reader)
}

/// The same of a list that may be on the heap.
pub fn copied_tiny<A: Array>(alloc: Global, v: &TinyVec<A>) -> Result<TinyVec<A>, BorshError>
where
    A::Item: BorshSerialize + BorshDeserialize,
    requires { TellsApart A.Item.content_of }
    ensures same { IfOk result (λ w. (view A.Slots w).items ≡ (view A.Slots v.now).items) }
    ensures err { IfErr result (λ e. (e ≡ BorshError.Io) ⊎ (e ≡ BorshError.Memory)) }
{
    copied(alloc, v)
}

/// The same of a list of lists.
pub fn copied_lists<A: Array, const N: usize>(
    alloc: Global,
    v: &TinyVec<[ArrayVec<A>; N]>,
) -> Result<TinyVec<[ArrayVec<A>; N]>, BorshError>
where
    A::Item: BorshSerialize + BorshDeserialize,
    requires { TellsApart A.Item.content_of }
    ensures same { IfOk result (λ w. map (λ v. (slots_view A.Slots v).items) (tiny_items w)
        ≡ map (λ v. (slots_view A.Slots v).items) (tiny_items v.now)) }
    ensures err { IfErr result (λ e. (e ≡ BorshError.Io) ⊎ (e ≡ BorshError.Memory)) }
{
    copied(alloc, v)
}
