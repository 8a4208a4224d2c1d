//! A text, a comparison or a hash that is another than that of the slice, by a contract with the same mistake, would pass the
//! check, and so would another text of an error.
use crate::lists::holds;
use crate::steps::{all_steps, is_debugged, is_shown};
use std::alloc::AllocFailed;
use std::fmt::{self, Display, Write};
use std::hash::{DefaultHasher, Hash, Hasher};
use std::io::{self, ErrorKind};
use std::test::Fail;
use tinyvec::{
    ArrayVec, CapacityError, FromIterRest, NoMemory, NoRoom, TinyVec, TryFromSliceError,
};
use tinyvec_borsh::BorshError;
use tinyvec_script::RunError;

// A list in a base. `{:x}` and the like are for numbers, so a list needs a type that calls its trait.
#[derive(Drop)]
struct Based<V>(V, Base);

#[derive(Drop)]
enum Base {
    Two,
    Eight,
    Sixteen,
    SixteenInCapitals,
}

impl<V: fmt::LowerHex + fmt::UpperHex + fmt::Octal + fmt::Binary> Display for Based<V> {
    fn fmt<W: fmt::Write>(&self, f: &mut fmt::Formatter<W>) -> fmt::Result {
        match self.1 {
            Base::Two => fmt::Binary::fmt(&self.0, f),
            Base::Eight => fmt::Octal::fmt(&self.0, f),
            Base::Sixteen => fmt::LowerHex::fmt(&self.0, f),
            Base::SixteenInCapitals => fmt::UpperHex::fmt(&self.0, f),
        }
    }
}

#[test]
fn lists(rt: HostRuntime) -> Result<(), Fail> {
    let mut v = ArrayVec::<[i32; 3]>::new();
    let empty = is_debugged(&v, "[]") & is_shown(&v, "[]");
    let one = v.try_push(10).is_none() & is_debugged(&v, "[10]");
    let two = v.try_push(11).is_none() & is_debugged(&v, "[10, 11]");
    let three = v.try_push(12).is_none() & is_debugged(&v, "[10, 11, 12]");
    all_steps(&[empty & one & two & three, is_shown(&v, "[10, 11, 12]")])
}

#[test]
fn lists_in_bases(rt: HostRuntime) -> Result<(), Fail> {
    let (none, three) = (
        ArrayVec::<[i32; 3]>::new(),
        ArrayVec::from_array([10, 11, 12]),
    );
    all_steps(&[
        is_shown(&Based(none, Base::Two), "[]") & is_shown(&Based(none, Base::Eight), "[]"),
        is_shown(&Based(none, Base::Sixteen), "[]"),
        is_shown(&Based(none, Base::SixteenInCapitals), "[]"),
        is_shown(&Based(three, Base::Sixteen), "[a, b, c]"),
        is_shown(&Based(three, Base::Two), "[1010, 1011, 1100]"),
        is_shown(
            &Based(ArrayVec::from_array([10, 255]), Base::SixteenInCapitals),
            "[A, FF]",
        ),
        is_shown(
            &Based(ArrayVec::from_array([8, 9]), Base::Eight),
            "[10, 11]",
        ),
    ])
}

#[test]
fn iterators(rt: HostRuntime) -> Result<(), Fail> {
    let three = ArrayVec::from_array([1, 2, 3]);
    let mut items = three.into_iter();
    let is_first = items.next() == Some(1);
    let mut tiny = TinyVec::Inline(three, rt.alloc()).into_iter();
    let is_same = tiny.next() == Some(1);
    all_steps(&[
        is_first & is_debugged(&items, "ArrayVecIterator([2, 3])"),
        is_same & is_debugged(&tiny, "TinyVecIterator([2, 3])"),
    ])
}

fn hash_of<T: Hash>(x: &T) -> u64 {
    let mut state = DefaultHasher::new();
    x.hash(&mut state);
    state.finish()
}

#[test]
fn comparisons(rt: HostRuntime) -> Result<(), Fail> {
    let two = ArrayVec::from_array_len([1, 2, 0, 0], 2);
    let inline = TinyVec::Inline(two, rt.alloc());
    let mut heap = TinyVec::Inline(two, rt.alloc());
    let _moved = heap.move_to_the_heap().is_ok();
    all_steps(&[
        two == ArrayVec::from_array_len([1, 2, 9, 9], 2),
        two < ArrayVec::from_array_len([1, 2, 0, 0], 3),
        ArrayVec::from_array_len([1, 3, 0], 2) > ArrayVec::from_array([1, 2, 9]),
        inline == heap,
        (hash_of(&inline) == hash_of(&heap)) & (hash_of(&two) == hash_of(&[1, 2].as_slice())),
    ])
}

#[test]
fn written(rt: HostRuntime) -> Result<(), Fail> {
    let mut v = ArrayVec::<[u8; 4]>::new();
    let is_written = v.write_str("abc").is_ok() & holds(&v, b"abc", &[0]);
    let is_refused = v.write_str("de").is_err() & holds(&v, b"abc", &[0]);
    let is_full = v.write_str("d").is_ok() & holds(&v, b"abcd", &[]);
    let mut ten = ArrayVec::<[u8; 10]>::new();
    let is_long = write!(ten, "abc").is_ok() & holds(&ten, b"abc", &[0; 7]);
    let is_char = ten.write_char('é').is_ok() & holds(&ten, "abcé".as_bytes(), &[0; 5]);
    all_steps(&[is_written, is_refused, is_full, is_long & is_char])
}

#[test]
fn errors(rt: HostRuntime) -> Result<(), Fail> {
    let slice = "could not convert slice to ArrayVec";
    all_steps(&[
        is_shown(&CapacityError, "insufficient capacity"),
        is_shown(&TryFromSliceError::TooLong, slice) & is_shown(&TryFromSliceError::Memory, slice),
        is_shown(&BorshError::Ended, "unexpected end of input"),
        is_shown(&BorshError::InvalidLength, "invalid ArrayVec length"),
        is_shown(&BorshError::Io, "reader or writer fault"),
        is_shown(&BorshError::Memory, "out of memory"),
        is_shown(&RunError::Read, "cannot read input"),
        is_shown(&RunError::Write, "cannot write output"),
        is_shown(&RunError::TooLong, "input too long"),
    ])
}

#[test]
fn errors_made_of_others(rt: HostRuntime) -> Result<(), Fail> {
    let (vec, item, rest) = (1, 2, 3);
    all_steps(&[
        io::Error::from(NoMemory(item)).kind() == ErrorKind::OutOfMemory,
        io::Error::from(NoRoom { item, rest }).kind() == ErrorKind::OutOfMemory,
        io::Error::from(FromIterRest { vec, item, rest }).kind() == ErrorKind::OutOfMemory,
        AllocFailed::from(NoMemory(7)).value == 7,
        NoMemory::from(AllocFailed { value: 7 }).0 == 7,
    ])
}
