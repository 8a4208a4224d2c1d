//! Bytes that are not those of the Borsh form, by a contract with the same mistake, would pass the check, and so would a reading
//! that gives up where memory is granted.
use crate::failing::{Closing, Failing, note_calls};
use crate::lists::lies;
use crate::steps::{all_steps, granted_steps};
use std::alloc::Global;
use std::cell::Cell;
use std::test::Fail;
use tinyvec::{ArrayVec, TinyVec};
use tinyvec_borsh::{BorshDeserialize, BorshError, BorshSerialize};
use tinyvec_io::Counted;

// Whether a value is written so.
fn is_written<T: BorshSerialize>(alloc: Global, value: &T, bytes: &[u8]) -> bool {
    let mut writer = Counted::new(TinyVec::<[u8; 64]>::new(alloc));
    value.serialize(&mut writer).is_ok() & lies(&writer.into_inner(), bytes, true)
}

// What is read of these bytes, and how many are left.
fn read<T: BorshDeserialize>(alloc: Global, bytes: &[u8]) -> (Result<T, BorshError>, usize) {
    let mut reader = Counted::new(bytes);
    let read = T::deserialize_reader(alloc, &mut reader);
    (read, reader.into_inner().len())
}

#[test]
fn values_written(rt: HostRuntime) -> Result<(), Fail> {
    let alloc = rt.alloc();
    let one = ArrayVec::from_array_len([1, 0], 1);
    let lists = ArrayVec::from_array([one, ArrayVec::<[u8; 2]>::new()]);
    all_steps(&[
        is_written(alloc, &258_u16, &[2, 1]) & is_written(alloc, &-2_i16, &[0xfe, 0xff]),
        is_written(alloc, &ArrayVec::from_array_len([1_u8, 2, 0, 0], 2), TWO),
        is_written(
            alloc,
            &TinyVec::from_array(alloc, [-2_i32]),
            &[1, 0, 0, 0, 0, 0, 0, 0, 0xfe, 0xff, 0xff, 0xff],
        ),
        is_written(
            alloc,
            &lists,
            &[
                2, 0, 0, 0, 0, 0, 0, 0, 1, 0, 0, 0, 0, 0, 0, 0, 1, 0, 0, 0, 0, 0, 0, 0, 0,
            ],
        ),
    ])
}

// The count 2, and the bytes 1 and 2.
const TWO: &[u8] = &[2, 0, 0, 0, 0, 0, 0, 0, 1, 2];

const FIVE: &[u8] = &[5, 0, 0, 0, 0, 0, 0, 0, 1, 2, 3, 4, 5, 6];

const MOST: &[u8] = &[255, 255, 255, 255, 255, 255, 255, 255, 1, 2, 3, 4, 5];

type OfFour = ArrayVec<[u8; 4]>;

type OfNone = ArrayVec<[u8; 0]>;

type Nested = ArrayVec<[ArrayVec<[u8; 1]>; 1]>;

#[test]
fn counts_above_the_capacity(rt: HostRuntime) -> Result<(), Fail> {
    let alloc = rt.alloc();
    let nested = [1, 0, 0, 0, 0, 0, 0, 0, 2, 0, 0, 0, 0, 0, 0, 0, 1, 2];
    all_steps(&[
        read::<OfFour>(alloc, &FIVE[..12]).0 == Err(BorshError::Ended),
        read::<OfFour>(alloc, FIVE) == (Err(BorshError::InvalidLength), 1),
        read::<OfFour>(alloc, &MOST[..8]).0 == Err(BorshError::Ended),
        read::<OfFour>(alloc, MOST).0 == Err(BorshError::InvalidLength),
        read::<OfNone>(alloc, &[0; 8]) == (Ok(ArrayVec::new()), 0),
        read::<OfNone>(alloc, &[1, 0, 0, 0, 0, 0, 0, 0, 7]) == (Err(BorshError::InvalidLength), 0),
        read::<Nested>(alloc, &nested).0 == Err(BorshError::InvalidLength),
    ])
}

// Room for 1024 items at most is asked for ahead, whatever the count.
#[test]
fn on_the_heap(rt: HostRuntime) -> Result<(), Fail> {
    let bytes = [3, 0, 0, 0, 0, 0, 0, 0, 1, 2, 3, 9];
    let (three, left) = read::<TinyVec<[u8; 2]>>(rt.alloc(), &bytes);
    let is_read = match &three {
        Ok(v) => lies(v, &[1, 2, 3], false) & (left == 1),
        Err(error) => *error == BorshError::Memory,
    };
    let (great, _none) = read::<TinyVec<[u32; 4]>>(rt.alloc(), &[0, 0, 0, 0, 0, 0, 0, 16]);
    granted_steps(
        is_read & (three.is_err() | matches!(great, Err(BorshError::Memory))),
        &[is_read, matches!(great, Err(BorshError::Ended))],
    )
}

// Whether a value is written and read again.
fn is_kept<T: BorshSerialize + BorshDeserialize + PartialEq + Drop>(
    alloc: Global,
    value: &T,
) -> bool {
    let mut writer = Counted::new(TinyVec::<[u8; 64]>::new(alloc));
    let is_written = value.serialize(&mut writer).is_ok();
    match read::<T>(alloc, writer.into_inner().as_slice()) {
        (Ok(again), 0) => is_written & (again == *value),
        _ => false,
    }
}

#[test]
fn written_and_read(rt: HostRuntime) -> Result<(), Fail> {
    let alloc = rt.alloc();
    let four = ArrayVec::from_array([1i32, 2, 3, 4]);
    let mut heap = TinyVec::Inline(four, alloc);
    let _moved = heap.move_to_the_heap().is_ok();
    all_steps(&[
        is_kept(alloc, &ArrayVec::<[i32; 0]>::new()),
        is_kept(alloc, &four),
        is_kept(alloc, &TinyVec::<[i32; 0]>::new(alloc)),
        is_kept(alloc, &TinyVec::Inline(four, alloc)),
        is_kept(alloc, &heap),
    ])
}

// Of 5000 bytes as many are read at once as there is room for, then one, which is pushed.
#[test]
fn read_in_blocks(rt: HostRuntime) -> Result<(), Fail> {
    let asked = Cell::new(0);
    let mut bytes = [7; 5008];
    bytes[..8].copy_from_slice(&[0x88, 0x13, 0, 0, 0, 0, 0, 0]);
    let mut reader = note_calls(&bytes, 5000, &asked);
    let Ok(v) = TinyVec::<[u8; 4]>::deserialize_reader(rt.alloc(), &mut reader) else {
        return granted_steps(true, &[]);
    };
    let are_read = (v.len() == 5000) & v.iter().all(|x| *x == 7);
    all_steps(&[are_read, asked.get() == 11111111])
}

// Ten bytes that end at each, or are not read or written from there on.
#[test]
fn cut_and_failing_at_each_byte(rt: HostRuntime) -> Result<(), Fail> {
    let alloc = rt.alloc();
    let value = ArrayVec::from_array_len([1, 2, 0, 0], 2);
    let mut is_refused = false;
    let mut is_right = true;
    for count in 0..10 {
        let cut = &TWO[..count];
        let tiny = read::<TinyVec<[u8; 1]>>(alloc, cut).0;
        is_refused |= tiny == Err(BorshError::Memory);
        is_right &= tiny == Err(BorshError::Ended);
        is_right &= read::<OfFour>(alloc, cut).0 == Err(BorshError::Ended);
        let mut reader = Counted::new(Failing { left: cut });
        is_right &= OfFour::deserialize_reader(alloc, &mut reader) == Err(BorshError::Io);
        let mut writer = Counted::new(Closing { room: count });
        is_right &= value.serialize(&mut writer) == Err(BorshError::Io);
    }
    let whole = match read::<TinyVec<[u8; 1]>>(alloc, TWO).0 {
        Ok(v) => lies(&v, &[1, 2], false),
        Err(_) => false,
    };
    granted_steps(
        is_refused | !whole,
        &[is_right, read::<OfFour>(alloc, TWO).0 == Ok(value)],
    )
}
