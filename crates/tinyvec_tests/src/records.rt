//! A reading that gives up before its reader does would pass the check, as one that is refused memory. So would one that takes
//! more of a file: of that no bytes are known.
use crate::failing::Failing;
use crate::steps::{all_right, granted};
use example_stream::{StreamError, read_all};
use std::test::Fail;
use tinyvec_io::Counted;

// Station 7 with the samples 300 and 1 and the note `hi`, station 65536 with neither, and then no tag.
const STREAM: [u8; 50] = [
    0x52, 7, 0, 0, 0, 2, 0, 0, 0, 0, 0, 0, 0, 0x2c, 1, 1, 0, 2, 0, 0, 0, 0, 0, 0, 0, 0x68, 0x69,
    0x52, 0, 0, 1, 0, 0, 0, 0, 0, 0, 0, 0, 0, 0, 0, 0, 0, 0, 0, 0, 0, 0x53, 1,
];

const FIRST_LEN: usize = 27;

const BOTH_LEN: usize = 48;

// All records before the byte at which the reader fails are kept, and no byte before it is left.
#[test]
fn of_a_reader_that_fails_at_each_byte(rt: HostRuntime) -> Result<(), Fail> {
    let mut wrong = 0;
    let mut step = 0_u32;
    for end in 0..=BOTH_LEN {
        step = step.wrapping_add(1);
        let mut reader = Counted::new(Failing {
            left: &STREAM[..end],
        });
        let read = read_all(rt.alloc(), &mut reader);
        let many = usize::from(end >= FIRST_LEN) + usize::from(end == BOTH_LEN);
        let is_all = read.records.len() == many && reader.into_inner().left.is_empty();
        let is_right = match read.end {
            Err(StreamError::Memory) => None,
            end => Some(is_all && end == Err(StreamError::Io)),
        };
        wrong = granted(wrong, step, is_right);
    }
    all_right(wrong)
}

// Of what is no record just the byte in the place of the tag is taken.
#[test]
fn up_to_another_byte_than_a_tag(rt: HostRuntime) -> Result<(), Fail> {
    let mut reader = Counted::new(STREAM.as_slice());
    let read = read_all(rt.alloc(), &mut reader);
    let is_all = read.records.len() == 2 && reader.into_inner() == [1].as_slice();
    let is_right = match read.end {
        Err(StreamError::Memory) => None,
        end => Some(is_all && end == Err(StreamError::WrongTag)),
    };
    all_right(granted(0, 1, is_right))
}
