//! An `answer_lines` that refuses a line for which there is memory would pass the check, also one that says so where its reader or
//! its writer fails: no clause says when memory is refused.
use crate::failing::{Closing, Failing};
use crate::steps::granted_steps;
use example_lines::{Answer, Failure, answer_lines};
use std::alloc::{AllocError, Global};
use std::io::ErrorKind;
use std::test::Fail;
use tinyvec_io::Counted;

// Answers each line by itself, and counts them. One line it refuses.
#[derive(Drop)]
struct Echo {
    lines: u8,
}

impl Answer for Echo {
    ghost IsAnswer = { λ old line text new. Unit {0} };

    fn answer(
        &mut self,
        _alloc: Global,
        line: &[u8],
        text: &mut Vec<u8>,
    ) -> Result<(), AllocError> {
        if line == b"!".as_slice() {
            return Err(AllocError);
        }
        text.extend_from_slice(line)?;
        self.lines = self.lines.wrapping_add(1);
        Ok(())
    }
}

// The answers before are written, the program holds what they left, and it answers further lines.
#[test]
fn go_on_after_a_refused_line(rt: HostRuntime) -> Result<(), Fail> {
    let mut echo = Echo { lines: 0 };
    let mut writer = Counted::new(Vec::with_capacity(rt.alloc(), 16)?);
    let mut first = Counted::new(b"ab\nc\n!\nd\n".as_slice());
    let refused = answer_lines(rt.alloc(), &mut echo, &mut first, &mut writer);
    let lines = echo.lines;
    let mut last = Counted::new(b"e".as_slice());
    let answered = answer_lines(rt.alloc(), &mut echo, &mut last, &mut writer);
    let written = writer.into_inner();
    granted_steps(
        lines < 2 || answered.is_err(),
        &[
            matches!(refused, Err(Failure::Memory)),
            lines == 2,
            echo.lines == 3,
            written.as_slice() == b"abce".as_slice(),
        ],
    )
}

// The lines before the fault of the reader are answered.
#[test]
fn end_where_the_reader_fails(rt: HostRuntime) -> Result<(), Fail> {
    let mut echo = Echo { lines: 0 };
    let mut reader = Counted::new(Failing { left: b"ab\nc\nd" });
    let mut writer = Counted::new(Vec::with_capacity(rt.alloc(), 16)?);
    let ended = answer_lines(rt.alloc(), &mut echo, &mut reader, &mut writer);
    let is_refused = matches!(ended, Err(Failure::Memory));
    let is_told = match ended {
        Err(Failure::Input(error)) => error.kind() == ErrorKind::TimedOut,
        _ => false,
    };
    let written = writer.into_inner();
    granted_steps(
        is_refused,
        &[
            is_told,
            echo.lines == 2,
            written.as_slice() == b"abc".as_slice(),
        ],
    )
}

// The writer fails at each byte of the answers, and at the flush after them.
#[test]
fn end_where_the_writer_fails(rt: HostRuntime) -> Result<(), Fail> {
    let mut is_refused = false;
    let mut is_told = true;
    for room in 0..4 {
        let mut echo = Echo { lines: 0 };
        let mut reader = Counted::new(b"ab\nc".as_slice());
        let mut writer = Counted::new(Closing { room });
        let ended = answer_lines(rt.alloc(), &mut echo, &mut reader, &mut writer);
        is_refused |= matches!(ended, Err(Failure::Memory));
        is_told &= match ended {
            Err(Failure::Output(error)) => error.kind() == ErrorKind::BrokenPipe,
            _ => false,
        };
        is_told &= writer.into_inner().room == 0;
    }
    granted_steps(is_refused, &[is_told])
}
