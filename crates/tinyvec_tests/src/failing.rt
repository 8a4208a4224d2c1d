//! A reader and a writer that fail, and a `Counted` over one. A flush that failed and is noted as one that did not would pass the
//! check of a caller: only `{:?}` tells of it.
use crate::steps::{all_steps, is_debugged};
use std::cell::Cell;
use std::io::{self, ErrorKind, Read, Write};
use std::test::Fail;
use tinyvec_io::Counted;

/// Reads these bytes, and then fails.
#[derive(Drop)]
pub struct Failing<'a> {
    pub left: &'a [u8],
}

impl Read for Failing<'_> {
    fn read(&mut self, buf: &mut [u8]) -> io::Result<usize> {
        if self.left.is_empty() {
            return Err(io::Error::from(ErrorKind::TimedOut));
        }
        self.left.read(buf)
    }
}

/// Takes so many bytes more, and then each call fails.
#[derive(Debug, Drop)]
pub struct Closing {
    pub room: usize,
}

impl Closing {
    fn is_open(&self) -> io::Result<()> {
        if self.room == 0 {
            return Err(io::Error::from(ErrorKind::BrokenPipe));
        }
        Ok(())
    }
}

impl Write for Closing {
    fn write(&mut self, buf: &[u8]) -> io::Result<usize> {
        self.is_open()?;
        let count = buf.len().min(self.room);
        self.room -= count;
        Ok(count)
    }

    fn flush(&mut self) -> io::Result<()> {
        self.is_open()
    }
}

/// Moves one byte at once, and is interrupted before each.
#[derive(Drop)]
pub struct Interrupted<S> {
    pub inner: S,
    pub is_next: bool,
}

impl<S> Interrupted<S> {
    fn turn(&mut self) -> io::Result<()> {
        self.is_next = !self.is_next;
        if self.is_next {
            return Ok(());
        }
        Err(io::Error::from(ErrorKind::Interrupted))
    }
}

impl<S: Read> Read for Interrupted<S> {
    fn read(&mut self, buf: &mut [u8]) -> io::Result<usize> {
        self.turn()?;
        let count = buf.len().min(1);
        self.inner.read(&mut buf[..count])
    }
}

impl<S: Write> Write for Interrupted<S> {
    fn write(&mut self, buf: &[u8]) -> io::Result<usize> {
        self.turn()?;
        self.inner.write(&buf[..buf.len().min(1)])
    }

    fn flush(&mut self) -> io::Result<()> {
        self.inner.flush()
    }
}

/// Reads and writes so many bytes at once, and notes each call by a digit: 1 is a read, 2 a write and 3 a flush.
#[derive(Drop)]
pub struct Noting<'a> {
    left: &'a [u8],
    piece: usize,
    asked: &'a Cell<u64>,
}

pub fn note_calls<'a>(left: &'a [u8], piece: usize, asked: &'a Cell<u64>) -> Counted<Noting<'a>> {
    Counted::new(Noting { left, piece, asked })
}

impl Noting<'_> {
    fn note(&self, call: u64) {
        self.asked
            .set(self.asked.get().wrapping_mul(10).wrapping_add(call));
    }
}

impl Read for Noting<'_> {
    fn read(&mut self, buf: &mut [u8]) -> io::Result<usize> {
        self.note(1);
        let count = buf.len().min(self.piece);
        self.left.read(&mut buf[..count])
    }
}

impl Write for Noting<'_> {
    fn write(&mut self, buf: &[u8]) -> io::Result<usize> {
        self.note(2);
        Ok(buf.len().min(self.piece))
    }

    fn flush(&mut self) -> io::Result<()> {
        self.note(3);
        Ok(())
    }
}

const FLUSHED: &str =
    "Counted { end: End { inner: Closing { room: 2 }, faults: 0, last_fault: None, flushed: true }, failed: 0 }";

const WRITTEN: &str =
    "Counted { end: End { inner: Closing { room: 0 }, faults: 0, last_fault: None, flushed: false }, failed: 0 }";

const CLOSED: &str =
    "Counted { end: End { inner: Closing { room: 0 }, faults: 1, last_fault: Some(BrokenPipe), flushed: false }, failed: 1 }";

#[test]
fn flushes(rt: HostRuntime) -> Result<(), Fail> {
    let mut writer = Counted::new(Closing { room: 2 });
    let is_flushed = writer.flush().is_ok() & is_debugged(&writer, FLUSHED);
    let is_written = writer.write_all(b"ab").is_ok() & is_debugged(&writer, WRITTEN);
    let is_closed = writer.flush().is_err() & is_debugged(&writer, CLOSED);
    all_steps(&[is_flushed, is_written, is_closed])
}

// Each call is passed on once. Of a text in pieces each is a call, and the end of the input one more.
#[test]
fn calls_passed_on(rt: HostRuntime) -> Result<(), Fail> {
    let asked = Cell::new(0);
    let mut buf = [0; 6];
    let mut reader = note_calls(b"tiny", 3, &asked);
    let is_read = matches!(reader.read(&mut buf), Ok(3)) & (asked.replace(0) == 1);
    let mut reader = note_calls(b"tiny", 3, &asked);
    let is_filled = matches!(reader.fill(&mut buf), Ok(4)) & (asked.replace(0) == 111);
    let mut writer = note_calls(b"tiny", 3, &asked);
    let is_written = matches!(writer.write(b"tiny"), Ok(3)) & (asked.replace(0) == 2);
    let are_written = writer.write_all(b"tiny").is_ok() & writer.flush().is_ok();
    all_steps(&[
        is_read & is_filled,
        is_written & are_written & (asked.get() == 223),
        buf == *b"tiny\0\0",
    ])
}
