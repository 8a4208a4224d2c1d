//! The reader or writer of a `Counted`.
ghost use Rattle.std.specs.Prelude.{◌≡◌, ◌≤◌, ◌^◌, ◌-◌, false, true, None, Some, is_err, is_ok};
ghost use Rattle.std.specs.Io.{ReadsAtMost, WritesAtMost};
ghost use Rattle.std.specs.Io.KnownBytes.{Keeps, ReadConsumes, WriteAppends};
ghost use Rattle.tinyvec_io.specs.Counted.{CountsFault, fault_after, is_write_fault, write_fault_after};

use std::io;
use std::io::{ErrorKind, Read, Write};

/// A reader or writer, and what came of its calls.
///
/// It is called by the methods below alone. So no other code counts a call that was not made, or notes a fault that was not
/// reported.
#[derive(Debug, Drop)]
pub(super) struct End<E> {
    inner: E,
    faults: u64,
    last_fault: Option<ErrorKind>,
    flushed: bool,
}

impl<E> End<E> {
    pub(super) fn new(inner: E) -> Self
        ensures inner { result.inner ≡ inner }
        ensures faults { result.faults ≡ 0 }
        ensures last_fault { result.last_fault ≡ None }
        ensures flushed { result.flushed ≡ false }
    {
        End {
            inner,
            faults: 0,
            last_fault: None,
            flushed: false,
        }
    }

    pub(super) fn faults(&self) -> u64
        ensures { result ≡ self.now.faults }
    {
        self.faults
    }

    pub(super) fn last_fault(&self) -> Option<ErrorKind>
        ensures { result ≡ self.now.last_fault }
    {
        self.last_fault
    }

    pub(super) fn into_inner(self) -> E
        ensures { result ≡ self.inner }
    {
        let End {
            inner,
            faults: _,
            last_fault: _,
            flushed: _,
        } = self;
        inner
    }

    /// The last fault is that a call was interrupted `u64::MAX` times.
    pub(super) fn time_out(&mut self)
        requires { 2 ^ 64 - 1 ≤ self.old.faults }
        ensures inner { self.new.inner ≡ self.old.inner }
        ensures faults { self.new.faults ≡ self.old.faults }
        ensures last_fault { self.new.last_fault ≡ Some ErrorKind.TimedOut }
        ensures flushed { self.new.flushed ≡ self.old.flushed }
    {
        self.last_fault = Some(ErrorKind::TimedOut);
    }

    fn count_fault(&mut self, kind: ErrorKind)
        ensures inner { self.new.inner ≡ self.old.inner }
        ensures faults { CountsFault true self.old.faults self.new.faults }
        ensures last_fault { self.new.last_fault ≡ Some kind }
        ensures flushed { self.new.flushed ≡ self.old.flushed }
    {
        self.faults = self.faults.saturating_add(1);
        self.last_fault = Some(kind);
    }
}

impl<R: Read> End<R> {
    pub(super) fn read(&mut self, buf: &mut [u8]) -> io::Result<usize>
        ensures bound { ReadsAtMost result buf.new }
        ensures bytes { ReadConsumes (R.remaining self.old.inner) (R.remaining self.new.inner)
            result buf.new }
        ensures faults { CountsFault (is_err result) self.old.faults self.new.faults }
        ensures last_fault { self.new.last_fault ≡ fault_after result self.old.last_fault }
        ensures flushed { self.new.flushed ≡ self.old.flushed }
    {
        let result = self.inner.read(buf);
        if let Err(error) = &result {
            self.count_fault(error.kind());
        }
        result
    }
}

impl<W: Write> End<W> {
    pub(super) fn write(&mut self, buf: &[u8]) -> io::Result<usize>
        ensures bound { WritesAtMost result buf.now }
        ensures bytes { WriteAppends (W.contents self.old.inner) (W.contents self.new.inner)
            result buf.now }
        ensures faults { CountsFault (is_write_fault result buf.now) self.old.faults self.new.faults }
        ensures last_fault { self.new.last_fault ≡ write_fault_after result buf.now self.old.last_fault }
        ensures flushed { self.new.flushed ≡ false }
    {
        self.flushed = false;
        let result = self.inner.write(buf);
        match &result {
            Ok(count) => {
                if *count == 0 && !buf.is_empty() {
                    self.count_fault(ErrorKind::WriteZero);
                }
            }
            Err(error) => self.count_fault(error.kind()),
        }
        result
    }

    pub(super) fn flush(&mut self) -> io::Result<()>
        ensures bytes { Keeps (W.contents self.old.inner) (W.contents self.new.inner) }
        ensures faults { CountsFault (is_err result) self.old.faults self.new.faults }
        ensures last_fault { self.new.last_fault ≡ fault_after result self.old.last_fault }
        ensures flushed { self.new.flushed ≡ is_ok result }
    {
        let result = self.inner.flush();
        self.flushed = result.is_ok();
        if let Err(error) = &result {
            self.count_fault(error.kind());
        }
        result
    }
}
