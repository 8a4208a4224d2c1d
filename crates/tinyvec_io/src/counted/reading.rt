//! `Counted` as a reader.
ghost use Rattle.std.specs.Prelude.{◌≡◌, ◌<◌, OnErr, IfOk, is_err, length, take};
ghost use Rattle.std.specs.List.{AllByRecursion};
ghost use Rattle.std.specs.Io.{ReadsAtMost};
ghost use Rattle.std.specs.Io.KnownBytes.{Keeps, Consumes, IsAtEnd, ReadConsumes};
ghost use Rattle.tinyvec_io.specs.Counted.{ConsumesFront, CountsFault, LeavesFault, Retries, fault_after};

use super::Counted;
use std::io;
use std::io::{ErrorKind, Read};

impl<R: Read> Read for Counted<R> {
    ghost remaining = { λ c. R.remaining c.inner };

    fn read(&mut self, buf: &mut [u8]) -> io::Result<usize>
        ensures bound { ReadsAtMost result buf.new }
        ensures bytes { ReadConsumes (R.remaining self.old.inner) (R.remaining self.new.inner)
            result buf.new }
        ensures faults { CountsFault (is_err result) self.old.faults self.new.faults }
        ensures failed { CountsFault (is_err result) self.old.failed self.new.failed }
        ensures last_fault { self.new.last_fault ≡ fault_after result self.old.last_fault }
        ensures flushed { self.new.flushed ≡ self.old.flushed }
    {
        let result = self.end.read(buf);
        if result.is_err() {
            self.count_failed();
        }
        result
    }
}

impl<R: Read> Counted<R> {
    /// Reads some bytes, and retries after an interruption. Returns 0 at the end of input.
    ///
    /// Each interruption counts. After `u64::MAX` of them it fails with `ErrorKind::TimedOut`.
    pub fn read_some(&mut self, buf: &mut [u8]) -> io::Result<usize>
        requires { 0 < length buf.old }
        ensures bound { ReadsAtMost result buf.new }
        ensures bytes { IfOk result (λ n. Consumes (R.remaining self.old.inner)
            (R.remaining self.new.inner) (take n buf.new)) }
        ensures end { IfOk result (λ n. n ≡ 0 → IsAtEnd (R.remaining self.new.inner)) }
        ensures err { OnErr result (Keeps (R.remaining self.old.inner) (R.remaining self.new.inner)) }
        ensures faults { Retries self.old.faults self.new.faults result }
        ensures failed { CountsFault (is_err result) self.old.failed self.new.failed }
        ensures last_fault { LeavesFault self.old.last_fault self.new.last_fault result }
        ensures flushed { self.new.flushed ≡ self.old.flushed }
    {
        for _tries in 0..u64::MAX {
            match self.end.read(buf) {
                Ok(count) => return Ok(count),
                Err(e) => {
                    if e.kind() != ErrorKind::Interrupted {
                        self.count_failed();
                        return Err(e);
                    }
                }
            }
        }
        self.end.time_out();
        self.count_failed();
        Err(io::Error::from(ErrorKind::TimedOut))
    }

    /// Reads until the buffer is full or the input ends, and returns the number of bytes read. Retries after an
    /// interruption. If it fails, what was read before is at the front of the buffer.
    pub fn fill(&mut self, buf: &mut [u8]) -> io::Result<usize>
        ensures bound { ReadsAtMost result buf.new }
        ensures bytes { IfOk result (λ n. Consumes (R.remaining self.old.inner)
            (R.remaining self.new.inner) (take n buf.new)) }
        ensures end { IfOk result (λ n. n < length buf.new → IsAtEnd (R.remaining self.new.inner)) }
        ensures err { OnErr result (ConsumesFront (R.remaining self.old.inner)
            (R.remaining self.new.inner) buf.new) }
        ensures small { IfOk result (λ n. AllByRecursion (λ byte. byte < 256) (take n buf.new)) }
        ensures faults { Retries self.old.faults self.new.faults result }
        ensures failed { CountsFault (is_err result) self.old.failed self.new.failed }
        ensures last_fault { LeavesFault self.old.last_fault self.new.last_fault result }
        ensures flushed { self.new.flushed ≡ self.old.flushed }
    {
        let mut filled = 0;
        while filled < buf.len() {
            let count = self.read_some(&mut buf[filled..])?;
            if count == 0 {
                return Ok(filled);
            }
            filled += count;
        }
        Ok(filled)
    }
}
