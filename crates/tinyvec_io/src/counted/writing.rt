//! `Counted` as a writer.
ghost use Rattle.std.specs.Prelude.{◌≡◌, ◌<◌, OnOk, OnErr, IfOk, false, is_err, is_ok, length, true};
ghost use Rattle.std.specs.Io.{WritesAtMost};
ghost use Rattle.std.specs.Io.KnownBytes.{Keeps, Appends, WriteAppends};
ghost use Rattle.tinyvec_io.specs.Counted.{AppendsFront, CountsFault, LeavesFault, Retries, fault_after, is_write_fault, write_fault_after};

use super::Counted;
use std::io;
use std::io::{ErrorKind, Write};

impl<W: Write> Write for Counted<W> {
    ghost contents = { λ c. W.contents c.inner };

    fn write(&mut self, buf: &[u8]) -> io::Result<usize>
        ensures bound { WritesAtMost result buf.now }
        ensures bytes { WriteAppends (W.contents self.old.inner) (W.contents self.new.inner)
            result buf.now }
        ensures faults { CountsFault (is_write_fault result buf.now) self.old.faults self.new.faults }
        ensures failed { CountsFault (is_write_fault result buf.now) self.old.failed self.new.failed }
        ensures last_fault { self.new.last_fault ≡ write_fault_after result buf.now self.old.last_fault }
        ensures flushed { self.new.flushed ≡ false }
    {
        let result = self.end.write(buf);
        let is_fault = match &result {
            Ok(count) => *count == 0 && !buf.is_empty(),
            Err(_) => true,
        };
        if is_fault {
            self.count_failed();
        }
        result
    }

    fn flush(&mut self) -> io::Result<()>
        ensures bytes { Keeps (W.contents self.old.inner) (W.contents self.new.inner) }
        ensures faults { CountsFault (is_err result) self.old.faults self.new.faults }
        ensures failed { CountsFault (is_err result) self.old.failed self.new.failed }
        ensures last_fault { self.new.last_fault ≡ fault_after result self.old.last_fault }
        ensures flushed { self.new.flushed ≡ is_ok result }
    {
        let result = self.end.flush();
        if result.is_err() {
            self.count_failed();
        }
        result
    }

    /// Writes all the bytes, in as many writes as that takes, and retries after an interruption.
    ///
    /// Each interruption counts. If a write returns `Ok(0)` it fails with `ErrorKind::WriteZero`, and after `u64::MAX`
    /// interruptions of one write with `ErrorKind::TimedOut`.
    fn write_all(&mut self, buf: &[u8]) -> io::Result<()>
        ensures bytes { OnOk result (Appends (W.contents self.old.inner) (W.contents self.new.inner)
            buf.now) }
        ensures err { OnErr result (AppendsFront (W.contents self.old.inner)
            (W.contents self.new.inner) buf.now) }
        ensures faults { Retries self.old.faults self.new.faults result }
        ensures failed { CountsFault (is_err result) self.old.failed self.new.failed }
        ensures last_fault { LeavesFault self.old.last_fault self.new.last_fault result }
        ensures flushed { 0 < length buf.now → self.new.flushed ≡ false }
    {
        let mut rest = buf;
        while !rest.is_empty() {
            let count = self.write_some(rest)?;
            rest = &rest[count..];
        }
        Ok(())
    }
}

impl<W: Write> Counted<W> {
    // Writes some of the bytes, and retries after an interruption.
    fn write_some(&mut self, buf: &[u8]) -> io::Result<usize>
        requires { 0 < length buf.now }
        ensures some { IfOk result (λ n. 0 < n) }
        ensures bound { WritesAtMost result buf.now }
        ensures bytes { WriteAppends (W.contents self.old.inner) (W.contents self.new.inner)
            result buf.now }
        ensures faults { Retries self.old.faults self.new.faults result }
        ensures failed { CountsFault (is_err result) self.old.failed self.new.failed }
        ensures last_fault { LeavesFault self.old.last_fault self.new.last_fault result }
        ensures flushed { 0 < length buf.now → self.new.flushed ≡ false }
    {
        for _tries in 0..u64::MAX {
            match self.end.write(buf) {
                Ok(0) => {
                    self.count_failed();
                    return Err(io::Error::from(ErrorKind::WriteZero));
                }
                Ok(count) => return Ok(count),
                Err(e) => {
                    if e.kind() != ErrorKind::Interrupted {
                        self.count_failed();
                        return Err(e);
                    }
                }
            }
        }
        self.end.time_out();
        self.count_failed();
        Err(io::Error::from(ErrorKind::TimedOut))
    }
}
