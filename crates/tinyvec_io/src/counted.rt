//! `Counted`.
ghost use Rattle.std.specs.Prelude.{◌≡◌, None, false, true};
ghost use Rattle.tinyvec_io.specs.Counted.{CountedView, CountsFault};

mod end;
mod reading;
mod writing;

use end::End;
use std::io::ErrorKind;
use std::marker::Model;

/// A reader or writer, and the number of its faults.
///
/// A fault is a `read`, `write` or `flush` that returned `Err`, also `Interrupted`, and a `write` of a non-empty buffer that
/// returned `Ok(0)`. The end of input is no fault. Each of these calls is passed on as it is, and its result is returned;
/// no bytes are buffered. Apart from the faults, contracts see how many calls failed: an interruption after which
/// `read_some`, `fill` or `write_all` tried again is a fault, but no call that failed.
#[derive(Debug, Drop)]
pub struct Counted<E> {
    end: End<E>,
    failed: u64,
}

impl<E> Model for Counted<E> {
    ghost Value = { CountedView E };

    ghost view = { λ c. record {
      inner = c.end.inner;
      faults = c.end.faults;
      last_fault = c.end.last_fault;
      failed = c.failed;
      flushed = c.end.flushed;
    } };
}

impl<E> Counted<E> {
    /// Wraps a reader or writer, with no fault so far.
    pub fn new(inner: E) -> Self
        ensures inner { result.inner ≡ inner }
        ensures faults { result.faults ≡ 0 }
        ensures last_fault { result.last_fault ≡ None }
        ensures failed { result.failed ≡ 0 }
        ensures flushed { result.flushed ≡ false }
    {
        Counted {
            end: End::new(inner),
            failed: 0,
        }
    }

    /// The number of faults so far. It stays at `u64::MAX` once there.
    pub fn faults(&self) -> u64
        ensures { result ≡ self.now.faults }
    {
        self.end.faults()
    }

    /// The kind of the last fault. That of a write that took nothing is `ErrorKind::WriteZero`.
    pub fn last_fault(&self) -> Option<ErrorKind>
        ensures { result ≡ self.now.last_fault }
    {
        self.end.last_fault()
    }

    /// Returns the reader or writer, and drops the number.
    pub fn into_inner(self) -> E
        ensures { result ≡ self.inner }
    {
        let Counted { end, failed: _ } = self;
        end.into_inner()
    }

    fn count_failed(&mut self)
        ensures inner { self.new.inner ≡ self.old.inner }
        ensures faults { self.new.faults ≡ self.old.faults }
        ensures last_fault { self.new.last_fault ≡ self.old.last_fault }
        ensures failed { CountsFault true self.old.failed self.new.failed }
        ensures flushed { self.new.flushed ≡ self.old.flushed }
    {
        self.failed = self.failed.saturating_add(1);
    }
}
