//! Bytes that are read and written whole.
ghost use Rattle.std.specs.Prelude.{◌≡◌, ◌<◌, ◌≤◌, length, IfErr, OnErr, OnOk};
ghost use Rattle.std.specs.Io.KnownBytes.{Appends, Consumes};
ghost use Rattle.std.specs.List.{AllByRecursion};
ghost use Rattle.tinyvec_io.specs.Counted.{AppendsFront, ConsumesFront, Reported};
ghost use Rattle.tinyvec_borsh.specs.Failed.{CountsIo};
ghost use Rattle.tinyvec_borsh.specs.Reading.{FailsFor, FewBytes};

use crate::BorshError;
use std::io::{Read, Write};
use tinyvec_io::Counted;

// Fills the buffer.
pub(crate) fn read_bytes<R: Read>(reader: &mut Counted<R>, buf: &mut [u8]) -> Result<(), BorshError>
    ensures ok { OnOk result (Consumes (R.remaining reader.old.inner) (R.remaining reader.new.inner) buf.new) }
    ensures small { OnOk result (AllByRecursion (λ byte. byte < 256) buf.new) }
    ensures fails { FailsFor R.remaining (FewBytes (length buf.old)) reader.old reader.new result }
    ensures front { OnErr result (ConsumesFront (R.remaining reader.old.inner) (R.remaining reader.new.inner) buf.new) }
{
    match reader.fill(buf) {
        Ok(count) if count < buf.len() => Err(BorshError::Ended),
        Ok(_) => Ok(()),
        Err(_) => Err(BorshError::Io),
    }
}

// Writes all the bytes.
pub(crate) fn write_bytes<W: Write>(writer: &mut Counted<W>, bytes: &[u8]) -> Result<(), BorshError>
    ensures ok { OnOk result (Appends (W.contents writer.old.inner) (W.contents writer.new.inner) bytes.now) }
    ensures err { IfErr result (λ e. (e ≡ BorshError.Io) × Reported writer.old.faults writer.new.faults) }
    ensures front { OnErr result (AppendsFront (W.contents writer.old.inner) (W.contents writer.new.inner) bytes.now) }
    ensures faults_grow { writer.old.faults ≤ writer.new.faults }
    ensures failed { CountsIo writer.old.failed writer.new.failed result }
{
    match writer.write_all(bytes) {
        Ok(()) => Ok(()),
        Err(_) => Err(BorshError::Io),
    }
}
