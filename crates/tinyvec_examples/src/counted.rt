//! Callers of a `Counted`.
ghost use Rattle.std.specs.Io.{StartsWith};
ghost use Rattle.std.specs.Prelude.{take, IfOk};

use std::io;
use tinyvec_io::Counted;

/// Copies the first bytes of the text, as many as fit, and returns their number.
pub fn first_bytes(text: &[u8], buf: &mut [u8]) -> io::Result<usize>
    ensures { IfOk result (λ n. StartsWith text.now (take n buf.new)) }
{
    let mut reader = Counted::new(text);
    reader.fill(buf)
}
