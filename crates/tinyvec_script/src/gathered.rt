//! Bytes that are gathered before they are written.
ghost use Rattle.std.specs.Prelude.{◌≡◌, [], Some};
ghost use Rattle.tinyvec_array.specs.ArrayVec.{items};
ghost use Rattle.tinyvec_script.specs.Writes.{Gathers, Sends, gathered_of};

use std::io;
use std::io::Write;
use std::marker::Model;
use tinyvec::ArrayVec;
use tinyvec_io::Counted;

// Mostly enough for the answers to 4 KiB of lines.
const ROOM: usize = 16384;

// Bytes that are gathered before they are written, and the error of a writer that failed. After an error nothing more is
// written, and what is put is dropped: so a line is put together with no test of each piece.
#[derive(Drop)]
pub(crate) struct Gathered {
    bytes: ArrayVec<[u8; ROOM]>,
    error: Option<io::Error>,
}

impl Model for Gathered {
    ghost use Rattle.std.specs.Prelude.{List, ℕ, Option};
    ghost use Rattle.tinyvec_array.specs.ArrayVec.{items};
    ghost use Rattle.tinyvec_script.specs.Writes.{gathered_of};

    ghost Value = { Option (List ℕ) };

    ghost view = { λ g. gathered_of g.error (items g.bytes) };
}

impl Gathered {
    pub(crate) fn new() -> Self
        ensures { result ≡ Some [] }
    {
        Gathered {
            bytes: ArrayVec::new(),
            error: None,
        }
    }

    // Appends the text. Without room for it, writes what was gathered before.
    #[inline(always)]
    pub(crate) fn put<W: Write>(&mut self, writer: &mut Counted<W>, text: &[u8])
        ensures { Gathers W.contents writer.old self.old writer.new self.new text.now }
    {
        if text.len() > self.bytes.capacity() - self.bytes.len() {
            self.put_after_send(writer, text);
        } else {
            self.bytes.extend_from_slice_copy(text);
        }
    }

    // `put` of a few bytes, whose number the compiler knows: it stores them, where `put` would call `memcpy`.
    #[inline(always)]
    pub(crate) fn put_few<W: Write>(&mut self, writer: &mut Counted<W>, text: &[u8])
        ensures { Gathers W.contents writer.old self.old writer.new self.new text.now }
    {
        if text.len() > self.bytes.capacity() - self.bytes.len() {
            self.put_after_send(writer, text);
        } else {
            let Ok(()) = self.bytes.extend_from_slice(text) else {
                unreachable!();
            };
        }
    }

    #[cold]
    #[inline(never)]
    fn put_after_send<W: Write>(&mut self, writer: &mut Counted<W>, text: &[u8])
        ensures { Gathers W.contents writer.old self.old writer.new self.new text.now }
    {
        if let Err(error) = self.send(writer) {
            self.error = Some(error);
            return;
        }
        if text.len() <= self.bytes.capacity() {
            self.bytes.extend_from_slice_copy(text);
            return;
        }
        if let Err(error) = writer.write_all(text) {
            self.error = Some(error);
        }
    }

    // Writes what was gathered, or returns the error that there was.
    pub(crate) fn send<W: Write>(&mut self, writer: &mut Counted<W>) -> io::Result<()>
        ensures { Sends W.contents writer.old self.old writer.new self.new result }
    {
        if let Some(error) = self.error.take() {
            return Err(error);
        }
        writer.write_all(self.bytes.as_slice())?;
        self.bytes.set_len(0);
        Ok(())
    }
}
