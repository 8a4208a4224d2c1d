//! The buffer of a Unicode normaliser: characters whose marks are still to be sorted.
ghost use Rattle.std.specs.Prelude.{◌≤◌};
ghost use Rattle.tinyvec.specs.TinyVec.{tiny_len};

use std::alloc::{AllocError, Global};
use tinyvec::TinyVec;

/// Characters with their combining classes. The first `sorted` are in their final order.
pub struct Marks {
    buffer: TinyVec<[(u8, char); 4]>,
    sorted: usize,
    alloc: Global,
}

impl Marks {
    /// Appends a character. One of class 0 ends the run of marks before it.
    pub fn push(&mut self, class: u8, c: char) -> Result<(), AllocError>
        requires { self.old.sorted ≤ tiny_len self.old.buffer }
    {
        if class == 0 {
            self.sort()?;
        }
        self.buffer.push((class, c))?;
        Ok(())
    }

    // Sorts the run of marks at the end. Marks of one class keep their order.
    fn sort(&mut self) -> Result<(), AllocError>
        requires { self.old.sorted ≤ tiny_len self.old.buffer }
    {
        let marks = &mut self.buffer.as_mut_slice()[self.sorted..];
        marks.sort_by_key(self.alloc, |mark| mark.0)?;
        self.sorted = self.buffer.len();
        Ok(())
    }

    /// Drops the characters that are in their final order.
    pub fn drop_sorted(&mut self)
        requires { self.old.sorted ≤ tiny_len self.old.buffer }
    {
        self.buffer.drain(..self.sorted);
        self.sorted = 0;
    }
}
