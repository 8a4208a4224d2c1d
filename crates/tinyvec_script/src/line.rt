//! The part of a line that was read so far.
ghost use Rattle.std.specs.Prelude.{◌≡◌, ◌↔◌, List, ℕ, [], None, Some, MatchOption, IsTrue, if◌then◌else◌, Option};
ghost use Rattle.tinyvec_array.specs.ArrayVec.{items};
ghost use Rattle.tinyvec_script.specs.History.{extend_kept};

use std::marker::Model;
use tinyvec::ArrayVec;

/// The bytes of a line so far, unless there are too many for a command.
#[derive(Drop)]
pub struct Line {
    bytes: ArrayVec<[u8; 128]>,
    is_long: bool,
}

impl Model for Line {
    ghost Value = { Option (List ℕ) };

    ghost view = { λ l. if l.is_long then None else Some (items l.bytes) };
}

impl Line {
    pub fn new() -> Self
        ensures { result ≡ Some [] }
    {
        Line {
            bytes: ArrayVec::new(),
            is_long: false,
        }
    }

    pub fn clear(&mut self)
        ensures { self.new ≡ Some [] }
    {
        self.bytes.set_len(0);
        self.is_long = false;
    }

    pub fn extend(&mut self, piece: &[u8])
        ensures { self.new ≡ extend_kept self.old piece.now }
    {
        if piece.len() > self.bytes.capacity() - self.bytes.len() {
            self.is_long = true;
        } else {
            self.bytes.extend_from_slice_copy(piece);
        }
    }

    pub fn is_empty(&self) -> bool
        ensures { IsTrue result ↔ (self.now ≡ Some []) }
    {
        self.bytes.is_empty() && !self.is_long
    }

    /// The bytes, unless there are too many for a command.
    pub fn as_slice(&self) -> Option<&[u8]>
        ensures { MatchOption result (self.now ≡ None) (λ bytes. self.now ≡ Some bytes.now) }
    {
        if self.is_long {
            None
        } else {
            Some(self.bytes.as_slice())
        }
    }
}
