//! Keeping some of the characters.
ghost use Rattle.std.specs.Prelude.{◌≡◌, ◌+◌, ◌≤◌, ◌++◌, length, take, drop, IsUtf8};
ghost use Rattle.std.specs.String.{RetainsChars};
ghost use Rattle.tinyvec_text.specs.InlineText.{RetainsCharsTo, TextStaysInPlace};

use super::InlineText;
use super::edits::first_char;

impl<const N: usize> InlineText<N> {
    /// Calls `f` on each character in turn, and keeps those for which it returns `true`. Does not allocate, and the text
    /// stays in its place.
    pub fn retain<F: FnMut(char) -> bool>(&mut self, mut f: F)
        requires { F.IsAlwaysCallable f }
        ensures filtered { RetainsChars F.FnMut f self.old.bytes self.new.bytes }
        ensures frame { TextStaysInPlace self.old self.new }
    {
        let kept = move_kept_to_front(self.list.as_mut_slice(), &mut f);
        self.list.truncate(kept);
    }
}

// Moves characters to the front if `keep` says so. Returns the length of what it kept, in bytes.
fn move_kept_to_front<F: FnMut(char) -> bool>(bytes: &mut [u8], keep: &mut F) -> usize
    requires utf8 { IsUtf8 bytes.old }
    requires callable { F.IsAlwaysCallable keep.old }
    ensures filtered { RetainsChars F.FnMut keep.old bytes.old (take result bytes.new) }
    ensures asked { RetainsCharsTo F.FnMut keep.old bytes.old (take result bytes.new) keep.new }
    ensures bound { result ≤ length bytes.old }
    ensures utf8 { IsUtf8 (take result bytes.new) }
{
    let mut read = 0;
    let mut kept = 0;
    while read < bytes.len() {
        let (c, width) = first_char(&bytes[read..]);
        if keep(c) {
            copy_down(bytes, kept, read, width);
            kept += width;
        }
        read += width;
    }
    kept
}

// Copies the `n` bytes at `from` to `to`, which is not past them. A character is too short for a `memmove`.
fn copy_down(bytes: &mut [u8], to: usize, from: usize, n: usize)
    requires downward { to ≤ from }
    requires in_bounds { from + n ≤ length bytes.old }
    ensures front { take (to + n) bytes.new ≡ take to bytes.old ++ take n (drop from bytes.old) }
    ensures rest { drop (from + n) bytes.new ≡ drop (from + n) bytes.old }
{
    // Most characters are ASCII.
    if n == 1 {
        bytes[to] = bytes[from];
        return;
    }
    for i in 0..n {
        bytes[to + i] = bytes[from + i];
    }
}
