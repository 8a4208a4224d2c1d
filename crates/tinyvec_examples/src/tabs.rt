//! Tabs of a text, written as blanks.
ghost use Rattle.std.specs.Prelude.{◌≡◌, ◌<◌, ◌++◌, ◌∷◌, take, drop, suc, OnOk};
ghost use Rattle.tinyvec.specs.TinyVec.{tiny_items, tiny_len};
ghost use Rattle.tinyvec_examples.specs.Tabs.{expanded};

use std::alloc::AllocError;
use tinyvec::TinyVec;

/// Puts four blanks in the place of each tab.
pub fn expand_tabs(text: &mut TinyVec<[u8; 64]>) -> Result<(), AllocError>
    ensures expanded { OnOk result (tiny_items text.new ≡ expanded (tiny_items text.old)) }
{
    for at in (0..text.len()).rev() {
        if text[at] == b'\t' {
            put_blanks(text, at)?;
        }
    }
    Ok(())
}

// Puts four blanks in the place of the byte at `at`.
fn put_blanks(text: &mut TinyVec<[u8; 64]>, at: usize) -> Result<(), AllocError>
    requires { at < tiny_len text.old }
    ensures blanks { OnOk result (tiny_items text.new
        ≡ take at (tiny_items text.old) ++ 32 ∷ 32 ∷ 32 ∷ 32 ∷ drop (suc at) (tiny_items text.old)) }
{
    // A vector that was lent is not known to fit until a call says so.
    let _len = text.len();
    text.replace_range(at..at + 1, &[b' '; 4])
}
