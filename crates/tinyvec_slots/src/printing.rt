//! The text of a list: `[`, the items joined by a comma and a blank, `]`.
ghost use Rattle.std.specs.Prelude.{ℕ, true, false, List, Option, Some, [], if◌then◌else◌};
ghost use Rattle.std.specs.Fmt.{DisplaysOnOk, ◌++?◌, comma_space, debug_list, debug_variant};
ghost use Rattle.tinyvec_slots.specs.Texts.{radix_text};

use std::fmt;
use std::fmt::HasDigits;

/// A way to write an item of a list.
pub trait ItemText<T> {
    // The bytes that it writes, or `None` if no clause says them.
    ghost text: { Self → T → Option (List ℕ) };

    /// Writes the item.
    fn write<W: fmt::Write>(&self, f: &mut fmt::Formatter<W>, item: &T) -> fmt::Result
        ensures { DisplaysOnOk W.write_str_gives f.old result (text self.now item.now) f.new };
}

/// As `{}` does.
#[derive(Clone, Copy)]
pub struct Plain;

impl<T: fmt::Display> ItemText<T> for Plain {
    ghost text = { λ _. T.output };

    fn write<W: fmt::Write>(&self, f: &mut fmt::Formatter<W>, item: &T) -> fmt::Result {
        item.fmt(f)
    }
}

/// As `{:b}` does.
#[derive(Clone, Copy)]
pub struct InBinary;

impl<T: HasDigits + Copy> ItemText<T> for InBinary {
    ghost text = { λ _ x. radix_text 2 false (T.word x) };

    fn write<W: fmt::Write>(&self, f: &mut fmt::Formatter<W>, item: &T) -> fmt::Result {
        let x = *item;
        write!(f, "{x:b}")
    }
}

/// As `{:o}` does.
#[derive(Clone, Copy)]
pub struct InOctal;

impl<T: HasDigits + Copy> ItemText<T> for InOctal {
    ghost text = { λ _ x. radix_text 8 false (T.word x) };

    fn write<W: fmt::Write>(&self, f: &mut fmt::Formatter<W>, item: &T) -> fmt::Result {
        let x = *item;
        write!(f, "{x:o}")
    }
}

/// As `{:x}` does.
#[derive(Clone, Copy)]
pub struct InHex;

impl<T: HasDigits + Copy> ItemText<T> for InHex {
    ghost text = { λ _ x. radix_text 16 false (T.word x) };

    fn write<W: fmt::Write>(&self, f: &mut fmt::Formatter<W>, item: &T) -> fmt::Result {
        let x = *item;
        write!(f, "{x:x}")
    }
}

/// As `{:X}` does.
#[derive(Clone, Copy)]
pub struct InUpperHex;

impl<T: HasDigits + Copy> ItemText<T> for InUpperHex {
    ghost text = { λ _ x. radix_text 16 true (T.word x) };

    fn write<W: fmt::Write>(&self, f: &mut fmt::Formatter<W>, item: &T) -> fmt::Result {
        let x = *item;
        write!(f, "{x:X}")
    }
}

/// Writes `name`, and in parentheses the items as a slice's `Debug` does.
pub fn write_named<T: fmt::Debug, W: fmt::Write>(
    f: &mut fmt::Formatter<W>,
    name: &str,
    items: &[T],
) -> fmt::Result
    ensures { DisplaysOnOk W.write_str_gives f.old result
        (debug_variant name.now (debug_list T.debug_output items.now)) f.new }
{
    f.write_str(name)?;
    f.write_str("(")?;
    fmt::Debug::fmt(&items, f)?;
    f.write_str(")")
}

/// Writes the items of a list.
pub fn write_items<T, S: ItemText<T>, W: fmt::Write>(
    f: &mut fmt::Formatter<W>,
    items: &[T],
    how: &S,
) -> fmt::Result
    ensures { DisplaysOnOk W.write_str_gives f.old result (debug_list (S.text how.now) items.now) f.new }
{
    f.write_str("[")?;
    for i in 0..items.len() {
        write_item(f, 0 < i, &items[i], how)?;
    }
    f.write_str("]")
}

// Writes an item, after a comma unless it is the first.
fn write_item<T, S: ItemText<T>, W: fmt::Write>(
    f: &mut fmt::Formatter<W>,
    is_later: bool,
    item: &T,
    how: &S,
) -> fmt::Result
    ensures { DisplaysOnOk W.write_str_gives f.old result
        (Some (if is_later then comma_space else []) ++? S.text how.now item.now) f.new }
{
    if is_later {
        f.write_str(", ")?;
    }
    how.write(f, item)
}
