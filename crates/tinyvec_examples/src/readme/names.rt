//! A list of texts, which have no `Default`, so that each is in an `Option`.
ghost use Rattle.std.specs.Prelude.{◌<◌, IfOk, IsSome};
ghost use Rattle.std.specs.List.{All};
ghost use Rattle.tinyvec.specs.TinyVec.{tiny_items, tiny_len};

use std::alloc::{AllocError, Global};
use tinyvec::TinyVec;
use tinyvec_text::InlineText;

/// Names, none of which is `None`.
pub type Names = TinyVec<[Option<InlineText<16>>; 4]>;

/// The names between blanks.
pub fn names(alloc: Global, line: &str) -> Result<Names, AllocError>
    ensures { IfOk result (λ names. All IsSome (tiny_items names)) }
{
    let mut names = TinyVec::new(alloc);
    for name in line.split(' ') {
        add(&mut names, InlineText::from_str(alloc, name)?)?;
    }
    Ok(names)
}

/// One name more.
pub fn add(names: &mut Names, name: InlineText<16>) -> Result<(), AllocError>
    requires { All IsSome (tiny_items names.old) }
    ensures { All IsSome (tiny_items names.new) }
{
    names.push(Some(name))?;
    Ok(())
}

/// The name at a place.
pub fn name(names: &Names, i: usize) -> &str
    requires some { All IsSome (tiny_items names.now) }
    requires in_list { i < tiny_len names.now }
{
    match &names[i] {
        Some(name) => name.as_str(),
        None => unreachable!(),
    }
}
