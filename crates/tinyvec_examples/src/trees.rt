//! A node of a tree, as it can be written here.
ghost use Rattle.std.specs.Prelude.{◌≡◌};

use std::alloc::{AllocError, Global};
use tinyvec::TinyVec;

/// A number, or a sum of such terms, of which two fit the array of its vector.
#[derive(Drop, Debug)]
pub enum Term {
    Leaf(u32),
    Sum(Box<TinyVec<[Term; 2]>>),
}

impl Default for Term {
    ghost use Rattle.tinyvec_examples.specs.declared.trees.Term.TheVariants.{Leaf};

    ghost is_default = { λ term. term ≡ Leaf 0 };

    fn default() -> Term {
        Term::Leaf(0)
    }
}

/// The sum of some numbers, as a tree.
pub fn sum(alloc: Global, numbers: &[u32]) -> Result<Term, AllocError> {
    let mut terms = TinyVec::new(alloc);
    for number in numbers {
        terms.push(Term::Leaf(*number))?;
    }
    Ok(Term::Sum(Box::new(alloc, terms)?))
}
