//! Vectors as texts.
ghost use Rattle.std.specs.Prelude.{◌≡◌, ◌++◌, List, ℕ, Some, IfOk, string_bytes, codes};
ghost use Rattle.std.specs.List.{join_by};
ghost use Rattle.tinyvec_array.specs.View.{view};

use std::alloc::{AllocError, Global};
use std::fmt;
use tinyvec::{Array, ArrayVec};

/// A list whose items' texts are known: these, joined by a comma and a blank, in brackets.
pub fn displayed_items<A: Array>(alloc: Global, v: &ArrayVec<A>) -> Result<String, AllocError>
where
    A::Item: fmt::Display,
    ensures { (text : A.Item → List ℕ) → ((x : A.Item) → A.Item.output x ≡ Some (text x))
        → IfOk result (λ s. string_bytes s ≡ codes "[" ++ (join_by text (codes ", ") (view A.Slots v.now).items ++ codes "]")) }
{
    format!(in alloc; "{}", *v)
}
