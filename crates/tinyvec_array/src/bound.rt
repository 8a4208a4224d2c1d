//! `UpTo`.
ghost use Rattle.std.specs.Prelude.{◌≤◌};

/// A length of at most N.
#[derive(Drop, Clone, Copy)]
pub struct UpTo<const N: usize> {
    pub(crate) len: usize,
    ghost bound: { len ≤ N },
}
