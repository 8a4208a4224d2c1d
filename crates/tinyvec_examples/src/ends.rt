//! Callers of `push`, `try_push` and `pop`.
ghost use Rattle.std.specs.Prelude.{◌≡◌, ◌<◌, ◌∷◌, [], ◌++◌, pos, length};
ghost use Rattle.tinyvec_array.specs.View.{view};

use tinyvec_array::{Array, ArrayVec};

/// Appends `x` if `is_full` says that there is room.
pub fn push_if_room<A: Array>(v: &mut ArrayVec<A>, x: A::Item)
    ensures room { length (view A.Slots v.old).items < A.CAPACITY → (view A.Slots v.new).items ≡ (view A.Slots v.old).items ++ x ∷ [] }
    ensures full { length (view A.Slots v.old).items ≡ A.CAPACITY → v.new ≡ v.old }
{
    if !v.is_full() {
        v.push(x);
    }
}

/// The popped slot holds 0 again.
pub fn popped() -> [i32; 4]
    ensures { result ≡ pos 1 ∷ pos 0 ∷ pos 0 ∷ pos 0 ∷ [] }
{
    let mut v: ArrayVec<[i32; 4]> = ArrayVec::new();
    v.push(1);
    v.push(2);
    let _two = v.pop();
    v.into_inner()
}
