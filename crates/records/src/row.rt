// The type of rows, alone in a file, so that definitions may name it.
ghost use Rattle.std.specs.Prelude.{⊤, ◌≡◌, ◌≤◌};

use std::alloc::AllocError;

// Things one behind another, as many as there is room for. They lie in the value itself, so that it asks for no memory and
// can be copied, which an `ArrayVec` can't be.
pub struct Row<T: Copy, const ROOM: usize> {
    pub(crate) cells: [T; ROOM],
    pub(crate) len: usize,
    ghost fits: { len ≤ ROOM },
}

impl<T: Copy, const ROOM: usize> Copy for Row<T, ROOM> {}

// By hand, since `Clone` can't be derived over the ghost field.
impl<T: Copy, const ROOM: usize> Clone for Row<T, ROOM> {
    ghost is_clone = { λ x y. y ≡ x };

    ghost is_infallible = { λ _. ⊤ };

    fn clone(&self) -> Result<Self, AllocError> {
        Ok(*self)
    }
}
