ghost use Rattle.std.specs.Prelude.{◌≡◌, ◌≤◌, ⊤};

use std::alloc::AllocError;

mod calls;

// A list of at most N values, kept in place so that a copy needs no memory. The library's ArrayVec is no Copy.
pub struct Few<T: Copy, const N: usize> {
    items: [T; N],
    len: usize,
    ghost within: { len ≤ N },
}

// Written out: the check refuses `derive(Clone, Copy)` here, where a type parameter stands beside a ghost field.
impl<T: Copy, const N: usize> Clone for Few<T, N> {
    ghost is_clone = { λ x y. y ≡ x };

    ghost is_infallible = { λ _. ⊤ };

    fn clone(&self) -> Result<Self, AllocError> {
        Ok(*self)
    }
}

impl<T: Copy, const N: usize> Copy for Few<T, N> {}
