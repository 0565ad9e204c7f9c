ghost use Rattle.std.specs.Prelude.{◌≡◌, ◌≤◌, ⊤};

use std::alloc::AllocError;

mod list;

/// At most `N` values, kept in the struct itself, in the order in which they came.
pub struct Few<T, const N: usize> {
    items: [T; N],
    count: usize,
    ghost fits: { count ≤ N },
}

// by hand: no copy of a generic struct with an invariant can be derived
impl<T: Copy, const N: usize> Clone for Few<T, N> {
    ghost is_clone = { λ x y. y ≡ x };

    ghost is_infallible = { λ _. ⊤ };

    fn clone(&self) -> Result<Few<T, N>, AllocError> {
        Ok(*self)
    }
}

impl<T: Copy, const N: usize> Copy for Few<T, N> {}
