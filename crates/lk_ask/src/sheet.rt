//! What a question keeps while another one is asked.

ghost use Rattle.std.specs.Prelude.{◌≡◌, ⊤};

use std::alloc::AllocError;

/// What a question keeps while it waits for a term, or while it waits for yes or no.
#[derive(Drop)]
pub enum Sheet<T: Drop, U: Drop> {
    Term(T),
    Truth(U),
}

/// Two that are compared.
pub struct Pair<X> {
    pub left: X,
    pub right: X,
}

impl<X: Copy> Clone for Pair<X> {
    ghost is_clone = { λ x y. y ≡ x };

    ghost is_infallible = { λ _. ⊤ };

    fn clone(&self) -> Result<Pair<X>, AllocError> {
        Ok(*self)
    }
}

impl<X: Copy> Copy for Pair<X> {}
