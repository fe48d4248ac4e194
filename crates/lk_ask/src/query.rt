//! Questions and answers.

/// A question on terms.
#[derive(Clone, Copy)]
pub enum Query<X> {
    /// The weak head form without unfolding.
    Core(X),
    /// The weak head form.
    Whnf(X),
    /// The type.
    Infer(X),
    /// Whether two are the same.
    Same(X, X),
}

/// An answer.
#[derive(Clone, Copy)]
pub enum Answer<X> {
    Term(X),
    Truth(bool),
}
