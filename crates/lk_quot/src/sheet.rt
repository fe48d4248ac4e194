//! What `Core` of a constant of quotient types keeps while it waits for a term.

/// What it keeps. `application` is the whole term.
#[derive(Drop)]
pub enum QuotSheet<X: Drop> {
    /// The answer is that of the question too.
    Passed,
    /// After the weak head form of the major premise.
    Major { application: X },
}
