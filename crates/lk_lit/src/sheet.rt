//! What the literal step and the lines of literals keep while another question is asked.

pub use crate::answer::AnswerSheet;

/// What the literal step of a term keeps while it waits for a numeral.
#[derive(Drop)]
pub enum LitSheet<X: Drop> {
    /// After the weak head form of the first argument.
    First { term: X },
    /// After that of the second one, where the first one is this number.
    Second { term: X, first: u128 },
}

/// What literals keep while they wait for a term.
#[derive(Drop)]
pub enum LiteralsSheet<X: Drop> {
    /// In the literal step of the left one.
    Left {
        left: X,
        right: X,
        step: LitSheet<X>,
    },
    /// In that of the right one. The left one takes none.
    Right {
        left: X,
        right: X,
        step: LitSheet<X>,
    },
}
