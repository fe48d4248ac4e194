//! Verdicts.

use lk_tree::rule::Rule;

/// What is said of a unit.
#[derive(Clone, Copy)]
pub enum Verdict {
    Yes,
    No(Rule),
    /// The budget is used up.
    Steps,
    /// Memory is wanting.
    Memory,
}
