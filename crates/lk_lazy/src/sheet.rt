//! What unfolding keeps while another question is asked.

use lk_ask::sheet::Pair;
use lk_ask::stack::Stack;

/// What it keeps while it waits for yes or no.
#[derive(Drop)]
pub enum LazySheet<X: Drop> {
    /// The answer is that of the question too.
    Passed,
    /// Two terms whose heads are one constant, after a pair of their arguments. The others are
    /// still to be compared, the last one first. Where two are not the same, both terms unfold.
    Arguments {
        left: X,
        right: X,
        others: Stack<Pair<X>>,
    },
}
