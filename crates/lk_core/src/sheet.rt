//! What the weak head forms keep while they wait for a term. For yes or no none of them waits.

use lk_lit::sheet::LitSheet;

/// What waits for a term.
#[derive(Drop)]
pub enum CoreSheet<X: Drop> {
    /// The answer is that of the question too.
    Passed,
    /// `Core` of an application, after that of its head.
    Head { application: X },
    /// `Whnf`, after `Core`.
    WhnfCore,
    /// `Whnf`, while an operation on numbers is computed.
    Literal(LitSheet<X>),
}
