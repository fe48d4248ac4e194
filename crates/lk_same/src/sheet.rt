//! What `Same` keeps while another question is asked.

use lk_ask::sheet::Pair;
use lk_ask::stack::Stack;
use lk_eta::sheet::{EtaTermSheet, EtaTruthSheet};
use lk_lazy::sheet::LazySheet;
use lk_lit::sheet::LiteralsSheet;

/// What the comparison of two terms as proofs keeps while it waits for a term. `ty` is the type of
/// the left one.
#[derive(Drop)]
pub enum ProofSheet<X: Drop> {
    /// After `Infer` of the left one.
    Left { left: X, right: X },
    /// After `Infer` of its type.
    LeftSort { left: X, right: X, ty: X },
    /// After `Whnf` of that.
    LeftSortForm { left: X, right: X, ty: X },
    /// After `Infer` of the right one, where the type of the left one is a proposition.
    Right { left: X, right: X, ty: X },
}

/// What `Same` keeps while it waits for a term.
#[derive(Drop)]
pub enum SameTermSheet<X: Drop> {
    /// After `Core` of the left one.
    CoreLeft { left: X, right: X },
    /// After `Core` of the right one; `form` is that of the left one.
    CoreRight { left: X, right: X, form: X },
    /// As proofs.
    Proof(ProofSheet<X>),
    /// By literals.
    Literals(LiteralsSheet<X>),
    /// By eta.
    Eta(EtaTermSheet<X>),
}

/// What it keeps while it waits for yes or no.
#[derive(Drop)]
pub enum SameTruthSheet<X: Drop> {
    /// The answer is that of the question too.
    Passed,
    /// Two binders, after their domains. The bodies are opened with the Local of this number and
    /// the first domain.
    Domains {
        domain: X,
        left: X,
        right: X,
        number: u64,
    },
    /// Two terms part by part, after a pair of parts. The others are still to be compared, the last
    /// one first.
    Parts {
        left: X,
        right: X,
        others: Stack<Pair<X>>,
    },
    /// Two projections, after their subjects.
    Subjects {
        left: X,
        right: X,
    },
    /// Two proofs, after their types.
    Types {
        left: X,
        right: X,
    },
    /// By unfolding.
    Lazy(LazySheet<X>),
    /// By eta.
    Eta(EtaTruthSheet<X>),
}
