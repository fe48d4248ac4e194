//! What eta keeps while another question is asked.

use lk_ask::sheet::Pair;
use lk_ask::stack::Stack;

/// What function eta keeps while it waits for a term. One of the two is a lambda.
#[derive(Drop)]
pub enum FunctionSheet<X: Drop> {
    /// After the type of the left one, where the right one is the lambda.
    First { left: X, right: X },
    /// After the weak head form of that.
    FirstForm { left: X, right: X },
    /// After the type of the right one, where the left one is the lambda.
    Second { left: X, right: X },
    /// After the weak head form of that.
    SecondForm { left: X, right: X },
}

/// What structure eta keeps while it waits for a term. `right` is the constructor, applied.
#[derive(Drop)]
pub enum StructureTermSheet<X: Drop> {
    /// After the type of the left one.
    Left { left: X, right: X },
    /// After the type of the right one; `ty` is that of the left one.
    Right { left: X, right: X, ty: X },
}

/// What it keeps while it waits for yes or no.
#[derive(Drop)]
pub enum StructureTruthSheet<X: Drop> {
    /// After the two types were compared.
    Types {
        left: X,
        right: X,
    },
    /// After a projection was compared with its field. The others are still to be compared, the last one first.
    Fields {
        left: X,
        right: X,
        others: Stack<Pair<X>>,
    },
}

/// Which of the two terms of the question structure eta has as the constructor, applied.
#[derive(Clone, Copy)]
pub enum Way {
    /// The second one.
    Given,
    /// The first one, so that the sheet has the two turned.
    Turned,
}

/// What eta of unit-like types keeps while it waits for a term.
#[derive(Drop)]
pub enum UnitSheet<X: Drop> {
    /// After the type of the left one.
    Left { left: X, right: X },
    /// After the weak head form of that; `ty` is the type itself.
    LeftForm { left: X, right: X, ty: X },
    /// After the type of the right one; `ty` is that of the left one.
    Right { left: X, right: X, ty: X },
}

/// What eta keeps while it waits for a term.
#[derive(Drop)]
pub enum EtaTermSheet<X: Drop> {
    Function(FunctionSheet<X>),
    Structure(Way, StructureTermSheet<X>),
    Unit(UnitSheet<X>),
}

/// What it keeps while it waits for yes or no.
#[derive(Drop)]
pub enum EtaTruthSheet<X: Drop> {
    /// By function eta, after the other one, as a lambda, was compared.
    Long { left: X, right: X },
    Structure(Way, StructureTruthSheet<X>),
    /// The answer is that of the question too.
    Passed,
}
