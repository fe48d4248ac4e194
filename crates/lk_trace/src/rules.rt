//! The rules that lines are instances of. A rule that goes under a binder has the tree of its Local beside it, a number
//! of the store.

/// How the type of a tree is derived.
#[derive(Clone, Copy)]
pub enum TypingRule {
    Sort,
    Local,
    Constant,
    Apply,
    Let,
    NatLiteral,
    TextLiteral,
    Project,
    Lambda { local: u64 },
    Pi { local: u64 },
}

/// How a tree reduces.
#[derive(Clone, Copy)]
pub enum ReductionRule {
    /// One reduction after another.
    Chain,
    /// The function of an application.
    Head,
    Beta,
    Zeta,
    Delta,
    Project,
    /// The major premise of a recursor.
    Major,
    K,
    /// The major premise, of a type that is structure-like, becomes its constructor on its fields.
    Structure,
    Lift,
    Induction,
    Operation,
    /// The place of the recursor's rule in its list, from 0.
    Iota { place: u64 },
}

/// How two trees are definitionally equal.
#[derive(Clone, Copy)]
pub enum ConversionRule {
    Reduce,
    Sorts,
    Constants,
    Apply,
    Project,
    Lambda { local: u64 },
    Pi { local: u64 },
    Eta,
    StructureLeft,
    StructureRight,
    UnitLike,
    Proof,
    Zero,
    Successor,
    TextLeft,
    TextRight,
}

/// The rule of a line, which says what the line relates its two trees by.
#[derive(Clone, Copy)]
pub enum Rule {
    Typing(TypingRule),
    Reduction(ReductionRule),
    Conversion(ConversionRule),
}
