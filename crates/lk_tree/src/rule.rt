//! Why something is refused.

/// The rule by which a unit, or a question, is refused. The words of the verdicts are these names.
#[derive(Clone, Copy)]
pub enum Rule {
    /// A constant that no unit before gives.
    UnknownConstant,
    /// A constant at more or fewer levels than its declaration has level parameters.
    LevelCount,
    /// A level parameter that its member does not declare.
    UndeclaredLevel,
    /// A level parameter that is declared twice.
    DuplicateLevel,
    /// A name that a unit before gives, or that stands twice in one unit.
    DuplicateName,
    /// A tree with a loose variable, or with a Local.
    LooseVariable,
    /// What is to be a type has a type that is no sort.
    NotASort,
    /// What is applied has a type that is no Pi.
    NotAFunction,
    /// An argument's type is not the domain of its function's.
    ArgumentType,
    /// The value of a Let is not of the type that it states.
    LetType,
    /// The value of a declaration is not of the type that it states.
    ValueType,
    /// The type of a theorem is no proposition.
    TheoremNotProp,
    /// A projection of what is no structure, or of a field that it does not have.
    BadProjection,
    /// A projection of a proof to what is no proof.
    PropProjection,
    /// A literal above 2^128 - 1.
    WideLiteral,
    /// A built-in name is asked for that no unit before gives.
    NoBuiltin,
    /// `Nat` or `String` is given in another shape than the rules state.
    BuiltinShape,
    /// A quotient constant of another shape.
    QuotShape,
    /// Two levels with more than 20 parameters inside right sides of `imax` are compared.
    LevelWidth,
    /// The lines of a block, or the types that they state, do not have the form of a block.
    BlockShape,
    /// A parameter that is not of the type that the block's first type states.
    ParameterDiffers,
    /// A constructor does not end in its type at the parameters.
    ConstructorResult,
    /// A type of the block stands where it may not in a field of a constructor.
    NotPositive,
    /// A field's sort is above that of its block.
    FieldUniverse,
    /// A nested occurrence of a form that is not checked.
    NestedForm,
    /// A stated recursor is not the one that the block has.
    RecursorDiffers,
    /// A definition that is named as an operation on numbers, and breaks a law of it, or has level parameters, or the operation by
    /// which its laws are stated is given by no definition.
    NatLaw,
    /// An axiom that the policy of the run does not allow.
    AxiomNotAllowed,
}
