//! What a projection keeps while another question is asked. It waits for a term each time.

use lk_ask::stack::Stack;

/// A structure applied: its arguments are put for the first Pis of its constructor's type.
#[derive(Drop)]
pub struct Applied<X: Drop> {
    pub projection: X,
    /// The arguments that are left, the first one on top.
    pub arguments: Stack<X>,
    /// How many of them are parameters.
    pub parameters: u64,
}

/// The Pi of a field in a constructor's type.
#[derive(Drop)]
pub struct FieldPi<X: Drop> {
    pub projection: X,
    /// The number of the field.
    pub number: u64,
    pub domain: X,
    pub body: X,
}

/// What `Infer` of a projection keeps. A structure is a type with exactly one constructor, which
/// the type of the subject is, applied.
#[derive(Drop)]
pub enum InferSheet<X: Drop> {
    /// After the type of the subject.
    Subject {
        projection: X,
    },
    /// After the weak head form of that.
    SubjectForm {
        projection: X,
    },
    /// After the type of that form, which is a structure applied. The type of its constructor is
    /// kept at the levels of the form: there is none where they are too many or too few.
    Sort {
        applied: Applied<X>,
        constructor: Option<X>,
    },
    /// After the weak head form of that.
    SortForm {
        applied: Applied<X>,
        constructor: Option<X>,
    },
    /// After the weak head form of the constructor's type, from the Pi on for which this argument
    /// is put. The structure is a proposition or not.
    Parameter {
        applied: Applied<X>,
        argument: X,
        prop: bool,
    },
    /// After the weak head form of the constructor's type, from the Pi on of the field of this
    /// number.
    Field {
        projection: X,
        number: u64,
        prop: bool,
    },
    /// After the type of a field's type, in a structure that is a proposition.
    FieldSort(FieldPi<X>),
    /// After the weak head form of that.
    FieldSortForm(FieldPi<X>),
}

/// What `Core` of a projection keeps.
#[derive(Drop)]
pub enum CoreSheet<X: Drop> {
    /// After the weak head form of the subject.
    Subject { projection: X },
    /// The answer is that of the question too.
    Passed,
}
