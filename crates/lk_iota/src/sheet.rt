//! What `Core` of a recursor that is applied keeps while it waits. `application` is the whole term.

/// What waits for a term.
#[derive(Drop)]
pub enum IotaTermSheet<X: Drop> {
    /// The answer is that of the question too.
    Passed,
    /// After the type of the major premise, where the recursor has K.
    MajorType { application: X },
    /// After the weak head form of that.
    MajorTypeForm { application: X },
    /// After the type of the candidate: the constructor at the parameters of `ty`, the major
    /// premise's type.
    Candidate { application: X, ty: X, candidate: X },
    /// After the weak head form of the major premise.
    Major { application: X },
    /// After the type of `subject`, which stands for the major premise and is no constructor: it may
    /// be taken for that of a structure.
    StructureType { application: X, subject: X },
    /// After the weak head form of that.
    StructureTypeForm { application: X, subject: X },
    /// After the type of `ty`, the type of the subject.
    StructureSort { application: X, subject: X, ty: X },
    /// After the weak head form of that.
    StructureSortForm { application: X, subject: X, ty: X },
}

/// What waits for yes or no.
#[derive(Drop)]
pub enum IotaTruthSheet<X: Drop> {
    /// After the candidate's type was compared with the major premise's.
    CandidateSame { application: X, candidate: X },
}
