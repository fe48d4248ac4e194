//! What `Infer` keeps while another question is asked.

/// The binders of a telescope.
#[derive(Clone, Copy)]
pub enum Binders {
    Pis,
    Lambdas,
}

/// What is left of a telescope whose binders were opened one inside the other.
#[derive(Drop)]
pub struct Telescope<X: Drop> {
    pub binders: Binders,
    /// So many Locals are left.
    pub count: u64,
    /// Those Locals, each applied to what follows it; the last is applied to the innermost body.
    pub opened: X,
    /// The sorts of the domains of Pis so far, applied one after the other; or the outermost lambda,
    /// applied to all Locals, each of which is applied to what follows it.
    pub gathered: X,
}

/// What it keeps while it waits for a term.
#[derive(Drop)]
pub enum TypeTermSheet<X: Drop> {
    /// The answer is that of the question too.
    Passed,
    /// A lambda, after the type of its domain.
    LamDomain { domain: X, body: X },
    /// After the weak head form of that.
    LamDomainSort { domain: X, body: X },
    /// After the type of the body, which was opened with the Local of this number.
    LamBody { domain: X, number: u64 },
    /// A Pi, after the type of its domain.
    PiDomain { domain: X, body: X },
    /// After the weak head form of that.
    PiDomainSort { domain: X, body: X },
    /// After the type of the body; the domain's sort is kept.
    PiBody { sort: X },
    /// After the weak head form of that.
    PiBodySort { sort: X },
    /// A telescope, after the type of its next Local, which is a domain.
    TelescopeLocal { telescope: Telescope<X> },
    /// After the type of that domain.
    TelescopeDomain { telescope: Telescope<X> },
    /// After the weak head form of that.
    TelescopeSort { telescope: Telescope<X> },
    /// After the type of the innermost body.
    TelescopeBody { binders: Binders, gathered: X },
    /// After the weak head form of the type of what stands inside a Pi; the sort of its domain is
    /// kept, and those of the domains of the Pis around it.
    PisSort { sorts: X, sort: X },
    /// An application, after the type of its function.
    Function { argument: X },
    /// After the weak head form of that.
    FunctionForm { argument: X },
    /// After the type of its argument; the function's type is a Pi of this domain and body.
    Argument { domain: X, body: X, argument: X },
    /// A Let, after the type of what it states as its value's type.
    LetType { ty: X, value: X, body: X },
    /// After the weak head form of that.
    LetTypeSort { ty: X, value: X, body: X },
    /// After the type of its value.
    LetValue { ty: X, value: X, body: X },
}

/// What it keeps while it waits for yes or no.
#[derive(Drop)]
pub enum TypeTruthSheet<X: Drop> {
    /// An application, after the type of its argument was compared with the domain of its
    /// function's type.
    ArgumentSame { body: X, argument: X },
    /// A Let, after the type of its value was compared with what is stated.
    LetValueSame { value: X, body: X },
}
