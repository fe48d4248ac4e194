//! The parts of a unit, as they are derived one after another.

ghost use Rattle.std.specs.Prelude.{◌≡◌, ◌<◌, ◌++◌, ℕ, [], ◌∷◌, length, IfOk, OnOk};
ghost use Rattle.lk_tree.specs.Tree.{Level, Tree};
ghost use Rattle.lk_rulebook.specs.Place.{Place};
ghost use Rattle.lk_rulebook.specs.Claims.{types, reduces, equals};
ghost use Rattle.lk_questions.specs.Query.{whnf, infer};
ghost use Rattle.lk_store.specs.Contents.{Contents, tree_at};
ghost use Rattle.lk_ask.specs.declared.query.Query.TheVariants as query;
ghost use Rattle.lk_ask.specs.Questions.{query_of};
ghost use Rattle.lk_premises.specs.Claims.{claim_at, IsClaimIn};
ghost use Rattle.lk_step.specs.Rows.{IsAnswered};
ghost use Rattle.lk_step.specs.Told.{IsAnsweredWithin, IsForm, IsType};
ghost use Rattle.lk_derive.specs.Stages.{Stays};
ghost use Rattle.lk_derive.specs.Units.{HasSort, HasType, sort_parts, value_parts};
ghost use Rattle.lk_derive.specs.Parts.{AreParts, AddsParts, AddsTerm, IsClaimOf, IsDue, IsSortDue, IsValueDue};

use crate::course::derive;
use crate::derivation::Derivation;
use crate::rows::Rows;
use lk_ask::query::{Answer, Query};
use lk_premises::Claim;
use lk_step::making::{equality, reduction, typing};
use lk_store::memory::NoMemory;
use std::alloc::Global;

/// A section at work, and the claims that its last line is to name, each of them derived.
#[derive(Drop)]
pub struct Parts {
    pub derivation: Derivation,
    pub claims: Vec<Claim>,
}

impl Parts {
    /// Nothing is written, and there is no part. It takes no memory.
    pub(crate) fn new(alloc: Global) -> Self
        ensures are { (w : Place) (c : Contents) → AreParts w c result }
        ensures none { result.claims.items ≡ [] }
    {
        Parts {
            derivation: Derivation::new(alloc),
            claims: Vec::new(alloc),
        }
    }
}

/// Puts a claim behind the others.
fn push_claim(claims: &mut Vec<Claim>, claim: Claim) -> Result<(), NoMemory>
    ensures { OnOk result (claims.new.items ≡ claims.old.items ++ claim ∷ []) }
{
    claims.push(claim)?;
    Ok(())
}

/// Derives a question, and adds what its answer claims, which is this.
fn add<R: Rows>(
    alloc: Global,
    rows: &mut R,
    parts: &mut Parts,
    query: Query<u64>,
    claim: Claim,
) -> Result<(), NoMemory>
    requires due { IsDue R.contents R.place R.most rows.old parts.old query }
    requires claim_in { IsClaimIn (R.contents rows.old) claim }
    requires claim_is { let c = R.contents rows.old in
        IsClaimOf (R.place rows.old) (query_of (tree_at c) query) (claim_at c claim) }
    ensures stays { Stays R.contents R.place R.most rows.old rows.new }
    ensures rest { R.rest rows.new ≡ R.rest rows.old }
    ensures adds { OnOk result (AddsParts (R.place rows.old) (R.contents rows.old)
        (R.contents rows.new) parts.old parts.new (claim_at (R.contents rows.old) claim ∷ [])) }
{
    derive(alloc, rows, &mut parts.derivation, query)?;
    push_claim(&mut parts.claims, claim)
}

/// The type of a term.
fn type_of<R: Rows>(rows: &mut R, e: u64) -> Result<u64, NoMemory>
    requires e_in { e < length (R.contents rows.old).trees }
    requires answered { IsAnsweredWithin (R.place rows.old)
        (infer (tree_at (R.contents rows.old) e)) (R.most rows.old) }
    ensures stays { Stays R.contents R.place R.most rows.old rows.new }
    ensures rest { R.rest rows.new ≡ R.rest rows.old }
    ensures known { IfOk result (λ v. v < length (R.contents rows.new).trees) }
    ensures told { IfOk result (λ v. IsType (R.place rows.old)
        (tree_at (R.contents rows.old) e) (tree_at (R.contents rows.new) v)) }
{
    match rows.answer(Query::Infer(e))? {
        Answer::Term(v) => Ok(v),
        Answer::Truth(_) => unreachable!(),
    }
}

/// The weak head form of a term.
fn form_of<R: Rows>(rows: &mut R, e: u64) -> Result<u64, NoMemory>
    requires e_in { e < length (R.contents rows.old).trees }
    requires answered { IsAnsweredWithin (R.place rows.old)
        (whnf (tree_at (R.contents rows.old) e)) (R.most rows.old) }
    ensures stays { Stays R.contents R.place R.most rows.old rows.new }
    ensures rest { R.rest rows.new ≡ R.rest rows.old }
    ensures known { IfOk result (λ v. v < length (R.contents rows.new).trees) }
    ensures told { IfOk result (λ v. IsForm (R.place rows.old)
        (tree_at (R.contents rows.old) e) (tree_at (R.contents rows.new) v)) }
{
    match rows.answer(Query::Whnf(e))? {
        Answer::Term(v) => Ok(v),
        Answer::Truth(_) => unreachable!(),
    }
}

/// Adds that a term is of its type, which is given.
fn add_type<R: Rows>(
    alloc: Global,
    rows: &mut R,
    parts: &mut Parts,
    e: u64,
) -> Result<u64, NoMemory>
    requires { IsDue R.contents R.place R.most rows.old parts.old (query.Infer e) }
    ensures stays { Stays R.contents R.place R.most rows.old rows.new }
    ensures rest { R.rest rows.new ≡ R.rest rows.old }
    ensures known { IfOk result (λ v. v < length (R.contents rows.new).trees) }
    ensures adds { let E = tree_at (R.contents rows.old) e in (V : Tree) (n : ℕ)
        → IsAnswered (R.place rows.old) (infer E) V n
        → IfOk result (λ v. AddsTerm (R.place rows.old) (R.contents rows.old)
        (R.contents rows.new) parts.old parts.new (types E V) v V) }
{
    let ty = type_of(rows, e)?;
    add(alloc, rows, parts, Query::Infer(e), typing(e, ty))?;
    Ok(ty)
}

/// Adds that a term reduces to its weak head form, which is given.
fn add_form<R: Rows>(
    alloc: Global,
    rows: &mut R,
    parts: &mut Parts,
    e: u64,
) -> Result<u64, NoMemory>
    requires { IsDue R.contents R.place R.most rows.old parts.old (query.Whnf e) }
    ensures stays { Stays R.contents R.place R.most rows.old rows.new }
    ensures rest { R.rest rows.new ≡ R.rest rows.old }
    ensures known { IfOk result (λ v. v < length (R.contents rows.new).trees) }
    ensures adds { let E = tree_at (R.contents rows.old) e in (V : Tree) (n : ℕ)
        → IsAnswered (R.place rows.old) (whnf E) V n
        → IfOk result (λ v. AddsTerm (R.place rows.old) (R.contents rows.old)
        (R.contents rows.new) parts.old parts.new (reduces E V) v V) }
{
    let form = form_of(rows, e)?;
    add(alloc, rows, parts, Query::Whnf(e), reduction(e, form))?;
    Ok(form)
}

/// Adds that two terms are equal.
pub(crate) fn add_equal<R: Rows>(
    alloc: Global,
    rows: &mut R,
    parts: &mut Parts,
    a: u64,
    b: u64,
) -> Result<(), NoMemory>
    requires { IsDue R.contents R.place R.most rows.old parts.old (query.Same a b) }
    ensures stays { Stays R.contents R.place R.most rows.old rows.new }
    ensures rest { R.rest rows.new ≡ R.rest rows.old }
    ensures adds { let t = tree_at (R.contents rows.old) in OnOk result (AddsParts
        (R.place rows.old) (R.contents rows.old) (R.contents rows.new) parts.old parts.new
        (equals (t a) (t b) ∷ [])) }
{
    add(alloc, rows, parts, Query::Same(a, b), equality(a, b))
}

/// Adds that a type is of a sort.
pub(crate) fn add_sort<R: Rows>(
    alloc: Global,
    rows: &mut R,
    parts: &mut Parts,
    ty: u64,
) -> Result<(), NoMemory>
    requires { IsSortDue R.contents R.place R.most rows.old parts.old ty }
    ensures stays { Stays R.contents R.place R.most rows.old rows.new }
    ensures rest { R.rest rows.new ≡ R.rest rows.old }
    ensures adds { let A = tree_at (R.contents rows.old) ty in (l : Level)
        (h : HasSort (R.place rows.old) (R.most rows.old) A l)
        → OnOk result (AddsParts (R.place rows.old) (R.contents rows.old) (R.contents rows.new)
        parts.old parts.new (sort_parts A h.between l [])) }
{
    let between = add_type(alloc, rows, parts, ty)?;
    add_form(alloc, rows, parts, between)?;
    Ok(())
}

/// Adds that a value is of a type.
pub(crate) fn add_value<R: Rows>(
    alloc: Global,
    rows: &mut R,
    parts: &mut Parts,
    value: u64,
    ty: u64,
) -> Result<(), NoMemory>
    requires { IsValueDue R.contents R.place R.most rows.old parts.old value ty }
    ensures stays { Stays R.contents R.place R.most rows.old rows.new }
    ensures rest { R.rest rows.new ≡ R.rest rows.old }
    ensures adds { let v = tree_at (R.contents rows.old) value in
        let A = tree_at (R.contents rows.old) ty in
        (h : HasType (R.place rows.old) (R.most rows.old) v A)
        → OnOk result (AddsParts (R.place rows.old) (R.contents rows.old) (R.contents rows.new)
        parts.old parts.new (value_parts v h.inferred A [])) }
{
    let inferred = add_type(alloc, rows, parts, value)?;
    add_equal(alloc, rows, parts, inferred, ty)
}
