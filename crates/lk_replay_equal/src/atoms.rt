//! Sorts, constants, projections and reductions: nothing is made.

ghost use Rattle.std.specs.Prelude.{◌≡◌, ◌<◌, length, IfOk};
ghost use Rattle.lk_tree.specs.Tree.{sort, const, proj};
ghost use Rattle.lk_questions.specs.Tests.{passes};
ghost use Rattle.lk_written.specs.Equal.{eq_reduce, eq_sorts, eq_consts, eq_projs, eq_proof};
ghost use Rattle.lk_store.specs.Contents.{name_at, level_at, list_at, tree_at};
ghost use Rattle.lk_premises.specs.Claims.{claims_at, AreClaimsIn};
ghost use Rattle.lk_replay_equal.specs.Parts.{proofs_read};

use crate::levels::{same_level, same_levels};
use crate::neutral::is_head_normal;
use lk_premises::{Claim, ended, equal, proposition, reduced, same_name, typed};
use lk_store::memory::NoMemory;
use lk_store::node::Node;
use lk_store::terms::Terms;
use std::alloc::Global;

/// A line of two trees that reduce to equal ones.
pub fn test_reductions<T: Terms>(terms: &T, claims: &[Claim], left: &[u32], a: u64, b: u64) -> bool
    requires claims_in { AreClaimsIn (T.contents terms.now) claims.now }
    requires a_in { a < length (T.contents terms.now).trees }
    requires b_in { b < length (T.contents terms.now).trees }
    ensures { let c = T.contents terms.now in
        result ≡ passes (eq_reduce (claims_at c claims.now) left.now (tree_at c a)
        (tree_at c b)) }
{
    let first = reduced(terms, claims, left, a);
    let second = reduced(terms, claims, first.after, b);
    match equal(terms, claims, second.after, first.tree, second.tree) {
        Some(after) => ended(after),
        None => false,
    }
}

/// A line of two sorts.
pub fn test_sorts<T: Terms>(
    alloc: Global,
    terms: &T,
    left: &[u32],
    a: u64,
    b: u64,
) -> Result<bool, NoMemory>
    requires a_in { a < length (T.contents terms.now).trees }
    requires b_in { b < length (T.contents terms.now).trees }
    ensures { IfOk result (λ r. r ≡ passes (eq_sorts left.now (tree_at (T.contents terms.now) a)
        (tree_at (T.contents terms.now) b))) }
{
    match terms.view(a) {
        Node::Sort(level) => sort_and(alloc, terms, left, level, b),
        _ => Ok(false),
    }
}

/// The same of the sort of a level.
fn sort_and<T: Terms>(
    alloc: Global,
    terms: &T,
    left: &[u32],
    level: u64,
    b: u64,
) -> Result<bool, NoMemory>
    requires level_in { level < length (T.contents terms.now).levels }
    requires b_in { b < length (T.contents terms.now).trees }
    ensures { IfOk result (λ r. r ≡ passes (eq_sorts left.now
        (sort (level_at (T.contents terms.now) level)) (tree_at (T.contents terms.now) b))) }
{
    match terms.view(b) {
        Node::Sort(other) => {
            if !ended(left) {
                return Ok(false);
            }
            same_level(alloc, terms, level, other)
        }
        _ => Ok(false),
    }
}

/// A line of two constants.
pub fn test_constants<T: Terms>(
    alloc: Global,
    terms: &T,
    left: &[u32],
    a: u64,
    b: u64,
) -> Result<bool, NoMemory>
    requires a_in { a < length (T.contents terms.now).trees }
    requires b_in { b < length (T.contents terms.now).trees }
    ensures { IfOk result (λ r. r ≡ passes (eq_consts left.now (tree_at (T.contents terms.now) a)
        (tree_at (T.contents terms.now) b))) }
{
    match terms.view(a) {
        Node::Const(name, levels) => constant_and(alloc, terms, left, name, levels, b),
        _ => Ok(false),
    }
}

/// The same of a constant of this name at these levels.
fn constant_and<T: Terms>(
    alloc: Global,
    terms: &T,
    left: &[u32],
    name: u64,
    levels: u64,
    b: u64,
) -> Result<bool, NoMemory>
    requires name_in { name < length (T.contents terms.now).names }
    requires levels_in { levels < length (T.contents terms.now).lists }
    requires b_in { b < length (T.contents terms.now).trees }
    ensures { let c = T.contents terms.now in
        IfOk result (λ r. r ≡ passes (eq_consts left.now
        (const (name_at c name) (list_at c levels)) (tree_at c b))) }
{
    match terms.view(b) {
        Node::Const(other, others) => {
            if !ended(left) || !same_name(terms, other, name) {
                return Ok(false);
            }
            same_levels(alloc, terms, levels, others)
        }
        _ => Ok(false),
    }
}

/// A line of two projections.
pub fn test_projections<T: Terms>(terms: &T, claims: &[Claim], left: &[u32], a: u64, b: u64) -> bool
    requires claims_in { AreClaimsIn (T.contents terms.now) claims.now }
    requires a_in { a < length (T.contents terms.now).trees }
    requires b_in { b < length (T.contents terms.now).trees }
    ensures { let c = T.contents terms.now in
        result ≡ passes (eq_projs (claims_at c claims.now) left.now (tree_at c a)
        (tree_at c b)) }
{
    match terms.view(a) {
        Node::Proj(structure, field, subject) => {
            projection_and(terms, claims, left, structure, field, subject, b)
        }
        _ => false,
    }
}

/// The same of this projection.
fn projection_and<T: Terms>(
    terms: &T,
    claims: &[Claim],
    left: &[u32],
    structure: u64,
    field: u64,
    subject: u64,
    b: u64,
) -> bool
    requires claims_in { AreClaimsIn (T.contents terms.now) claims.now }
    requires structure_in { structure < length (T.contents terms.now).names }
    requires subject_in { subject < length (T.contents terms.now).trees }
    requires b_in { b < length (T.contents terms.now).trees }
    ensures { let c = T.contents terms.now in
        result ≡ passes (eq_projs (claims_at c claims.now) left.now
        (proj (name_at c structure) field (tree_at c subject)) (tree_at c b)) }
{
    match terms.view(b) {
        Node::Proj(other, place, tree) => {
            if !same_name(terms, other, structure) || place != field {
                return false;
            }
            match equal(terms, claims, left, subject, tree) {
                Some(after) => ended(after),
                None => false,
            }
        }
        _ => false,
    }
}

/// A line of two proofs of equal propositions.
#[tactic(auto, unfolding(crate::specs::Parts::proofs_read))]
pub fn test_proofs<T: Terms>(terms: &T, claims: &[Claim], left: &[u32], a: u64, b: u64) -> bool
    requires claims_in { AreClaimsIn (T.contents terms.now) claims.now }
    requires a_in { a < length (T.contents terms.now).trees }
    requires b_in { b < length (T.contents terms.now).trees }
    ensures { let c = T.contents terms.now in
        result ≡ passes (eq_proof (claims_at c claims.now) left.now (tree_at c a)
        (tree_at c b)) }
{
    if !is_head_normal(terms, a) || !is_head_normal(terms, b) {
        return false;
    }
    are_proofs(terms, claims, left, a, b)
}

/// The same of two trees whose heads take no step.
#[tactic(auto, unfolding(crate::specs::Parts::proofs_read))]
fn are_proofs<T: Terms>(terms: &T, claims: &[Claim], left: &[u32], a: u64, b: u64) -> bool
    requires claims_in { AreClaimsIn (T.contents terms.now) claims.now }
    requires a_in { a < length (T.contents terms.now).trees }
    requires b_in { b < length (T.contents terms.now).trees }
    ensures { let c = T.contents terms.now in
        result ≡ passes (proofs_read (claims_at c claims.now) left.now (tree_at c a)
        (tree_at c b)) }
{
    let Some(first) = typed(terms, claims, left, a) else {
        return false;
    };
    let Some(after) = proposition(terms, claims, first.after, first.tree) else {
        return false;
    };
    let Some(second) = typed(terms, claims, after, b) else {
        return false;
    };
    match equal(terms, claims, second.after, first.tree, second.tree) {
        Some(rest) => ended(rest),
        None => false,
    }
}
