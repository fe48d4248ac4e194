//! Applications compared from the outside in.

ghost use Rattle.std.specs.Prelude.{◌≡◌, ◌<◌, [], length, option_map, All, IfOk};
ghost use Rattle.lk_questions.specs.Tests.{passes};
ghost use Rattle.lk_written.specs.Equal as plain;
ghost use Rattle.lk_store.specs.Contents.{tree_at};
ghost use Rattle.lk_premises.specs.Claims.{claims_at, AreClaimsIn};
ghost use Rattle.lk_replay_equal.specs.Pairs.{pairs_at, IsPairIn};

use crate::neutral::is_neutral;
use lk_premises::{Claim, ended, equal};
use lk_store::memory::NoMemory;
use lk_store::node::Node;
use lk_store::terms::Terms;
use std::alloc::Global;

/// An argument of one application, and that of the other in the same place.
#[derive(Clone, Copy)]
pub struct ArgumentPair {
    pub left: u64,
    pub right: u64,
}

/// The premises after those that state each pair equal, from the top of a stack down.
fn equal_pairs<'a, T: Terms>(
    terms: &T,
    claims: &[Claim],
    left: &'a [u32],
    mut pairs: Vec<ArgumentPair>,
) -> Option<&'a [u32]>
    requires claims_in { AreClaimsIn (T.contents terms.now) claims.now }
    requires pairs_in { All (IsPairIn (T.contents terms.now)) pairs.items }
    ensures { let c = T.contents terms.now in
        plain.pairs_equal (claims_at c claims.now) left.now (pairs_at c pairs.items)
        ≡ option_map (λ r. r.now) result }
{
    let mut rest = left;
    'pairs: while let Some(pair) = pairs.pop() {
        match equal(terms, claims, rest, pair.left, pair.right) {
            Some(after) => rest = after,
            None => return None,
        }
    }
    Some(rest)
}

/// The premises after those that state two functions equal, and each argument to that in the same place. The functions
/// are the first ones from the outside in that are one tree or that the next premise is about.
fn equal_spines<'a, T: Terms>(
    alloc: Global,
    terms: &T,
    claims: &[Claim],
    left: &'a [u32],
    a: u64,
    b: u64,
) -> Result<Option<&'a [u32]>, NoMemory>
    requires claims_in { AreClaimsIn (T.contents terms.now) claims.now }
    requires a_in { a < length (T.contents terms.now).trees }
    requires b_in { b < length (T.contents terms.now).trees }
    ensures { let c = T.contents terms.now in
        IfOk result (λ o. plain.spines_equal (claims_at c claims.now) left.now (tree_at c a)
        (tree_at c b) [] ≡ option_map (λ r. r.now) o) }
{
    let mut pairs: Vec<ArgumentPair> = Vec::new(alloc);
    let mut first = a;
    let mut second = b;
    'down: while let Node::App(function, argument) = terms.view(first) {
        let Node::App(other, value) = terms.view(second) else {
            return Ok(None);
        };
        pairs.push(ArgumentPair {
            left: argument,
            right: value,
        })?;
        if let Some(after) = equal(terms, claims, left, function, other) {
            return Ok(equal_pairs(terms, claims, after, pairs));
        }
        first = function;
        second = other;
    }
    Ok(None)
}

/// A line of two applications.
pub fn test_applications<T: Terms>(
    alloc: Global,
    terms: &T,
    claims: &[Claim],
    left: &[u32],
    a: u64,
    b: u64,
) -> Result<bool, NoMemory>
    requires claims_in { AreClaimsIn (T.contents terms.now) claims.now }
    requires a_in { a < length (T.contents terms.now).trees }
    requires b_in { b < length (T.contents terms.now).trees }
    ensures { let c = T.contents terms.now in
        IfOk result (λ r. r ≡ passes (plain.eq_apps (claims_at c claims.now) left.now
        (tree_at c a) (tree_at c b))) }
{
    if !is_neutral(terms, a) || !is_neutral(terms, b) {
        return Ok(false);
    }
    match equal_spines(alloc, terms, claims, left, a, b)? {
        Some(rest) => Ok(ended(rest)),
        None => Ok(false),
    }
}
