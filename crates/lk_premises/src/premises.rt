//! Premises read one after another.

ghost use Rattle.std.specs.Prelude.{◌≡◌, ◌<◌, Some, length, option_map, IfSome};
ghost use Rattle.lk_questions.specs.Tests.{passes};
ghost use Rattle.lk_questions.specs.Steps.{is_same_tree};
ghost use Rattle.lk_written.specs.Premises as premises;
ghost use Rattle.lk_store.specs.Contents.{Contents, tree_at};
ghost use Rattle.lk_premises.specs.Claims.{claims_at, AreClaimsIn, IsClaimIn};
ghost use Rattle.lk_premises.specs.Reading.{next_at, stated_at, read_at, stated_by, read_by};

use crate::claims::{Claim, Relation};
use lk_store::terms::Terms;

/// The claim of the next premise, and the premises after it.
#[derive(Clone, Copy)]
pub struct Next<'a> {
    pub claim: Claim,
    pub after: &'a [u32],
}

/// The trees of the next premise, and the premises after it.
#[derive(Clone, Copy)]
pub struct Stated<'a> {
    pub left: u64,
    pub right: u64,
    pub after: &'a [u32],
}

/// A tree that a premise states, and the premises after it.
#[derive(Clone, Copy)]
pub struct Read<'a> {
    pub tree: u64,
    pub after: &'a [u32],
}

/// Whether no premise is left.
pub fn ended(left: &[u32]) -> bool
    ensures { result ≡ passes (premises.ends left.now) }
{
    left.is_empty()
}

/// Whether two trees are equal.
pub fn same_tree<T: Terms>(terms: &T, a: u64, b: u64) -> bool
    requires a_in { a < length (T.contents terms.now).trees }
    requires b_in { b < length (T.contents terms.now).trees }
    ensures { result ≡ is_same_tree (tree_at (T.contents terms.now) a)
        (tree_at (T.contents terms.now) b) }
{
    terms.same(a, b)
}

/// The claim of the next premise.
fn next_claim<'a>(claims: &[Claim], left: &'a [u32]) -> Option<Next<'a>>
    ensures next { (c : Contents) → premises.next_claim (claims_at c claims.now) left.now
        ≡ option_map (next_at c) result }
    ensures known { (c : Contents) → AreClaimsIn c claims.now
        → IfSome result (λ n. IsClaimIn c n.claim) }
{
    let (first, after) = left.split_first()?;
    let claim = claims.get(*first as usize)?;
    Some(Next {
        claim: *claim,
        after,
    })
}

/// What the next premise states, where it states this relation, whatever its trees are.
pub fn next_stated<'a>(relation: Relation, claims: &[Claim], left: &'a [u32]) -> Option<Stated<'a>>
    ensures stated { (c : Contents) → stated_by relation (claims_at c claims.now) left.now
        ≡ option_map (stated_at c) result }
    ensures known { (c : Contents) → AreClaimsIn c claims.now
        → IfSome result (λ s. (s.left < length c.trees) × (s.right < length c.trees)) }
{
    let next = next_claim(claims, left)?;
    if next.claim.relation == relation {
        Some(Stated {
            left: next.claim.left,
            right: next.claim.right,
            after: next.after,
        })
    } else {
        None
    }
}

/// The other tree of the next premise, where it states this relation of a tree.
fn next_from<'a, T: Terms>(
    terms: &T,
    relation: Relation,
    claims: &[Claim],
    left: &'a [u32],
    e: u64,
) -> Option<Read<'a>>
    requires claims_in { AreClaimsIn (T.contents terms.now) claims.now }
    requires e_in { e < length (T.contents terms.now).trees }
    ensures read { let c = T.contents terms.now in
        read_by relation (claims_at c claims.now) left.now (tree_at c e)
        ≡ option_map (read_at c) result }
    ensures known { IfSome result (λ r. r.tree < length (T.contents terms.now).trees) }
{
    let next = next_stated(relation, claims, left)?;
    if same_tree(terms, next.left, e) {
        Some(Read {
            tree: next.right,
            after: next.after,
        })
    } else {
        None
    }
}

/// The type that the next premise states of a tree.
pub fn typed<'a, T: Terms>(terms: &T, claims: &[Claim], left: &'a [u32], e: u64) -> Option<Read<'a>>
    requires claims_in { AreClaimsIn (T.contents terms.now) claims.now }
    requires e_in { e < length (T.contents terms.now).trees }
    ensures read { let c = T.contents terms.now in
        premises.typed (claims_at c claims.now) left.now (tree_at c e)
        ≡ option_map (read_at c) result }
    ensures known { IfSome result (λ r. r.tree < length (T.contents terms.now).trees) }
{
    next_from(terms, Relation::Typing, claims, left, e)
}

/// What a tree reduces to: what the next premise states, where it is a reduction of the tree, and else the tree itself.
pub fn reduced<'a, T: Terms>(terms: &T, claims: &[Claim], left: &'a [u32], e: u64) -> Read<'a>
    requires claims_in { AreClaimsIn (T.contents terms.now) claims.now }
    requires e_in { e < length (T.contents terms.now).trees }
    ensures read { let c = T.contents terms.now in
        premises.reduced (claims_at c claims.now) left.now (tree_at c e)
        ≡ Some (read_at c result) }
    ensures known { result.tree < length (T.contents terms.now).trees }
{
    match next_from(terms, Relation::Reduction, claims, left, e) {
        Some(read) => read,
        None => Read {
            tree: e,
            after: left,
        },
    }
}

/// The premises after the next one, where that states that two trees are equal.
fn next_equal<'a, T: Terms>(
    terms: &T,
    claims: &[Claim],
    left: &'a [u32],
    a: u64,
    b: u64,
) -> Option<&'a [u32]>
    requires claims_in { AreClaimsIn (T.contents terms.now) claims.now }
    requires a_in { a < length (T.contents terms.now).trees }
    requires b_in { b < length (T.contents terms.now).trees }
    ensures { let c = T.contents terms.now in
        premises.next_equal (claims_at c claims.now) left.now (tree_at c a) (tree_at c b)
        ≡ option_map (λ r. r.now) result }
{
    let next = next_stated(Relation::Equality, claims, left)?;
    if same_tree(terms, next.left, a) && same_tree(terms, next.right, b) {
        Some(next.after)
    } else {
        None
    }
}

/// The premises after the one that states that two trees are equal; where they are one tree, no premise does.
pub fn equal<'a, T: Terms>(
    terms: &T,
    claims: &[Claim],
    left: &'a [u32],
    a: u64,
    b: u64,
) -> Option<&'a [u32]>
    requires claims_in { AreClaimsIn (T.contents terms.now) claims.now }
    requires a_in { a < length (T.contents terms.now).trees }
    requires b_in { b < length (T.contents terms.now).trees }
    ensures { let c = T.contents terms.now in
        premises.equal (claims_at c claims.now) left.now (tree_at c a) (tree_at c b)
        ≡ option_map (λ r. r.now) result }
{
    if same_tree(terms, a, b) {
        Some(left)
    } else {
        next_equal(terms, claims, left, a, b)
    }
}
