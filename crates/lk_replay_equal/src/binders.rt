//! Lambdas, and function types.

ghost use Rattle.std.specs.Prelude.{◌≡◌, ◌<◌, length};
ghost use Rattle.lk_tree.specs.Tree.{lam, pi};
ghost use Rattle.lk_tree.specs.Bind.{opened};
ghost use Rattle.lk_questions.specs.Tests.{passes};
ghost use Rattle.lk_written.specs.Equal.{eq_lams, eq_pis};
ghost use Rattle.lk_store.specs.Contents.{tree_at};
ghost use Rattle.lk_premises.specs.Claims.{claims_at, AreClaimsIn};
ghost use Rattle.lk_premises.specs.Testing.{Tests};
ghost use Rattle.lk_replay_equal.specs.Parts.{bodies_read};

use lk_premises::{Claim, ended, equal, fresh_local};
use lk_store::memory::NoMemory;
use lk_store::node::Node;
use lk_store::terms::Terms;
use lk_subst::opening::open_with;
use std::alloc::Global;

/// A domain, and a body under its binder.
#[derive(Clone, Copy)]
struct Binder {
    domain: u64,
    body: u64,
}

/// Whether two domains are equal, and two opened bodies.
#[tactic(auto, unfolding(crate::specs::Parts::bodies_read))]
fn are_equal<T: Terms>(
    terms: &T,
    claims: &[Claim],
    left: &[u32],
    first: Binder,
    second: Binder,
) -> bool
    requires claims_in { AreClaimsIn (T.contents terms.now) claims.now }
    requires domain_in { first.domain < length (T.contents terms.now).trees }
    requires body_in { first.body < length (T.contents terms.now).trees }
    requires other_domain_in { second.domain < length (T.contents terms.now).trees }
    requires other_body_in { second.body < length (T.contents terms.now).trees }
    ensures { let c = T.contents terms.now in
        result ≡ passes (bodies_read (claims_at c claims.now) left.now (tree_at c first.domain)
        (tree_at c second.domain) (tree_at c first.body) (tree_at c second.body)) }
{
    let Some(after) = equal(terms, claims, left, first.domain, second.domain) else {
        return false;
    };
    match equal(terms, claims, after, first.body, second.body) {
        Some(rest) => ended(rest),
        None => false,
    }
}

/// The same of two bodies that are opened with a Local.
#[tactic(auto, using(lk_premises::proofs::Staying::claims_known, lk_premises::proofs::Staying::claims_same))]
fn opened_bodies<T: Terms>(
    alloc: Global,
    terms: &mut T,
    claims: &[Claim],
    left: &[u32],
    local: u64,
    first: Binder,
    second: Binder,
) -> Result<bool, NoMemory>
    requires claims_in { AreClaimsIn (T.contents terms.old) claims.now }
    requires local_in { local < length (T.contents terms.old).trees }
    requires domain_in { first.domain < length (T.contents terms.old).trees }
    requires body_in { first.body < length (T.contents terms.old).trees }
    requires other_domain_in { second.domain < length (T.contents terms.old).trees }
    requires other_body_in { second.body < length (T.contents terms.old).trees }
    ensures { let c = T.contents terms.old in
        Tests T.contents T.rest terms.old terms.new result
        (bodies_read (claims_at c claims.now) left.now (tree_at c first.domain)
        (tree_at c second.domain) (opened (tree_at c first.body) (tree_at c local))
        (opened (tree_at c second.body) (tree_at c local))) }
{
    let inner = open_with(alloc, terms, first.body, local)?;
    let outer = open_with(alloc, terms, second.body, local)?;
    let opened = Binder {
        domain: first.domain,
        body: inner,
    };
    let other = Binder {
        domain: second.domain,
        body: outer,
    };
    Ok(are_equal(terms, claims, left, opened, other))
}

/// A lambda, and a tree that is to be one.
#[tactic(auto, unfolding(crate::specs::Parts::bodies_read))]
fn lambda_and<T: Terms>(
    alloc: Global,
    terms: &mut T,
    claims: &[Claim],
    left: &[u32],
    local: u64,
    a: u64,
    b: u64,
    first: Binder,
) -> Result<bool, NoMemory>
    requires claims_in { AreClaimsIn (T.contents terms.old) claims.now }
    requires local_in { local < length (T.contents terms.old).trees }
    requires a_in { a < length (T.contents terms.old).trees }
    requires b_in { b < length (T.contents terms.old).trees }
    requires domain_in { first.domain < length (T.contents terms.old).trees }
    requires body_in { first.body < length (T.contents terms.old).trees }
    requires a_is { tree_at (T.contents terms.old) a ≡ lam (tree_at (T.contents terms.old)
        first.domain) (tree_at (T.contents terms.old) first.body) }
    ensures { let c = T.contents terms.old in
        Tests T.contents T.rest terms.old terms.new result
        (eq_lams (claims_at c claims.now) left.now (tree_at c local)
        (lam (tree_at c first.domain) (tree_at c first.body)) (tree_at c b)) }
{
    match terms.view(b) {
        Node::Lam(domain, body) => match fresh_local(terms, first.domain, &[a, b], local) {
            Some(_) => {
                let second = Binder { domain, body };
                opened_bodies(alloc, terms, claims, left, local, first, second)
            }
            None => Ok(false),
        },
        _ => Ok(false),
    }
}

/// A line of two lambdas, whose variables are this Local.
pub fn test_lambdas<T: Terms>(
    alloc: Global,
    terms: &mut T,
    claims: &[Claim],
    left: &[u32],
    local: u64,
    a: u64,
    b: u64,
) -> Result<bool, NoMemory>
    requires claims_in { AreClaimsIn (T.contents terms.old) claims.now }
    requires local_in { local < length (T.contents terms.old).trees }
    requires a_in { a < length (T.contents terms.old).trees }
    requires b_in { b < length (T.contents terms.old).trees }
    ensures { let c = T.contents terms.old in
        Tests T.contents T.rest terms.old terms.new result
        (eq_lams (claims_at c claims.now) left.now (tree_at c local) (tree_at c a)
        (tree_at c b)) }
{
    match terms.view(a) {
        Node::Lam(domain, body) => {
            let first = Binder { domain, body };
            lambda_and(alloc, terms, claims, left, local, a, b, first)
        }
        _ => Ok(false),
    }
}

/// A function type, and a tree that is to be one.
#[tactic(auto, unfolding(crate::specs::Parts::bodies_read))]
fn pi_and<T: Terms>(
    alloc: Global,
    terms: &mut T,
    claims: &[Claim],
    left: &[u32],
    local: u64,
    a: u64,
    b: u64,
    first: Binder,
) -> Result<bool, NoMemory>
    requires claims_in { AreClaimsIn (T.contents terms.old) claims.now }
    requires local_in { local < length (T.contents terms.old).trees }
    requires a_in { a < length (T.contents terms.old).trees }
    requires b_in { b < length (T.contents terms.old).trees }
    requires domain_in { first.domain < length (T.contents terms.old).trees }
    requires body_in { first.body < length (T.contents terms.old).trees }
    requires a_is { tree_at (T.contents terms.old) a ≡ pi (tree_at (T.contents terms.old)
        first.domain) (tree_at (T.contents terms.old) first.body) }
    ensures { let c = T.contents terms.old in
        Tests T.contents T.rest terms.old terms.new result
        (eq_pis (claims_at c claims.now) left.now (tree_at c local)
        (pi (tree_at c first.domain) (tree_at c first.body)) (tree_at c b)) }
{
    match terms.view(b) {
        Node::Pi(domain, body) => match fresh_local(terms, first.domain, &[a, b], local) {
            Some(_) => {
                let second = Binder { domain, body };
                opened_bodies(alloc, terms, claims, left, local, first, second)
            }
            None => Ok(false),
        },
        _ => Ok(false),
    }
}

/// A line of two function types, whose variables are this Local.
pub fn test_pis<T: Terms>(
    alloc: Global,
    terms: &mut T,
    claims: &[Claim],
    left: &[u32],
    local: u64,
    a: u64,
    b: u64,
) -> Result<bool, NoMemory>
    requires claims_in { AreClaimsIn (T.contents terms.old) claims.now }
    requires local_in { local < length (T.contents terms.old).trees }
    requires a_in { a < length (T.contents terms.old).trees }
    requires b_in { b < length (T.contents terms.old).trees }
    ensures { let c = T.contents terms.old in
        Tests T.contents T.rest terms.old terms.new result
        (eq_pis (claims_at c claims.now) left.now (tree_at c local) (tree_at c a)
        (tree_at c b)) }
{
    match terms.view(a) {
        Node::Pi(domain, body) => {
            let first = Binder { domain, body };
            pi_and(alloc, terms, claims, left, local, a, b, first)
        }
        _ => Ok(false),
    }
}
