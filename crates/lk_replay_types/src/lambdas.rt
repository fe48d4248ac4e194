//! Lambdas and function types.

ghost use Rattle.std.specs.Prelude.{◌≡◌, ◌<◌, length};
ghost use Rattle.lk_tree.specs.Tree.{lam, pi};
ghost use Rattle.lk_tree.specs.Bind.{opened};
ghost use Rattle.lk_questions.specs.Tests.{passes};
ghost use Rattle.lk_written.specs.Typing.{type_lam};
ghost use Rattle.lk_store.specs.Contents.{tree_at};
ghost use Rattle.lk_premises.specs.Claims.{claims_at, AreClaimsIn};
ghost use Rattle.lk_premises.specs.Testing.{Tests};
ghost use Rattle.lk_replay_types.specs.Parts.{lam_read, lam_opened};

use lk_premises::{Claim, comes_to, fresh_local, same_tree, sorted, typed};
use lk_store::memory::NoMemory;
use lk_store::node::Node;
use lk_store::terms::Terms;
use lk_subst::opening::open_with;
use std::alloc::Global;

/// Whether the domain is a type and the opened body of the opened codomain.
#[tactic(auto, unfolding(crate::specs::Parts::lam_read))]
fn is_lambda_read<T: Terms>(
    terms: &T,
    claims: &[Claim],
    left: &[u32],
    domain: u64,
    body: u64,
    codomain: u64,
) -> bool
    requires claims_in { AreClaimsIn (T.contents terms.now) claims.now }
    requires domain_in { domain < length (T.contents terms.now).trees }
    requires body_in { body < length (T.contents terms.now).trees }
    requires codomain_in { codomain < length (T.contents terms.now).trees }
    ensures { let c = T.contents terms.now in
        result ≡ passes (lam_read (claims_at c claims.now) left.now (tree_at c domain)
        (tree_at c body) (tree_at c codomain)) }
{
    let Some(sort) = sorted(terms, claims, left, domain) else {
        return false;
    };
    let Some(ty) = typed(terms, claims, sort.after, body) else {
        return false;
    };
    comes_to(terms, ty.tree, codomain, ty.after)
}

/// The same of a body and a codomain that are opened with a Local.
#[tactic(auto, using(lk_premises::proofs::Staying::claims_known, lk_premises::proofs::Staying::claims_same))]
fn opened_lambda<T: Terms>(
    alloc: Global,
    terms: &mut T,
    claims: &[Claim],
    left: &[u32],
    local: u64,
    domain: u64,
    body: u64,
    codomain: u64,
) -> Result<bool, NoMemory>
    requires claims_in { AreClaimsIn (T.contents terms.old) claims.now }
    requires local_in { local < length (T.contents terms.old).trees }
    requires domain_in { domain < length (T.contents terms.old).trees }
    requires body_in { body < length (T.contents terms.old).trees }
    requires codomain_in { codomain < length (T.contents terms.old).trees }
    ensures { let c = T.contents terms.old in
        Tests T.contents T.rest terms.old terms.new result
        (lam_read (claims_at c claims.now) left.now (tree_at c domain)
        (opened (tree_at c body) (tree_at c local))
        (opened (tree_at c codomain) (tree_at c local))) }
{
    let inner = open_with(alloc, terms, body, local)?;
    let outer = open_with(alloc, terms, codomain, local)?;
    Ok(is_lambda_read(terms, claims, left, domain, inner, outer))
}

/// The same of a lambda and a function type over one domain.
#[tactic(auto, using(lk_premises::proofs::Binding::bind_bind))]
fn lambda_of<T: Terms>(
    alloc: Global,
    terms: &mut T,
    claims: &[Claim],
    left: &[u32],
    local: u64,
    e: u64,
    ty: u64,
    domain: u64,
    body: u64,
    codomain: u64,
) -> Result<bool, NoMemory>
    requires claims_in { AreClaimsIn (T.contents terms.old) claims.now }
    requires local_in { local < length (T.contents terms.old).trees }
    requires e_in { e < length (T.contents terms.old).trees }
    requires ty_in { ty < length (T.contents terms.old).trees }
    requires domain_in { domain < length (T.contents terms.old).trees }
    requires body_in { body < length (T.contents terms.old).trees }
    requires codomain_in { codomain < length (T.contents terms.old).trees }
    requires e_is { tree_at (T.contents terms.old) e
        ≡ lam (tree_at (T.contents terms.old) domain) (tree_at (T.contents terms.old) body) }
    requires ty_is { tree_at (T.contents terms.old) ty
        ≡ pi (tree_at (T.contents terms.old) domain) (tree_at (T.contents terms.old) codomain) }
    ensures { let c = T.contents terms.old in
        Tests T.contents T.rest terms.old terms.new result
        (lam_opened (claims_at c claims.now) left.now (tree_at c local) (tree_at c domain)
        (tree_at c body) (tree_at c codomain)) }
{
    match fresh_local(terms, domain, &[e, ty], local) {
        Some(_) => opened_lambda(alloc, terms, claims, left, local, domain, body, codomain),
        None => Ok(false),
    }
}

/// The same of a lambda and a tree that is to be a function type over its domain.
#[tactic(auto, unfolding(crate::specs::Parts::lam_read))]
fn lambda_by<T: Terms>(
    alloc: Global,
    terms: &mut T,
    claims: &[Claim],
    left: &[u32],
    local: u64,
    e: u64,
    ty: u64,
    domain: u64,
    body: u64,
) -> Result<bool, NoMemory>
    requires claims_in { AreClaimsIn (T.contents terms.old) claims.now }
    requires local_in { local < length (T.contents terms.old).trees }
    requires e_in { e < length (T.contents terms.old).trees }
    requires ty_in { ty < length (T.contents terms.old).trees }
    requires domain_in { domain < length (T.contents terms.old).trees }
    requires body_in { body < length (T.contents terms.old).trees }
    requires e_is { tree_at (T.contents terms.old) e
        ≡ lam (tree_at (T.contents terms.old) domain) (tree_at (T.contents terms.old) body) }
    ensures { let c = T.contents terms.old in
        Tests T.contents T.rest terms.old terms.new result
        (type_lam (claims_at c claims.now) left.now (tree_at c local)
        (lam (tree_at c domain) (tree_at c body)) (tree_at c ty)) }
{
    match terms.view(ty) {
        Node::Pi(other, codomain) => {
            if !same_tree(terms, other, domain) {
                return Ok(false);
            }
            lambda_of(
                alloc, terms, claims, left, local, e, ty, domain, body, codomain,
            )
        }
        _ => Ok(false),
    }
}

/// A line of a lambda, whose variable is this Local.
pub fn test_lambda<T: Terms>(
    alloc: Global,
    terms: &mut T,
    claims: &[Claim],
    left: &[u32],
    local: u64,
    e: u64,
    ty: u64,
) -> Result<bool, NoMemory>
    requires claims_in { AreClaimsIn (T.contents terms.old) claims.now }
    requires local_in { local < length (T.contents terms.old).trees }
    requires e_in { e < length (T.contents terms.old).trees }
    requires ty_in { ty < length (T.contents terms.old).trees }
    ensures { let c = T.contents terms.old in
        Tests T.contents T.rest terms.old terms.new result
        (type_lam (claims_at c claims.now) left.now (tree_at c local) (tree_at c e)
        (tree_at c ty)) }
{
    match terms.view(e) {
        Node::Lam(domain, body) => {
            lambda_by(alloc, terms, claims, left, local, e, ty, domain, body)
        }
        _ => Ok(false),
    }
}
