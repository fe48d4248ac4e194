//! Lets.

ghost use Rattle.std.specs.Prelude.{◌≡◌, ◌<◌, length};
ghost use Rattle.lk_tree.specs.Tree.{let_in};
ghost use Rattle.lk_tree.specs.Bind.{opened};
ghost use Rattle.lk_questions.specs.Tests.{passes};
ghost use Rattle.lk_written.specs.Typing.{type_let};
ghost use Rattle.lk_store.specs.Contents.{tree_at};
ghost use Rattle.lk_premises.specs.Claims.{claims_at, AreClaimsIn};
ghost use Rattle.lk_premises.specs.Testing.{Tests};
ghost use Rattle.lk_replay_types.specs.Parts.{let_read};

use lk_premises::{Claim, comes_to, equal, sorted, typed};
use lk_store::memory::NoMemory;
use lk_store::node::Node;
use lk_store::terms::Terms;
use lk_subst::opening::open_with;
use std::alloc::Global;

/// Whether the domain is a type, the value is of it, and the opened body is of the line's type.
#[tactic(auto, unfolding(crate::specs::Parts::let_read))]
fn is_let_read<T: Terms>(
    terms: &T,
    claims: &[Claim],
    left: &[u32],
    domain: u64,
    value: u64,
    body: u64,
    ty: u64,
) -> bool
    requires claims_in { AreClaimsIn (T.contents terms.now) claims.now }
    requires domain_in { domain < length (T.contents terms.now).trees }
    requires value_in { value < length (T.contents terms.now).trees }
    requires body_in { body < length (T.contents terms.now).trees }
    requires ty_in { ty < length (T.contents terms.now).trees }
    ensures { let c = T.contents terms.now in
        result ≡ passes (let_read (claims_at c claims.now) left.now (tree_at c domain)
        (tree_at c value) (tree_at c body) (tree_at c ty)) }
{
    let Some(sort) = sorted(terms, claims, left, domain) else {
        return false;
    };
    let Some(own) = typed(terms, claims, sort.after, value) else {
        return false;
    };
    let Some(after) = equal(terms, claims, own.after, own.tree, domain) else {
        return false;
    };
    let Some(found) = typed(terms, claims, after, body) else {
        return false;
    };
    comes_to(terms, ty, found.tree, found.after)
}

/// The same of a body that is opened with the value.
#[tactic(auto, using(lk_premises::proofs::Staying::claims_known, lk_premises::proofs::Staying::claims_same))]
fn opened_let<T: Terms>(
    alloc: Global,
    terms: &mut T,
    claims: &[Claim],
    left: &[u32],
    domain: u64,
    value: u64,
    body: u64,
    ty: u64,
) -> Result<bool, NoMemory>
    requires claims_in { AreClaimsIn (T.contents terms.old) claims.now }
    requires domain_in { domain < length (T.contents terms.old).trees }
    requires value_in { value < length (T.contents terms.old).trees }
    requires body_in { body < length (T.contents terms.old).trees }
    requires ty_in { ty < length (T.contents terms.old).trees }
    ensures { let c = T.contents terms.old in
        Tests T.contents T.rest terms.old terms.new result
        (let_read (claims_at c claims.now) left.now (tree_at c domain) (tree_at c value)
        (opened (tree_at c body) (tree_at c value)) (tree_at c ty)) }
{
    let inner = open_with(alloc, terms, body, value)?;
    Ok(is_let_read(terms, claims, left, domain, value, inner, ty))
}

/// A line of a Let.
#[tactic(auto, unfolding(crate::specs::Parts::let_read))]
pub fn test_let<T: Terms>(
    alloc: Global,
    terms: &mut T,
    claims: &[Claim],
    left: &[u32],
    e: u64,
    ty: u64,
) -> Result<bool, NoMemory>
    requires claims_in { AreClaimsIn (T.contents terms.old) claims.now }
    requires e_in { e < length (T.contents terms.old).trees }
    requires ty_in { ty < length (T.contents terms.old).trees }
    ensures { let c = T.contents terms.old in
        Tests T.contents T.rest terms.old terms.new result
        (type_let (claims_at c claims.now) left.now (tree_at c e) (tree_at c ty)) }
{
    match terms.view(e) {
        Node::Let(domain, value, body) => {
            opened_let(alloc, terms, claims, left, domain, value, body, ty)
        }
        _ => Ok(false),
    }
}
