//! A lambda, and another tree as one.

ghost use Rattle.std.specs.Prelude.{◌≡◌, ◌<◌, length, option_map, IfSome};
ghost use Rattle.lk_questions.specs.Same.{eta_long, is_lam};
ghost use Rattle.lk_written.specs.Equal.{eq_eta};
ghost use Rattle.lk_store.specs.Contents.{tree_at};
ghost use Rattle.lk_premises.specs.Claims.{claims_at, AreClaimsIn};
ghost use Rattle.lk_premises.specs.Reading.{read_at};
ghost use Rattle.lk_premises.specs.Testing.{Tests};
ghost use Rattle.lk_premises.specs.Reading.{ends_equal};
ghost use Rattle.lk_replay_equal.specs.Parts.{domain_read, lam_and_long, long_and_lam};

use crate::neutral::is_neutral;
use lk_eta::function::long;
use lk_premises::{Claim, Read, are_equal, to_pi, typed};
use lk_store::memory::NoMemory;
use lk_store::node::Node;
use lk_store::terms::Terms;

/// The domain of the function type that a tree is of, and the premises after that.
#[tactic(auto, unfolding(crate::specs::Parts::domain_read))]
fn domain_of<'a, T: Terms>(terms: &T, claims: &[Claim], left: &'a [u32], e: u64) -> Option<Read<'a>>
    requires claims_in { AreClaimsIn (T.contents terms.now) claims.now }
    requires e_in { e < length (T.contents terms.now).trees }
    ensures read { let c = T.contents terms.now in
        domain_read (claims_at c claims.now) left.now (tree_at c e)
        ≡ option_map (read_at c) result }
    ensures known { IfSome result (λ r. r.tree < length (T.contents terms.now).trees) }
{
    let ty = typed(terms, claims, left, e)?;
    let pi = to_pi(terms, claims, ty.after, ty.tree)?;
    Some(Read {
        tree: pi.domain,
        after: pi.after,
    })
}

/// Whether a lambda equals another tree, as a lambda over this domain.
#[tactic(auto, using(lk_premises::proofs::Staying::claims_known, lk_premises::proofs::Staying::claims_same))]
fn equals_long<T: Terms>(
    terms: &mut T,
    claims: &[Claim],
    left: &[u32],
    lambda: u64,
    domain: u64,
    other: u64,
) -> Result<bool, NoMemory>
    requires claims_in { AreClaimsIn (T.contents terms.old) claims.now }
    requires lambda_in { lambda < length (T.contents terms.old).trees }
    requires domain_in { domain < length (T.contents terms.old).trees }
    requires other_in { other < length (T.contents terms.old).trees }
    ensures { let c = T.contents terms.old in
        Tests T.contents T.rest terms.old terms.new result
        (ends_equal (claims_at c claims.now) left.now (tree_at c lambda)
        (eta_long (tree_at c domain) (tree_at c other))) }
{
    let e = long(terms, domain, other)?;
    Ok(are_equal(terms, claims, left, lambda, e))
}

/// The same the other way round.
#[tactic(auto, using(lk_premises::proofs::Staying::claims_known, lk_premises::proofs::Staying::claims_same))]
fn long_equals<T: Terms>(
    terms: &mut T,
    claims: &[Claim],
    left: &[u32],
    domain: u64,
    other: u64,
    lambda: u64,
) -> Result<bool, NoMemory>
    requires claims_in { AreClaimsIn (T.contents terms.old) claims.now }
    requires domain_in { domain < length (T.contents terms.old).trees }
    requires other_in { other < length (T.contents terms.old).trees }
    requires lambda_in { lambda < length (T.contents terms.old).trees }
    ensures { let c = T.contents terms.old in
        Tests T.contents T.rest terms.old terms.new result
        (ends_equal (claims_at c claims.now) left.now
        (eta_long (tree_at c domain) (tree_at c other)) (tree_at c lambda)) }
{
    let e = long(terms, domain, other)?;
    Ok(are_equal(terms, claims, left, e, lambda))
}

/// A lambda, and another tree.
fn lambda_first<T: Terms>(
    terms: &mut T,
    claims: &[Claim],
    left: &[u32],
    lambda: u64,
    other: u64,
) -> Result<bool, NoMemory>
    requires claims_in { AreClaimsIn (T.contents terms.old) claims.now }
    requires lambda_in { lambda < length (T.contents terms.old).trees }
    requires other_in { other < length (T.contents terms.old).trees }
    ensures { let c = T.contents terms.old in
        Tests T.contents T.rest terms.old terms.new result
        (lam_and_long (claims_at c claims.now) left.now (tree_at c lambda) (tree_at c other)) }
{
    if !is_neutral(terms, other) {
        return Ok(false);
    }
    match domain_of(terms, claims, left, other) {
        Some(domain) => equals_long(terms, claims, domain.after, lambda, domain.tree, other),
        None => Ok(false),
    }
}

/// The same the other way round.
fn lambda_second<T: Terms>(
    terms: &mut T,
    claims: &[Claim],
    left: &[u32],
    other: u64,
    lambda: u64,
) -> Result<bool, NoMemory>
    requires claims_in { AreClaimsIn (T.contents terms.old) claims.now }
    requires other_in { other < length (T.contents terms.old).trees }
    requires lambda_in { lambda < length (T.contents terms.old).trees }
    ensures { let c = T.contents terms.old in
        Tests T.contents T.rest terms.old terms.new result
        (long_and_lam (claims_at c claims.now) left.now (tree_at c other) (tree_at c lambda)) }
{
    if !is_neutral(terms, other) {
        return Ok(false);
    }
    match domain_of(terms, claims, left, other) {
        Some(domain) => long_equals(terms, claims, domain.after, domain.tree, other, lambda),
        None => Ok(false),
    }
}

fn is_lambda<T: Terms>(terms: &T, e: u64) -> bool
    requires { e < length (T.contents terms.now).trees }
    ensures { result ≡ is_lam (tree_at (T.contents terms.now) e) }
{
    match terms.view(e) {
        Node::Lam(_, _) => true,
        _ => false,
    }
}

/// A line of two trees of which one is a lambda, and the other stands for one by its type.
#[tactic(auto, using(crate::proofs::Lambdas::eta_first, crate::proofs::Lambdas::eta_second, crate::proofs::Lambdas::eta_neither))]
pub fn test_eta<T: Terms>(
    terms: &mut T,
    claims: &[Claim],
    left: &[u32],
    a: u64,
    b: u64,
) -> Result<bool, NoMemory>
    requires claims_in { AreClaimsIn (T.contents terms.old) claims.now }
    requires a_in { a < length (T.contents terms.old).trees }
    requires b_in { b < length (T.contents terms.old).trees }
    ensures { let c = T.contents terms.old in
        Tests T.contents T.rest terms.old terms.new result
        (eq_eta (claims_at c claims.now) left.now (tree_at c a) (tree_at c b)) }
{
    if is_lambda(terms, a) {
        return lambda_first(terms, claims, left, a, b);
    }
    if is_lambda(terms, b) {
        return lambda_second(terms, claims, left, a, b);
    }
    Ok(false)
}
