//! Numbers, and zero and successors.

ghost use Rattle.std.specs.Prelude.{◌≡◌, ◌<◌, suc, length, None};
ghost use Rattle.lk_tree.specs.Tree.{app, lit};
ghost use Rattle.lk_written.specs.Equal.{eq_zero, eq_succ};
ghost use Rattle.lk_store.specs.Contents.{tree_at};
ghost use Rattle.lk_premises.specs.Claims.{claims_at, AreClaimsIn};
ghost use Rattle.lk_premises.specs.Testing.{Tests};
ghost use Rattle.lk_replay_equal.specs.Numbers.{is_zero, zero_is, before};

use lk_premises::{Claim, are_equal, comes_to, nat_successor, nat_zero, same_tree};
use lk_store::memory::NoMemory;
use lk_store::node::Node;
use lk_store::terms::Terms;
use std::alloc::Global;

/// Whether a tree is the number 0.
fn is_zero<T: Terms>(terms: &T, e: u64) -> bool
    requires { e < length (T.contents terms.now).trees }
    ensures { result ≡ is_zero (tree_at (T.contents terms.now) e) }
{
    match terms.view(e) {
        Node::Lit(number) => number == 0,
        _ => false,
    }
}

/// Whether a tree is `Nat.zero`, and no premise is left.
fn is_constructor<T: Terms>(
    alloc: Global,
    terms: &mut T,
    left: &[u32],
    e: u64,
) -> Result<bool, NoMemory>
    requires { e < length (T.contents terms.old).trees }
    ensures { Tests T.contents T.rest terms.old terms.new result
        (zero_is left.now (tree_at (T.contents terms.old) e)) }
{
    let zero = nat_zero(alloc, terms)?;
    Ok(comes_to(terms, e, zero, left))
}

/// A line of 0 and `Nat.zero`, in either order.
#[tactic(auto, using(crate::proofs::Zeros::zero_first, crate::proofs::Zeros::zero_second, crate::proofs::Zeros::zero_neither))]
pub fn test_zero<T: Terms>(
    alloc: Global,
    terms: &mut T,
    left: &[u32],
    a: u64,
    b: u64,
) -> Result<bool, NoMemory>
    requires a_in { a < length (T.contents terms.old).trees }
    requires b_in { b < length (T.contents terms.old).trees }
    ensures { Tests T.contents T.rest terms.old terms.new result
        (eq_zero left.now (tree_at (T.contents terms.old) a)
        (tree_at (T.contents terms.old) b)) }
{
    if is_zero(terms, a) {
        return is_constructor(alloc, terms, left, b);
    }
    if is_zero(terms, b) {
        return is_constructor(alloc, terms, left, a);
    }
    Ok(false)
}

/// A number and the successor of a tree, where that is the number before it.
#[tactic(auto, unfolding(lk_premises::specs::Reading::ends_equal), using(lk_premises::proofs::Staying::claims_known, lk_premises::proofs::Staying::claims_same))]
fn number_and<T: Terms>(
    alloc: Global,
    terms: &mut T,
    claims: &[Claim],
    left: &[u32],
    before: u128,
    function: u64,
    argument: u64,
) -> Result<bool, NoMemory>
    requires claims_in { AreClaimsIn (T.contents terms.old) claims.now }
    requires function_in { function < length (T.contents terms.old).trees }
    requires argument_in { argument < length (T.contents terms.old).trees }
    ensures { let c = T.contents terms.old in
        Tests T.contents T.rest terms.old terms.new result
        (eq_succ (claims_at c claims.now) left.now (lit (suc before))
        (app (tree_at c function) (tree_at c argument))) }
{
    let successor = nat_successor(alloc, terms)?;
    if !same_tree(terms, function, successor) {
        return Ok(false);
    }
    let number = terms.make(Node::Lit(before))?;
    Ok(are_equal(terms, claims, left, number, argument))
}

/// The same the other way round.
#[tactic(auto, unfolding(lk_premises::specs::Reading::ends_equal), using(lk_premises::proofs::Staying::claims_known, lk_premises::proofs::Staying::claims_same))]
fn and_number<T: Terms>(
    alloc: Global,
    terms: &mut T,
    claims: &[Claim],
    left: &[u32],
    function: u64,
    argument: u64,
    before: u128,
) -> Result<bool, NoMemory>
    requires claims_in { AreClaimsIn (T.contents terms.old) claims.now }
    requires function_in { function < length (T.contents terms.old).trees }
    requires argument_in { argument < length (T.contents terms.old).trees }
    ensures { let c = T.contents terms.old in
        Tests T.contents T.rest terms.old terms.new result
        (eq_succ (claims_at c claims.now) left.now
        (app (tree_at c function) (tree_at c argument)) (lit (suc before))) }
{
    let successor = nat_successor(alloc, terms)?;
    if !same_tree(terms, function, successor) {
        return Ok(false);
    }
    let number = terms.make(Node::Lit(before))?;
    Ok(are_equal(terms, claims, left, argument, number))
}

/// The number before the one that a tree is, where it is one above 0.
fn number_before<T: Terms>(terms: &T, e: u64) -> Option<u128>
    requires { e < length (T.contents terms.now).trees }
    ensures { before (tree_at (T.contents terms.now) e) ≡ result }
{
    match terms.view(e) {
        Node::Lit(number) => number.checked_sub(1),
        _ => None,
    }
}

/// A number that is one above this one, and a tree that is to be a successor.
fn successor_and<T: Terms>(
    alloc: Global,
    terms: &mut T,
    claims: &[Claim],
    left: &[u32],
    before: u128,
    b: u64,
) -> Result<bool, NoMemory>
    requires claims_in { AreClaimsIn (T.contents terms.old) claims.now }
    requires b_in { b < length (T.contents terms.old).trees }
    ensures { let c = T.contents terms.old in
        Tests T.contents T.rest terms.old terms.new result
        (eq_succ (claims_at c claims.now) left.now (lit (suc before)) (tree_at c b)) }
{
    match terms.view(b) {
        Node::App(function, argument) => {
            number_and(alloc, terms, claims, left, before, function, argument)
        }
        _ => Ok(false),
    }
}

/// An application, and a tree that is to be a number above 0.
#[tactic(auto, using(crate::proofs::Zeros::before_is, crate::proofs::Zeros::none_before))]
fn application_and<T: Terms>(
    alloc: Global,
    terms: &mut T,
    claims: &[Claim],
    left: &[u32],
    function: u64,
    argument: u64,
    b: u64,
) -> Result<bool, NoMemory>
    requires claims_in { AreClaimsIn (T.contents terms.old) claims.now }
    requires function_in { function < length (T.contents terms.old).trees }
    requires argument_in { argument < length (T.contents terms.old).trees }
    requires b_in { b < length (T.contents terms.old).trees }
    ensures { let c = T.contents terms.old in
        Tests T.contents T.rest terms.old terms.new result
        (eq_succ (claims_at c claims.now) left.now
        (app (tree_at c function) (tree_at c argument)) (tree_at c b)) }
{
    match number_before(terms, b) {
        Some(before) => and_number(alloc, terms, claims, left, function, argument, before),
        None => Ok(false),
    }
}

/// A tree that is no number above 0, and another tree.
#[tactic(auto, using(crate::proofs::Zeros::no_successor))]
fn other_and<T: Terms>(
    alloc: Global,
    terms: &mut T,
    claims: &[Claim],
    left: &[u32],
    a: u64,
    b: u64,
) -> Result<bool, NoMemory>
    requires claims_in { AreClaimsIn (T.contents terms.old) claims.now }
    requires a_in { a < length (T.contents terms.old).trees }
    requires b_in { b < length (T.contents terms.old).trees }
    requires none { before (tree_at (T.contents terms.old) a) ≡ None }
    ensures { let c = T.contents terms.old in
        Tests T.contents T.rest terms.old terms.new result
        (eq_succ (claims_at c claims.now) left.now (tree_at c a) (tree_at c b)) }
{
    match terms.view(a) {
        Node::App(function, argument) => {
            application_and(alloc, terms, claims, left, function, argument, b)
        }
        _ => Ok(false),
    }
}

/// A line of a number above 0 and a successor, in either order.
#[tactic(auto, using(crate::proofs::Zeros::before_is))]
pub fn test_successor<T: Terms>(
    alloc: Global,
    terms: &mut T,
    claims: &[Claim],
    left: &[u32],
    a: u64,
    b: u64,
) -> Result<bool, NoMemory>
    requires claims_in { AreClaimsIn (T.contents terms.old) claims.now }
    requires a_in { a < length (T.contents terms.old).trees }
    requires b_in { b < length (T.contents terms.old).trees }
    ensures { let c = T.contents terms.old in
        Tests T.contents T.rest terms.old terms.new result
        (eq_succ (claims_at c claims.now) left.now (tree_at c a) (tree_at c b)) }
{
    match number_before(terms, a) {
        Some(before) => successor_and(alloc, terms, claims, left, before, b),
        None => other_and(alloc, terms, claims, left, a, b),
    }
}
