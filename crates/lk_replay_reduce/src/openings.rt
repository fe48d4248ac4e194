//! Lambdas that are applied, and Lets.

ghost use Rattle.std.specs.Prelude.{◌≡◌, ◌<◌, length, map, All};
ghost use Rattle.lk_tree.specs.Bind.{opened};
ghost use Rattle.lk_written.specs.Reducing.{red_beta, red_zeta};
ghost use Rattle.lk_store.specs.Contents.{tree_at};
ghost use Rattle.lk_premises.specs.Testing.{Tests};
ghost use Rattle.lk_premises.specs.Applied.{applied_to};
ghost use Rattle.lk_replay_reduce.specs.Openings.{is_lam, beta_of};

use crate::beta::beta;
use lk_ask::looks::Looks;
use lk_premises::{comes_to, comes_to_applied};
use lk_spine::{args, head};
use lk_store::memory::NoMemory;
use lk_store::node::Node;
use lk_store::terms::Terms;
use lk_subst::opening::open_with;
use std::alloc::Global;

/// Whether a tree is a body with a value for its variable, applied to the arguments of another tree.
fn is_opened<T: Terms>(
    alloc: Global,
    terms: &mut T,
    left: &[u32],
    value: u64,
    body: u64,
    a: u64,
    b: u64,
) -> Result<bool, NoMemory>
    requires value_in { value < length (T.contents terms.old).trees }
    requires body_in { body < length (T.contents terms.old).trees }
    requires a_in { a < length (T.contents terms.old).trees }
    requires b_in { b < length (T.contents terms.old).trees }
    ensures { let t = tree_at (T.contents terms.old) in
        Tests T.contents T.rest terms.old terms.new result
        (applied_to left.now (opened (t body) (t value)) (t a) (t b)) }
{
    let front = open_with(alloc, terms, body, value)?;
    Ok(comes_to_applied(terms, left, front, a, b))
}

/// A line of a Let, with arguments or without.
pub fn test_zeta<T: Terms>(
    alloc: Global,
    terms: &mut T,
    left: &[u32],
    a: u64,
    b: u64,
) -> Result<bool, NoMemory>
    requires a_in { a < length (T.contents terms.old).trees }
    requires b_in { b < length (T.contents terms.old).trees }
    ensures { let t = tree_at (T.contents terms.old) in
        Tests T.contents T.rest terms.old terms.new result (red_zeta left.now (t a) (t b)) }
{
    let front = head(terms, a);
    match terms.view(front) {
        Node::Let(_, value, body) => is_opened(alloc, terms, left, value, body, a, b),
        _ => Ok(false),
    }
}

fn is_lambda<T: Terms>(terms: &T, e: u64) -> bool
    requires { e < length (T.contents terms.now).trees }
    ensures { result ≡ is_lam (tree_at (T.contents terms.now) e) }
{
    match terms.view(e) {
        Node::Lam(_, _) => true,
        _ => false,
    }
}

/// Whether a tree is a lambda, applied to these arguments, with as many of its leading lambdas opened as there are
/// arguments for.
fn is_beta<L: Looks>(
    looks: &mut L,
    left: &[u32],
    front: u64,
    arguments: &[u64],
    b: u64,
) -> Result<bool, NoMemory>
    requires front_in { front < length (L.contents looks.old).trees }
    requires arguments_in { All (λ e. e < length (L.contents looks.old).trees) arguments.now }
    requires b_in { b < length (L.contents looks.old).trees }
    ensures { let t = tree_at (L.contents looks.old) in
        Tests L.contents L.rest looks.old looks.new result
        (beta_of left.now (t front) (map t arguments.now) (t b)) }
{
    if !is_lambda(looks, front) || arguments.is_empty() {
        return Ok(false);
    }
    let made = beta(looks, front, arguments)?;
    Ok(comes_to(looks, b, made, left))
}

/// A line of a lambda that is applied.
pub fn test_beta<L: Looks>(looks: &mut L, left: &[u32], a: u64, b: u64) -> Result<bool, NoMemory>
    requires a_in { a < length (L.contents looks.old).trees }
    requires b_in { b < length (L.contents looks.old).trees }
    ensures { let t = tree_at (L.contents looks.old) in
        Tests L.contents L.rest looks.old looks.new result (red_beta left.now (t a) (t b)) }
{
    let front = head(looks, a);
    let arguments = args(looks.alloc(), looks, a)?;
    is_beta(looks, left, front, &arguments, b)
}
