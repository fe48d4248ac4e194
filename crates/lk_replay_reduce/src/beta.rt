//! Lambdas that are applied.

ghost use Rattle.std.specs.Prelude.{◌≡◌, ◌<◌, ◌≤◌, ℕ, true, length, map, min, take, All, IfOk};
ghost use Rattle.lk_tree.specs.Tree.{Tree};
ghost use Rattle.lk_tree.specs.Loose.{loose};
ghost use Rattle.lk_store.specs.Contents.{tree_at, IsTree};
ghost use Rattle.lk_questions.specs.Core.{beta, lambdas};
ghost use Rattle.lk_ask.specs.Looks.{MakesTree};
ghost use Rattle.lk_replay_reduce.specs.Lambdas.{under};

use lk_ask::looks::Looks;
use lk_spine::apply;
use lk_store::memory::NoMemory;
use lk_store::node::Node;
use lk_store::terms::Terms;
use lk_subst::opening::open_with;
use lk_subst::putting::put;

/// What stands under the leading lambdas of a term, at most so many of them, and under how many it
/// stands.
fn body_under<T: Terms>(terms: &T, head: u64, most: usize) -> (u64, usize)
    requires { head < length (T.contents terms.now).trees }
    ensures count { result.1 ≡ min (lambdas (tree_at (T.contents terms.now) head)) most }
    ensures body { let c = T.contents terms.now in
        IsTree c result.0 (under result.1 (tree_at c head)) }
{
    let mut body = head;
    let mut count = 0;
    'down: while count < most {
        match terms.view(body) {
            Node::Lam(_, inner) => {
                body = inner;
                count += 1;
            }
            _ => return (body, count),
        }
    }
    (body, count)
}

/// Whether none of the terms has a loose variable.
fn are_closed<T: Terms>(terms: &T, values: &[u64]) -> bool
    requires { All (λ v. v < length (T.contents terms.now).trees) values.now }
    ensures { result ≡ true → All (λ v. loose (tree_at (T.contents terms.now) v) ≡ 0) values.now }
{
    for v in values {
        if terms.loose_bound(*v) != 0 {
            return false;
        }
    }
    true
}

/// A term applied to arguments, where so many of its leading lambdas are opened with the first
/// ones, one after another. Where it has fewer lambdas, those are opened.
fn open_in_turn<L: Looks>(
    looks: &mut L,
    head: u64,
    count: usize,
    args: &[u64],
) -> Result<u64, NoMemory>
    requires head_in { head < length (L.contents looks.old).trees }
    requires args_in { All (λ e. e < length (L.contents looks.old).trees) args.now }
    ensures { MakesTree L.contents L.rest looks.old looks.new result
        (λ t. beta count (t head) (map t args.now)) }
{
    let mut e = head;
    let mut left = count;
    let mut rest = args;
    'open: while let Some((a, more)) = rest.split_first() {
        match looks.view(e) {
            Node::Lam(_, body) if left > 0 => {
                e = open_with(looks.alloc(), looks, body, *a)?;
                left -= 1;
                rest = more;
            }
            _ => return apply(looks, e, rest),
        }
    }
    Ok(e)
}

/// The body under so many leading lambdas, with the first arguments in place of their variables,
/// all at once, applied to the other arguments.
fn put_at_once<L: Looks>(
    looks: &mut L,
    body: u64,
    count: usize,
    args: &[u64],
) -> Result<u64, NoMemory>
    requires body_in { body < length (L.contents looks.old).trees }
    requires few { count ≤ length args.now }
    requires args_in { All (λ e. e < length (L.contents looks.old).trees) args.now }
    ensures { (h : Tree) → tree_at (L.contents looks.old) body ≡ under count h → count ≤ lambdas h
        → All (λ v. loose (tree_at (L.contents looks.old) v) ≡ 0) (take count args.now)
        → MakesTree L.contents L.rest looks.old looks.new result
        (λ t. beta count h (map t args.now)) }
{
    let (values, others) = args.split_at(count);
    let e = put(looks.alloc(), looks, body, values)?;
    apply(looks, e, others)
}

/// A term applied to arguments, where as many of its leading lambdas as there are arguments are
/// opened with them.
///
/// Closed arguments are put for all those variables at once.
pub(crate) fn beta<L: Looks>(looks: &mut L, head: u64, args: &[u64]) -> Result<u64, NoMemory>
    requires head_in { head < length (L.contents looks.old).trees }
    requires args_in { All (λ e. e < length (L.contents looks.old).trees) args.now }
    ensures { MakesTree L.contents L.rest looks.old looks.new result
        (λ t. beta (lambdas (t head)) (t head) (map t args.now)) }
{
    let (body, count) = body_under(looks, head, args.len());
    if are_closed(looks, &args[..count]) {
        put_at_once(looks, body, count, args)
    } else {
        open_in_turn(looks, head, count, args)
    }
}
