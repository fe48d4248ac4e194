//! Questions whose answer is at hand: it takes no look-up, and no term is made.

ghost use Rattle.std.specs.Prelude.{◌≡◌, ◌<◌, None, true, length, IfSome};
ghost use Rattle.lk_store.specs.Contents.{Contents, tree_at, tree_of};
ghost use Rattle.lk_ask.specs.Questions.{IsKnownQuery};
ghost use Rattle.lk_ask.specs.declared.query.Answer.TheVariants.{Term, Truth};
ghost use Rattle.lk_engine.specs.Entries.{IsTrueAt};
ghost use Rattle.lk_engine.specs.Instants.{IsForm, IsTypeOf};
ghost use Rattle.lk_engine.specs.Lookouts.{place_of};

use lk_ask::kept::Kept;
use lk_ask::lookout::Lookout;
use lk_ask::query::{Answer, Query};
use lk_store::node::Node;
use lk_store::terms::Terms;

/// Whether a node is a weak head form whatever stands in it.
#[inline(always)]
fn is_form(node: Node) -> bool
    ensures { result ≡ true → (c : Contents) → IsForm (tree_of c node) }
{
    match node {
        Node::App(_, _) | Node::Let(_, _, _) | Node::Proj(_, _, _) | Node::Const(_, _) => false,
        Node::Var(_) => true,
        Node::Sort(_) => true,
        Node::Lam(_, _) => true,
        Node::Pi(_, _) => true,
        Node::Lit(_) => true,
        Node::Wide => true,
        Node::Str(_) => true,
        Node::Local(_, _) => true,
    }
}

/// A weak head form as its own answer, at this cost.
#[inline(always)]
fn as_form<T: Terms>(lookout: &Lookout<'_, T>, e: u64, cost: u128) -> Option<Kept>
    requires { e < length (T.contents lookout.now.terms).trees }
    ensures form { IfSome result (λ k. IsForm (tree_at (T.contents lookout.now.terms) e)) }
    ensures is { IfSome result (λ k. k ≡ record { answer = Term e; cost = cost; top = None }) }
{
    if is_form(lookout.terms.view(e)) {
        Some(Kept {
            answer: Answer::Term(e),
            cost,
            top: None,
        })
    } else {
        None
    }
}

/// The type of a Local, which costs one step.
#[inline(always)]
fn type_of_local<T: Terms>(lookout: &Lookout<'_, T>, e: u64) -> Option<Kept>
    requires { e < length (T.contents lookout.now.terms).trees }
    ensures { IfSome result (IsTypeOf (T.contents lookout.now.terms) e) }
{
    match lookout.terms.view(e) {
        Node::Local(_, ty) => Some(Kept {
            answer: Answer::Term(ty),
            cost: 1,
            top: None,
        }),
        _ => None,
    }
}

/// Whether two terms are one, which costs one step.
#[inline(always)]
fn as_one<T: Terms>(lookout: &Lookout<'_, T>, a: u64, b: u64) -> Option<Kept>
    requires a_in { a < length (T.contents lookout.now.terms).trees }
    requires b_in { b < length (T.contents lookout.now.terms).trees }
    ensures one { IfSome result (λ k. tree_at (T.contents lookout.now.terms) a
        ≡ tree_at (T.contents lookout.now.terms) b) }
    ensures is { IfSome result (λ k. k ≡ record { answer = Truth true; cost = 1; top = None }) }
{
    if lookout.terms.same(a, b) {
        Some(Kept {
            answer: Answer::Truth(true),
            cost: 1,
            top: None,
        })
    } else {
        None
    }
}

/// The answer of a question that is at hand. To look it up in the memo would take longer.
#[inline(always)]
pub fn at_once<T: Terms>(lookout: &Lookout<'_, T>, query: Query<u64>) -> Option<Kept>
    requires { IsKnownQuery (length (T.contents lookout.now.terms).trees) query }
    ensures { IfSome result (IsTrueAt (place_of lookout.now) (T.contents lookout.now.terms) query) }
{
    match query {
        Query::Core(e) => as_form(lookout, e, 1),
        Query::Whnf(e) => as_form(lookout, e, 2),
        Query::Infer(e) => type_of_local(lookout, e),
        Query::Same(a, b) => as_one(lookout, a, b),
    }
}
