//! Two different terms by their shape: sorts by their levels, binders by their domains and bodies, the others by their
//! `Core`.

ghost use Rattle.std.specs.Prelude.{◌≡◌, ◌<◌, [], ◌∷◌, length, IfOk};
ghost use Rattle.lk_tree.specs.Tree.{sort, lam, pi, lit, str};
ghost use Rattle.lk_rulebook.specs.Claims.{equals};
ghost use Rattle.lk_questions.specs.Same.{by_shape};
ghost use Rattle.lk_store.specs.Contents.{level_at, text_at, tree_at};
ghost use Rattle.lk_written.specs.Line.{sorts_rule};
ghost use Rattle.lk_step.specs.Steps.{equality as equality_step};
ghost use Rattle.lk_step.specs.Meaning.{IsRowIn};
ghost use Rattle.lk_step.specs.Told.{Leaves};
ghost use Rattle.lk_derive_equal.specs.Binders.{IsBinderIn};
ghost use Rattle.lk_step.specs.Makes.{IsMade};
ghost use Rattle.lk_step.specs.Tests.{IsYes, ArePair};
ghost use Rattle.lk_step.specs.Tells.{Rests};

use crate::binders::{Binder, bodies_row, open_both};
use crate::cores::by_cores;
use crate::tests::AllTests;
use lk_ask::looks::Looks;
use lk_step::making::converted;
use lk_step::{Derives, Row};
use lk_store::memory::NoMemory;
use lk_store::node::Node;
use lk_trace::ConversionRule;

/// The row of two sorts.
fn sorts_row<L: Looks>(looks: &L, a: u64, b: u64) -> Result<Row, NoMemory>
    requires a_in { a < length (L.contents looks.now).trees }
    requires b_in { b < length (L.contents looks.now).trees }
    ensures known { IfOk result (IsRowIn (L.contents looks.now)) }
    ensures row { let c = L.contents looks.now in let t = tree_at c in IfOk result (IsMade c []
        (equality_step sorts_rule (t a) (t b) [] ∷ [])) }
{
    let asks = Vec::new(looks.alloc());
    let premises = Vec::new(looks.alloc());
    converted(looks, ConversionRule::Sorts, a, b, asks, premises)
}

/// A sort and another term.
fn sort_and<D: Derives, N: AllTests<D>>(
    derives: &mut D,
    level: u64,
    a: u64,
    b: u64,
    enough: u128,
) -> Result<Row, NoMemory>
    requires a_in { a < length (D.contents derives.old).trees }
    requires b_in { b < length (D.contents derives.old).trees }
    requires a_is { sort (level_at (D.contents derives.old) level)
        ≡ tree_at (D.contents derives.old) a }
    requires pair { ArePair (D.sight (D.rest derives.old)).basis.place
        (tree_at (D.contents derives.old) a) (tree_at (D.contents derives.old) b) }
    requires says { IsYes (D.sight (D.rest derives.old)).basis.place (by_shape
        (tree_at (D.contents derives.old) a) (tree_at (D.contents derives.old) b)) enough }
    ensures leaves { Leaves D.contents D.rest D.sight derives.old derives.new }
    ensures known { IfOk result (IsRowIn (D.contents derives.new)) }
    ensures rests { let t = tree_at (D.contents derives.old) in
        IfOk result (Rests (D.sight (D.rest derives.old)).basis.place (D.contents derives.new)
        (by_shape (t a) (t b)) (equals (t a) (t b))) }
{
    match derives.view(b) {
        Node::Sort(_) => sorts_row(derives, a, b),
        _ => by_cores::<D, N>(derives, a, b, enough),
    }
}

/// The row of two lambdas.
fn lambdas_row<D: Derives>(
    derives: &mut D,
    a: u64,
    b: u64,
    first: Binder,
    second: Binder,
) -> Result<Row, NoMemory>
    requires a_in { a < length (D.contents derives.old).trees }
    requires b_in { b < length (D.contents derives.old).trees }
    requires first_in { IsBinderIn (D.contents derives.old) first }
    requires second_in { IsBinderIn (D.contents derives.old) second }
    requires a_is { let t = tree_at (D.contents derives.old) in
        lam (t first.domain) (t first.body) ≡ t a }
    requires b_is { let t = tree_at (D.contents derives.old) in
        lam (t second.domain) (t second.body) ≡ t b }
    requires pair { ArePair (D.sight (D.rest derives.old)).basis.place
        (tree_at (D.contents derives.old) a) (tree_at (D.contents derives.old) b) }
    ensures leaves { Leaves D.contents D.rest D.sight derives.old derives.new }
    ensures known { IfOk result (IsRowIn (D.contents derives.new)) }
    ensures rests { let t = tree_at (D.contents derives.old) in
        IfOk result (Rests (D.sight (D.rest derives.old)).basis.place (D.contents derives.new)
        (by_shape (t a) (t b)) (equals (t a) (t b))) }
{
    let bodies = open_both(derives, a, b, first, second)?;
    let rule = ConversionRule::Lambda {
        local: bodies.local,
    };
    bodies_row(derives, rule, a, b, first.domain, second.domain, bodies)
}

/// The row of two function types.
fn pis_row<D: Derives>(
    derives: &mut D,
    a: u64,
    b: u64,
    first: Binder,
    second: Binder,
) -> Result<Row, NoMemory>
    requires a_in { a < length (D.contents derives.old).trees }
    requires b_in { b < length (D.contents derives.old).trees }
    requires first_in { IsBinderIn (D.contents derives.old) first }
    requires second_in { IsBinderIn (D.contents derives.old) second }
    requires a_is { let t = tree_at (D.contents derives.old) in
        pi (t first.domain) (t first.body) ≡ t a }
    requires b_is { let t = tree_at (D.contents derives.old) in
        pi (t second.domain) (t second.body) ≡ t b }
    requires pair { ArePair (D.sight (D.rest derives.old)).basis.place
        (tree_at (D.contents derives.old) a) (tree_at (D.contents derives.old) b) }
    ensures leaves { Leaves D.contents D.rest D.sight derives.old derives.new }
    ensures known { IfOk result (IsRowIn (D.contents derives.new)) }
    ensures rests { let t = tree_at (D.contents derives.old) in
        IfOk result (Rests (D.sight (D.rest derives.old)).basis.place (D.contents derives.new)
        (by_shape (t a) (t b)) (equals (t a) (t b))) }
{
    let bodies = open_both(derives, a, b, first, second)?;
    let rule = ConversionRule::Pi {
        local: bodies.local,
    };
    bodies_row(derives, rule, a, b, first.domain, second.domain, bodies)
}

/// A lambda and another term.
fn lambda_and<D: Derives, N: AllTests<D>>(
    derives: &mut D,
    first: Binder,
    a: u64,
    b: u64,
    enough: u128,
) -> Result<Row, NoMemory>
    requires a_in { a < length (D.contents derives.old).trees }
    requires b_in { b < length (D.contents derives.old).trees }
    requires first_in { IsBinderIn (D.contents derives.old) first }
    requires a_is { let t = tree_at (D.contents derives.old) in
        lam (t first.domain) (t first.body) ≡ t a }
    requires pair { ArePair (D.sight (D.rest derives.old)).basis.place
        (tree_at (D.contents derives.old) a) (tree_at (D.contents derives.old) b) }
    requires says { IsYes (D.sight (D.rest derives.old)).basis.place (by_shape
        (tree_at (D.contents derives.old) a) (tree_at (D.contents derives.old) b)) enough }
    ensures leaves { Leaves D.contents D.rest D.sight derives.old derives.new }
    ensures known { IfOk result (IsRowIn (D.contents derives.new)) }
    ensures rests { let t = tree_at (D.contents derives.old) in
        IfOk result (Rests (D.sight (D.rest derives.old)).basis.place (D.contents derives.new)
        (by_shape (t a) (t b)) (equals (t a) (t b))) }
{
    match derives.view(b) {
        Node::Lam(domain, body) => {
            let second = Binder { domain, body };
            lambdas_row(derives, a, b, first, second)
        }
        _ => by_cores::<D, N>(derives, a, b, enough),
    }
}

/// A function type and another term.
fn pi_and<D: Derives, N: AllTests<D>>(
    derives: &mut D,
    first: Binder,
    a: u64,
    b: u64,
    enough: u128,
) -> Result<Row, NoMemory>
    requires a_in { a < length (D.contents derives.old).trees }
    requires b_in { b < length (D.contents derives.old).trees }
    requires first_in { IsBinderIn (D.contents derives.old) first }
    requires a_is { let t = tree_at (D.contents derives.old) in
        pi (t first.domain) (t first.body) ≡ t a }
    requires pair { ArePair (D.sight (D.rest derives.old)).basis.place
        (tree_at (D.contents derives.old) a) (tree_at (D.contents derives.old) b) }
    requires says { IsYes (D.sight (D.rest derives.old)).basis.place (by_shape
        (tree_at (D.contents derives.old) a) (tree_at (D.contents derives.old) b)) enough }
    ensures leaves { Leaves D.contents D.rest D.sight derives.old derives.new }
    ensures known { IfOk result (IsRowIn (D.contents derives.new)) }
    ensures rests { let t = tree_at (D.contents derives.old) in
        IfOk result (Rests (D.sight (D.rest derives.old)).basis.place (D.contents derives.new)
        (by_shape (t a) (t b)) (equals (t a) (t b))) }
{
    match derives.view(b) {
        Node::Pi(domain, body) => {
            let second = Binder { domain, body };
            pis_row(derives, a, b, first, second)
        }
        _ => by_cores::<D, N>(derives, a, b, enough),
    }
}

/// A number and another term, which is no number: no other number is the same.
fn number_and<D: Derives, N: AllTests<D>>(
    derives: &mut D,
    number: u128,
    a: u64,
    b: u64,
    enough: u128,
) -> Result<Row, NoMemory>
    requires a_in { a < length (D.contents derives.old).trees }
    requires b_in { b < length (D.contents derives.old).trees }
    requires a_is { lit number ≡ tree_at (D.contents derives.old) a }
    requires pair { ArePair (D.sight (D.rest derives.old)).basis.place
        (tree_at (D.contents derives.old) a) (tree_at (D.contents derives.old) b) }
    requires says { IsYes (D.sight (D.rest derives.old)).basis.place (by_shape
        (tree_at (D.contents derives.old) a) (tree_at (D.contents derives.old) b)) enough }
    ensures leaves { Leaves D.contents D.rest D.sight derives.old derives.new }
    ensures known { IfOk result (IsRowIn (D.contents derives.new)) }
    ensures rests { let t = tree_at (D.contents derives.old) in
        IfOk result (Rests (D.sight (D.rest derives.old)).basis.place (D.contents derives.new)
        (by_shape (t a) (t b)) (equals (t a) (t b))) }
{
    match derives.view(b) {
        Node::Lit(_) => unreachable!(),
        _ => by_cores::<D, N>(derives, a, b, enough),
    }
}

/// A text and another term, which is no text: no other text is the same.
fn text_and<D: Derives, N: AllTests<D>>(
    derives: &mut D,
    text: u64,
    a: u64,
    b: u64,
    enough: u128,
) -> Result<Row, NoMemory>
    requires a_in { a < length (D.contents derives.old).trees }
    requires b_in { b < length (D.contents derives.old).trees }
    requires a_is { let c = D.contents derives.old in str (text_at c text) ≡ tree_at c a }
    requires pair { ArePair (D.sight (D.rest derives.old)).basis.place
        (tree_at (D.contents derives.old) a) (tree_at (D.contents derives.old) b) }
    requires says { IsYes (D.sight (D.rest derives.old)).basis.place (by_shape
        (tree_at (D.contents derives.old) a) (tree_at (D.contents derives.old) b)) enough }
    ensures leaves { Leaves D.contents D.rest D.sight derives.old derives.new }
    ensures known { IfOk result (IsRowIn (D.contents derives.new)) }
    ensures rests { let t = tree_at (D.contents derives.old) in
        IfOk result (Rests (D.sight (D.rest derives.old)).basis.place (D.contents derives.new)
        (by_shape (t a) (t b)) (equals (t a) (t b))) }
{
    match derives.view(b) {
        Node::Str(_) => unreachable!(),
        _ => by_cores::<D, N>(derives, a, b, enough),
    }
}

/// Two different terms by their shape.
pub(crate) fn by_shapes<D: Derives, N: AllTests<D>>(
    derives: &mut D,
    a: u64,
    b: u64,
    enough: u128,
) -> Result<Row, NoMemory>
    requires a_in { a < length (D.contents derives.old).trees }
    requires b_in { b < length (D.contents derives.old).trees }
    requires pair { ArePair (D.sight (D.rest derives.old)).basis.place
        (tree_at (D.contents derives.old) a) (tree_at (D.contents derives.old) b) }
    requires says { IsYes (D.sight (D.rest derives.old)).basis.place (by_shape
        (tree_at (D.contents derives.old) a) (tree_at (D.contents derives.old) b)) enough }
    ensures leaves { Leaves D.contents D.rest D.sight derives.old derives.new }
    ensures known { IfOk result (IsRowIn (D.contents derives.new)) }
    ensures rests { let t = tree_at (D.contents derives.old) in
        IfOk result (Rests (D.sight (D.rest derives.old)).basis.place (D.contents derives.new)
        (by_shape (t a) (t b)) (equals (t a) (t b))) }
{
    match derives.view(a) {
        Node::Sort(level) => sort_and::<D, N>(derives, level, a, b, enough),
        Node::Lam(domain, body) => lambda_and::<D, N>(
            derives,
            Binder { domain, body },
            a,
            b,
            enough,
        ),
        Node::Pi(domain, body) => pi_and::<D, N>(derives, Binder { domain, body }, a, b, enough),
        Node::Lit(number) => number_and::<D, N>(derives, number, a, b, enough),
        Node::Str(text) => text_and::<D, N>(derives, text, a, b, enough),
        _ => by_cores::<D, N>(derives, a, b, enough),
    }
}
