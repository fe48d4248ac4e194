//! Two terms of which one is a number, and the other zero or a successor.

ghost use Rattle.std.specs.Prelude.{◌≡◌, ◌<◌, [], ◌∷◌, length, map, suc, IfOk, IfSome};
ghost use Rattle.lk_tree.specs.Tree.{lit};
ghost use Rattle.lk_rulebook.specs.Claims.{equals};
ghost use Rattle.lk_questions.specs.Query.{same};
ghost use Rattle.lk_questions.specs.LiteralLines.{same_numbers};
ghost use Rattle.lk_written.specs.Line.{zero_rule, succ_rule};
ghost use Rattle.lk_store.specs.Contents.{tree_at, Extends};
ghost use Rattle.lk_lit.specs.Literals.{number_in};
ghost use Rattle.lk_step.specs.Steps.{equality as equality_step};
ghost use Rattle.lk_step.specs.Makes.{IsMade};
ghost use Rattle.lk_step.specs.Meaning.{IsRowIn};
ghost use Rattle.lk_step.specs.Told.{Leaves};
ghost use Rattle.lk_step.specs.Tests.{AreReduced};
ghost use Rattle.lk_step.specs.Tells.{Tells};
ghost use Rattle.lk_derive_lit.specs.Constructors.{IsCtorAt};
ghost use Rattle.lk_derive_lit.specs.Undenied.{NeverDenies};

use lk_ask::looks::Looks;
use lk_ask::query::Query;
use lk_premises::{nat_successor, nat_zero, same_tree};
use lk_step::making::{converted, equality};
use lk_step::{Derives, Row};
use lk_store::memory::NoMemory;
use lk_store::node::Node;
use lk_store::terms::Terms;
use lk_trace::ConversionRule;
use std::alloc::Global;

/// `Nat.zero`, or `Nat.succ` of a term.
#[derive(Clone, Copy)]
pub(crate) enum NatCtor {
    Zero,
    Succ(u64),
}

/// The number that a term is.
fn number_of<T: Terms>(terms: &T, e: u64) -> Option<u128>
    requires { e < length (T.contents terms.now).trees }
    ensures { result ≡ number_in (tree_at (T.contents terms.now) e) }
{
    match terms.view(e) {
        Node::Lit(number) => Some(number),
        _ => None,
    }
}

/// What a term is of the constructors of `Nat`.
fn nat_ctor<T: Terms>(alloc: Global, terms: &mut T, e: u64) -> Result<Option<NatCtor>, NoMemory>
    requires e_in { e < length (T.contents terms.old).trees }
    ensures keeps { Extends (T.contents terms.old) (T.contents terms.new) }
    ensures rest { T.rest terms.new ≡ T.rest terms.old }
    ensures is { IfOk result (IsCtorAt (T.contents terms.old) (tree_at (T.contents terms.old) e)) }
{
    match terms.view(e) {
        Node::App(function, argument) => {
            let successor = nat_successor(alloc, terms)?;
            if same_tree(terms, function, successor) {
                return Ok(Some(NatCtor::Succ(argument)));
            }
            Ok(None)
        }
        _ => {
            let zero = nat_zero(alloc, terms)?;
            if same_tree(terms, e, zero) {
                return Ok(Some(NatCtor::Zero));
            }
            Ok(None)
        }
    }
}

/// The row of 0 and `Nat.zero`.
fn zero_row<L: Looks>(looks: &L, a: u64, b: u64) -> Result<Row, NoMemory>
    requires a_in { a < length (L.contents looks.now).trees }
    requires b_in { b < length (L.contents looks.now).trees }
    ensures known { IfOk result (IsRowIn (L.contents looks.now)) }
    ensures row { let c = L.contents looks.now in let t = tree_at c in IfOk result (IsMade c []
        (equality_step zero_rule (t a) (t b) [] ∷ [])) }
{
    let asks = Vec::new(looks.alloc());
    let premises = Vec::new(looks.alloc());
    converted(looks, ConversionRule::Zero, a, b, asks, premises)
}

/// The row of a number and a successor, in either order, by these two, of which the one is the number before, and the
/// other what the successor is of.
fn successor_row<L: Looks>(
    looks: &L,
    a: u64,
    b: u64,
    left: u64,
    right: u64,
) -> Result<Row, NoMemory>
    requires a_in { a < length (L.contents looks.now).trees }
    requires b_in { b < length (L.contents looks.now).trees }
    requires left_in { left < length (L.contents looks.now).trees }
    requires right_in { right < length (L.contents looks.now).trees }
    ensures known { IfOk result (IsRowIn (L.contents looks.now)) }
    ensures row { let c = L.contents looks.now in let t = tree_at c in IfOk result (IsMade c
        (same (t left) (t right) ∷ [])
        (equality_step succ_rule (t a) (t b) (equals (t left) (t right) ∷ []) ∷ [])) }
{
    let alloc = looks.alloc();
    let asks = vec![in alloc; Query::Same(left, right)]?;
    let premises = vec![in alloc; equality(left, right)]?;
    converted(looks, ConversionRule::Successor, a, b, asks, premises)
}

/// A number, and another term.
fn first_number<D: Derives>(
    derives: &mut D,
    number: u128,
    a: u64,
    b: u64,
) -> Result<Option<Row>, NoMemory>
    requires a_in { a < length (D.contents derives.old).trees }
    requires b_in { b < length (D.contents derives.old).trees }
    requires a_is { tree_at (D.contents derives.old) a ≡ lit number }
    requires pair { AreReduced (D.sight (D.rest derives.old)).basis.place
        (tree_at (D.contents derives.old) a) (tree_at (D.contents derives.old) b) }
    requires undenied { NeverDenies (D.sight (D.rest derives.old)).basis.place (same_numbers
        (tree_at (D.contents derives.old) a) (tree_at (D.contents derives.old) b)) }
    ensures leaves { Leaves D.contents D.rest D.sight derives.old derives.new }
    ensures known { IfOk result (λ r. IfSome r (IsRowIn (D.contents derives.new))) }
    ensures tells { let t = tree_at (D.contents derives.old) in
        IfOk result (Tells (D.sight (D.rest derives.old)).basis.place (D.contents derives.new)
        (same_numbers (t a) (t b)) (equals (t a) (t b))) }
{
    let alloc = derives.alloc();
    let ctor = match nat_ctor(alloc, derives, b)? {
        Some(ctor) => ctor,
        None => return Ok(None),
    };
    match ctor {
        NatCtor::Zero => {
            if number != 0 {
                return Ok(None);
            }
            let row = zero_row(derives, a, b)?;
            Ok(Some(row))
        }
        NatCtor::Succ(argument) => {
            if number == 0 {
                return Ok(None);
            }
            let before = derives.make(Node::Lit(number - 1))?;
            let row = successor_row(derives, a, b, before, argument)?;
            Ok(Some(row))
        }
    }
}

/// A term, and a number. The term is none.
fn second_number<D: Derives>(
    derives: &mut D,
    number: u128,
    a: u64,
    b: u64,
) -> Result<Option<Row>, NoMemory>
    requires a_in { a < length (D.contents derives.old).trees }
    requires b_in { b < length (D.contents derives.old).trees }
    requires b_is { tree_at (D.contents derives.old) b ≡ lit number }
    requires a_other { number_in (tree_at (D.contents derives.old) a) ≡ None }
    requires pair { AreReduced (D.sight (D.rest derives.old)).basis.place
        (tree_at (D.contents derives.old) a) (tree_at (D.contents derives.old) b) }
    requires undenied { NeverDenies (D.sight (D.rest derives.old)).basis.place (same_numbers
        (tree_at (D.contents derives.old) a) (tree_at (D.contents derives.old) b)) }
    ensures leaves { Leaves D.contents D.rest D.sight derives.old derives.new }
    ensures known { IfOk result (λ r. IfSome r (IsRowIn (D.contents derives.new))) }
    ensures tells { let t = tree_at (D.contents derives.old) in
        IfOk result (Tells (D.sight (D.rest derives.old)).basis.place (D.contents derives.new)
        (same_numbers (t a) (t b)) (equals (t a) (t b))) }
{
    let alloc = derives.alloc();
    let ctor = match nat_ctor(alloc, derives, a)? {
        Some(ctor) => ctor,
        None => return Ok(None),
    };
    match ctor {
        NatCtor::Zero => {
            if number != 0 {
                return Ok(None);
            }
            let row = zero_row(derives, a, b)?;
            Ok(Some(row))
        }
        NatCtor::Succ(argument) => {
            if number == 0 {
                return Ok(None);
            }
            let before = derives.make(Node::Lit(number - 1))?;
            let row = successor_row(derives, a, b, argument, before)?;
            Ok(Some(row))
        }
    }
}

/// Two terms of which one may be a number, and the other zero or a successor.
pub(crate) fn by_numbers<D: Derives>(
    derives: &mut D,
    a: u64,
    b: u64,
) -> Result<Option<Row>, NoMemory>
    requires a_in { a < length (D.contents derives.old).trees }
    requires b_in { b < length (D.contents derives.old).trees }
    requires pair { AreReduced (D.sight (D.rest derives.old)).basis.place
        (tree_at (D.contents derives.old) a) (tree_at (D.contents derives.old) b) }
    requires undenied { NeverDenies (D.sight (D.rest derives.old)).basis.place (same_numbers
        (tree_at (D.contents derives.old) a) (tree_at (D.contents derives.old) b)) }
    ensures leaves { Leaves D.contents D.rest D.sight derives.old derives.new }
    ensures known { IfOk result (λ r. IfSome r (IsRowIn (D.contents derives.new))) }
    ensures tells { let t = tree_at (D.contents derives.old) in
        IfOk result (Tells (D.sight (D.rest derives.old)).basis.place (D.contents derives.new)
        (same_numbers (t a) (t b)) (equals (t a) (t b))) }
{
    match number_of(derives, a) {
        Some(number) => first_number(derives, number, a, b),
        None => match number_of(derives, b) {
            Some(number) => second_number(derives, number, a, b),
            None => Ok(None),
        },
    }
}
