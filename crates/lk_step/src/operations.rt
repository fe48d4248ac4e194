//! Operations on numbers: what the literal step of a term computes, and that a row states it.

ghost use Rattle.std.specs.Prelude.{◌≡◌, ◌<◌, ℕ, suc, [], ◌∷◌, Option, IfOk, IfSome, OnOk};
ghost use Rattle.std.specs.Prelude.{length, option_map};
ghost use Rattle.lk_tree.specs.Tree.{Tree, const};
ghost use Rattle.lk_tree.specs.Spine.{head as head_of, args as args_of};
ghost use Rattle.lk_tree.specs.WellFormed.{IsWellFormed};
ghost use Rattle.lk_rulebook.specs.Claims.{reduces};
ghost use Rattle.lk_questions.specs.LiteralLines.{step_of};
ghost use Rattle.lk_store.specs.Contents.{Contents, name_at, list_at, tree_at};
ghost use Rattle.lk_ask.specs.declared.query.Query.TheVariants as query;
ghost use Rattle.lk_ask.specs.declared.next.Next.TheVariants as next_of;
ghost use Rattle.lk_lit.specs.declared.step.LitPart.TheVariants as part_of;
ghost use Rattle.lk_premises.specs.Claims.{claims_at, AreClaimsIn};
ghost use Rattle.lk_step.specs.Runs.{Runs};
ghost use Rattle.lk_step.specs.Told.{Leaves};
ghost use Rattle.lk_step.specs.Tests.{IsRun};
ghost use Rattle.lk_step.specs.Computed.{ComesTo, StatesValue, AddsStep};
ghost use Rattle.lk_step.specs.Computed.{HasOperands, AreOperands};
ghost use Rattle.lk_step.specs.Driving.{IsDriven, IsGoing, IsOver, HasValue, IsConstantIf};

use crate::derives::form_of;
use crate::under_way::{add_step, ask_form, one_reduction};
use crate::{Derives, Row};
use lk_ask::next::Next;
use lk_ask::query::Query;
use lk_lit::sheet::LitSheet;
use lk_lit::step::{LitPart, begin, resume};
use lk_premises::{Claim, Relation};
use lk_spine::head;
use lk_store::memory::NoMemory;
use lk_store::node::Node;
use lk_store::terms::Terms;
use lk_trace::ReductionRule;
use std::alloc::Global;

/// A constant: its name and its levels.
#[derive(Clone, Copy)]
pub(crate) struct Constant {
    pub name: u64,
    pub levels: u64,
}

/// The constant that a tree is.
fn constant_of<T: Terms>(terms: &T, e: u64) -> Option<Constant>
    requires { e < length (T.contents terms.now).trees }
    ensures { let c = T.contents terms.now in IsConstantIf c (tree_at c e) result }
{
    match terms.view(e) {
        Node::Const(name, levels) => Some(Constant { name, levels }),
        _ => None,
    }
}

/// Begins the literal step of a term whose head is this constant.
fn begin_constant<D: Derives>(
    derives: &mut D,
    constant: Constant,
    e: u64,
    enough: u128,
) -> Result<LitPart, NoMemory>
    requires e_in { e < length (D.contents derives.old).trees }
    requires name_in { constant.name < length (D.contents derives.old).names }
    requires levels_in { constant.levels < length (D.contents derives.old).lists }
    requires head_is { let c = D.contents derives.old in const (name_at c constant.name)
        (list_at c constant.levels) ≡ head_of (tree_at c e) }
    requires run { let t = tree_at (D.contents derives.old) in
        IsRun (D.sight (D.rest derives.old)).basis.place (step_of (t e) (head_of (t e))) enough }
    ensures leaves { Leaves D.contents D.rest D.sight derives.old derives.new }
    ensures driven { let t = tree_at (D.contents derives.old) in
        let w = (D.sight (D.rest derives.old)).basis.place in IfOk result (λ part.
        (r : Option Tree) (n : ℕ) → Runs w (step_of (t e) (head_of (t e))) r n → n < enough
        → IsDriven w (D.contents derives.new) (D.sight (D.rest derives.new)).last part r 2 enough) }
{
    let entry = match derives.means(constant.name) {
        Ok(entry) => entry,
        Err(_) => unreachable!(),
    };
    begin(derives, entry, constant.name, constant.levels, e)
}

/// Begins the literal step of a term. Only a constant at its head may have one.
fn begin_step<D: Derives>(derives: &mut D, e: u64, enough: u128) -> Result<LitPart, NoMemory>
    requires e_in { e < length (D.contents derives.old).trees }
    requires run { let t = tree_at (D.contents derives.old) in
        IsRun (D.sight (D.rest derives.old)).basis.place (step_of (t e) (head_of (t e))) enough }
    ensures leaves { Leaves D.contents D.rest D.sight derives.old derives.new }
    ensures driven { let t = tree_at (D.contents derives.old) in
        let w = (D.sight (D.rest derives.old)).basis.place in IfOk result (λ part.
        (r : Option Tree) (n : ℕ) → Runs w (step_of (t e) (head_of (t e))) r n → n < enough
        → IsDriven w (D.contents derives.new) (D.sight (D.rest derives.new)).last part r 2 enough) }
{
    let front = head(derives, e);
    match constant_of(derives, front) {
        Some(constant) => begin_constant(derives, constant, e, enough),
        None => Ok(LitPart::Comes {
            term: e,
            value: None,
        }),
    }
}

/// Goes on with the weak head form of an argument.
fn with_form<D: Derives>(
    derives: &mut D,
    e: u64,
    sheet: LitSheet<u64>,
    enough: u128,
) -> Result<LitPart, NoMemory>
    requires going { let s = D.sight (D.rest derives.old) in
        IsGoing s.basis.place (D.contents derives.old) s.last
        (part_of.Goes (next_of.Ask (query.Whnf e) sheet)) enough }
    ensures leaves { Leaves D.contents D.rest D.sight derives.old derives.new }
    ensures driven { let s = D.sight (D.rest derives.old) in IfOk result (λ part.
        (r : Option Tree) (left : ℕ) → IsDriven s.basis.place (D.contents derives.old) s.last
        (part_of.Goes (next_of.Ask (query.Whnf e) sheet)) r (suc left) enough
        → IsDriven s.basis.place (D.contents derives.new) (D.sight (D.rest derives.new)).last
        part r left enough) }
{
    let form = form_of(derives, e, enough)?;
    resume(derives, sheet, form)
}

/// Goes on with what the literal step asks for, which is the weak head form of an argument.
fn with_answer<D: Derives>(
    derives: &mut D,
    next: Next<u64, LitSheet<u64>>,
    enough: u128,
) -> Result<LitPart, NoMemory>
    requires going { let s = D.sight (D.rest derives.old) in
        IsGoing s.basis.place (D.contents derives.old) s.last (part_of.Goes next) enough }
    ensures leaves { Leaves D.contents D.rest D.sight derives.old derives.new }
    ensures driven { let s = D.sight (D.rest derives.old) in IfOk result (λ part.
        (r : Option Tree) (left : ℕ) → IsDriven s.basis.place (D.contents derives.old) s.last
        (part_of.Goes next) r (suc left) enough
        → IsDriven s.basis.place (D.contents derives.new) (D.sight (D.rest derives.new)).last
        part r left enough) }
{
    match next {
        Next::Ask(query, sheet) => match query {
            Query::Whnf(e) => with_form(derives, e, sheet, enough),
            Query::Core(_) => unreachable!(),
            Query::Infer(_) => unreachable!(),
            Query::Same(_, _) => unreachable!(),
        },
        Next::Done(_) => unreachable!(),
        Next::No(_) => unreachable!(),
    }
}

/// Goes on with the literal step, where it asks for something.
fn one_more<D: Derives>(derives: &mut D, part: LitPart, enough: u128) -> Result<LitPart, NoMemory>
    requires going { let s = D.sight (D.rest derives.old) in
        IsGoing s.basis.place (D.contents derives.old) s.last part enough }
    ensures leaves { Leaves D.contents D.rest D.sight derives.old derives.new }
    ensures driven { let s = D.sight (D.rest derives.old) in IfOk result (λ more.
        (r : Option Tree) (left : ℕ) → IsDriven s.basis.place (D.contents derives.old) s.last
        part r (suc left) enough
        → IsDriven s.basis.place (D.contents derives.new) (D.sight (D.rest derives.new)).last
        more r left enough) }
{
    match part {
        LitPart::Comes { term, value } => Ok(LitPart::Comes { term, value }),
        LitPart::Goes(next) => with_answer(derives, next, enough),
    }
}

/// What the literal step came to, which asks for nothing any more.
fn value_in(part: LitPart) -> Option<u64>
    requires { IsOver part }
    ensures { HasValue part result }
{
    match part {
        LitPart::Comes { term: _, value } => value,
        LitPart::Goes(_) => unreachable!(),
    }
}

/// The value of the literal step of a term, where it has one. An operation takes at most two arguments.
fn computed<D: Derives>(derives: &mut D, e: u64, enough: u128) -> Result<Option<u64>, NoMemory>
    requires e_in { e < length (D.contents derives.old).trees }
    requires run { let t = tree_at (D.contents derives.old) in
        IsRun (D.sight (D.rest derives.old)).basis.place (step_of (t e) (head_of (t e))) enough }
    ensures leaves { Leaves D.contents D.rest D.sight derives.old derives.new }
    ensures known { IfOk result (λ x. IfSome x (λ v. v < length (D.contents derives.new).trees)) }
    ensures comes { let t = tree_at (D.contents derives.old) in IfOk result (λ x.
        (r : Option Tree) (n : ℕ) → Runs (D.sight (D.rest derives.old)).basis.place
        (step_of (t e) (head_of (t e))) r n
        → r ≡ option_map (tree_at (D.contents derives.new)) x) }
{
    let first = begin_step(derives, e, enough)?;
    let second = one_more(derives, first, enough)?;
    let third = one_more(derives, second, enough)?;
    Ok(value_in(third))
}

/// The two premises that each of two trees reduces to another.
fn both_reductions(alloc: Global, a: u64, b: u64, c: u64, d: u64) -> Result<Vec<Claim>, NoMemory>
    ensures are { IfOk result (λ cs. (k : Contents) → claims_at k cs.items
        ≡ reduces (tree_at k a) (tree_at k b) ∷ reduces (tree_at k c) (tree_at k d) ∷ []) }
    ensures known { IfOk result (λ cs. (k : Contents) → a < length k.trees → b < length k.trees
        → c < length k.trees → d < length k.trees → AreClaimsIn k cs.items) }
{
    let mut premises = one_reduction(alloc, a, b)?;
    premises.push(Claim {
        relation: Relation::Reduction,
        left: c,
        right: d,
    })?;
    Ok(premises)
}

/// States what an operation of one number comes to.
fn state_unary<D: Derives>(
    derives: &mut D,
    row: &mut Row,
    e: u64,
    argument: u64,
    value: u64,
    enough: u128,
) -> Result<(), NoMemory>
    requires e_in { e < length (D.contents derives.old).trees }
    requires argument_in { argument < length (D.contents derives.old).trees }
    requires value_in { value < length (D.contents derives.old).trees }
    requires fine { IsWellFormed (tree_at (D.contents derives.old) e) }
    requires comes { let t = tree_at (D.contents derives.old) in
        ComesTo (D.sight (D.rest derives.old)).basis.place (t e) (t value) enough }
    requires arguments { let t = tree_at (D.contents derives.old) in
        args_of (t e) ≡ t argument ∷ [] }
    ensures leaves { Leaves D.contents D.rest D.sight derives.old derives.new }
    ensures asks { let t = tree_at (D.contents derives.old) in OnOk result (StatesValue
        (D.sight (D.rest derives.old)).basis.place (D.contents derives.old)
        (D.contents derives.new) row.old row.new (t e) (t value)) }
{
    let form = ask_form(derives, row, argument, enough)?;
    let premises = one_reduction(derives.alloc(), argument, form)?;
    add_step(derives, row, ReductionRule::Operation, e, value, premises)?;
    Ok(())
}

/// States what an operation of two numbers comes to.
fn state_binary<D: Derives>(
    derives: &mut D,
    row: &mut Row,
    e: u64,
    first: u64,
    second: u64,
    value: u64,
    enough: u128,
) -> Result<(), NoMemory>
    requires e_in { e < length (D.contents derives.old).trees }
    requires first_in { first < length (D.contents derives.old).trees }
    requires second_in { second < length (D.contents derives.old).trees }
    requires value_in { value < length (D.contents derives.old).trees }
    requires fine { IsWellFormed (tree_at (D.contents derives.old) e) }
    requires comes { let t = tree_at (D.contents derives.old) in
        ComesTo (D.sight (D.rest derives.old)).basis.place (t e) (t value) enough }
    requires arguments { let t = tree_at (D.contents derives.old) in
        args_of (t e) ≡ t first ∷ t second ∷ [] }
    ensures leaves { Leaves D.contents D.rest D.sight derives.old derives.new }
    ensures asks { let t = tree_at (D.contents derives.old) in OnOk result (StatesValue
        (D.sight (D.rest derives.old)).basis.place (D.contents derives.old)
        (D.contents derives.new) row.old row.new (t e) (t value)) }
{
    let a = ask_form(derives, row, first, enough)?;
    let b = ask_form(derives, row, second, enough)?;
    let premises = both_reductions(derives.alloc(), first, a, second, b)?;
    add_step(derives, row, ReductionRule::Operation, e, value, premises)?;
    Ok(())
}

/// The arguments of an operation.
#[derive(Clone, Copy)]
pub(crate) enum Operands {
    One(u64),
    Two(u64, u64),
}

/// The arguments of a term that is an operation of numbers.
fn operands_of<T: Terms>(terms: &T, e: u64) -> Operands
    requires e_in { e < length (T.contents terms.now).trees }
    requires few { HasOperands (tree_at (T.contents terms.now) e) }
    ensures { let c = T.contents terms.now in AreOperands c (tree_at c e) result }
{
    match terms.view(e) {
        Node::App(function, last) => match terms.view(function) {
            Node::App(_, first) => Operands::Two(first, last),
            _ => Operands::One(last),
        },
        _ => unreachable!(),
    }
}

/// States what the literal step of a term comes to.
fn state_value<D: Derives>(
    derives: &mut D,
    row: &mut Row,
    e: u64,
    value: u64,
    enough: u128,
) -> Result<(), NoMemory>
    requires e_in { e < length (D.contents derives.old).trees }
    requires value_in { value < length (D.contents derives.old).trees }
    requires fine { IsWellFormed (tree_at (D.contents derives.old) e) }
    requires comes { let t = tree_at (D.contents derives.old) in
        ComesTo (D.sight (D.rest derives.old)).basis.place (t e) (t value) enough }
    ensures leaves { Leaves D.contents D.rest D.sight derives.old derives.new }
    ensures asks { let t = tree_at (D.contents derives.old) in OnOk result (StatesValue
        (D.sight (D.rest derives.old)).basis.place (D.contents derives.old)
        (D.contents derives.new) row.old row.new (t e) (t value)) }
{
    match operands_of(derives, e) {
        Operands::One(argument) => state_unary(derives, row, e, argument, value, enough),
        Operands::Two(first, second) => {
            state_binary(derives, row, e, first, second, value, enough)
        }
    }
}

/// Adds what the literal step of a term computes: the value, to which the row then states that the term reduces. Where
/// it computes none, nothing is added.
pub fn add_operation<D: Derives>(
    derives: &mut D,
    row: &mut Row,
    e: u64,
    enough: u128,
) -> Result<Option<u64>, NoMemory>
    requires e_in { e < length (D.contents derives.old).trees }
    requires fine { IsWellFormed (tree_at (D.contents derives.old) e) }
    requires run { let t = tree_at (D.contents derives.old) in
        IsRun (D.sight (D.rest derives.old)).basis.place (step_of (t e) (head_of (t e))) enough }
    ensures leaves { Leaves D.contents D.rest D.sight derives.old derives.new }
    ensures known { IfOk result (λ x. IfSome x (λ v. v < length (D.contents derives.new).trees)) }
    ensures told { let c = D.contents derives.old in let d = D.contents derives.new in
        IfOk result (λ x. AddsStep (D.sight (D.rest derives.old)).basis.place c d row.old row.new
        (tree_at c e) (option_map (tree_at d) x)) }
{
    match computed(derives, e, enough)? {
        Some(value) => {
            state_value(derives, row, e, value, enough)?;
            Ok(Some(value))
        }
        None => Ok(None),
    }
}
