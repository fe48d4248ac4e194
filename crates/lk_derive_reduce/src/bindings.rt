//! `Core` of a let, and of a lambda that is applied.

ghost use Rattle.std.specs.Prelude.{◌≡◌, ◌<◌, length, IfOk, OnOk};
ghost use Rattle.lk_tree.specs.Spine.{head as head_of, args};
ghost use Rattle.lk_rulebook.specs.WellStated.{WellStated};
ghost use Rattle.lk_questions.specs.Query.{core};
ghost use Rattle.lk_store.specs.Contents.{tree_at, IsTree};
ghost use Rattle.lk_step.specs.Reducing.{beta_reduct};
ghost use Rattle.lk_step.specs.Rows.{IsClaim};
ghost use Rattle.lk_step.specs.Told.{Leaves};
ghost use Rattle.lk_step.specs.Parts.{IsWhole, IsEmpty};
ghost use Rattle.lk_derive_reduce.specs.Forms.{IsApp, IsLam, IsLetOf, asked_core};

use lk_ask::next::Next;
use lk_ask::query::Query;
use lk_core::core_form::{CoreStep, begin};
use lk_step::under_way::step_then_core;
use lk_step::{Derives, Row};
use lk_store::memory::NoMemory;
use lk_subst::opening::open_with;
use lk_trace::ReductionRule;

/// The row of a let of this value and this body.
pub(crate) fn let_row<D: Derives>(
    derives: &mut D,
    row: &mut Row,
    e: u64,
    value: u64,
    body: u64,
    enough: u128,
) -> Result<(), NoMemory>
    requires stated { WellStated (D.sight (D.rest derives.old)).basis.place }
    requires e_in { e < length (D.contents derives.old).trees }
    requires value_in { value < length (D.contents derives.old).trees }
    requires body_in { body < length (D.contents derives.old).trees }
    requires is { let t = tree_at (D.contents derives.old) in IsLetOf (t e) (t value) (t body) }
    requires claimed { IsClaim (D.sight (D.rest derives.old)).basis.place
        (core (tree_at (D.contents derives.old) e)) enough }
    requires empty { IsEmpty row.old }
    ensures leaves { Leaves D.contents D.rest D.sight derives.old derives.new }
    ensures whole { OnOk result (IsWhole (D.sight (D.rest derives.old)).basis.place
        (D.contents derives.new) (core (tree_at (D.contents derives.old) e)) row.new) }
{
    let next = open_with(derives.alloc(), derives, body, value)?;
    step_then_core(derives, row, ReductionRule::Zeta, e, next, enough)?;
    Ok(())
}

/// What the first step of `Core` asks for, where that is `Core`.
fn core_of_step(step: CoreStep) -> Option<u64>
    ensures { result ≡ asked_core step }
{
    match step {
        CoreStep::Goes(next) => match next {
            Next::Ask(query, _) => match query {
                Query::Core(r) => Some(r),
                Query::Whnf(_) => None,
                Query::Infer(_) => None,
                Query::Same(_, _) => None,
            },
            Next::Done(_) => None,
            Next::No(_) => None,
        },
        CoreStep::Constant {
            name: _name,
            levels: _levels,
        } => None,
        CoreStep::Projection { subject: _subject } => None,
    }
}

/// A lambda that is applied, where as many lambdas are opened as there are arguments for.
fn reduct_of<D: Derives>(derives: &mut D, e: u64) -> Result<u64, NoMemory>
    requires e_in { e < length (D.contents derives.old).trees }
    requires applied { IsApp (tree_at (D.contents derives.old) e) }
    requires lambda { IsLam (head_of (tree_at (D.contents derives.old) e)) }
    ensures leaves { Leaves D.contents D.rest D.sight derives.old derives.new }
    ensures made { let t = tree_at (D.contents derives.old) in IfOk result (λ r.
        IsTree (D.contents derives.new) r (beta_reduct (head_of (t e)) (args (t e)))) }
{
    let step = begin(derives, e)?;
    match core_of_step(step) {
        Some(r) => Ok(r),
        None => unreachable!(),
    }
}

/// The row of a lambda that is applied.
pub(crate) fn beta_row<D: Derives>(
    derives: &mut D,
    row: &mut Row,
    e: u64,
    enough: u128,
) -> Result<(), NoMemory>
    requires stated { WellStated (D.sight (D.rest derives.old)).basis.place }
    requires e_in { e < length (D.contents derives.old).trees }
    requires applied { IsApp (tree_at (D.contents derives.old) e) }
    requires lambda { IsLam (head_of (tree_at (D.contents derives.old) e)) }
    requires claimed { IsClaim (D.sight (D.rest derives.old)).basis.place
        (core (tree_at (D.contents derives.old) e)) enough }
    requires empty { IsEmpty row.old }
    ensures leaves { Leaves D.contents D.rest D.sight derives.old derives.new }
    ensures whole { OnOk result (IsWhole (D.sight (D.rest derives.old)).basis.place
        (D.contents derives.new) (core (tree_at (D.contents derives.old) e)) row.new) }
{
    let next = reduct_of(derives, e)?;
    step_then_core(derives, row, ReductionRule::Beta, e, next, enough)?;
    Ok(())
}
