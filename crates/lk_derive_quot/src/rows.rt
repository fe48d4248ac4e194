//! The row of `Core` at a constant of quotients.

ghost use Rattle.std.specs.Prelude.{◌<◌, Some, length, IfOk, OnOk};
ghost use Rattle.lk_rulebook.specs.WellStated.{WellStated};
ghost use Rattle.lk_questions.specs.Query.{core};
ghost use Rattle.lk_store.specs.Contents.{name_at, tree_at};
ghost use Rattle.lk_trace.specs.Meaning.{reduction_rule_of};
ghost use Rattle.lk_step.specs.Heads.{IsQuotientHead};
ghost use Rattle.lk_step.specs.Meaning.{IsRowIn, IsRowOf};
ghost use Rattle.lk_step.specs.Rows.{IsClaim};
ghost use Rattle.lk_step.specs.Told.{Leaves};
ghost use Rattle.lk_step.specs.Parts.{IsWhole, IsEmpty};
ghost use Rattle.lk_derive_quot.specs.Quotients.{AtMajor, AtForm, AtStep};

use crate::behind::state_behind;
use crate::eliminators::{eliminator_of, rule_of};
use crate::ends::{Ends, ends_of};
use crate::majors::{major_of, reduct_of};
use lk_step::heads::head_name;
use lk_step::under_way::{add_step, ask_form, empty_row, one_reduction, then_core};
use lk_step::{Derives, Row};
use lk_store::memory::NoMemory;
use lk_trace::ReductionRule;

/// Goes on with the step of an eliminator, the arguments behind it, and `Core` of what comes of that.
fn step_row<D: Derives>(
    derives: &mut D,
    row: &mut Row,
    rule: ReductionRule,
    ends: Ends,
    e: u64,
    major: u64,
    form: u64,
    next: u64,
    enough: u128,
) -> Result<(), NoMemory>
    requires stated { WellStated (D.sight (D.rest derives.old)).basis.place }
    requires front_in { ends.front < length (D.contents derives.old).trees }
    requires short_in { ends.short < length (D.contents derives.old).trees }
    requires e_in { e < length (D.contents derives.old).trees }
    requires major_in { major < length (D.contents derives.old).trees }
    requires form_in { form < length (D.contents derives.old).trees }
    requires next_in { next < length (D.contents derives.old).trees }
    requires at { let c = D.contents derives.old in let t = tree_at c in AtStep
        (D.sight (D.rest derives.old)).basis.place c row.old enough (reduction_rule_of rule)
        (t e) (t major) (t form) (t next) (t ends.front) (t ends.short) ends.behind }
    ensures leaves { Leaves D.contents D.rest D.sight derives.old derives.new }
    ensures whole { OnOk result (IsWhole (D.sight (D.rest derives.old)).basis.place
        (D.contents derives.new) (core (tree_at (D.contents derives.old) e)) row.new) }
{
    let alloc = derives.alloc();
    let premises = one_reduction(alloc, major, form)?;
    add_step(derives, row, rule, ends.front, ends.short, premises)?;
    state_behind(
        alloc,
        derives,
        row,
        ends.front,
        ends.short,
        e,
        next,
        ends.behind,
    )?;
    then_core(derives, row, e, next, enough)?;
    Ok(())
}

/// Goes on from an element of a quotient, the weak head form of the major premise.
fn element_row<D: Derives>(
    derives: &mut D,
    row: &mut Row,
    name: u64,
    e: u64,
    major: u64,
    form: u64,
    next: u64,
    enough: u128,
) -> Result<(), NoMemory>
    requires stated { WellStated (D.sight (D.rest derives.old)).basis.place }
    requires name_in { name < length (D.contents derives.old).names }
    requires e_in { e < length (D.contents derives.old).trees }
    requires major_in { major < length (D.contents derives.old).trees }
    requires form_in { form < length (D.contents derives.old).trees }
    requires next_in { next < length (D.contents derives.old).trees }
    requires at { let c = D.contents derives.old in let t = tree_at c in AtForm
        (D.sight (D.rest derives.old)).basis.place c row.old enough (name_at c name) (t e)
        (t major) (t form) (Some (t next)) }
    ensures leaves { Leaves D.contents D.rest D.sight derives.old derives.new }
    ensures whole { OnOk result (IsWhole (D.sight (D.rest derives.old)).basis.place
        (D.contents derives.new) (core (tree_at (D.contents derives.old) e)) row.new) }
{
    let alloc = derives.alloc();
    let eliminator = eliminator_of(alloc, derives, name)?;
    let ends = ends_of(alloc, derives, eliminator, e, form)?;
    step_row(
        derives,
        row,
        rule_of(eliminator),
        ends,
        e,
        major,
        form,
        next,
        enough,
    )
}

/// Goes on with the major premise.
fn major_row<D: Derives>(
    derives: &mut D,
    row: &mut Row,
    name: u64,
    e: u64,
    major: u64,
    enough: u128,
) -> Result<(), NoMemory>
    requires stated { WellStated (D.sight (D.rest derives.old)).basis.place }
    requires name_in { name < length (D.contents derives.old).names }
    requires e_in { e < length (D.contents derives.old).trees }
    requires major_in { major < length (D.contents derives.old).trees }
    requires at { let c = D.contents derives.old in AtMajor
        (D.sight (D.rest derives.old)).basis.place enough (name_at c name) (tree_at c e)
        (tree_at c major) }
    requires empty { IsEmpty row.old }
    ensures leaves { Leaves D.contents D.rest D.sight derives.old derives.new }
    ensures whole { OnOk result (IsWhole (D.sight (D.rest derives.old)).basis.place
        (D.contents derives.new) (core (tree_at (D.contents derives.old) e)) row.new) }
{
    let form = ask_form(derives, row, major, enough)?;
    match reduct_of(derives, e, form)? {
        Some(next) => element_row(derives, row, name, e, major, form, next, enough),
        None => Ok(()),
    }
}

/// Fills an empty row.
fn fill_row<D: Derives>(
    derives: &mut D,
    row: &mut Row,
    e: u64,
    enough: u128,
) -> Result<(), NoMemory>
    requires stated { WellStated (D.sight (D.rest derives.old)).basis.place }
    requires e_in { e < length (D.contents derives.old).trees }
    requires claimed { IsClaim (D.sight (D.rest derives.old)).basis.place
        (core (tree_at (D.contents derives.old) e)) enough }
    requires head { IsQuotientHead (D.sight (D.rest derives.old)).basis.place
        (tree_at (D.contents derives.old) e) }
    requires empty { IsEmpty row.old }
    ensures leaves { Leaves D.contents D.rest D.sight derives.old derives.new }
    ensures whole { OnOk result (IsWhole (D.sight (D.rest derives.old)).basis.place
        (D.contents derives.new) (core (tree_at (D.contents derives.old) e)) row.new) }
{
    let name = head_name(derives, e);
    match major_of(derives, name, e)? {
        Some(major) => major_row(derives, row, name, e, major, enough),
        None => Ok(()),
    }
}

/// What `Core` of a term rests on whose head is a constant that a quotient unit gives, such as `Quot.lift` or
/// `Quot.ind`. Where nothing is eliminated it says nothing: the term is its own `Core`.
pub fn quotient_row<D: Derives>(derives: &mut D, e: u64, enough: u128) -> Result<Row, NoMemory>
    requires stated { WellStated (D.sight (D.rest derives.old)).basis.place }
    requires e_in { e < length (D.contents derives.old).trees }
    requires claimed { IsClaim (D.sight (D.rest derives.old)).basis.place
        (core (tree_at (D.contents derives.old) e)) enough }
    requires head { IsQuotientHead (D.sight (D.rest derives.old)).basis.place
        (tree_at (D.contents derives.old) e) }
    ensures leaves { Leaves D.contents D.rest D.sight derives.old derives.new }
    ensures known { IfOk result (IsRowIn (D.contents derives.new)) }
    ensures row { IfOk result (IsRowOf (D.sight (D.rest derives.old)).basis.place
        (D.contents derives.new) (core (tree_at (D.contents derives.old) e))) }
{
    let mut row = empty_row(derives.alloc());
    fill_row(derives, &mut row, e, enough)?;
    Ok(row)
}
