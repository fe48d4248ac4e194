//! `Core` of a projection.

ghost use Rattle.std.specs.Prelude.{◌≡◌, ◌<◌, Some, IfOk, IfSome, OnOk, length, option_map};
ghost use Rattle.lk_rulebook.specs.WellStated.{WellStated};
ghost use Rattle.lk_questions.specs.Query.{core};
ghost use Rattle.lk_store.specs.Contents.{tree_at};
ghost use Rattle.lk_step.specs.Rows.{IsClaim};
ghost use Rattle.lk_step.specs.Told.{Leaves};
ghost use Rattle.lk_step.specs.Parts.{IsWhole, IsEmpty};
ghost use Rattle.lk_step.specs.Nexts.{core_number};
ghost use Rattle.lk_derive_reduce.specs.Projections.{IsProjOf, AtSubject, field_at};

use lk_ask::next::Next;
use lk_ask::query::Query;
use lk_proj::reduce::{CoreNext, resume_term};
use lk_proj::sheet::CoreSheet;
use lk_step::under_way::{add_step, ask_form, one_reduction, then_core};
use lk_step::{Derives, Row};
use lk_store::memory::NoMemory;
use lk_trace::ReductionRule;

/// What is asked for next, where that is `Core`.
fn core_of_next(next: CoreNext) -> Option<u64>
    ensures { result ≡ core_number next }
{
    match next {
        Next::Ask(query, _) => match query {
            Query::Core(r) => Some(r),
            Query::Whnf(_) => None,
            Query::Infer(_) => None,
            Query::Same(_, _) => None,
        },
        Next::Done(_) => None,
        Next::No(_) => None,
    }
}

/// The field of a projection, whose subject has the weak head form of this number, if it is a constructor that has it.
fn field_of<D: Derives>(derives: &mut D, e: u64, form: u64) -> Result<Option<u64>, NoMemory>
    requires e_in { e < length (D.contents derives.old).trees }
    requires form_in { form < length (D.contents derives.old).trees }
    ensures leaves { Leaves D.contents D.rest D.sight derives.old derives.new }
    ensures known { IfOk result (λ x. IfSome x (λ r. r < length (D.contents derives.new).trees)) }
    ensures is { let t = tree_at (D.contents derives.old) in let s = D.sight (D.rest derives.old) in
        IfOk result (λ x. option_map (tree_at (D.contents derives.new)) x
        ≡ field_at s.basis.place s.last (t e) (t form)) }
{
    let next = resume_term(derives, CoreSheet::Subject { projection: e }, form)?;
    Ok(core_of_next(next))
}

/// Goes on with the field that a projection reduces to.
fn take_field<D: Derives>(
    derives: &mut D,
    row: &mut Row,
    e: u64,
    subject: u64,
    form: u64,
    field: u64,
    enough: u128,
) -> Result<(), NoMemory>
    requires stated { WellStated (D.sight (D.rest derives.old)).basis.place }
    requires e_in { e < length (D.contents derives.old).trees }
    requires subject_in { subject < length (D.contents derives.old).trees }
    requires form_in { form < length (D.contents derives.old).trees }
    requires field_in { field < length (D.contents derives.old).trees }
    requires at { let t = tree_at (D.contents derives.old) in
        AtSubject (D.sight (D.rest derives.old)).basis.place (D.contents derives.old) row.old enough
        (t e) (t subject) (t form) (Some (t field)) }
    ensures leaves { Leaves D.contents D.rest D.sight derives.old derives.new }
    ensures whole { OnOk result (IsWhole (D.sight (D.rest derives.old)).basis.place
        (D.contents derives.new) (core (tree_at (D.contents derives.old) e)) row.new) }
{
    let premises = one_reduction(derives.alloc(), subject, form)?;
    add_step(derives, row, ReductionRule::Project, e, field, premises)?;
    then_core(derives, row, e, field, enough)?;
    Ok(())
}

/// The row of a projection of this subject.
pub(crate) fn projection_row<D: Derives>(
    derives: &mut D,
    row: &mut Row,
    e: u64,
    subject: u64,
    enough: u128,
) -> Result<(), NoMemory>
    requires stated { WellStated (D.sight (D.rest derives.old)).basis.place }
    requires e_in { e < length (D.contents derives.old).trees }
    requires subject_in { subject < length (D.contents derives.old).trees }
    requires is { let t = tree_at (D.contents derives.old) in IsProjOf (t e) (t subject) }
    requires claimed { IsClaim (D.sight (D.rest derives.old)).basis.place
        (core (tree_at (D.contents derives.old) e)) enough }
    requires empty { IsEmpty row.old }
    ensures leaves { Leaves D.contents D.rest D.sight derives.old derives.new }
    ensures whole { OnOk result (IsWhole (D.sight (D.rest derives.old)).basis.place
        (D.contents derives.new) (core (tree_at (D.contents derives.old) e)) row.new) }
{
    let form = ask_form(derives, row, subject, enough)?;
    match field_of(derives, e, form)? {
        Some(field) => take_field(derives, row, e, subject, form, field, enough),
        None => Ok(()),
    }
}
