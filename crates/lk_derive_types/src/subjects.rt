//! The beginning of a projection's row: the type of its subject, which is a structure, the sort of that, and the
//! structure's constructor with its parameters put in.

ghost use Rattle.std.specs.Prelude.{◌≡◌, ◌≤◌, ◌<◌, [], take, length, IfOk};
ghost use Rattle.lk_tree.specs.WellFormed.{IsWellFormed};
ghost use Rattle.lk_rulebook.specs.WellStated.{WellStated};
ghost use Rattle.lk_questions.specs.Query.{infer};
ghost use Rattle.lk_store.specs.Contents.{name_at, tree_at};
ghost use Rattle.lk_step.specs.Told.{IsAnsweredWithin, Leaves};
ghost use Rattle.lk_derive_types.specs.Asked.{IsNothingAsked};
ghost use Rattle.lk_derive_types.specs.Parts.{IsSortedWithin};
ghost use Rattle.lk_derive_types.specs.Projections.{IsParameterAt};
ghost use Rattle.lk_derive_types.specs.Subjects.{IsFormedWithin, NotesFormed, NotesLevel};
ghost use Rattle.lk_derive_types.specs.Subjects.{IsProjectionOf, IsBegun};

use crate::asked::Asked;
use crate::parts::sort_of;
use crate::projections::past_parameters;
use crate::structures::constructor_of;
use lk_spine::args;
use lk_step::Derives;
use lk_step::derives::{form_of, type_of};
use lk_store::memory::NoMemory;

/// What a projection's row begins with: the type of its subject in weak head form, whether that is a proposition, and
/// the type of its structure's constructor, which has so many parameters.
#[derive(Clone, Copy)]
pub struct Begun {
    pub form: u64,
    pub prop: bool,
    pub stated: u64,
    pub parameters: u64,
}

/// Asks for the type of a term, and for the weak head form of that, and notes both.
fn note_subject<D: Derives>(
    derives: &mut D,
    asked: &mut Asked,
    subject: u64,
    enough: u128,
) -> Result<u64, NoMemory>
    requires subject_in { subject < length (D.contents derives.old).trees }
    requires formed { IsFormedWithin (D.sight (D.rest derives.old)).basis.place
        (tree_at (D.contents derives.old) subject) enough }
    ensures leaves { Leaves D.contents D.rest D.sight derives.old derives.new }
    ensures noted { IfOk result (NotesFormed (D.sight (D.rest derives.old)).basis.place
        (D.contents derives.new) (tree_at (D.contents derives.old) subject)
        asked.old asked.new subject) }
{
    let ty = type_of(derives, subject, enough)?;
    let form = form_of(derives, ty, enough)?;
    asked.note_type(subject, ty)?;
    asked.note_form(ty, form)?;
    Ok(form)
}

/// Whether a type is a proposition: its sort is asked for, and noted.
fn note_whether_prop<D: Derives>(
    derives: &mut D,
    asked: &mut Asked,
    ty: u64,
    enough: u128,
) -> Result<bool, NoMemory>
    requires ty_in { ty < length (D.contents derives.old).trees }
    requires sorted { IsSortedWithin (D.sight (D.rest derives.old)).basis.place
        (tree_at (D.contents derives.old) ty) enough }
    ensures leaves { Leaves D.contents D.rest D.sight derives.old derives.new }
    ensures noted { IfOk result (NotesLevel (D.sight (D.rest derives.old)).basis.place
        (D.contents derives.new) (tree_at (D.contents derives.old) ty) asked.old asked.new ty) }
{
    let sorted = sort_of(derives, ty, enough)?;
    asked.note_type(ty, sorted.ty)?;
    asked.note_form(sorted.ty, sorted.sort)?;
    Ok(derives.level_is_zero(sorted.level))
}

/// What the row of this projection begins with.
pub(crate) fn begin<D: Derives>(
    derives: &mut D,
    asked: &mut Asked,
    e: u64,
    structure: u64,
    subject: u64,
    enough: u128,
) -> Result<Begun, NoMemory>
    requires e_in { e < length (D.contents derives.old).trees }
    requires structure_in { structure < length (D.contents derives.old).names }
    requires subject_in { subject < length (D.contents derives.old).trees }
    requires e_is { let c = D.contents derives.old in
        IsProjectionOf (tree_at c e) (name_at c structure) (tree_at c subject) }
    requires well_stated { WellStated (D.sight (D.rest derives.old)).basis.place }
    requires askable { IsWellFormed (tree_at (D.contents derives.old) e) }
    requires answered { IsAnsweredWithin (D.sight (D.rest derives.old)).basis.place
        (infer (tree_at (D.contents derives.old) e)) enough }
    requires nothing { IsNothingAsked asked.old }
    ensures leaves { Leaves D.contents D.rest D.sight derives.old derives.new }
    ensures begun { IfOk result (λ b. IsBegun (D.sight (D.rest derives.old)).basis.place
        (D.contents derives.new) e enough b asked.new) }
{
    let form = note_subject(derives, asked, subject, enough)?;
    let prop = note_whether_prop(derives, asked, form, enough)?;
    let stated = constructor_of(derives, structure, form)?;
    Ok(Begun {
        form,
        prop,
        stated: stated.ty,
        parameters: stated.parameters,
    })
}

/// The first of these, so many.
fn first_of(values: &[u64], count: u64) -> &[u64]
    requires enough { count ≤ length values.now }
    ensures { result.now ≡ take count values.now }
{
    let (first, _) = values.split_at(count as usize);
    first
}

/// What is left of the constructor's type behind its parameters.
pub(crate) fn put_parameters<D: Derives>(
    derives: &mut D,
    asked: &mut Asked,
    e: u64,
    begun: Begun,
    enough: u128,
) -> Result<u64, NoMemory>
    requires stated { WellStated (D.sight (D.rest derives.old)).basis.place }
    requires begun { IsBegun (D.sight (D.rest derives.old)).basis.place (D.contents derives.old)
        e enough begun asked.old }
    ensures leaves { Leaves D.contents D.rest D.sight derives.old derives.new }
    ensures parameters { IfOk result (λ t. IsParameterAt (D.sight (D.rest derives.old)).basis.place
        (D.contents derives.new) e enough begun.prop t [] asked.new) }
{
    let arguments = args(derives.alloc(), derives, begun.form)?;
    let parameters = first_of(&arguments, begun.parameters);
    past_parameters(
        derives,
        asked,
        e,
        begun.prop,
        begun.stated,
        parameters,
        enough,
    )
}
