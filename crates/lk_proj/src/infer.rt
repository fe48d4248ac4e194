//! `Infer` of a projection: its first step, and how it goes on.

ghost use Rattle.std.specs.Prelude.{◌≡◌, ◌<◌, ℕ, Ok, length};
ghost use Rattle.lk_tree.specs.Tree.{Name, proj};
ghost use Rattle.lk_questions.specs.Infer.{infer_steps};
ghost use Rattle.lk_store.specs.Contents.{tree_at};
ghost use Rattle.lk_proj.specs.Sheets.{IsKnownInfer};
ghost use Rattle.lk_proj.specs.Infers.{Infers, Resumes};

use crate::fields::{field_form, field_sort};
use crate::parameters::{parameter_form, sort_form};
use crate::sheet::InferSheet;
use crate::subject::subject_form;
use lk_ask::looks::Looks;
use lk_ask::next::Next;
use lk_ask::query::Query;
use lk_store::memory::NoMemory;

/// What `Infer` of a projection does next.
pub type InferNext = Next<u64, InferSheet<u64>>;

/// The first step of `Infer` of a projection of this subject.
pub fn begin<L: Looks>(looks: &L, e: u64, subject: u64) -> InferNext
    requires e_in { e < length (L.contents looks.now).trees }
    requires subject_in { subject < length (L.contents looks.now).trees }
    ensures { (S : Name) (i : ℕ)
        → tree_at (L.contents looks.now) e ≡ proj S i (tree_at (L.contents looks.now) subject)
        → Infers L.contents L.rest L.sight looks.now looks.now (Ok result)
        (λ t. infer_steps (t e)) }
{
    Next::Ask(Query::Infer(subject), InferSheet::Subject { projection: e })
}

/// Goes on with `Infer` of a projection once the term is there that its sheet waits for.
pub fn resume_term<L: Looks>(
    looks: &mut L,
    sheet: InferSheet<u64>,
    e: u64,
) -> Result<InferNext, NoMemory>
    requires sheet_in { IsKnownInfer (length (L.contents looks.old).trees) sheet }
    requires e_in { e < length (L.contents looks.old).trees }
    ensures { Resumes L.contents L.rest L.sight looks.old looks.new result sheet e }
{
    match sheet {
        InferSheet::Subject { projection } => Ok(Next::Ask(
            Query::Whnf(e),
            InferSheet::SubjectForm { projection },
        )),
        InferSheet::SubjectForm { projection } => subject_form(looks, projection, e),
        InferSheet::Sort {
            applied,
            constructor,
        } => Ok(Next::Ask(
            Query::Whnf(e),
            InferSheet::SortForm {
                applied,
                constructor,
            },
        )),
        InferSheet::SortForm {
            applied,
            constructor,
        } => sort_form(looks, applied, constructor, e),
        InferSheet::Parameter {
            applied,
            argument,
            prop,
        } => parameter_form(looks, applied, argument, prop, e),
        InferSheet::Field {
            projection,
            number,
            prop,
        } => field_form(looks, projection, number, prop, e),
        InferSheet::FieldSort(pi) => Ok(Next::Ask(Query::Whnf(e), InferSheet::FieldSortForm(pi))),
        InferSheet::FieldSortForm(pi) => field_sort(looks, pi, e),
    }
}
