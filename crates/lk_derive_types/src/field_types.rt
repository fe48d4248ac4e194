//! Projections: the type of a field, and the whole row.

ghost use Rattle.std.specs.Prelude.{◌≡◌, ◌<◌, length, IfOk};
ghost use Rattle.lk_tree.specs.Tree.{proj};
ghost use Rattle.lk_tree.specs.WellFormed.{IsWellFormed};
ghost use Rattle.lk_rulebook.specs.WellStated.{WellStated};
ghost use Rattle.lk_questions.specs.Query.{infer};
ghost use Rattle.lk_store.specs.Contents.{name_at, tree_at};
ghost use Rattle.lk_trace.specs.declared.rules.TypingRule.TheVariants.{Project};
ghost use Rattle.lk_step.specs.Told.{IsAnsweredWithin, Leaves};
ghost use Rattle.lk_derive_types.specs.Projections.{IsFieldAt};
ghost use Rattle.lk_derive_types.specs.TypeRows.{IsTypedBy, GivesRow};

use crate::asked::{Asked, typing_row};
use crate::fields::{Projected, last_field, past_fields};
use crate::subjects::{begin, put_parameters};
use lk_step::{Derives, Row};
use lk_store::memory::NoMemory;
use lk_trace::TypingRule;

/// The type of a projection, by what is left of its constructor's type behind the parameters.
fn field_type<D: Derives>(
    derives: &mut D,
    asked: &mut Asked,
    p: Projected,
    stated: u64,
    enough: u128,
) -> Result<u64, NoMemory>
    requires stated { WellStated (D.sight (D.rest derives.old)).basis.place }
    requires field { IsFieldAt (D.sight (D.rest derives.old)).basis.place (D.contents derives.old)
        p enough 0 stated asked.old }
    ensures leaves { Leaves D.contents D.rest D.sight derives.old derives.new }
    ensures typed { IfOk result (λ t. IsTypedBy (D.sight (D.rest derives.old)).basis.place
        (D.contents derives.new) Project p.whole t asked.new
        (tree_at (D.contents derives.old) p.whole)) }
{
    let at = past_fields(derives, asked, p, stated, enough)?;
    last_field(derives, asked, p, at, enough)
}

/// The row of a projection: the type of its subject, the sort of that, and what is asked of the parameters and of the
/// fields up to the one that it is.
pub(crate) fn projection_row<D: Derives>(
    derives: &mut D,
    e: u64,
    structure: u64,
    field: u64,
    subject: u64,
    enough: u128,
) -> Result<Row, NoMemory>
    requires e_in { e < length (D.contents derives.old).trees }
    requires structure_in { structure < length (D.contents derives.old).names }
    requires subject_in { subject < length (D.contents derives.old).trees }
    requires e_is { let c = D.contents derives.old in
        tree_at c e ≡ proj (name_at c structure) field (tree_at c subject) }
    requires stated { WellStated (D.sight (D.rest derives.old)).basis.place }
    requires askable { IsWellFormed (tree_at (D.contents derives.old) e) }
    requires answered { IsAnsweredWithin (D.sight (D.rest derives.old)).basis.place
        (infer (tree_at (D.contents derives.old) e)) enough }
    ensures { GivesRow D.contents D.rest D.sight derives.old derives.new
        (tree_at (D.contents derives.old) e) result }
{
    let mut asked = Asked::new(derives.alloc());
    let begun = begin(derives, &mut asked, e, structure, subject, enough)?;
    let at = put_parameters(derives, &mut asked, e, begun, enough)?;
    let p = Projected {
        whole: e,
        structure,
        field,
        subject,
        prop: begun.prop,
    };
    let ty = field_type(derives, &mut asked, p, at, enough)?;
    typing_row(derives.alloc(), TypingRule::Project, e, ty, asked)
}
