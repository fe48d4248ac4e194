//! Lets.

ghost use Rattle.std.specs.Prelude.{◌≡◌, ◌<◌, length, IfOk};
ghost use Rattle.lk_tree.specs.Tree.{Tree, let_in};
ghost use Rattle.lk_tree.specs.WellFormed.{IsWellFormed};
ghost use Rattle.lk_rulebook.specs.Place.{Place};
ghost use Rattle.lk_rulebook.specs.WellStated.{WellStated};
ghost use Rattle.lk_questions.specs.Query.{infer};
ghost use Rattle.lk_store.specs.Contents.{Contents, tree_at};
ghost use Rattle.lk_step.specs.Told.{IsAnsweredWithin};
ghost use Rattle.lk_derive_types.specs.Binders.{IsLetAt};
ghost use Rattle.lk_derive_types.specs.TypeRows.{IsTypeRow, GivesRow};

use crate::asked::{Asked, typing_row};
use crate::parts::{Sorted, sort_of};
use lk_step::derives::type_of;
use lk_step::{Derives, Row};
use lk_store::memory::NoMemory;
use lk_subst::opening::open_with;
use lk_trace::TypingRule;
use std::alloc::Global;

/// The row of a let, from what was asked and made for it: the value, its type, and the body that was opened with it.
fn let_step(
    alloc: Global,
    e: u64,
    stated: u64,
    sorted: Sorted,
    value: u64,
    value_type: u64,
    inner: u64,
    ty: u64,
) -> Result<Row, NoMemory>
    ensures { (w : Place) → (c : Contents) → (tree : Tree)
        → IsLetAt w c e stated sorted value value_type inner ty tree
        → IfOk result (IsTypeRow w c tree) }
{
    let mut asked = Asked::new(alloc);
    asked.note_type(stated, sorted.ty)?;
    asked.note_form(sorted.ty, sorted.sort)?;
    asked.note_type(value, value_type)?;
    asked.note_same(value_type, stated)?;
    asked.note_type(inner, ty)?;
    typing_row(alloc, TypingRule::Let, e, ty, asked)
}

/// The row of a let: the sort of the type that is stated, the type of the value, which is that, and the type of the body,
/// opened with the value.
pub(crate) fn let_row<D: Derives>(
    derives: &mut D,
    e: u64,
    stated: u64,
    value: u64,
    body: u64,
    enough: u128,
) -> Result<Row, NoMemory>
    requires e_in { e < length (D.contents derives.old).trees }
    requires stated_in { stated < length (D.contents derives.old).trees }
    requires value_in { value < length (D.contents derives.old).trees }
    requires body_in { body < length (D.contents derives.old).trees }
    requires e_is { tree_at (D.contents derives.old) e ≡ let_in
        (tree_at (D.contents derives.old) stated) (tree_at (D.contents derives.old) value)
        (tree_at (D.contents derives.old) body) }
    requires well_stated { WellStated (D.sight (D.rest derives.old)).basis.place }
    requires askable { IsWellFormed (tree_at (D.contents derives.old) e) }
    requires answered { IsAnsweredWithin (D.sight (D.rest derives.old)).basis.place
        (infer (tree_at (D.contents derives.old) e)) enough }
    ensures { GivesRow D.contents D.rest D.sight derives.old derives.new
        (tree_at (D.contents derives.old) e) result }
{
    let sorted = sort_of(derives, stated, enough)?;
    let value_type = type_of(derives, value, enough)?;
    let inner = open_with(derives.alloc(), derives, body, value)?;
    let ty = type_of(derives, inner, enough)?;
    let_step(
        derives.alloc(),
        e,
        stated,
        sorted,
        value,
        value_type,
        inner,
        ty,
    )
}
