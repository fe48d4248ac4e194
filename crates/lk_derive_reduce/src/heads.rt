//! `Core` of an application whose head is asked for its own `Core`.

ghost use Rattle.std.specs.Prelude.{◌≡◌, ◌<◌, length, OnOk};
ghost use Rattle.lk_tree.specs.Spine.{head as head_of, args, apply};
ghost use Rattle.lk_rulebook.specs.WellStated.{WellStated};
ghost use Rattle.lk_questions.specs.Query.{core};
ghost use Rattle.lk_store.specs.Contents.{tree_at};
ghost use Rattle.lk_step.specs.Rows.{IsClaim};
ghost use Rattle.lk_step.specs.Told.{IsAnsweredWithin, Leaves};
ghost use Rattle.lk_step.specs.Parts.{IsWhole, IsEmpty};
ghost use Rattle.lk_derive_reduce.specs.Forms.{IsApp, IsStuck, HeadGoes};

use lk_ask::unfolding::with_head;
use lk_premises::same_tree;
use lk_spine::head;
use lk_step::under_way::{add_step, ask_core, one_reduction, then_core};
use lk_step::{Derives, Row};
use lk_store::memory::NoMemory;
use lk_trace::ReductionRule;

/// Goes on from an application whose head, of this number, reduces to another tree.
fn moved_head<D: Derives>(
    derives: &mut D,
    row: &mut Row,
    e: u64,
    front: u64,
    form: u64,
    enough: u128,
) -> Result<(), NoMemory>
    requires e_in { e < length (D.contents derives.old).trees }
    requires front_in { front < length (D.contents derives.old).trees }
    requires form_in { form < length (D.contents derives.old).trees }
    requires front_is { let t = tree_at (D.contents derives.old) in t front ≡ head_of (t e) }
    requires answered { let t = tree_at (D.contents derives.old) in
        IsAnsweredWithin (D.sight (D.rest derives.old)).basis.place
        (core (apply (t form) (args (t e)))) enough }
    ensures leaves { Leaves D.contents D.rest D.sight derives.old derives.new }
    ensures goes { let t = tree_at (D.contents derives.old) in OnOk result (HeadGoes
        (D.sight (D.rest derives.old)).basis.place (D.contents derives.old)
        (D.contents derives.new) row.old row.new (t e) (t form)) }
{
    let next = with_head(derives.alloc(), derives, e, form)?;
    let premises = one_reduction(derives.alloc(), front, form)?;
    add_step(derives, row, ReductionRule::Head, e, next, premises)?;
    then_core(derives, row, e, next, enough)?;
    Ok(())
}

/// The row of an application whose head is a let or a projection.
pub(crate) fn head_row<D: Derives>(
    derives: &mut D,
    row: &mut Row,
    e: u64,
    enough: u128,
) -> Result<(), NoMemory>
    requires stated { WellStated (D.sight (D.rest derives.old)).basis.place }
    requires e_in { e < length (D.contents derives.old).trees }
    requires applied { IsApp (tree_at (D.contents derives.old) e) }
    requires stuck { IsStuck (head_of (tree_at (D.contents derives.old) e)) }
    requires claimed { IsClaim (D.sight (D.rest derives.old)).basis.place
        (core (tree_at (D.contents derives.old) e)) enough }
    requires empty { IsEmpty row.old }
    ensures leaves { Leaves D.contents D.rest D.sight derives.old derives.new }
    ensures whole { OnOk result (IsWhole (D.sight (D.rest derives.old)).basis.place
        (D.contents derives.new) (core (tree_at (D.contents derives.old) e)) row.new) }
{
    let front = head(derives, e);
    let form = ask_core(derives, row, front, enough)?;
    if same_tree(derives, form, front) {
        return Ok(());
    }
    moved_head(derives, row, e, front, form, enough)?;
    Ok(())
}
