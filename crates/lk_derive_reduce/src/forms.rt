//! `Whnf` behind `Core`.

ghost use Rattle.std.specs.Prelude.{◌≡◌, ◌<◌, IfOk, OnOk, length};
ghost use Rattle.lk_tree.specs.Tree.{const};
ghost use Rattle.lk_tree.specs.Spine.{head as head_of};
ghost use Rattle.lk_rulebook.specs.WellStated.{WellStated};
ghost use Rattle.lk_questions.specs.Query.{whnf};
ghost use Rattle.lk_store.specs.Contents.{name_at, list_at, tree_at};
ghost use Rattle.lk_step.specs.Rows.{IsClaim};
ghost use Rattle.lk_step.specs.Told.{Leaves};
ghost use Rattle.lk_step.specs.Parts.{IsWhole, IsEmpty};
ghost use Rattle.lk_derive_reduce.specs.Forms.{AtCore, ComputesNothing, IsConstantAt};

use crate::values::by_entry;
use lk_spine::head;
use lk_step::operations::add_operation;
use lk_step::under_way::{ask_core, chain};
use lk_step::{Derives, Row};
use lk_store::memory::NoMemory;
use lk_store::node::Node;
use lk_store::terms::Terms;

/// Asks for `Core` of a term whose `Whnf` is due.
pub(crate) fn core_first<D: Derives>(
    derives: &mut D,
    row: &mut Row,
    e: u64,
    enough: u128,
) -> Result<u64, NoMemory>
    requires stated { WellStated (D.sight (D.rest derives.old)).basis.place }
    requires e_in { e < length (D.contents derives.old).trees }
    requires claimed { IsClaim (D.sight (D.rest derives.old)).basis.place
        (whnf (tree_at (D.contents derives.old) e)) enough }
    requires empty { IsEmpty row.old }
    ensures leaves { Leaves D.contents D.rest D.sight derives.old derives.new }
    ensures known { IfOk result (λ v. v < length (D.contents derives.new).trees) }
    ensures at { IfOk result (λ v. AtCore (D.sight (D.rest derives.old)).basis.place
        (D.contents derives.new) row.new enough (tree_at (D.contents derives.old) e)
        (tree_at (D.contents derives.new) v)) }
{
    let v = ask_core(derives, row, e, enough)?;
    Ok(v)
}

/// A constant: its name and its levels.
#[derive(Clone, Copy)]
pub struct Constant {
    pub name: u64,
    pub levels: u64,
}

/// The constant that a tree is.
fn constant_of<T: Terms>(terms: &T, e: u64) -> Option<Constant>
    requires { e < length (T.contents terms.now).trees }
    ensures { let c = T.contents terms.now in IsConstantAt c (tree_at c e) result }
{
    match terms.view(e) {
        Node::Const(name, levels) => Some(Constant { name, levels }),
        _ => None,
    }
}

/// The row of a term whose `Core`, of this number, has this constant at its head, and is no operation that is computed.
pub(crate) fn constant_row<D: Derives>(
    derives: &mut D,
    row: &mut Row,
    e: u64,
    core: u64,
    constant: Constant,
    enough: u128,
) -> Result<(), NoMemory>
    requires stated { WellStated (D.sight (D.rest derives.old)).basis.place }
    requires e_in { e < length (D.contents derives.old).trees }
    requires core_in { core < length (D.contents derives.old).trees }
    requires name_in { constant.name < length (D.contents derives.old).names }
    requires levels_in { constant.levels < length (D.contents derives.old).lists }
    requires head_is { let c = D.contents derives.old in const (name_at c constant.name)
        (list_at c constant.levels) ≡ head_of (tree_at c core) }
    requires at { let t = tree_at (D.contents derives.old) in
        AtCore (D.sight (D.rest derives.old)).basis.place (D.contents derives.old) row.old enough
        (t e) (t core) }
    requires nothing { ComputesNothing (D.sight (D.rest derives.old)).basis.place
        (tree_at (D.contents derives.old) core) }
    ensures leaves { Leaves D.contents D.rest D.sight derives.old derives.new }
    ensures whole { OnOk result (IsWhole (D.sight (D.rest derives.old)).basis.place
        (D.contents derives.new) (whnf (tree_at (D.contents derives.old) e)) row.new) }
{
    let entry = match derives.means(constant.name) {
        Ok(entry) => entry,
        Err(_) => unreachable!(),
    };
    by_entry(derives, row, e, core, entry, constant.levels, enough)
}

/// The row of a term whose `Core`, of this number, is no operation that is computed.
fn uncomputed_row<D: Derives>(
    derives: &mut D,
    row: &mut Row,
    e: u64,
    core: u64,
    enough: u128,
) -> Result<(), NoMemory>
    requires stated { WellStated (D.sight (D.rest derives.old)).basis.place }
    requires e_in { e < length (D.contents derives.old).trees }
    requires core_in { core < length (D.contents derives.old).trees }
    requires at { let t = tree_at (D.contents derives.old) in
        AtCore (D.sight (D.rest derives.old)).basis.place (D.contents derives.old) row.old enough
        (t e) (t core) }
    requires nothing { ComputesNothing (D.sight (D.rest derives.old)).basis.place
        (tree_at (D.contents derives.old) core) }
    ensures leaves { Leaves D.contents D.rest D.sight derives.old derives.new }
    ensures whole { OnOk result (IsWhole (D.sight (D.rest derives.old)).basis.place
        (D.contents derives.new) (whnf (tree_at (D.contents derives.old) e)) row.new) }
{
    let front = head(derives, core);
    match constant_of(derives, front) {
        Some(constant) => constant_row(derives, row, e, core, constant, enough),
        None => Ok(()),
    }
}

/// Goes on from `Core` of a term, of this number: an operation on numbers is computed, or a constant is unfolded.
fn from_core<D: Derives>(
    derives: &mut D,
    row: &mut Row,
    e: u64,
    core: u64,
    enough: u128,
) -> Result<(), NoMemory>
    requires stated { WellStated (D.sight (D.rest derives.old)).basis.place }
    requires e_in { e < length (D.contents derives.old).trees }
    requires core_in { core < length (D.contents derives.old).trees }
    requires at { let t = tree_at (D.contents derives.old) in
        AtCore (D.sight (D.rest derives.old)).basis.place (D.contents derives.old) row.old enough
        (t e) (t core) }
    ensures leaves { Leaves D.contents D.rest D.sight derives.old derives.new }
    ensures whole { OnOk result (IsWhole (D.sight (D.rest derives.old)).basis.place
        (D.contents derives.new) (whnf (tree_at (D.contents derives.old) e)) row.new) }
{
    match add_operation(derives, row, core, enough)? {
        Some(value) => {
            chain(derives.alloc(), derives, row, e, core, value)?;
            Ok(())
        }
        None => uncomputed_row(derives, row, e, core, enough),
    }
}

/// Fills an empty row with that of a term's weak head form.
pub(crate) fn fill_form<D: Derives>(
    derives: &mut D,
    row: &mut Row,
    e: u64,
    enough: u128,
) -> Result<(), NoMemory>
    requires stated { WellStated (D.sight (D.rest derives.old)).basis.place }
    requires e_in { e < length (D.contents derives.old).trees }
    requires claimed { IsClaim (D.sight (D.rest derives.old)).basis.place
        (whnf (tree_at (D.contents derives.old) e)) enough }
    requires empty { IsEmpty row.old }
    ensures leaves { Leaves D.contents D.rest D.sight derives.old derives.new }
    ensures whole { OnOk result (IsWhole (D.sight (D.rest derives.old)).basis.place
        (D.contents derives.new) (whnf (tree_at (D.contents derives.old) e)) row.new) }
{
    let core = core_first(derives, row, e, enough)?;
    from_core(derives, row, e, core, enough)
}
