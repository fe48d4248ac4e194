//! The sort of a type.

ghost use Rattle.std.specs.Prelude.{◌<◌, length, IfOk};
ghost use Rattle.lk_questions.specs.Steps.{sort_of as plain_sort};
ghost use Rattle.lk_store.specs.Contents.{tree_at};
ghost use Rattle.lk_step.specs.Told.{Leaves};
ghost use Rattle.lk_step.specs.Tests.{IsRun};
ghost use Rattle.lk_derive_equal.specs.Sorts.{IsSorted};

use lk_step::Derives;
use lk_step::derives::{form_of, type_of};
use lk_store::memory::NoMemory;
use lk_store::node::Node;

/// A tree's type in the two forms in which a sort is found, and its level.
#[derive(Clone, Copy)]
pub(crate) struct Sorted {
    pub ty: u64,
    pub form: u64,
    pub level: u64,
}

/// The sort of a type.
pub(crate) fn sort_of<D: Derives>(derives: &mut D, e: u64, enough: u128) -> Result<Sorted, NoMemory>
    requires e_in { e < length (D.contents derives.old).trees }
    requires run { IsRun (D.sight (D.rest derives.old)).basis.place
        (plain_sort (tree_at (D.contents derives.old) e)) enough }
    ensures leaves { Leaves D.contents D.rest D.sight derives.old derives.new }
    ensures sorted { IfOk result (IsSorted (D.sight (D.rest derives.old)).basis.place
        (tree_at (D.contents derives.old) e) (D.contents derives.new)) }
{
    let ty = type_of(derives, e, enough)?;
    let form = form_of(derives, ty, enough)?;
    match derives.view(form) {
        Node::Sort(level) => Ok(Sorted { ty, form, level }),
        _ => unreachable!(),
    }
}
