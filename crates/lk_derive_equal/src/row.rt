//! The row of two terms that are the same.

ghost use Rattle.std.specs.Prelude.{◌<◌, [], length, IfOk};
ghost use Rattle.lk_rulebook.specs.WellStated.{WellStated};
ghost use Rattle.lk_questions.specs.Query.{same};
ghost use Rattle.lk_store.specs.Contents.{Contents, tree_at};
ghost use Rattle.lk_step.specs.Rows.{IsClaim};
ghost use Rattle.lk_step.specs.Meaning.{IsRowIn, IsRowOf};
ghost use Rattle.lk_step.specs.Told.{Leaves};
ghost use Rattle.lk_step.specs.Makes.{IsMade};

use crate::shapes::by_shapes;
use crate::tests::AllTests;
use lk_premises::same_tree;
use lk_step::{Derives, Row};
use lk_store::memory::NoMemory;
use std::alloc::Global;

/// The row of one term, of which nothing has to be said.
fn empty_row(alloc: Global) -> Row
    ensures known { (c : Contents) → IsRowIn c result }
    ensures row { (c : Contents) → IsMade c [] [] result }
{
    Row {
        asks: Vec::new(alloc),
        steps: Vec::new(alloc),
    }
}

/// What it rests on that two terms are the same, where `Same` says yes of them, for no more than `enough`. Whoever has all tests
/// of `Same` tells of those that `Core` leaves as they are.
pub fn equality_row<D: Derives, N: AllTests<D>>(
    derives: &mut D,
    a: u64,
    b: u64,
    enough: u128,
) -> Result<Row, NoMemory>
    requires stated { WellStated (D.sight (D.rest derives.old)).basis.place }
    requires a_in { a < length (D.contents derives.old).trees }
    requires b_in { b < length (D.contents derives.old).trees }
    requires claimed { IsClaim (D.sight (D.rest derives.old)).basis.place
        (same (tree_at (D.contents derives.old) a) (tree_at (D.contents derives.old) b)) enough }
    ensures leaves { Leaves D.contents D.rest D.sight derives.old derives.new }
    ensures known { IfOk result (IsRowIn (D.contents derives.new)) }
    ensures row { IfOk result (IsRowOf (D.sight (D.rest derives.old)).basis.place
        (D.contents derives.new) (same (tree_at (D.contents derives.old) a)
        (tree_at (D.contents derives.old) b))) }
{
    if same_tree(derives, a, b) {
        return Ok(empty_row(derives.alloc()));
    }
    by_shapes::<D, N>(derives, a, b, enough)
}
