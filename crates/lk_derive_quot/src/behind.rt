//! Arguments behind a tree that takes a step.

ghost use Rattle.std.specs.Prelude.{◌<◌, length, OnOk};
ghost use Rattle.lk_store.specs.Contents.{tree_at};
ghost use Rattle.lk_derive_quot.specs.Quotients.{StatesBehind};

use lk_premises::same_tree;
use lk_step::Row;
use lk_step::under_way::{add_step, one_reduction};
use lk_store::memory::NoMemory;
use lk_store::terms::Terms;
use lk_trace::ReductionRule;
use std::alloc::Global;

/// Says that one tree reduces to another, which are these two with so many arguments behind them, where it is stated
/// that the one of these reduces to the other.
pub(crate) fn state_behind<T: Terms>(
    alloc: Global,
    terms: &T,
    row: &mut Row,
    front: u64,
    short: u64,
    e: u64,
    next: u64,
    behind: usize,
) -> Result<(), NoMemory>
    requires front_in { front < length (T.contents terms.now).trees }
    requires short_in { short < length (T.contents terms.now).trees }
    requires e_in { e < length (T.contents terms.now).trees }
    requires next_in { next < length (T.contents terms.now).trees }
    ensures { let c = T.contents terms.now in OnOk result (StatesBehind c row.old row.new
        (tree_at c front) (tree_at c short) (tree_at c e) (tree_at c next) behind) }
{
    if behind == 0 {
        return Ok(());
    }
    if same_tree(terms, front, short) {
        return Ok(());
    }
    let premises = one_reduction(alloc, front, short)?;
    add_step(terms, row, ReductionRule::Head, e, next, premises)?;
    Ok(())
}
