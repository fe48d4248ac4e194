//! What was found in a tree.

ghost use Rattle.std.specs.Prelude.{◌<◌, length, IfOk};
ghost use Rattle.lk_axioms.specs.Gives.{IsJoined};

use crate::sets::Sets;
use lk_store::memory::NoMemory;
use std::alloc::Global;

/// The set of the axioms that a tree's names lead to. A name may mean something only from a later
/// unit on: below that unit the set is right, from the unit on at which it was found.
#[derive(Clone, Copy)]
pub(crate) struct Finding {
    pub set: u32,
    pub below: u32,
}

/// Nothing, whatever the unit. The set 0 is empty.
pub(crate) const NOTHING: Finding = Finding {
    set: 0,
    below: u32::MAX,
};

/// Of a tree that was not walked yet. It holds at no unit.
pub(crate) const NOWHERE: Finding = Finding { set: 0, below: 0 };

/// The finding of two together.
pub(crate) fn join(
    alloc: Global,
    sets: &mut Sets,
    a: Finding,
    b: Finding,
) -> Result<Finding, NoMemory>
    requires a_in { a.set < length sets.old }
    requires b_in { b.set < length sets.old }
    ensures { IfOk result (IsJoined sets.old sets.new a b) }
{
    let set = sets.union(alloc, a.set, b.set)?;
    Ok(Finding {
        set,
        below: a.below.min(b.below),
    })
}
