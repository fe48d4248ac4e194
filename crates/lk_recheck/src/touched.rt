//! Which units rest on what changed.

ghost use Rattle.std.specs.Prelude.{IfOk};
ghost use Rattle.lk_store.specs.Store.{contents_of};
ghost use Rattle.lk_env.specs.Units.{library_at, AreUnitsIn};
ghost use Rattle.lk_recheck.specs.Built.{AreLinksOf};
ghost use Rattle.lk_recheck.specs.Stale.{MarksTouched};

use crate::building::{StoreLinks, sources_of};
use crate::hitting::mark_units;
use crate::slots::counts_of;
use lk_env::unit::Unit;
use lk_store::base_store::BaseStore;
use lk_store::memory::NoMemory;
use std::alloc::Global;

/// Marks each unit whose closure holds a unit that is marked as changed. Each unit and each name is
/// looked through once, and what leads to it is walked through once at most. Units, names and
/// trees are fewer than 2^32, and so is what leads from one to the next; more are want of memory.
pub fn touched_units(
    alloc: Global,
    base: &BaseStore,
    links: &StoreLinks,
    units: &[Unit],
    changed: &[bool],
) -> Result<Vec<bool>, NoMemory>
    requires links { AreLinksOf base.now links.now }
    requires units_in { AreUnitsIn (contents_of base.now) units.now }
    ensures { IfOk result (λ marks. MarksTouched (library_at (contents_of base.now) units.now)
        changed.now marks.items) }
{
    let counts = counts_of(base, units)?;
    let sources = sources_of(alloc, base, links, units, &counts)?;
    mark_units(alloc, &sources, &counts, changed, &links.builtins)
}
