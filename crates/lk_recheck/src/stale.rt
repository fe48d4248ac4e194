//! The units that have to be checked again.

ghost use Rattle.std.specs.Prelude.{◌≡◌, IfOk};
ghost use Rattle.lk_store.specs.Store.{contents_of};
ghost use Rattle.lk_env.specs.Units.{library_at, AreUnitsIn};
ghost use Rattle.lk_recheck.specs.Built.{AreLinksOf};
ghost use Rattle.lk_recheck.specs.Stale.{either, first_mark, later_marks, MarksStale};

use crate::building::StoreLinks;
use crate::changed::changed_units;
use crate::touched::touched_units;
use lk_env::unit::Unit;
use lk_store::base_store::BaseStore;
use lk_store::memory::NoMemory;
use std::alloc::Global;

/// The first mark, where there is one and it is set.
fn first_mark(marks: &[bool]) -> bool
    ensures { result ≡ first_mark marks.now }
{
    match marks.split_first() {
        Some((mark, _)) => *mark,
        None => false,
    }
}

/// The marks behind the first one.
fn later_marks(marks: &[bool]) -> &[bool]
    ensures { result.now ≡ later_marks marks.now }
{
    match marks.split_first() {
        Some((_, more)) => more,
        None => marks,
    }
}

/// Marks that are set in one of two lists, as many as the first has.
fn set_in_either(alloc: Global, first: &[bool], second: &[bool]) -> Result<Vec<bool>, NoMemory>
    ensures { IfOk result (λ marks. marks.items ≡ either first.now second.now) }
{
    let mut marks = Vec::new(alloc);
    let mut rest = first;
    let mut others = second;
    while let Some((mark, more)) = rest.split_first() {
        marks.push(*mark || first_mark(others))?;
        rest = more;
        others = later_marks(others);
    }
    Ok(marks)
}

/// Marks each unit of the new list of which something in its closure changed: the unit is marked
/// where a unit of its closure, in the old list or in the new one, stands in the other list
/// otherwise or not at all. Both lists are over one store. The whole is a pass over each list.
/// Where there are 2^32 units, trees and names together, it is want of memory.
pub fn stale_units(
    alloc: Global,
    base: &BaseStore,
    links: &StoreLinks,
    old: &[Unit],
    new: &[Unit],
) -> Result<Vec<bool>, NoMemory>
    requires links { AreLinksOf base.now links.now }
    requires old_in { AreUnitsIn (contents_of base.now) old.now }
    requires new_in { AreUnitsIn (contents_of base.now) new.now }
    ensures { IfOk result (λ marks. MarksStale (library_at (contents_of base.now) old.now)
        (library_at (contents_of base.now) new.now) marks.items) }
{
    let changed = changed_units(alloc, base, old, new)?;
    let before = touched_units(alloc, base, links, old, &changed)?;
    let after = touched_units(alloc, base, links, new, &changed)?;
    set_in_either(alloc, &after, &before)
}
