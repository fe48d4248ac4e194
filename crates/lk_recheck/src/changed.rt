//! The units that a second list has otherwise.

ghost use Rattle.std.specs.Prelude.{◌≡◌, ◌↔◌, IsTrue, IfOk, slice_get};
ghost use Rattle.lk_store.specs.Contents.{Contents};
ghost use Rattle.lk_store.specs.Store.{contents_of};
ghost use Rattle.lk_env.specs.Units.{library_at, AreUnitsIn};
ghost use Rattle.lk_recheck.specs.Same.{StandsOnce};
ghost use Rattle.lk_recheck.specs.Stale.{MarksChanged};

use crate::same::same_unit;
use lk_env::unit::Unit;
use lk_store::base_store::BaseStore;
use lk_store::memory::NoMemory;
use lk_store::terms::Terms;
use std::alloc::Global;

/// Whether both lists have the same unit of this number, or none.
fn same_at(old: &[Unit], new: &[Unit], number: usize) -> bool
    ensures { (c : Contents) → StandsOnce c → AreUnitsIn c old.now → AreUnitsIn c new.now
        → (IsTrue result ↔ (slice_get (library_at c old.now) number
        ≡ slice_get (library_at c new.now) number)) }
{
    match old.get(number) {
        Some(a) => match new.get(number) {
            Some(b) => same_unit(a, b),
            None => false,
        },
        None => new.len() <= number,
    }
}

/// Marks for each number of two lists of units, over one store, whether the unit of this number is
/// another in the second, or there in one alone.
pub fn changed_units(
    alloc: Global,
    base: &BaseStore,
    old: &[Unit],
    new: &[Unit],
) -> Result<Vec<bool>, NoMemory>
    requires old_in { AreUnitsIn (contents_of base.now) old.now }
    requires new_in { AreUnitsIn (contents_of base.now) new.now }
    ensures { IfOk result (λ marks. MarksChanged (library_at (contents_of base.now) old.now)
        (library_at (contents_of base.now) new.now) marks.items) }
{
    let _names = base.count_names();
    base.stands_once();
    let mut marks = Vec::new(alloc);
    for number in 0..old.len().max(new.len()) {
        marks.push(!same_at(old, new, number))?;
    }
    Ok(marks)
}
