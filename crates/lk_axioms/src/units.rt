//! The units, in their order: the set of each, from what its trees lead to.

ghost use Rattle.std.specs.Prelude.{◌≡◌, ◌<◌, ◌+◌, [], length, All, Some, slice_get, IfOk, OnOk};
ghost use Rattle.lk_reach.specs.Axioms.{is_axiom as is_axiom_unit};
ghost use Rattle.lk_store.specs.Contents.{Contents};
ghost use Rattle.lk_store.specs.Store.{contents_of};
ghost use Rattle.lk_env.specs.Units.{unit_at, library_of, IsUnitIn};
ghost use Rattle.lk_axioms.specs.Gathered.{IsRightFor, IsUnitNumber, AreGathered, IsUnitGathered};
ghost use Rattle.lk_axioms.specs.Gathered.{HasItself, AreKept};
ghost use Rattle.lk_axioms.specs.Lists.{Keeps, unless_stale};

use crate::gathering::{Gathering, gather};
use crate::sets::Sets;
use crate::stated::list_trees;
use crate::visit::Visit;
use lk_env::library::Library;
use lk_env::unit::{Body, Unit};
use lk_store::memory::NoMemory;
use std::alloc::Global;

/// Room for the walks over a unit's trees, used again for the next unit.
#[derive(Drop)]
pub(crate) struct Walks {
    pub trees: Vec<u64>,
    pub stack: Vec<Visit>,
}

/// The set of what the trees lead to.
fn gather_trees(
    alloc: Global,
    library: &Library,
    gathering: &mut Gathering,
    stack: &mut Vec<Visit>,
    unit: u32,
    trees: &[u64],
) -> Result<u32, NoMemory>
    requires right { IsRightFor library.now unit gathering.old }
    requires few { IsUnitNumber unit }
    requires trees_in { All (λ e. e < length (contents_of library.now.tables).trees) trees.now }
    ensures { IfOk result (AreGathered (contents_of library.now.tables)
        (library_of library.now) unit
        trees.now gathering.old gathering.new) }
{
    let mut used: u32 = 0;
    for tree in trees {
        gather(alloc, library, gathering, stack, unit, *tree)?;
        let found = gathering.cells[*tree as usize];
        used = gathering.sets.union(alloc, used, found.set)?;
    }
    Ok(used)
}

/// Whether a unit is an axiom. Constants of quotient types are none.
fn is_axiom(unit: &Unit) -> bool
    ensures { (c : Contents) → result ≡ is_axiom_unit (unit_at c unit.now) }
{
    match unit {
        Unit::Declaration(declaration) => matches!(declaration.body, Body::Axiom),
        Unit::Block(_) => false,
    }
}

/// A set with the unit itself.
fn add_itself(alloc: Global, sets: &mut Sets, unit: u32, set: u32) -> Result<u32, NoMemory>
    requires { set < length sets.old }
    ensures { IfOk result (HasItself sets.old sets.new unit set) }
{
    let own = sets.add(Vec::from_array(alloc, [unit])?)?;
    sets.union(alloc, set, own)
}

/// The set of a unit.
fn gather_unit(
    alloc: Global,
    library: &Library,
    gathering: &mut Gathering,
    walks: &mut Walks,
    unit: u32,
    stated: &Unit,
) -> Result<u32, NoMemory>
    requires right { IsRightFor library.now unit gathering.old }
    requires few { IsUnitNumber unit }
    requires stands { slice_get (library_of library.now) unit
        ≡ Some (unit_at (contents_of library.now.tables) stated.now) }
    requires stated_in { IsUnitIn (contents_of library.now.tables) stated.now }
    ensures { IfOk result (IsUnitGathered (contents_of library.now.tables)
        (library_of library.now) unit
        gathering.old gathering.new) }
{
    list_trees(&mut walks.trees, stated)?;
    let used = gather_trees(
        alloc,
        library,
        gathering,
        &mut walks.stack,
        unit,
        &walks.trees,
    )?;
    if is_axiom(stated) {
        add_itself(alloc, &mut gathering.sets, unit, used)
    } else {
        Ok(used)
    }
}

/// Gathers one more unit.
fn push_unit(
    alloc: Global,
    library: &Library,
    gathering: &mut Gathering,
    walks: &mut Walks,
    unit: u32,
    stated: &Unit,
) -> Result<(), NoMemory>
    requires right { IsRightFor library.now unit gathering.old }
    requires few { IsUnitNumber unit }
    requires stands { slice_get (library_of library.now) unit
        ≡ Some (unit_at (contents_of library.now.tables) stated.now) }
    requires stated_in { IsUnitIn (contents_of library.now.tables) stated.now }
    ensures right { OnOk result (IsRightFor library.now (unit + 1) gathering.new) }
    ensures keeps { OnOk result (Keeps gathering.old.sets gathering.new.sets) }
{
    let set = gather_unit(alloc, library, gathering, walks, unit, stated)?;
    gathering.units.push(set)?;
    Ok(())
}

/// The number of the set that a unit had, where it is not stale.
fn kept_set(kept: &[u32], stale: &[bool], unit: usize) -> Option<u32>
    ensures { result ≡ unless_stale (slice_get stale.now unit) (slice_get kept.now unit) }
{
    match stale.get(unit) {
        Some(false) => kept.get(unit).copied(),
        _ => None,
    }
}

/// Gathers all units; one that is not stale has the set still that it had. They are fewer than
/// 2^32; more are want of memory.
pub(crate) fn gather_units(
    alloc: Global,
    library: &Library,
    gathering: &mut Gathering,
    kept: &[u32],
    stale: &[bool],
) -> Result<(), NoMemory>
    requires right { IsRightFor library.now 0 gathering.old }
    requires still { AreKept (library_of library.now) gathering.old.sets kept.now stale.now }
    ensures { OnOk result (IsRightFor library.now (length library.now.units) gathering.new) }
{
    let units = library.units();
    if units.len() > u32::MAX as usize {
        return Err(NoMemory);
    }
    let mut walks = Walks {
        trees: Vec::new(alloc),
        stack: Vec::new(alloc),
    };
    for (i, unit) in units.iter().enumerate() {
        match kept_set(kept, stale, i) {
            Some(set) => {
                gathering.units.push(set)?;
            }
            None => {
                push_unit(alloc, library, gathering, &mut walks, i as u32, unit)?;
            }
        }
    }
    Ok(())
}
