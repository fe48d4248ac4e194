//! The closure of a unit.

ghost use Rattle.std.specs.Prelude.{◌≡◌, ◌<◌, ◌+◌, length, IfOk, OnOk};
ghost use Rattle.lk_uses.specs.Listed.{IsClosureList};
ghost use Rattle.lk_reach.specs.Axioms.{IsListOf};
ghost use Rattle.lk_store.specs.Store.{contents_of};
ghost use Rattle.lk_env.specs.Units.{library_of};
ghost use Rattle.lk_needs.specs.Marks.{IsUnmarked, IsMarkedUnit, room_of, AreListedTo};
ghost use Rattle.lk_needs.specs.Leads.{room_at, IsOfLibrary, AreRecursors, Opens};
ghost use Rattle.lk_needs.specs.Search.{IsUnderWay, IsSearched};

use crate::builtins::list_builtins;
use crate::needs::Needs;
use crate::opening::{Recursors, list_things, recursors_of};
use crate::thing::Thing;
use lk_env::library::Library;
use lk_store::memory::NoMemory;
use lk_store::terms::Terms;
use std::alloc::Global;

/// The unit and the built-in names are needed.
fn begin(
    library: &Library,
    things: &mut Vec<Thing>,
    needs: &mut Needs,
    unit: u32,
) -> Result<(), NoMemory>
    requires unit_in { unit < length library.now.units }
    requires unmarked { IsUnmarked needs.old (room_at library.now) }
    ensures { OnOk result (IsUnderWay library.now unit needs.new) }
{
    list_builtins(library.base(), things)?;
    things.push(Thing::Unit(unit))?;
    needs.enter_all(things)
}

/// What a thing leads to is needed.
fn look_through(
    library: &Library,
    recursors: &Recursors,
    things: &mut Vec<Thing>,
    needs: &mut Needs,
    unit: u32,
    thing: Thing,
) -> Result<(), NoMemory>
    requires thing_in { IsOfLibrary library.now thing }
    requires recursors { AreRecursors (contents_of library.now.tables) recursors.now }
    requires unit_in { unit < length library.now.units }
    requires room { room_of needs.old ≡ room_at library.now }
    ensures { OnOk result (Opens library.now unit thing needs.old needs.new) }
{
    list_things(things, library, recursors, unit, thing)?;
    needs.enter_all(things)
}

/// Looks through what waits until nothing does.
fn search(
    library: &Library,
    recursors: &Recursors,
    things: &mut Vec<Thing>,
    needs: &mut Needs,
    unit: u32,
) -> Result<(), NoMemory>
    requires recursors { AreRecursors (contents_of library.now.tables) recursors.now }
    requires unit_in { unit < length library.now.units }
    requires under_way { IsUnderWay library.now unit needs.old }
    ensures { OnOk result (IsSearched library.now unit needs.new) }
{
    'waiting: while let Some(thing) = needs.waiting.pop() {
        look_through(library, recursors, things, needs, unit, thing)?;
    }
    Ok(())
}

/// Lists a unit, where it is needed.
fn push_if_needed(needs: &Needs, list: &mut Vec<u32>, unit: u32) -> Result<(), NoMemory>
    requires unit_in { unit < length needs.now.units.items }
    requires before { AreListedTo needs.now unit list.old.items }
    ensures { OnOk result (AreListedTo needs.now (unit + 1) list.new.items) }
{
    if needs.units[unit as usize] {
        list.push(unit)?;
    }
    Ok(())
}

/// The units that are needed, as a rising list.
fn list_units(alloc: Global, needs: &Needs, count: u32) -> Result<Vec<u32>, NoMemory>
    requires { length needs.now.units.items ≡ count }
    ensures { IfOk result (λ ks. IsListOf (IsMarkedUnit needs.now) ks.items) }
{
    let mut list = Vec::new(alloc);
    for unit in 0..count {
        push_if_needed(needs, &mut list, unit)?;
    }
    Ok(list)
}

/// What is needed of a library by a unit.
fn find_needs(
    alloc: Global,
    library: &Library,
    needs: &mut Needs,
    unit: u32,
) -> Result<(), NoMemory>
    requires unit_in { unit < length library.now.units }
    requires unmarked { IsUnmarked needs.old (room_at library.now) }
    ensures { OnOk result (IsSearched library.now unit needs.new) }
{
    let recursors = recursors_of(alloc, library.base())?;
    let mut things = Vec::new(alloc);
    begin(library, &mut things, needs, unit)?;
    search(library, &recursors, &mut things, needs, unit)
}

/// The closure of a unit, by rising numbers: the least set that has the unit, the units that give
/// the built-in names, and those that give the names that its units use. Names are looked up at the
/// unit itself, also those of an earlier unit. Each unit, name and tree of the library is looked
/// through once at most. Units are fewer than 2^32; more are want of memory.
pub fn closure(alloc: Global, library: &Library, unit: u32) -> Result<Vec<u32>, NoMemory>
    requires { unit < length library.now.units }
    ensures { IfOk result (λ ks. IsClosureList (library_of library.now) unit ks.items) }
{
    let units = library.units().len();
    if units > u32::MAX as usize {
        return Err(NoMemory);
    }
    let base = library.base();
    let names = base.count_names() as usize;
    let mut needs = Needs::new(alloc, units, names, base.len() as usize)?;
    find_needs(alloc, library, &mut needs, unit)?;
    list_units(alloc, &needs, units as u32)
}
