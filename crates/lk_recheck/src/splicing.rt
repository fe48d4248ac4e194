//! The list of units that a part of a file leads to.

ghost use Rattle.std.specs.Prelude.{◌≡◌, ◌<◌, ℕ, length, option_map, option_and_then, None};
ghost use Rattle.std.specs.Prelude.{slice_index_or, IfOk, IfSome, OnOk};
ghost use Rattle.lk_store.specs.Contents.{Contents, name_at};
ghost use Rattle.lk_store.specs.Store.{contents_of};
ghost use Rattle.lk_env.specs.Units.{library_at, unit_at, AreUnitsIn, IsUnitIn};
ghost use Rattle.lk_recheck.specs.Spliced.{unit_name, spliced};
ghost use Rattle.lk_recheck.specs.Places.{place_of, ArePlaces, IsNoted, IsPut};

use lk_env::unit::{Block, Unit};
use lk_store::base_store::BaseStore;
use lk_store::memory::NoMemory;
use lk_store::terms::Terms;
use std::alloc::Global;

/// The name of a block, that of its first member.
fn block_name(block: &Block) -> Option<u64>
    ensures known { (c : Contents) → IsUnitIn c (Unit.Block block.now)
        → IfSome result (λ n. n < length c.names) }
    ensures name { (c : Contents) → option_map (name_at c) result
        ≡ unit_name (unit_at c (Unit.Block block.now)) }
{
    match block.types.first() {
        Some(first) => Some(first.name),
        None => block.recursors.first().map(|r| r.name),
    }
}

/// The name of a unit, that of its first member.
fn name_of(unit: &Unit) -> Option<u64>
    ensures known { (c : Contents) → IsUnitIn c unit.now
        → IfSome result (λ n. n < length c.names) }
    ensures name { (c : Contents) → option_map (name_at c) result ≡ unit_name (unit_at c unit.now) }
{
    match unit {
        Unit::Declaration(declaration) => Some(u64::from(declaration.name)),
        Unit::Block(block) => block_name(block),
    }
}

/// Notes the unit of this number under its name. A name that has a unit keeps it.
fn note(places: &mut Vec<Option<u32>>, name: Option<u64>, unit: u32)
    requires { IfSome name (λ n. n < length places.old.items) }
    ensures { IsNoted name unit places.old.items places.new.items }
{
    if let Some(name) = name {
        let first = places[name as usize].unwrap_or(unit);
        places[name as usize] = Some(first);
    }
}

/// A place for each of n names, at which no unit is noted.
fn no_places(alloc: Global, n: usize) -> Result<Vec<Option<u32>>, NoMemory>
    ensures one_each { IfOk result (λ places. length places.items ≡ n) }
    ensures none { IfOk result (λ places. (k : ℕ) → k < n
        → slice_index_or places.items k None ≡ None) }
{
    let mut places = Vec::new(alloc);
    places.resize(n, None)?;
    Ok(places)
}

/// For each name of the store the first of the units that has it.
fn places_of(alloc: Global, base: &BaseStore, units: &[Unit]) -> Result<Vec<Option<u32>>, NoMemory>
    requires { AreUnitsIn (contents_of base.now) units.now }
    ensures { IfOk result (λ places. ArePlaces (contents_of base.now) units.now places.items) }
{
    if units.len() > u32::MAX as usize {
        return Err(NoMemory);
    }
    let mut places = no_places(alloc, base.count_names() as usize)?;
    for (i, unit) in units.iter().enumerate() {
        note(&mut places, name_of(unit), i as u32);
    }
    Ok(places)
}

/// The same units again, in memory of their own.
fn copies(alloc: Global, units: &[Unit]) -> Result<Vec<Unit>, NoMemory>
    ensures { IfOk result (λ us. (c : Contents) → AreUnitsIn c units.now
        → AreUnitsIn c us.items × (library_at c us.items ≡ library_at c units.now)) }
{
    Ok(units.to_vec(alloc)?)
}

/// The unit that is noted under a name.
fn place_at(places: &[Option<u32>], name: Option<u64>) -> Option<u32>
    requires { IfSome name (λ n. n < length places.now) }
    ensures { result ≡ option_and_then (λ n. slice_index_or places.now n None) name }
{
    match name {
        Some(name) => places[name as usize],
        None => None,
    }
}

/// Puts a unit at the end, where none has its name.
fn push_unit(
    units: &mut Vec<Unit>,
    places: &mut Vec<Option<u32>>,
    base: &BaseStore,
    unit: Unit,
) -> Result<(), NoMemory>
    requires unit_in { IsUnitIn (contents_of base.now) unit }
    requires units_in { AreUnitsIn (contents_of base.now) units.old.items }
    requires places { ArePlaces (contents_of base.now) units.old.items places.old.items }
    requires new { place_of (library_at (contents_of base.now) units.old.items)
        (unit_name (unit_at (contents_of base.now) unit)) ≡ None }
    ensures { OnOk result (IsPut (contents_of base.now) units.old.items unit units.new.items
        places.new.items) }
{
    let Ok(number) = u32::try_from(units.len()) else {
        return Err(NoMemory);
    };
    let _names = base.count_names();
    let name = name_of(&unit);
    units.push(unit)?;
    note(places, name, number);
    Ok(())
}

/// Puts a unit in the place of the first one of its name, or else at the end.
fn put(
    units: &mut Vec<Unit>,
    places: &mut Vec<Option<u32>>,
    base: &BaseStore,
    unit: Unit,
) -> Result<(), NoMemory>
    requires unit_in { IsUnitIn (contents_of base.now) unit }
    requires units_in { AreUnitsIn (contents_of base.now) units.old.items }
    requires places { ArePlaces (contents_of base.now) units.old.items places.old.items }
    ensures { OnOk result (IsPut (contents_of base.now) units.old.items unit units.new.items
        places.new.items) }
{
    match place_at(places, name_of(&unit)) {
        Some(place) => {
            units[place as usize] = unit;
            Ok(())
        }
        None => push_unit(units, places, base, unit),
    }
}

/// The list behind a part: each unit of the part, in order, is put in the place of the first unit of
/// its name, or else at the end. A unit's name is that of its first member, for a block the first
/// type of its list. Where there would be 2^32 units it is want of memory.
pub fn splice(
    alloc: Global,
    base: &BaseStore,
    list: &[Unit],
    mut part: Vec<Unit>,
) -> Result<Vec<Unit>, NoMemory>
    requires list_in { AreUnitsIn (contents_of base.now) list.now }
    requires part_in { AreUnitsIn (contents_of base.now) part.items }
    ensures known { IfOk result (λ us. AreUnitsIn (contents_of base.now) us.items) }
    ensures list { IfOk result (λ us. library_at (contents_of base.now) us.items
        ≡ spliced (library_at (contents_of base.now) list.now)
        (library_at (contents_of base.now) part.items)) }
{
    let mut places = places_of(alloc, base, list)?;
    let mut units = copies(alloc, list)?;
    part.reverse();
    while let Some(unit) = part.pop() {
        put(&mut units, &mut places, base, unit)?;
    }
    Ok(units)
}
