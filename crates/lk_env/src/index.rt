//! The index over the names of a library.

ghost use Rattle.std.specs.Prelude.{◌≡◌, ◌++◌, ◌<◌, ◌≤◌, ◌^◌, ℕ, map, drop, length, All, None, IfOk, OnOk};
ghost use Rattle.std.specs.List.{flat_map};
ghost use Rattle.lk_store.specs.Store.{contents_of};
ghost use Rattle.lk_env.specs.Units.{AreUnitsIn};
ghost use Rattle.lk_env.specs.Index.{constructor_names, member_names, cell_at, AreNoted, AreNames, IsIndex, IsIndexUpTo};

use crate::position::Position;
use crate::unit::{Block, BlockType, Constructor, Recursor, Unit};
use lk_store::base_store::BaseStore;
use lk_store::memory::NoMemory;
use lk_store::terms::Terms;
use std::alloc::Global;

fn push_types(names: &mut Vec<u64>, types: &[BlockType]) -> Result<(), NoMemory>
    ensures { OnOk result (names.new.items ≡ names.old.items ++ map (λ t. t.name) types.now) }
{
    for t in types {
        names.push(t.name)?;
    }
    Ok(())
}

fn push_constructors(names: &mut Vec<u64>, constructors: &[Constructor]) -> Result<(), NoMemory>
    ensures { OnOk result (names.new.items ≡ names.old.items
        ++ map (λ k. k.name) constructors.now) }
{
    for k in constructors {
        names.push(k.name)?;
    }
    Ok(())
}

fn push_constructors_of_all(names: &mut Vec<u64>, types: &[BlockType]) -> Result<(), NoMemory>
    ensures { OnOk result (names.new.items ≡ names.old.items
        ++ flat_map constructor_names types.now) }
{
    for t in types {
        push_constructors(names, &t.constructors)?;
    }
    Ok(())
}

fn push_recursors(names: &mut Vec<u64>, recursors: &[Recursor]) -> Result<(), NoMemory>
    ensures { OnOk result (names.new.items ≡ names.old.items ++ map (λ r. r.name) recursors.now) }
{
    for r in recursors {
        names.push(r.name)?;
    }
    Ok(())
}

fn names_of_block(alloc: Global, block: &Block) -> Result<Vec<u64>, NoMemory>
    ensures { IfOk result (λ names. names.items ≡ member_names (Unit.Block block.now)) }
{
    let mut names = Vec::new(alloc);
    push_types(&mut names, &block.types)?;
    push_constructors_of_all(&mut names, &block.types)?;
    push_recursors(&mut names, &block.recursors)?;
    Ok(names)
}

/// The numbers of the names of a unit's members, in their order.
pub fn names_of(alloc: Global, unit: &Unit) -> Result<Vec<u64>, NoMemory>
    ensures { IfOk result (λ names. names.items ≡ member_names unit.now) }
{
    match unit {
        Unit::Declaration(declaration) => Ok(Vec::from_array(
            alloc,
            [u64::from(declaration.name)],
        )?),
        Unit::Block(block) => names_of_block(alloc, block),
    }
}

/// The same where there are fewer than 2^32 of them; more are want of memory.
fn few_names_of(alloc: Global, unit: &Unit) -> Result<Vec<u64>, NoMemory>
    ensures names { IfOk result (λ names. names.items ≡ member_names unit.now) }
    ensures few { IfOk result (λ names. length names.items < 2 ^ 32) }
{
    let names = names_of(alloc, unit)?;
    if names.len() > u32::MAX as usize {
        return Err(NoMemory);
    }
    Ok(names)
}

/// The same of each of the units.
pub(crate) fn names_of_all(alloc: Global, units: &[Unit]) -> Result<Vec<Vec<u64>>, NoMemory>
    ensures names { IfOk result (λ names. AreNames names.items units.now) }
    ensures few { IfOk result (λ names. All (λ v. length v.items < 2 ^ 32) names.items) }
{
    let mut names = Vec::new(alloc);
    for unit in units {
        names.push(few_names_of(alloc, unit)?)?;
    }
    Ok(names)
}

/// Notes the members of a unit by their names. A name that has a position keeps it.
fn note_members(cells: &mut Vec<Option<Position>>, unit: u32, names: &[u64])
    requires known { All (λ n. n < length cells.old.items) names.now }
    requires few { length names.now < 2 ^ 32 }
    ensures one_each { length cells.new.items ≡ length cells.old.items }
    ensures noted { AreNoted unit names.now cells.old.items cells.new.items }
{
    for (j, name) in names.iter().enumerate() {
        let position = Position {
            unit,
            member: j as u32,
        };
        let first = cells[*name as usize].unwrap_or(position);
        cells[*name as usize] = Some(first);
    }
}

/// Notes the members of the units from number `first` on by their names, which are at hand.
pub(crate) fn note_units(
    base: &BaseStore,
    units: &[Unit],
    first: usize,
    names: &[Vec<u64>],
    cells: &mut Vec<Option<Position>>,
)
    requires units { AreUnitsIn (contents_of base.now) units.now }
    requires count { length units.now < 2 ^ 32 }
    requires first { first ≤ length units.now }
    requires names { AreNames names.now (drop first units.now) }
    requires few { All (λ v. length v.items < 2 ^ 32) names.now }
    requires before { IsIndexUpTo (contents_of base.now) units.now first cells.old.items }
    ensures { IsIndex (contents_of base.now) units.now cells.new.items }
{
    // The names of the store are apart, so that their numbers tell.
    let _names = base.count_names();
    for (j, unit_names) in names.iter().enumerate() {
        note_members(cells, (first + j) as u32, unit_names);
    }
}

/// A cell for each of n names, without a position.
fn empty_cells(alloc: Global, n: usize) -> Result<Vec<Option<Position>>, NoMemory>
    ensures one_each { IfOk result (λ cells. length cells.items ≡ n) }
    ensures empty { IfOk result (λ cells. (k : ℕ) → k < n → cell_at cells.items k ≡ None) }
{
    let mut cells = Vec::new(alloc);
    cells.resize(n, None)?;
    Ok(cells)
}

/// The index over the names of the units. There are fewer than 2^32 of them.
pub fn index_of(
    alloc: Global,
    base: &BaseStore,
    units: &[Unit],
) -> Result<Vec<Option<Position>>, NoMemory>
    requires { AreUnitsIn (contents_of base.now) units.now }
    ensures { IfOk result (λ cells. IsIndex (contents_of base.now) units.now cells.items) }
{
    if units.len() > u32::MAX as usize {
        return Err(NoMemory);
    }
    let mut cells = empty_cells(alloc, base.count_names() as usize)?;
    for (i, unit) in units.iter().enumerate() {
        let names = few_names_of(alloc, unit)?;
        note_members(&mut cells, i as u32, &names);
    }
    Ok(cells)
}
