//! Whether each member of a unit declares each of its level parameters once.

ghost use Rattle.std.specs.Prelude.{◌≡◌, All, IfOk};
ghost use Rattle.std.specs.List.{list_all};
ghost use Rattle.lk_rulebook.specs.Units.{members_of};
ghost use Rattle.lk_rulebook.specs.Scan.{are_distinct};
ghost use Rattle.lk_store.specs.Store.{contents_of};
ghost use Rattle.lk_env.specs.Units.{unit_at, IsConstructorIn, IsTypeIn, IsRecursorIn, IsUnitIn};
ghost use Rattle.lk_scan.specs.Members.{type_different, constructor_different};
ghost use Rattle.lk_scan.specs.Members.{constructors_different, recursor_different};

use crate::different::none_twice;
use lk_env::unit::{Block, BlockType, Constructor, Recursor, Unit};
use lk_store::base_store::BaseStore;
use lk_store::memory::NoMemory;
use std::alloc::Global;

fn types_distinct(alloc: Global, base: &BaseStore, types: &[BlockType]) -> Result<bool, NoMemory>
    requires { All (IsTypeIn (contents_of base.now)) types.now }
    ensures { IfOk result (λ r. r ≡ list_all (type_different (contents_of base.now)) types.now) }
{
    for t in types {
        if !none_twice(alloc, base, &t.levels)? {
            return Ok(false);
        }
    }
    Ok(true)
}

fn constructors_distinct(
    alloc: Global,
    base: &BaseStore,
    constructors: &[Constructor],
) -> Result<bool, NoMemory>
    requires { All (IsConstructorIn (contents_of base.now)) constructors.now }
    ensures { IfOk result (λ r. r ≡ list_all (constructor_different (contents_of base.now))
        constructors.now) }
{
    for k in constructors {
        if !none_twice(alloc, base, &k.levels)? {
            return Ok(false);
        }
    }
    Ok(true)
}

fn all_constructors_distinct(
    alloc: Global,
    base: &BaseStore,
    types: &[BlockType],
) -> Result<bool, NoMemory>
    requires { All (IsTypeIn (contents_of base.now)) types.now }
    ensures { IfOk result (λ r. r ≡ list_all (constructors_different (contents_of base.now))
        types.now) }
{
    for t in types {
        if !constructors_distinct(alloc, base, &t.constructors)? {
            return Ok(false);
        }
    }
    Ok(true)
}

fn recursors_distinct(
    alloc: Global,
    base: &BaseStore,
    recursors: &[Recursor],
) -> Result<bool, NoMemory>
    requires { All (IsRecursorIn (contents_of base.now)) recursors.now }
    ensures { IfOk result (λ r. r ≡ list_all (recursor_different (contents_of base.now))
        recursors.now) }
{
    for r in recursors {
        if !none_twice(alloc, base, &r.levels)? {
            return Ok(false);
        }
    }
    Ok(true)
}

fn block_distinct(alloc: Global, base: &BaseStore, block: &Block) -> Result<bool, NoMemory>
    requires { IsUnitIn (contents_of base.now) (Unit.Block block.now) }
    ensures { IfOk result (λ r. r ≡ are_distinct (members_of
        (unit_at (contents_of base.now) (Unit.Block block.now)))) }
{
    if !types_distinct(alloc, base, &block.types)? {
        return Ok(false);
    }
    if !all_constructors_distinct(alloc, base, &block.types)? {
        return Ok(false);
    }
    let recursors = recursors_distinct(alloc, base, &block.recursors)?;
    Ok(recursors)
}

/// Whether no member of a unit declares a level parameter twice.
pub(crate) fn levels_distinct(
    alloc: Global,
    base: &BaseStore,
    unit: &Unit,
) -> Result<bool, NoMemory>
    requires { IsUnitIn (contents_of base.now) unit.now }
    ensures { IfOk result (λ r. r ≡ are_distinct (members_of
        (unit_at (contents_of base.now) unit.now))) }
{
    let distinct = match unit {
        Unit::Declaration(d) => none_twice(alloc, base, &d.levels)?,
        Unit::Block(block) => block_distinct(alloc, base, block)?,
    };
    Ok(distinct)
}
