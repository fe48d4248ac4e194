//! The lines of units.

ghost use Rattle.std.specs.Prelude.{OnOk};
ghost use Rattle.lk_env.specs.Units.{unit_at, IsUnitIn};
ghost use Rattle.lk_env.specs.declared.unit.Unit.TheVariants as unit;
ghost use Rattle.lk_trim.specs.Units.{write_unit};
ghost use Rattle.lk_trim.specs.Stored.{AreNumbersIn, Writes};

use crate::blocks::{names_of_types, write_all_constructors, write_types};
use crate::declarations::write_declaration;
use crate::numbers::Writer;
use crate::recursors::write_recursors;
use lk_env::unit::{Block, Unit};
use lk_store::memory::NoMemory;
use lk_store::terms::Terms;
use std::alloc::Global;

/// Writes the lines of a block.
fn write_block<T: Terms>(
    alloc: Global,
    store: &T,
    writer: &mut Writer,
    block: &Block,
) -> Result<(), NoMemory>
    requires numbers { AreNumbersIn (T.contents store.now) writer.old.numbers }
    requires block_in { IsUnitIn (T.contents store.now) (unit.Block block.now) }
    ensures { let c = T.contents store.now in
        OnOk result (Writes c (write_unit (unit_at c (unit.Block block.now)))
        writer.old writer.new) }
{
    let family = names_of_types(alloc, &block.types)?;
    write_types(alloc, store, writer, &family, &block.types)?;
    write_all_constructors(alloc, store, writer, &block.types)?;
    write_recursors(alloc, store, writer, &family, &block.recursors)?;
    Ok(())
}

/// Writes the lines of a unit.
pub(crate) fn write_unit<T: Terms>(
    alloc: Global,
    store: &T,
    writer: &mut Writer,
    unit: &Unit,
) -> Result<(), NoMemory>
    requires numbers { AreNumbersIn (T.contents store.now) writer.old.numbers }
    requires unit_in { IsUnitIn (T.contents store.now) unit.now }
    ensures { let c = T.contents store.now in
        OnOk result (Writes c (write_unit (unit_at c unit.now)) writer.old writer.new) }
{
    match unit {
        Unit::Declaration(d) => write_declaration(alloc, store, writer, d),
        Unit::Block(block) => write_block(alloc, store, writer, block),
    }
}
