//! The canonical text of units of a library.

ghost use Rattle.std.specs.Prelude.{◌≡◌, ◌<◌, ◌++◌, length, map, All, IfOk, IfSome, OnOk, Some};
ghost use Rattle.std.specs.Prelude.{option_map, slice_get};
ghost use Rattle.lk_store.specs.Contents.{name_at};
ghost use Rattle.lk_store.specs.Store.{contents_of};
ghost use Rattle.lk_env.specs.Units.{unit_at, library_of, IsUnitIn};
ghost use Rattle.lk_env.specs.Budgets.{first_unit, own_budget, budgets_of};
ghost use Rattle.lk_trim.specs.Written.{beginning};
ghost use Rattle.lk_trim.specs.Whole.{budget_line, write_budget, write_all, canonical_text};
ghost use Rattle.lk_trim.specs.Whole.{is_unit, own_name};
ghost use Rattle.lk_trim.specs.Whole.{budget_by, member_names, kept_if_any, kept_of};
ghost use Rattle.lk_trim.specs.Stored.{written_at, file_at, IsInterned, AreNumbersIn, Writes};

use crate::fields::add_row;
use crate::names::{name_number, write_name};
use crate::numbering::Numbering;
use crate::numbers::{Numbers, Writer};
use crate::units::write_unit;
use lk_env::index::names_of;
use lk_env::library::Library;
use lk_env::unit::Unit;
use lk_store::base_store::BaseStore;
use lk_store::memory::NoMemory;
use lk_store::terms::Terms;
use std::alloc::Global;
use std::mem::drop;

/// A text of which only the first line is written.
pub fn begin(alloc: Global, store: &BaseStore) -> Result<Writer, NoMemory>
    ensures numbers { IfOk result (λ w. AreNumbersIn (contents_of store.now) w.numbers) }
    ensures file { IfOk result (λ w. file_at (contents_of store.now) w ≡ beginning) }
{
    let _names = store.count_names();
    store.stands_once();
    let mut out = Vec::new(alloc);
    out.extend_from_slice(b"2.0.0\n")?;
    let numbers = Numbers {
        names: Numbering::new(alloc),
        levels: Numbering::new(alloc),
        trees: Numbering::new(alloc),
        rules: 0,
    };
    Ok(Writer { out, numbers })
}

/// Whether a unit is the first that gives the name.
fn is_given_by(library: &Library, unit: u32, name: u64) -> bool
    requires { name < length (contents_of library.now.tables).names }
    ensures { result ≡ is_unit unit (first_unit (library_of library.now)
        (name_at (contents_of library.now.tables) name)) }
{
    match library.position_of(name) {
        Some(p) => p.unit == unit,
        None => false,
    }
}

/// The first of the names that the unit is the first to give.
fn own_name(library: &Library, unit: u32, names: &[u64]) -> Option<u64>
    requires { All (λ n. n < length (contents_of library.now.tables).names) names.now }
    ensures known { IfSome result (λ n. n < length (contents_of library.now.tables).names) }
    ensures name { let c = contents_of library.now.tables in
        option_map (name_at c) result
        ≡ own_name (library_of library.now) unit (map (name_at c) names.now) }
{
    let mut rest = names;
    while let Some((name, more)) = rest.split_first() {
        if is_given_by(library, unit, *name) {
            return Some(*name);
        }
        rest = more;
    }
    None
}

/// Appends the line of a budget, without its end.
fn add_budget(
    out: &mut Vec<u8>,
    store: &BaseStore,
    numbers: &Numbers,
    name: u64,
    steps: u64,
) -> Result<(), NoMemory>
    requires numbers { AreNumbersIn (contents_of store.now) numbers.now }
    requires name_in { name < length (contents_of store.now).names }
    ensures { let c = contents_of store.now in
        OnOk result (out.new.items ≡ out.old.items
        ++ budget_line (record { name = name_at c name; steps = steps })
        (written_at c numbers.now)) }
{
    add_row(out, b"#BUD", &[name_number(store, numbers, name), steps])
}

/// Writes the line of a budget behind that of its name.
fn write_line(
    alloc: Global,
    store: &BaseStore,
    writer: &mut Writer,
    name: u64,
    steps: u64,
) -> Result<(), NoMemory>
    requires numbers { AreNumbersIn (contents_of store.now) writer.old.numbers }
    requires name_in { name < length (contents_of store.now).names }
    ensures { let c = contents_of store.now in
        OnOk result (Writes c
        (write_budget (Some (record { name = name_at c name; steps = steps })))
        writer.old writer.new) }
{
    write_name(alloc, store, writer, name)?;
    add_budget(&mut writer.out, store, &writer.numbers, name, steps)?;
    writer.out.push(b'\n')?;
    Ok(())
}

/// Writes the line of a budget, where there is a name for it.
fn write_if_named(
    alloc: Global,
    store: &BaseStore,
    writer: &mut Writer,
    name: Option<u64>,
    steps: u64,
) -> Result<(), NoMemory>
    requires numbers { AreNumbersIn (contents_of store.now) writer.old.numbers }
    requires name_in { IfSome name (λ n. n < length (contents_of store.now).names) }
    ensures { let c = contents_of store.now in
        OnOk result (Writes c (write_budget (budget_by (Some steps) (option_map (name_at c) name)))
        writer.old writer.new) }
{
    match name {
        Some(name) => write_line(alloc, store, writer, name, steps),
        None => Ok(()),
    }
}

/// Writes the line of a unit's own budget, where it has one.
fn write_budget(
    alloc: Global,
    library: &Library,
    writer: &mut Writer,
    n: u32,
    unit: &Unit,
) -> Result<(), NoMemory>
    requires numbers { AreNumbersIn (contents_of library.now.tables) writer.old.numbers }
    requires unit_in { IsUnitIn (contents_of library.now.tables) unit.now }
    ensures { let c = contents_of library.now.tables in
        let us = library_of library.now in
        OnOk result (Writes c (write_budget (budget_by (own_budget us (budgets_of library.now) n)
        (own_name us n (member_names (unit_at c unit.now))))) writer.old writer.new) }
{
    let Some(steps) = library.budget(n) else {
        return Ok(());
    };
    let names = names_of(alloc, unit)?;
    let name = own_name(library, n, &names);
    write_if_named(alloc, library.base(), writer, name, steps)?;
    Ok(())
}

/// Writes the lines of a unit, where it is one, and of its own budget.
fn write_kept(alloc: Global, library: &Library, writer: &mut Writer, n: u32) -> Result<(), NoMemory>
    requires { AreNumbersIn (contents_of library.now.tables) writer.old.numbers }
    ensures { let us = library_of library.now in
        OnOk result (Writes (contents_of library.now.tables)
        (write_all (kept_if_any us (budgets_of library.now) n (slice_get us n)))
        writer.old writer.new) }
{
    match library.units().get(n as usize) {
        Some(unit) => {
            write_unit(alloc, library.base(), writer, unit)?;
            write_budget(alloc, library, writer, n, unit)?;
            Ok(())
        }
        None => Ok(()),
    }
}

/// Writes the lines of the units of these numbers.
pub fn write_all(
    alloc: Global,
    library: &Library,
    writer: &mut Writer,
    units: &[u32],
) -> Result<(), NoMemory>
    requires { AreNumbersIn (contents_of library.now.tables) writer.old.numbers }
    ensures { OnOk result (Writes (contents_of library.now.tables)
        (write_all (kept_of (library_of library.now) (budgets_of library.now) units.now))
        writer.old writer.new) }
{
    let mut rest = units;
    while let Some((n, more)) = rest.split_first() {
        write_kept(alloc, library, writer, *n)?;
        rest = more;
    }
    Ok(())
}

/// What a writer has written.
pub fn text_of(writer: Writer) -> Vec<u8>
    ensures { result.items ≡ writer.out.items }
{
    let Writer { out, numbers } = writer;
    drop(numbers);
    out
}

/// The canonical text of the units of these numbers, each with the line of its own budget. The
/// numbers are below that of the library's units.
pub fn canonical(alloc: Global, library: &Library, units: &[u32]) -> Result<Vec<u8>, NoMemory>
    requires below { All (λ n. n < length library.now.units) units.now }
    ensures { IfOk result (λ v. v.items ≡ canonical_text
        (kept_of (library_of library.now) (budgets_of library.now) units.now)) }
{
    let mut writer = begin(alloc, library.base())?;
    write_all(alloc, library, &mut writer, units)?;
    Ok(text_of(writer))
}
