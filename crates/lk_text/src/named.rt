//! The unit that a printed name is of.

ghost use Rattle.std.specs.Prelude.{◌≡◌, ◌<◌, ◌++◌, length, map, All, IfOk, OnOk};
ghost use Rattle.std.specs.Prelude.{IfSome};
ghost use Rattle.std.specs.List.{list_any};
ghost use Rattle.lk_store.specs.Contents.{name_at};
ghost use Rattle.lk_store.specs.Store.{contents_of};
ghost use Rattle.lk_env.specs.Units.{unit_at, library_of, IsUnitIn};
ghost use Rattle.lk_text.specs.Text.{name_text};
ghost use Rattle.lk_text.specs.Named.{prints_as, has_printed, first_printed, unknown_line};

use crate::names::add_name;
use crate::units::Writing;
use lk_env::index::names_of;
use lk_env::library::Library;
use lk_env::unit::Unit;
use lk_store::memory::NoMemory;
use std::alloc::Global;

/// Whether a name prints as the text.
fn prints_as(
    writing: &mut Writing,
    library: &Library,
    name: u64,
    text: &[u8],
) -> Result<bool, NoMemory>
    requires { name < length (contents_of library.now.tables).names }
    ensures { IfOk result (λ b. b
        ≡ prints_as text.now (name_at (contents_of library.now.tables) name)) }
{
    writing.name.clear();
    add_name(&mut writing.parts, &mut writing.name, library.base(), name)?;
    let is_same = writing.name.as_slice() == text;
    Ok(is_same)
}

/// Whether one of these names prints as the text.
fn any_prints_as(
    writing: &mut Writing,
    library: &Library,
    names: &[u64],
    text: &[u8],
) -> Result<bool, NoMemory>
    requires { All (λ n. n < length (contents_of library.now.tables).names) names.now }
    ensures { IfOk result (λ b. b ≡ list_any (prints_as text.now)
        (map (name_at (contents_of library.now.tables)) names.now)) }
{
    let mut rest = names;
    while let Some((name, more)) = rest.split_first() {
        if prints_as(writing, library, *name, text)? {
            return Ok(true);
        }
        rest = more;
    }
    Ok(false)
}

/// Whether a member of the unit has a name that prints as the text.
fn has_printed(
    alloc: Global,
    writing: &mut Writing,
    library: &Library,
    unit: &Unit,
    text: &[u8],
) -> Result<bool, NoMemory>
    requires { IsUnitIn (contents_of library.now.tables) unit.now }
    ensures { IfOk result (λ b. b
        ≡ has_printed text.now (unit_at (contents_of library.now.tables) unit.now)) }
{
    let names = names_of(alloc, unit)?;
    any_prints_as(writing, library, &names, text)
}

/// The number of the first unit with a member whose name prints as the text, where there is one.
/// Units are fewer than 2^32; more are want of memory.
pub fn unit_named(alloc: Global, library: &Library, text: &[u8]) -> Result<Option<u32>, NoMemory>
    ensures first { IfOk result (λ r. r ≡ first_printed 0 (library_of library.now) text.now) }
    ensures known { IfOk result (λ r. IfSome r (λ n. n < length library.now.units)) }
{
    let mut writing = Writing::new(alloc);
    let units = library.units();
    if units.len() > u32::MAX as usize {
        return Err(NoMemory);
    }
    for n in 0..units.len() as u32 {
        if has_printed(alloc, &mut writing, library, &units[n as usize], text)? {
            return Ok(Some(n));
        }
    }
    Ok(None)
}

/// The line that says that no unit has such a member.
pub fn unknown_line(alloc: Global, text: &[u8]) -> Result<Vec<u8>, NoMemory>
    ensures { IfOk result (λ v. v.items ≡ unknown_line text.now) }
{
    let mut out = Vec::new(alloc);
    out.extend_from_slice(b"unknown ")?;
    out.extend_from_slice(text)?;
    out.push(b'\n')?;
    Ok(out)
}
