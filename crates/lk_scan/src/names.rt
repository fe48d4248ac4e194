//! Whether the names of a unit's members are new.

ghost use Rattle.std.specs.Prelude.{◌≡◌, ◌<◌, length, All, IfOk};
ghost use Rattle.std.specs.List.{list_all};
ghost use Rattle.lk_rulebook.specs.Units.{members_of};
ghost use Rattle.lk_rulebook.specs.Scan.{are_new};
ghost use Rattle.lk_store.specs.Contents.{name_at};
ghost use Rattle.lk_store.specs.Store.{contents_of};
ghost use Rattle.lk_env.specs.Units.{unit_at, library_of, IsUnitIn};
ghost use Rattle.lk_scan.specs.Names.{is_new, number_is_new};

use crate::different::none_twice;
use lk_env::index::names_of;
use lk_env::library::Library;
use lk_env::unit::Unit;
use lk_store::memory::NoMemory;
use std::alloc::Global;

/// Whether none of the first units gives the name.
fn is_new(library: &Library, units: u32, name: u64) -> bool
    requires { name < length (contents_of library.now.tables).names }
    ensures { result ≡ number_is_new library.now units name }
{
    let place = library.position_before(units, name);
    place.is_none()
}

/// Whether none of the first units gives one of the names.
fn none_given(library: &Library, units: u32, names: &[u64]) -> bool
    requires { All (λ n. n < length (contents_of library.now.tables).names) names.now }
    ensures { result ≡ list_all (number_is_new library.now units) names.now }
{
    for name in names {
        if !is_new(library, units, *name) {
            return false;
        }
    }
    true
}

/// Whether none of the units before this number gives the name of one of the unit's members, and no
/// two of its members have one name. Each name is looked up once, so that a block of many members
/// takes no longer than its names.
pub fn are_new(alloc: Global, library: &Library, number: u32, unit: &Unit) -> Result<bool, NoMemory>
    requires { IsUnitIn (contents_of library.now.tables) unit.now }
    ensures { IfOk result (λ r. r ≡ are_new (library_of library.now) number
        (members_of (unit_at (contents_of library.now.tables) unit.now))) }
{
    if let Unit::Declaration(declaration) = unit {
        let new = is_new(library, number, u64::from(declaration.name));
        return Ok(new);
    }
    let names = names_of(alloc, unit)?;
    if !none_given(library, number, &names) {
        return Ok(false);
    }
    let different = none_twice(alloc, library.base(), &names)?;
    Ok(different)
}
