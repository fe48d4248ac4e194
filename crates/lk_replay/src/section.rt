//! One section, as that of a unit of a library.

ghost use Rattle.std.specs.Prelude.{◌≡◌, [], IfOk};
ghost use Rattle.lk_rulebook.specs.Units.{place_of};
ghost use Rattle.lk_rulebook.specs.Scan.{is_none, own_scan, scan_of};
ghost use Rattle.lk_written.specs.Section.{unit_at_fault};
ghost use Rattle.lk_store.specs.Contents.{Extends};
ghost use Rattle.lk_store.specs.Store.{contents_of};
ghost use Rattle.lk_env.specs.Units.{unit_at, library_of, IsUnitIn};
ghost use Rattle.lk_trace.specs.Meaning.{section_of, IsSectionIn};
ghost use Rattle.lk_premises.specs.Claims.{claims_at, AreClaimsIn};
ghost use Rattle.lk_replay.specs.Bodies.{end_test};

use crate::body::test_parts;
use crate::lines::{Reading, read_lines};
use lk_ask::looks::Looks;
use lk_env::library::Library;
use lk_env::unit::Unit;
use lk_mentions::part::Met;
use lk_premises::Claim;
use lk_rows::table::Table;
use lk_scan::names::are_new;
use lk_scan::scan::{ScanError, scan};
use lk_store::memory::NoMemory;
use lk_trace::Section;
use std::alloc::Global;

/// Whether a unit breaks no rule by its own lines.
fn is_clean(alloc: Global, library: &Library, unit: &Unit) -> Result<bool, NoMemory>
    requires { IsUnitIn (contents_of library.now.tables) unit.now }
    ensures { IfOk result (λ r. r
        ≡ is_none (own_scan (unit_at (contents_of library.now.tables) unit.now))) }
{
    match scan(alloc, library.base(), unit) {
        Ok(()) => Ok(true),
        Err(ScanError::No(_)) => Ok(false),
        Err(ScanError::NoMemory) => Err(NoMemory),
    }
}

/// Whether the unit's names are new, and it breaks no rule by its own lines.
fn is_scanned(alloc: Global, library: &Library, number: u32, unit: &Unit) -> Result<bool, NoMemory>
    requires { IsUnitIn (contents_of library.now.tables) unit.now }
    ensures { IfOk result (λ r. r ≡ is_none (scan_of (library_of library.now) number
        (unit_at (contents_of library.now.tables) unit.now))) }
{
    if !are_new(alloc, library, number, unit)? {
        return Ok(false);
    }
    is_clean(alloc, library, unit)
}

/// Whether the line holds that ends a section of these claims: the unit's names, its own lines, and its parts.
fn end_holds<L: Looks>(
    looks: &mut L,
    library: &Library,
    number: u32,
    unit: &Unit,
    claims: &[Claim],
    parts: &[u32],
) -> Result<bool, NoMemory>
    requires place { (L.sight (L.rest looks.old)).basis.place
        ≡ place_of (library_of library.now) number [] }
    requires over { Extends (contents_of library.now.tables) (L.contents looks.old) }
    requires unit_in { IsUnitIn (contents_of library.now.tables) unit.now }
    requires claims_in { AreClaimsIn (L.contents looks.old) claims.now }
    ensures { IfOk result (λ r. r ≡ end_test (library_of library.now) number
        (unit_at (contents_of library.now.tables) unit.now)
        (claims_at (L.contents looks.old) claims.now) parts.now) }
{
    match unit {
        Unit::Declaration(declaration) => {
            if !is_scanned(looks.alloc(), library, number, unit)? {
                return Ok(false);
            }
            test_parts(looks, claims, parts, declaration)
        }
        Unit::Block(_) => Ok(false),
    }
}

/// The place of the first line of a section of this unit that is at fault; the line that ends the section comes behind the
/// others.
pub(crate) fn fault_of<L: Looks>(
    looks: &mut L,
    library: &Library,
    number: u32,
    unit: &Unit,
    section: &Section,
) -> Result<Option<usize>, NoMemory>
    requires place { (L.sight (L.rest looks.old)).basis.place
        ≡ place_of (library_of library.now) number [] }
    requires over { Extends (contents_of library.now.tables) (L.contents looks.old) }
    requires unit_in { IsUnitIn (contents_of library.now.tables) unit.now }
    requires section_in { IsSectionIn (L.contents looks.old) section.now }
    ensures { IfOk result (λ f. f ≡ unit_at_fault (library_of library.now) number
        (unit_at (contents_of library.now.tables) unit.now)
        (section_of (L.contents looks.old) section.now)) }
{
    let mut met: Table<Met> = Table::new(looks.alloc());
    match read_lines(looks, &mut met, &section.lines)? {
        Reading::Holds(claims) => {
            if end_holds(looks, library, number, unit, &claims, &section.parts)? {
                Ok(None)
            } else {
                Ok(Some(section.lines.len()))
            }
        }
        Reading::Fails(place) => Ok(Some(place)),
    }
}
