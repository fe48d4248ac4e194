//! The section of a unit of a file with derivations.

ghost use Rattle.std.specs.Prelude.{◌≡◌, ◌<◌, [], length, map, option_map, All, IfOk, IfSome};
ghost use Rattle.lk_rulebook.specs.Units.{place_of};
ghost use Rattle.lk_questions.specs.Sound.{IsSoundPlace};
ghost use Rattle.lk_written.specs.Section.{unit_at_fault};
ghost use Rattle.lk_written.specs.Outcomes.{section_for, by_fault, section_of};
ghost use Rattle.lk_store.specs.Contents.{Contents};
ghost use Rattle.lk_store.specs.Store.{contents_of};
ghost use Rattle.lk_env.specs.Units.{unit_at, library_of, IsUnitIn};
ghost use Rattle.lk_trace.specs.Meaning.{section_of as plain_section, IsSectionIn};
ghost use Rattle.lk_trace.specs.Files.{section_at, IsFileSectionIn, AreSectionsIn, AreRising, outcome_in};
ghost use Rattle.lk_trace.specs.Outcomes.{outcome_at};
ghost use Rattle.lk_replay.specs.Outcomes.{outcome_by};
ghost use Rattle.lk_replay.specs.Derived.{IsDerivedUnit};

use crate::section::fault_of;
use lk_ask::instances::Instances;
use lk_ask::lookout::Lookout;
use lk_env::entry::{Partial, Site};
use lk_env::library::Library;
use lk_env::scope::Scope;
use lk_env::unit::Unit;
use lk_meter::Meter;
use lk_store::memory::NoMemory;
use lk_store::overlay::Overlay;
use lk_trace::{FileSection, Outcome, Section, Traced};
use std::alloc::Global;

/// The section of a unit, where it has one, among sections in the order of their units.
fn section_for(sections: &[FileSection], unit: u32) -> Option<&FileSection>
    requires { AreRising sections.now }
    ensures is { (c : Contents) → section_for unit (map (section_at c) sections.now)
        ≡ option_map (λ s. section_at c s.now) result }
    ensures known { (c : Contents) → All (IsFileSectionIn c) sections.now
        → IfSome result (λ s. IsFileSectionIn c s.now) }
{
    let place = sections.partition_point(|s| s.section.unit < unit);
    let found = sections.get(place)?;
    if found.section.unit == unit {
        Some(found)
    } else {
        None
    }
}

/// What comes of a section whose first line at fault, if there is one, has this place.
fn outcome_of(written: &FileSection, fault: Option<usize>) -> Outcome
    requires { length written.now.numbers.items ≡ length written.now.section.lines.items }
    ensures { (c : Contents) → outcome_at result ≡ by_fault (section_at c written.now) fault }
{
    match fault {
        None => Outcome::Ok,
        Some(place) => match written.numbers.get(place) {
            Some(line) => Outcome::Bad { line: *line },
            None => Outcome::Bad { line: written.end },
        },
    }
}

/// The place of the first line at fault of a section of this unit, looked at over a store that goes with it.
fn fault_over(
    alloc: Global,
    library: &Library,
    number: u32,
    unit: &Unit,
    section: &Section,
) -> Result<Option<usize>, NoMemory>
    requires unit_in { IsUnitIn (contents_of library.now.tables) unit.now }
    requires section_in { IsSectionIn (contents_of library.now.tables) section.now }
    ensures { let c = contents_of library.now.tables in
        IfOk result (λ f. f ≡ unit_at_fault (library_of library.now) number (unit_at c unit.now)
        (plain_section c section.now)) }
{
    let terms = Overlay::new(alloc, library.base());
    let mut lookout = Lookout {
        alloc,
        scope: Scope::new(alloc, library, &terms),
        site: Site {
            unit: number,
            partial: Partial::Nothing,
        },
        terms,
        meter: Meter::new(0),
        instances: Instances::new(alloc),
    };
    fault_of(&mut lookout, library, number, unit, section)
}

/// What comes of a section, as that of this unit.
fn replay_section(
    alloc: Global,
    library: &Library,
    number: u32,
    unit: &Unit,
    written: &FileSection,
) -> Result<Outcome, NoMemory>
    requires unit_in { IsUnitIn (contents_of library.now.tables) unit.now }
    requires section_in { IsFileSectionIn (contents_of library.now.tables) written.now }
    ensures { let c = contents_of library.now.tables in let s = section_at c written.now in
        IfOk result (λ o. outcome_at o ≡ by_fault s (unit_at_fault (library_of library.now)
        number (unit_at c unit.now) (section_of s))) }
{
    let fault = fault_over(alloc, library, number, unit, &written.section)?;
    Ok(outcome_of(written, fault))
}

/// The same, where the unit may have no section.
fn replay_if_written(
    alloc: Global,
    library: &Library,
    number: u32,
    unit: &Unit,
    written: Option<&FileSection>,
) -> Result<Outcome, NoMemory>
    requires unit_in { IsUnitIn (contents_of library.now.tables) unit.now }
    requires section_in { IfSome written (λ s.
        IsFileSectionIn (contents_of library.now.tables) s.now) }
    ensures { let c = contents_of library.now.tables in IfOk result (λ o. outcome_at o
        ≡ outcome_by (library_of library.now) number (unit_at c unit.now)
        (option_map (λ s. section_at c s.now) written.entry)) }
{
    match written {
        Some(written) => replay_section(alloc, library, number, unit, written),
        None => Ok(Outcome::None),
    }
}

/// What comes of the section of a unit, at the place of the unit, where the units before it are seen.
fn replay_at(alloc: Global, traced: &Traced, number: u32) -> Result<Outcome, NoMemory>
    requires sections_in { AreSectionsIn traced.now }
    requires rising { AreRising traced.now.sections.items }
    requires number_in { number < length (library_of traced.now.library) }
    ensures { IfOk result (λ o. outcome_at o ≡ outcome_in traced.now number) }
{
    let library = &traced.library;
    match library.units().get(number as usize) {
        Some(unit) => match unit {
            Unit::Block(_) => Ok(Outcome::Block),
            Unit::Declaration(_) => {
                let written = section_for(&traced.sections, number);
                replay_if_written(alloc, library, number, unit, written)
            }
        },
        None => unreachable!(),
    }
}

/// What comes of the section of a unit: it holds, or the first line of the file that is at fault; or the unit has none, or is
/// a block. A section is tested as the definitions of written derivations say (`lk_written`), over a store that goes with it:
/// nothing is kept from one section for the next.
pub fn replay_unit(alloc: Global, traced: &Traced, number: u32) -> Result<Outcome, NoMemory>
    requires sections_in { AreSectionsIn traced.now }
    requires rising { AreRising traced.now.sections.items }
    requires number_in { number < length (library_of traced.now.library) }
    ensures is { IfOk result (λ o. outcome_at o ≡ outcome_in traced.now number) }

    // A unit whose section holds is derived, where the operations on numbers before it have their laws.
    ensures derived { let us = library_of traced.now.library in IfOk result (λ o.
        o ≡ Outcome.Ok → IsSoundPlace (place_of us number []) → IsDerivedUnit us number) }
{
    replay_at(alloc, traced, number)
}
