//! Sections of derivations, as they are read.
ghost use Rattle.std.specs.Prelude.{◌≡◌, ◌≤◌, ◌<◌, ◌++◌, ◌∷◌, ℕ, [], length, nat_eq, true, IfOk, OnOk, Some, None, Ok, Result};
ghost use Rattle.std.specs.Prelude.{if◌then◌else◌};
ghost use Rattle.std.specs.HashSet.{contains};
ghost use Rattle.std.specs.Prelude.{map, slice_get};
ghost use Rattle.lk_rulebook.specs.Units.{Library};
ghost use Rattle.lk_store.specs.Contents.{Contents, tree_at};
ghost use Rattle.lk_trace.specs.Meaning.{line_of, IsLineIn};
ghost use Rattle.lk_lines.specs.FileNumbers.{wide};
ghost use Rattle.lk_lines.specs.Views.{derivation_values};
ghost use Rattle.lk_units.specs.State.{State, all_known};
ghost use Rattle.lk_units.specs.Held.{Numbered, Below, Makes};
ghost use Rattle.lk_traced.specs.Derived.{line_said};
ghost use Rattle.lk_trace.specs.Files.{section_at, IsFileSectionIn};
ghost use Rattle.lk_traced.specs.Placed.{Behind, OpenSection, begin_behind, has_section, places_of, begin_section, with_derivation, end_section, derivation_taken, parts_taken};
ghost use Rattle.lk_traced.specs.Begun.{is_declaration, one_more, ended_by, HoldsBegun, IsBegunIn, HoldsSections, AreSectionsKnown, FollowsSections};
ghost use Rattle.lk_book.specs.File.{Export};

use crate::derived::{derived_line, find_places};
use lk_lines::{DerivationLine, Word};
use lk_store::memory::NoMemory;
use lk_trace::{FileSection, Line, Section};
use lk_units::{Numbering, TakeError};
use std::alloc::Global;
use std::collections::HashSet;

/// Adds the number of a line.
fn add_number(taken: &mut HashSet<u64>, own: u64) -> Result<(), NoMemory>
    ensures { OnOk result ((q : ℕ) → contains nat_eq taken.new q
        ≡ (if nat_eq own q then true else contains nat_eq taken.old q)) }
{
    match taken.insert(own) {
        Ok(_) => Ok(()),
        Err(_) => Err(NoMemory),
    }
}

/// Adds a section that is ended.
fn push_section(ended: &mut Vec<FileSection>, section: FileSection) -> Result<(), NoMemory>
    ensures { OnOk result (ended.new.items ≡ ended.old.items ++ section ∷ []) }
{
    ended.push(section)?;
    Ok(())
}

/// A section that is not ended.
#[derive(Drop)]
pub struct BegunSection {
    /// The number of the file's line that begins it.
    pub number: u64,
    pub unit: u32,
    pub lines: Vec<Line>,
    /// The numbers of the file's lines that hold them.
    pub numbers: Vec<u64>,
    /// From the numbers that lines have in the file to their places among the lines.
    pub places: Numbering,
}

impl BegunSection {
    /// A section without lines.
    fn new(alloc: Global, number: u64, unit: u32) -> Self
        ensures holds { (c : Contents) → HoldsBegun result c (record {
          number = number;
          unit = unit;
          lines = [];
          places = λ j. None;
        }) }
        ensures known { (c : Contents) → IsBegunIn c result }
    {
        BegunSection {
            number,
            unit,
            lines: Vec::new(alloc),
            numbers: Vec::new(alloc),
            places: Numbering::new(alloc),
        }
    }

    /// Adds a line, which line `number` of the file holds under its own number.
    fn push(&mut self, number: u64, own: u64, line: Line) -> Result<(), NoMemory>
        ensures holds { OnOk result ((c : Contents) (p : OpenSection) → IsBegunIn c self.old
            → HoldsBegun self.old c p
            → HoldsBegun self.new c (one_more number own (line_of c line) p)) }
        ensures known { OnOk result ((c : Contents) → IsBegunIn c self.old → IsLineIn c line
            → IsBegunIn c self.new) }
        ensures unit { self.new.unit ≡ self.old.unit }
    {
        let place = self.lines.len() as u64;
        self.places.add(own, place)?;
        self.numbers.push(number)?;
        self.lines.push(line)?;
        Ok(())
    }

    /// The section, which line `number` of the file ends with these parts.
    fn ended(self, number: u64, parts: Vec<u32>) -> FileSection
        ensures holds { (c : Contents) (p : OpenSection) → HoldsBegun self c p
            → section_at c result ≡ ended_by number parts.items p }
        ensures known { (c : Contents) → IsBegunIn c self → IsFileSectionIn c result }
        ensures unit { result.section.unit ≡ self.unit }
    {
        FileSection {
            section: Section {
                unit: self.unit,
                lines: self.lines,
                parts,
            },
            numbers: self.numbers,
            end: number,
        }
    }
}

/// What stands behind `#TR`.
#[derive(Drop)]
pub struct Sections {
    /// Which units of the library are declarations alone, so that they may have a section.
    pub kinds: Vec<bool>,
    pub ended: Vec<FileSection>,
    pub begun: Option<BegunSection>,
    /// The least unit that the next section may be of.
    pub least: u64,
    /// The numbers that lines of derivations have.
    pub taken: HashSet<u64>,
}

impl Sections {
    /// No section yet.
    pub(crate) fn new(alloc: Global, kinds: Vec<bool>) -> Self
        ensures holds { (c : Contents) (e : Export) → kinds.items ≡ map is_declaration e.units
            → HoldsSections result c (begin_behind e) }
        ensures known { (c : Contents) → AreSectionsKnown result c }
    {
        Sections {
            kinds,
            ended: Vec::new(alloc),
            begun: None,
            least: 0,
            taken: HashSet::new(alloc),
        }
    }

    /// Whether the next section may be of this unit.
    fn has_section(&self, unit: u64) -> bool
        ensures has { (us : Library) → self.now.kinds.items ≡ map is_declaration us
            → result ≡ has_section self.now.least unit (slice_get us unit) }
        ensures least { result ≡ true → self.now.least ≤ unit }
        ensures alone { result ≡ true → slice_get self.now.kinds.items unit ≡ Some true }
    {
        let Some(alone) = self.kinds.get(unit as usize) else {
            return false;
        };
        if !*alone {
            return false;
        }
        self.least <= unit
    }

    /// Begins the section of a unit, by line `number` of the file.
    pub(crate) fn begin(&mut self, alloc: Global, number: u64, unit: u64) -> Result<(), TakeError>
        ensures follows { (c : Contents) (b : Behind) → HoldsSections self.old c b
            → FollowsSections self.new c result (begin_section number b unit) }
        ensures known { OnOk result ((c : Contents) → AreSectionsKnown self.old c
            → AreSectionsKnown self.new c) }
    {
        if self.begun.is_some() {
            return Err(TakeError::Fault(Word::TraceOrder));
        }
        if !self.has_section(unit) {
            return Err(TakeError::Fault(Word::TraceOrder));
        }
        let Ok(narrow) = u32::try_from(unit) else {
            return Err(TakeError::NoMemory);
        };
        self.begun = Some(BegunSection::new(alloc, number, narrow));
        self.least = u64::from(narrow) + 1;
        Ok(())
    }

    /// What a line of a derivation states in the section that is begun. Where there is none, no number is that of a premise.
    fn derived(
        &self,
        alloc: Global,
        trees: &Numbering,
        line: &DerivationLine<u64>,
    ) -> Result<Line, TakeError>
        ensures made { (c : Contents) (s : State) (b : Behind)
            → Numbered trees.now (tree_at c) s.trees → HoldsSections self.now c b
            → Makes (line_of c) result (line_said s (places_of b.begun)
            (derivation_values wide line.now)) }
        ensures known { (c : Contents) → Below trees.now (length c.trees)
            → IfOk result (IsLineIn c) }
    {
        match &self.begun {
            Some(begun) => derived_line(alloc, trees, &begun.places, line),
            None => {
                let none = Numbering::new(alloc);
                derived_line(alloc, trees, &none, line)
            }
        }
    }

    /// Adds a line to the section that is begun.
    fn add(&mut self, number: u64, own: u64, line: Line) -> Result<(), TakeError>
        ensures follows { (c : Contents) (b : Behind) → AreSectionsKnown self.old c
            → HoldsSections self.old c b
            → FollowsSections self.new c result (with_derivation number b own (line_of c line)) }
        ensures known { OnOk result ((c : Contents) → AreSectionsKnown self.old c
            → IsLineIn c line → AreSectionsKnown self.new c) }
    {
        let Some(begun) = &mut self.begun else {
            return Err(TakeError::Fault(Word::TraceOrder));
        };
        let Ok(()) = begun.push(number, own, line) else {
            return Err(TakeError::NoMemory);
        };
        match add_number(&mut self.taken, own) {
            Ok(()) => Ok(()),
            Err(_) => Err(TakeError::NoMemory),
        }
    }

    /// Takes a line of a derivation, line `number` of the file. Its own number comes before what it states, and that before
    /// where it stands.
    pub(crate) fn derivation(
        &mut self,
        alloc: Global,
        trees: &Numbering,
        number: u64,
        own: u64,
        line: &DerivationLine<u64>,
    ) -> Result<(), TakeError>
        ensures follows { (c : Contents) (s : State) (b : Behind)
            → Numbered trees.now (tree_at c) s.trees → AreSectionsKnown self.old c
            → HoldsSections self.old c b → FollowsSections self.new c result
            (derivation_taken number s b own (derivation_values wide line.now)) }
        ensures known { OnOk result ((c : Contents) → Below trees.now (length c.trees)
            → AreSectionsKnown self.old c → AreSectionsKnown self.new c) }
    {
        if self.taken.contains(&own) {
            return Err(TakeError::Fault(Word::IndexTaken));
        }
        match self.derived(alloc, trees, line) {
            Ok(derived) => self.add(number, own, derived),
            Err(error) => Err(error),
        }
    }

    /// The places of the premises that a section's last line names.
    fn parts(&self, alloc: Global, premises: &[u64]) -> Result<Vec<u32>, TakeError>
        ensures { (c : Contents) (b : Behind) → HoldsSections self.now c b
            → Makes (λ v. v.items) result (all_known (places_of b.begun) premises.now) }
    {
        match &self.begun {
            Some(begun) => find_places(alloc, &begun.places, premises),
            None => {
                let none = Numbering::new(alloc);
                find_places(alloc, &none, premises)
            }
        }
    }

    /// Ends the section that is begun with these parts, by line `number` of the file.
    fn end_with(&mut self, number: u64, parts: Vec<u32>) -> Result<(), TakeError>
        ensures follows { (c : Contents) (b : Behind) → HoldsSections self.old c b
            → FollowsSections self.new c result (end_section number b parts.items) }
        ensures known { OnOk result ((c : Contents) → AreSectionsKnown self.old c
            → AreSectionsKnown self.new c) }
    {
        let Some(begun) = self.begun.take() else {
            return Err(TakeError::Fault(Word::TraceOrder));
        };
        match push_section(&mut self.ended, begun.ended(number, parts)) {
            Ok(()) => Ok(()),
            Err(_) => Err(TakeError::NoMemory),
        }
    }

    /// Ends the section that is begun, by line `number` of the file. The numbers of its parts come before whether there is
    /// one.
    pub(crate) fn end(
        &mut self,
        alloc: Global,
        number: u64,
        premises: &[u64],
    ) -> Result<(), TakeError>
        ensures follows { (c : Contents) (b : Behind) → HoldsSections self.old c b
            → FollowsSections self.new c result (parts_taken number b premises.now) }
        ensures known { OnOk result ((c : Contents) → AreSectionsKnown self.old c
            → AreSectionsKnown self.new c) }
    {
        match self.parts(alloc, premises) {
            Ok(parts) => self.end_with(number, parts),
            Err(error) => Err(error),
        }
    }
}
