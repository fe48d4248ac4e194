//! The sections of units, written one after another.

ghost use Rattle.std.specs.Prelude.{◌≡◌, ◌<◌, ◌+◌, ◌++◌, ℕ, true, not, List, [], ◌∷◌, length};
ghost use Rattle.std.specs.Prelude.{Some, slice_get, IfOk, OnOk};
ghost use Rattle.lk_rulebook.specs.Units.{of_decl, place_of};
ghost use Rattle.lk_questions.specs.Table.{steps as table};
ghost use Rattle.lk_verdict.specs.Verdict.{says_yes, plain_verdict};
ghost use Rattle.lk_store.specs.Contents.{Contents, Extends};
ghost use Rattle.lk_store.specs.Store.{contents_of};
ghost use Rattle.lk_env.specs.Units.{declaration_at, library_of};
ghost use Rattle.lk_trace.specs.Meaning.{IsSectionIn};
ghost use Rattle.lk_trim.specs.Whole.{Kept};
ghost use Rattle.lk_trim.specs.Stored.{AreNumbersIn};
ghost use Rattle.lk_derive.specs.Units.{IsYes, IsUnitSection};
ghost use Rattle.lk_derive.specs.Sides.{IsDeclarationIn};
ghost use Rattle.lk_sections.specs.Sections.{UnitSection};
ghost use Rattle.lk_sections.specs.Stored.{unit_section_at, HasWritten};
ghost use Rattle.leancheck.specs.Traces.{is_accepted, lacks_section};
ghost use Rattle.leancheck.specs.Derived.{WereNumbersIn, HasOneMore, AreTraced};

use crate::deriver::Deriver;
use crate::tracer::Tracer;
use lk_derive::{section_of_unit, section_with_parts_holds, sides_of_laws, yes_has_parts};
use lk_env::library::Library;
use lk_env::unit::{Declaration, Unit};
use lk_sections::{TraceWriter, add_section, numbers_stay, trace_stays};
use lk_step::Derives;
use lk_store::memory::NoMemory;
use lk_trace::Section;
use std::alloc::Global;

/// A unit that was checked: its number, its budget, and whether its plain verdict under that is yes.
#[derive(Clone, Copy)]
pub struct Checked {
    pub unit: u32,
    pub budget: u128,
    pub yes: bool,
}

/// Turns to a unit, whose questions may cost so much each.
fn turn_to<D: Tracer>(deriver: &mut Deriver<D>, unit: u32, budget: u128)
    ensures contents { D.contents deriver.new.derives ≡ D.contents deriver.old.derives }
    ensures over { Extends
        (contents_of (D.library (D.sight (D.rest deriver.old.derives)).basis.beside).tables)
        (D.contents deriver.old.derives) }
    ensures library { D.library (D.sight (D.rest deriver.new.derives)).basis.beside
        ≡ D.library (D.sight (D.rest deriver.old.derives)).basis.beside }
    ensures place { (D.sight (D.rest deriver.new.derives)).basis.place ≡ place_of
        (library_of (D.library (D.sight (D.rest deriver.old.derives)).basis.beside)) unit [] }
    ensures enough { deriver.new.enough ≡ budget }
{
    deriver.derives.turn_to(unit);
    deriver.enough = budget;
}

/// The section of a declaration that says yes.
fn derived_section<D: Derives>(
    alloc: Global,
    deriver: &mut Deriver<D>,
    declaration: &Declaration,
    unit: u32,
) -> Result<Section, NoMemory>
    requires declaration_in { IsDeclarationIn (D.contents deriver.old.derives) declaration.now }
    requires yes { IsYes (D.sight (D.rest deriver.old.derives)).basis.place deriver.old.enough
        (declaration_at (D.contents deriver.old.derives) declaration.now) }
    ensures keeps { Extends (D.contents deriver.old.derives) (D.contents deriver.new.derives) }
    ensures beside { (D.sight (D.rest deriver.new.derives)).basis.beside
        ≡ (D.sight (D.rest deriver.old.derives)).basis.beside }
    ensures section { IfOk result (IsUnitSection (D.sight (D.rest deriver.old.derives)).basis.place
        (D.contents deriver.new.derives) unit
        (declaration_at (D.contents deriver.old.derives) declaration.now)) }
{
    let sides = sides_of_laws(alloc, &mut deriver.derives, declaration)?;
    section_of_unit(alloc, deriver, declaration, &sides, unit)
}

/// Writes a section behind the others, of which the store may have been smaller.
fn write_derived<D: Tracer>(
    alloc: Global,
    tracer: &D,
    trace: &mut TraceWriter,
    section: &Section,
) -> Result<(), NoMemory>
    requires numbers { WereNumbersIn (D.contents tracer.now) trace.old.writer.numbers }
    requires section_in { IsSectionIn (D.contents tracer.now) section.now }
    ensures { let d = D.contents tracer.now in
        (c : Contents) (ks : List Kept) (ss : List UnitSection) → Extends c d
        → HasWritten c ks ss trace.old
        → OnOk result (HasWritten d ks (ss ++ unit_section_at d section.now ∷ []) trace.new) }
{
    tracer.has_each_once();
    let _names = tracer.count_names();
    numbers_stay();
    trace_stays();
    add_section(alloc, tracer, trace, section)
}

/// Writes the section of a declaration that says yes.
fn trace_yes<D: Tracer>(
    alloc: Global,
    library: &Library,
    deriver: &mut Deriver<D>,
    trace: &mut TraceWriter,
    declaration: &Declaration,
    checked: Checked,
) -> Result<(), NoMemory>
    requires library { D.library (D.sight (D.rest deriver.old.derives)).basis.beside
        ≡ library.now }
    requires at { slice_get (library_of library.now) checked.unit
        ≡ Some (of_decl (declaration_at (contents_of library.now.tables) declaration.now)) }
    requires declaration_in { IsDeclarationIn (contents_of library.now.tables) declaration.now }
    requires yes { plain_verdict table (library_of library.now) checked.unit checked.budget
        ≡ says_yes }
    requires numbers { AreNumbersIn (D.contents deriver.old.derives) trace.old.writer.numbers }
    ensures library { D.library (D.sight (D.rest deriver.new.derives)).basis.beside ≡ library.now }
    ensures written { (ks : List Kept) (ss : List UnitSection)
        → HasWritten (D.contents deriver.old.derives) ks ss trace.old
        → OnOk result (HasOneMore (library_of library.now) checked.unit
        (D.contents deriver.new.derives) ks ss trace.new) }
{
    yes_has_parts();
    section_with_parts_holds();
    turn_to(deriver, checked.unit, checked.budget);
    let section = derived_section(alloc, deriver, declaration, checked.unit)?;
    write_derived(alloc, &deriver.derives, trace, &section)
}

/// Writes the section of a declaration, where it says yes. Whether it does.
fn trace_declaration<D: Tracer>(
    alloc: Global,
    library: &Library,
    deriver: &mut Deriver<D>,
    trace: &mut TraceWriter,
    declaration: &Declaration,
    checked: Checked,
) -> Result<bool, NoMemory>
    requires library { D.library (D.sight (D.rest deriver.old.derives)).basis.beside
        ≡ library.now }
    requires at { slice_get (library_of library.now) checked.unit
        ≡ Some (of_decl (declaration_at (contents_of library.now.tables) declaration.now)) }
    requires declaration_in { IsDeclarationIn (contents_of library.now.tables) declaration.now }
    requires yes { checked.yes
        ≡ is_accepted (library_of library.now) checked.budget checked.unit }
    requires numbers { AreNumbersIn (D.contents deriver.old.derives) trace.old.writer.numbers }
    ensures library { D.library (D.sight (D.rest deriver.new.derives)).basis.beside ≡ library.now }
    ensures complete { IfOk result (λ b.
        b ≡ not (lacks_section (library_of library.now) checked.budget checked.unit)) }
    ensures written { (budget : ℕ → ℕ) (ks : List Kept) → budget checked.unit ≡ checked.budget
        → AreTraced (library_of library.now) budget (D.contents deriver.old.derives) ks
        checked.unit trace.old
        → OnOk result (AreTraced (library_of library.now) budget (D.contents deriver.new.derives)
        ks (checked.unit + 1) trace.new) }
{
    if !checked.yes {
        return Ok(false);
    }
    trace_yes(alloc, library, deriver, trace, declaration, checked)?;
    Ok(true)
}

/// Writes the section of a unit, where it is a declaration that says yes. Whether it has all that it
/// is to have: it is a block, or has a section.
pub fn trace_unit<D: Tracer>(
    alloc: Global,
    library: &Library,
    deriver: &mut Deriver<D>,
    trace: &mut TraceWriter,
    checked: Checked,
) -> Result<bool, NoMemory>
    requires library { D.library (D.sight (D.rest deriver.old.derives)).basis.beside
        ≡ library.now }
    requires number { checked.unit < length library.now.units }
    requires yes { checked.yes
        ≡ is_accepted (library_of library.now) checked.budget checked.unit }
    requires numbers { AreNumbersIn (D.contents deriver.old.derives) trace.old.writer.numbers }
    ensures library { D.library (D.sight (D.rest deriver.new.derives)).basis.beside ≡ library.now }
    ensures complete { IfOk result (λ b.
        b ≡ not (lacks_section (library_of library.now) checked.budget checked.unit)) }
    ensures written { (budget : ℕ → ℕ) (ks : List Kept) → budget checked.unit ≡ checked.budget
        → AreTraced (library_of library.now) budget (D.contents deriver.old.derives) ks
        checked.unit trace.old
        → OnOk result (AreTraced (library_of library.now) budget (D.contents deriver.new.derives)
        ks (checked.unit + 1) trace.new) }
{
    match &library.units()[checked.unit as usize] {
        Unit::Declaration(declaration) => {
            trace_declaration(alloc, library, deriver, trace, declaration, checked)
        }
        Unit::Block(_) => Ok(true),
    }
}
