//! Structure eta both ways: first with the second term as the constructor, then with the first one.

ghost use Rattle.std.specs.Prelude.{◌≡◌, ◌<◌, ℕ, Option, length};
ghost use Rattle.lk_tree.specs.Tree.{Tree};
ghost use Rattle.lk_rulebook.specs.Place.{Place};
ghost use Rattle.lk_ask.specs.Lines.{Rest, IsKnownLine};
ghost use Rattle.lk_ask.specs.Nexts.{next_steps, IsKnownNext};
ghost use Rattle.lk_eta.specs.Etas.{then_turned, then_structure, behind_way, eta_rest, eta_line};
ghost use Rattle.lk_eta.specs.Etas.{Expands, Continues, ResumesTerm, ResumesTruth};
ghost use Rattle.lk_eta.specs.Sheets.{map_structure_sheet, map_eta_sheet, IsKnownStructureTerm};
ghost use Rattle.lk_eta.specs.Sheets.{IsKnownStructureTruth, IsKnownStructureSheet, IsKnownEtaSheet};
ghost use Rattle.lk_eta.specs.Structures.{structure_rest, structure_line};

use crate::eta::EtaLine;
use crate::sheet::{EtaTermSheet, EtaTruthSheet, StructureTermSheet, StructureTruthSheet, Way};
use crate::structure::StructureLine;
use crate::{structure, unit};
use lk_ask::looks::Looks;
use lk_ask::next::{Line, Next};
use lk_ask::sheet::Sheet;
use lk_store::memory::NoMemory;

type StructureNext = Next<u64, Sheet<StructureTermSheet<u64>, StructureTruthSheet<u64>>>;

type EtaNext = Next<u64, Sheet<EtaTermSheet<u64>, EtaTruthSheet<u64>>>;

/// What eta does next where structure eta does it this way.
fn of_next(way: Way, next: StructureNext) -> EtaNext
    ensures known { (n : ℕ) → IsKnownNext IsKnownStructureSheet n next
        → IsKnownNext IsKnownEtaSheet n result }
    ensures steps { (p : Rest) (w : Place) (t : ℕ → Tree) (last : Option ℕ)
        → next_steps (λ s. eta_rest p w None (map_eta_sheet t s)) t last result
        ≡ next_steps (λ s. structure_rest (behind_way way p) w None (map_structure_sheet t s))
        t last next }
{
    match next {
        Next::Ask(asked, sheet) => match sheet {
            Sheet::Term(kept) => {
                Next::Ask(asked, Sheet::Term(EtaTermSheet::Structure(way, kept)))
            }
            Sheet::Truth(kept) => {
                Next::Ask(asked, Sheet::Truth(EtaTruthSheet::Structure(way, kept)))
            }
        },
        Next::Done(answer) => Next::Done(answer),
        Next::No(rule) => Next::No(rule),
    }
}

/// The second way goes on, of two terms that were turned; where it gives no answer eta of unit-like types begins.
fn of_turned(line: StructureLine) -> EtaLine
    ensures known { (n : ℕ) → IsKnownLine IsKnownStructureSheet n line
        → IsKnownLine IsKnownEtaSheet n result }
    ensures steps { (p : Rest) (w : Place) (t : ℕ → Tree) (last : Option ℕ)
        → eta_line p w t last result ≡ structure_line (behind_way Way.Turned p) w t last line }
{
    match line {
        Line::Goes(next) => Line::Goes(of_next(Way::Turned, next)),
        Line::Behind { left, right } => unit::begin(right, left),
    }
}

/// The second way begins.
fn turn<L: Looks>(looks: &mut L, a: u64, b: u64) -> Result<EtaLine, NoMemory>
    requires a_in { a < length (L.contents looks.old).trees }
    requires b_in { b < length (L.contents looks.old).trees }
    ensures { Expands L.contents L.rest L.sight looks.old looks.new result
        (λ p t. then_turned p (t a) (t b)) }
{
    let line = structure::begin(looks, b, a)?;
    Ok(of_turned(line))
}

/// The first way goes on, and where it gives no answer the second one begins.
fn of_given<L: Looks>(looks: &mut L, line: StructureLine) -> Result<EtaLine, NoMemory>
    requires { IsKnownLine IsKnownStructureSheet (length (L.contents looks.old).trees) line }
    ensures { Continues L.contents L.rest L.sight looks.old looks.new result
        (λ p w t last. structure_line (behind_way Way.Given p) w t last line) }
{
    match line {
        Line::Goes(next) => Ok(Line::Goes(of_next(Way::Given, next))),
        Line::Behind { left, right } => turn(looks, left, right),
    }
}

/// One of the two ways goes on.
fn of_way<L: Looks>(looks: &mut L, way: Way, line: StructureLine) -> Result<EtaLine, NoMemory>
    requires { IsKnownLine IsKnownStructureSheet (length (L.contents looks.old).trees) line }
    ensures { Continues L.contents L.rest L.sight looks.old looks.new result
        (λ p w t last. structure_line (behind_way way p) w t last line) }
{
    match way {
        Way::Given => of_given(looks, line),
        Way::Turned => Ok(of_turned(line)),
    }
}

/// Two terms by structure eta, one way and then the other, and then by eta of unit-like types.
pub(crate) fn begin<L: Looks>(looks: &mut L, a: u64, b: u64) -> Result<EtaLine, NoMemory>
    requires a_in { a < length (L.contents looks.old).trees }
    requires b_in { b < length (L.contents looks.old).trees }
    ensures { Expands L.contents L.rest L.sight looks.old looks.new result
        (λ p t. then_structure p (t a) (t b)) }
{
    let line = structure::begin(looks, a, b)?;
    of_given(looks, line)
}

/// Goes on once the term is there that a sheet waits for.
pub(crate) fn resume_term<L: Looks>(
    looks: &mut L,
    way: Way,
    sheet: StructureTermSheet<u64>,
    e: u64,
) -> Result<EtaLine, NoMemory>
    requires sheet_in { IsKnownStructureTerm (length (L.contents looks.old).trees) sheet }
    requires e_in { e < length (L.contents looks.old).trees }
    ensures { ResumesTerm L.contents L.rest L.sight looks.old looks.new result
        (EtaTermSheet.Structure way sheet) e }
{
    let line = structure::resume_term(sheet, e);
    of_way(looks, way, line)
}

/// Goes on once yes or no is there, which a sheet waits for.
pub(crate) fn resume_truth<L: Looks>(
    looks: &mut L,
    way: Way,
    sheet: StructureTruthSheet<u64>,
    equal: bool,
) -> Result<EtaLine, NoMemory>
    requires sheet_in { IsKnownStructureTruth (length (L.contents looks.old).trees) sheet }
    ensures { ResumesTruth L.contents L.rest L.sight looks.old looks.new result
        (EtaTruthSheet.Structure way sheet) equal }
{
    let line = structure::resume_truth(looks, sheet, equal)?;
    of_way(looks, way, line)
}
