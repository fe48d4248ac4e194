//! All lines of eta, one behind the other: the first step, and how it goes on.

ghost use Rattle.std.specs.Prelude.{◌<◌, length};
ghost use Rattle.lk_questions.specs.Pairs.{◌or_else◌};
ghost use Rattle.lk_questions.specs.Eta.{by_structure_eta, by_unit_eta};
ghost use Rattle.lk_questions.specs.Same.{by_function_eta};
ghost use Rattle.lk_eta.specs.Etas.{Expands, ResumesTerm, ResumesTruth};
ghost use Rattle.lk_eta.specs.Sheets.{IsKnownEtaTerm, IsKnownEtaTruth};

use crate::sheet::{EtaTermSheet, EtaTruthSheet};
use crate::{function, unit, ways};
use lk_ask::looks::Looks;
use lk_ask::next::{Line, Next};
use lk_ask::query::Answer;
use lk_ask::sheet::Sheet;
use lk_store::memory::NoMemory;

/// What eta does next.
pub type EtaLine = Line<u64, Sheet<EtaTermSheet<u64>, EtaTruthSheet<u64>>>;

/// Two terms by eta. A look-up that fails refuses the question, though another line might answer.
pub fn begin<L: Looks>(looks: &mut L, a: u64, b: u64) -> Result<EtaLine, NoMemory>
    requires a_in { a < length (L.contents looks.old).trees }
    requires b_in { b < length (L.contents looks.old).trees }
    ensures { Expands L.contents L.rest L.sight looks.old looks.new result
        (λ p t. by_function_eta (t a) (t b) or_else by_structure_eta (t a) (t b)
        or_else by_structure_eta (t b) (t a) or_else by_unit_eta (t a) (t b)
        or_else p (t a) (t b)) }
{
    function::begin(looks, a, b)
}

/// Goes on once the term is there that a sheet waits for.
pub fn resume_term<L: Looks>(
    looks: &mut L,
    sheet: EtaTermSheet<u64>,
    e: u64,
) -> Result<EtaLine, NoMemory>
    requires sheet_in { IsKnownEtaTerm (length (L.contents looks.old).trees) sheet }
    requires e_in { e < length (L.contents looks.old).trees }
    ensures { ResumesTerm L.contents L.rest L.sight looks.old looks.new result sheet e }
{
    match sheet {
        EtaTermSheet::Function(kept) => function::resume_term(looks, kept, e),
        EtaTermSheet::Structure(way, kept) => ways::resume_term(looks, way, kept, e),
        EtaTermSheet::Unit(kept) => unit::resume_term(looks, kept, e),
    }
}

/// Goes on once yes or no is there, which a sheet waits for.
pub fn resume_truth<L: Looks>(
    looks: &mut L,
    sheet: EtaTruthSheet<u64>,
    yes: bool,
) -> Result<EtaLine, NoMemory>
    requires sheet_in { IsKnownEtaTruth (length (L.contents looks.old).trees) sheet }
    ensures { ResumesTruth L.contents L.rest L.sight looks.old looks.new result sheet yes }
{
    match sheet {
        EtaTruthSheet::Long { left, right } => function::after_long(looks, left, right, yes),
        EtaTruthSheet::Structure(way, kept) => ways::resume_truth(looks, way, kept, yes),
        EtaTruthSheet::Passed => Ok(Line::Goes(Next::Done(Answer::Truth(yes)))),
    }
}
