//! `Core` of a recursor that is applied: its first step, and how it goes on.

ghost use Rattle.std.specs.Prelude.{◌≡◌, ◌<◌, false, Some, length};
ghost use Rattle.lk_tree.specs.Tree.{Name};
ghost use Rattle.lk_tree.specs.Spine.{args as args_of};
ghost use Rattle.lk_rulebook.specs.Place.{Entry as PlainEntry};
ghost use Rattle.lk_questions.specs.Iota.{core_constant};
ghost use Rattle.lk_questions.specs.Quotients.{by_quot};
ghost use Rattle.lk_store.specs.Contents.{list_at, tree_at};
ghost use Rattle.lk_ask.specs.Looks.{entry_at};
ghost use Rattle.lk_iota.specs.Sheets.{IsKnownIotaTerm, IsKnownIotaTruth};
ghost use Rattle.lk_iota.specs.Redexes.{redex_by as plain_by, redex_at};
ghost use Rattle.lk_iota.specs.Iotas.{Reduces, ResumesTerm, ResumesTruth};

use crate::major::redex_by;
use crate::resume::{resume_candidate, resume_form, resume_sort, resume_structure, resume_type};
use crate::sheet::{IotaTermSheet, IotaTruthSheet};
use crate::start::first;
use lk_ask::looks::Looks;
use lk_ask::next::Next;
use lk_ask::query::{Answer, Query};
use lk_ask::sheet::Sheet;
use lk_env::entry::Entry;
use lk_store::memory::NoMemory;

/// What `Core` of a recursor does next.
pub type IotaNext = Next<u64, Sheet<IotaTermSheet<u64>, IotaTruthSheet<u64>>>;

/// The first step of `Core` of an application whose head is the constant of this entry and these
/// levels, which was just looked up. It is done where that is no recursor, or has no major premise.
pub fn begin<L: Looks>(
    looks: &mut L,
    entry: Entry,
    levels: u64,
    e: u64,
) -> Result<IotaNext, NoMemory>
    requires levels_in { levels < length (L.contents looks.old).lists }
    requires e_in { e < length (L.contents looks.old).trees }
    ensures { (c : Name) (g : PlainEntry)
        → entry_at (L.sight (L.rest looks.old)).basis entry ≡ Some g → by_quot g.kind ≡ false
        → redex_at (L.sight (L.rest looks.old)).basis.place (tree_at (L.contents looks.old) e)
        ≡ plain_by (list_at (L.contents looks.old) levels)
        (args_of (tree_at (L.contents looks.old) e)) g g.kind
        → Reduces L.contents L.rest L.sight looks.old looks.new result
        (λ t. core_constant (t e) c (list_at (L.contents looks.old) levels) (args_of (t e)) g
        g.kind) }
{
    match redex_by(looks, entry, levels, e)? {
        Some(redex) => Ok(first(looks, &redex, e)),
        None => Ok(Next::Done(Answer::Term(e))),
    }
}

/// Goes on once the term is there that a sheet waits for.
pub fn resume_term<L: Looks>(
    looks: &mut L,
    sheet: IotaTermSheet<u64>,
    e: u64,
) -> Result<IotaNext, NoMemory>
    requires sheet_in { IsKnownIotaTerm (length (L.contents looks.old).trees) sheet }
    requires e_in { e < length (L.contents looks.old).trees }
    ensures { ResumesTerm L.contents L.rest L.sight looks.old looks.new result sheet e }
{
    match sheet {
        IotaTermSheet::Passed => Ok(Next::Done(Answer::Term(e))),
        IotaTermSheet::MajorType { application } => Ok(Next::Ask(
            Query::Whnf(e),
            Sheet::Term(IotaTermSheet::MajorTypeForm { application }),
        )),
        IotaTermSheet::MajorTypeForm { application } => resume_type(looks, application, e),
        IotaTermSheet::Candidate {
            application,
            ty,
            candidate,
        } => Ok(Next::Ask(
            Query::Same(ty, e),
            Sheet::Truth(IotaTruthSheet::CandidateSame {
                application,
                candidate,
            }),
        )),
        IotaTermSheet::Major { application } => resume_form(looks, application, e),
        IotaTermSheet::StructureType {
            application,
            subject,
        } => Ok(Next::Ask(
            Query::Whnf(e),
            Sheet::Term(IotaTermSheet::StructureTypeForm {
                application,
                subject,
            }),
        )),
        IotaTermSheet::StructureTypeForm {
            application,
            subject,
        } => resume_structure(looks, application, subject, e),
        IotaTermSheet::StructureSort {
            application,
            subject,
            ty,
        } => Ok(Next::Ask(
            Query::Whnf(e),
            Sheet::Term(IotaTermSheet::StructureSortForm {
                application,
                subject,
                ty,
            }),
        )),
        IotaTermSheet::StructureSortForm {
            application,
            subject,
            ty,
        } => resume_sort(looks, application, subject, ty, e),
    }
}

/// Goes on once it is there whether two terms are the same, for which a sheet waits.
pub fn resume_truth<L: Looks>(
    looks: &mut L,
    sheet: IotaTruthSheet<u64>,
    yes: bool,
) -> Result<IotaNext, NoMemory>
    requires sheet_in { IsKnownIotaTruth (length (L.contents looks.old).trees) sheet }
    ensures { ResumesTruth L.contents L.rest L.sight looks.old looks.new result sheet yes }
{
    match sheet {
        IotaTruthSheet::CandidateSame {
            application,
            candidate,
        } => resume_candidate(looks, application, candidate, yes),
    }
}
