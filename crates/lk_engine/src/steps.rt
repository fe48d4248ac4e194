//! The steps of each question, by the crate that has them.

ghost use Rattle.std.specs.Prelude.{◌≡◌, ◌<◌, length};
ghost use Rattle.lk_tree.specs.Tree.{const};
ghost use Rattle.lk_tree.specs.Loose.{loose};
ghost use Rattle.lk_tree.specs.Spine.{head as head_of, args as args_of};
ghost use Rattle.lk_questions.specs.Erased.{a_tree};
ghost use Rattle.lk_questions.specs.Core.{core_applied, core_steps};
ghost use Rattle.lk_questions.specs.Infer.{infer_steps};
ghost use Rattle.lk_store.specs.Contents.{name_at, list_at, tree_at};
ghost use Rattle.lk_ask.specs.declared.query.Query.TheVariants.{Infer};
ghost use Rattle.lk_ask.specs.Questions.{value_at, IsKnownQuery, IsKnownAnswer};
ghost use Rattle.lk_ask.specs.Gives.{Wraps};
ghost use Rattle.lk_core.specs.Sheets.{IsKnownCore};
ghost use Rattle.lk_core.specs.Forms.{core_next};
ghost use Rattle.lk_iota.specs.Sheets.{IsKnownIotaSheet};
ghost use Rattle.lk_iota.specs.Iotas.{iota_next};
ghost use Rattle.lk_proj.specs.Sheets.{IsKnownInfer, IsKnownCore as IsKnownReduced};
ghost use Rattle.lk_proj.specs.Infers.{infer_next};
ghost use Rattle.lk_proj.specs.Reductions.{core_next as reduced_next};
ghost use Rattle.lk_quot.specs.Sheets.{IsKnownQuotSheet};
ghost use Rattle.lk_quot.specs.Cores.{quot_next};
ghost use Rattle.lk_type.specs.Sheets.{IsKnownTypeSheet};
ghost use Rattle.lk_type.specs.Types.{type_next};
ghost use Rattle.lk_same.specs.Sheets.{IsKnownSameSheet};
ghost use Rattle.lk_same.specs.Sames.{same_next};
ghost use Rattle.lk_engine.specs.Sheets.{IsKnownTerm, IsKnownTruth, IsKnownAny};
ghost use Rattle.lk_engine.specs.Rests.{next_of, Begins, Starts, Does, ResumesTerm, ResumesTruth, Resumes};

use crate::sheet::{AnySheet, TermSheet, TruthSheet};
use lk_ask::looks::Looks;
use lk_ask::next::Next;
use lk_ask::query::{Answer, Query};
use lk_ask::sheet::Sheet;
use lk_chain::{long_lets, long_spine, pushed_lets, pushed_spine};
use lk_core::core_form::{CoreNext, CoreStep};
use lk_iota::IotaNext;
use lk_proj::infer::InferNext;
use lk_proj::reduce::CoreNext as ReducedNext;
use lk_quot::{QuotNext, is_quotient};
use lk_same::SameNext;
use lk_store::memory::NoMemory;
use lk_tree::rule::Rule;
use lk_type::infer::{TypeNext, TypeStep};
use lk_type::opening::{begin_binders, long_telescope};

/// What any question does next.
pub type AnyNext = Next<u64, AnySheet>;

#[inline(always)]
fn of_core(next: CoreNext) -> AnyNext
    ensures { Wraps IsKnownCore core_next IsKnownAny next_of next result }
{
    match next {
        Next::Ask(asked, sheet) => Next::Ask(asked, Sheet::Term(TermSheet::Core(sheet))),
        Next::Done(answer) => Next::Done(answer),
        Next::No(rule) => Next::No(rule),
    }
}

#[inline(always)]
fn of_iota(next: IotaNext) -> AnyNext
    ensures { Wraps IsKnownIotaSheet iota_next IsKnownAny next_of next result }
{
    match next {
        Next::Ask(asked, sheet) => match sheet {
            Sheet::Term(kept) => Next::Ask(asked, Sheet::Term(TermSheet::Iota(kept))),
            Sheet::Truth(kept) => Next::Ask(asked, Sheet::Truth(TruthSheet::Iota(kept))),
        },
        Next::Done(answer) => Next::Done(answer),
        Next::No(rule) => Next::No(rule),
    }
}

#[inline(always)]
fn of_quotient(next: QuotNext) -> AnyNext
    ensures { Wraps IsKnownQuotSheet quot_next IsKnownAny next_of next result }
{
    match next {
        Next::Ask(asked, sheet) => Next::Ask(asked, Sheet::Term(TermSheet::Quotient(sheet))),
        Next::Done(answer) => Next::Done(answer),
        Next::No(rule) => Next::No(rule),
    }
}

#[inline(always)]
fn of_reduced(next: ReducedNext) -> AnyNext
    ensures { Wraps IsKnownReduced reduced_next IsKnownAny next_of next result }
{
    match next {
        Next::Ask(asked, sheet) => Next::Ask(asked, Sheet::Term(TermSheet::Reduced(sheet))),
        Next::Done(answer) => Next::Done(answer),
        Next::No(rule) => Next::No(rule),
    }
}

#[inline(always)]
fn of_type(next: TypeNext) -> AnyNext
    ensures { Wraps IsKnownTypeSheet type_next IsKnownAny next_of next result }
{
    match next {
        Next::Ask(asked, sheet) => match sheet {
            Sheet::Term(kept) => Next::Ask(asked, Sheet::Term(TermSheet::Type(kept))),
            Sheet::Truth(kept) => Next::Ask(asked, Sheet::Truth(TruthSheet::Type(kept))),
        },
        Next::Done(answer) => Next::Done(answer),
        Next::No(rule) => Next::No(rule),
    }
}

#[inline(always)]
fn of_projected(next: InferNext) -> AnyNext
    ensures { Wraps IsKnownInfer infer_next IsKnownAny next_of next result }
{
    match next {
        Next::Ask(asked, sheet) => Next::Ask(asked, Sheet::Term(TermSheet::Projected(sheet))),
        Next::Done(answer) => Next::Done(answer),
        Next::No(rule) => Next::No(rule),
    }
}

#[inline(always)]
fn of_same(next: SameNext) -> AnyNext
    ensures { Wraps IsKnownSameSheet same_next IsKnownAny next_of next result }
{
    match next {
        Next::Ask(asked, sheet) => match sheet {
            Sheet::Term(kept) => Next::Ask(asked, Sheet::Term(TermSheet::Same(kept))),
            Sheet::Truth(kept) => Next::Ask(asked, Sheet::Truth(TruthSheet::Same(kept))),
        },
        Next::Done(answer) => Next::Done(answer),
        Next::No(rule) => Next::No(rule),
    }
}

/// `Core` of an application whose head is a constant: what that means decides. A recursor and a
/// constant of quotient types may take a step.
fn constant_applied<L: Looks>(
    looks: &mut L,
    e: u64,
    name: u64,
    levels: u64,
) -> Result<AnyNext, NoMemory>
    requires e_in { e < length (L.contents looks.old).trees }
    requires name_in { name < length (L.contents looks.old).names }
    requires levels_in { levels < length (L.contents looks.old).lists }
    requires head_is { const (name_at (L.contents looks.old) name)
        (list_at (L.contents looks.old) levels) ≡ head_of (tree_at (L.contents looks.old) e) }
    ensures { let c = const (name_at (L.contents looks.old) name)
        (list_at (L.contents looks.old) levels) in
        Does L.contents L.rest L.sight looks.old looks.new result a_tree
        (λ t. core_applied (t e) c (args_of (t e))) }
{
    let entry = match looks.look(name, Rule::UnknownConstant) {
        Ok(entry) => entry,
        Err(rule) => return Ok(Next::No(rule)),
    };
    if is_quotient(entry) {
        return Ok(of_quotient(lk_quot::begin(looks, name, e)?));
    }
    Ok(of_iota(lk_iota::begin(looks, entry, levels, e)?))
}

/// The first step of `Core` of a term.
fn core<L: Looks>(looks: &mut L, e: u64) -> Result<AnyNext, NoMemory>
    requires { e < length (L.contents looks.old).trees }
    ensures { Does L.contents L.rest L.sight looks.old looks.new result a_tree
        (λ t. core_steps (t e)) }
{
    match lk_core::core_form::begin(looks, e)? {
        CoreStep::Goes(next) => Ok(of_core(next)),
        CoreStep::Constant { name, levels } => constant_applied(looks, e, name, levels),
        CoreStep::Projection { subject } => {
            Ok(of_reduced(lk_proj::reduce::begin(looks, e, subject)))
        }
    }
}

/// The first step of `Infer` of a term.
#[inline(always)]
fn infer<L: Looks>(looks: &mut L, e: u64) -> Result<AnyNext, NoMemory>
    requires { e < length (L.contents looks.old).trees }
    ensures { Does L.contents L.rest L.sight looks.old looks.new result a_tree
        (λ t. infer_steps (t e)) }
{
    match lk_type::infer::begin(looks, e)? {
        TypeStep::Goes(next) => Ok(of_type(next)),
        TypeStep::Projection { subject } => {
            Ok(of_projected(lk_proj::infer::begin(looks, e, subject)))
        }
    }
}

/// The first step of a question.
pub fn begin<L: Looks>(looks: &mut L, query: Query<u64>) -> Result<AnyNext, NoMemory>
    requires query_in { IsKnownQuery (length (L.contents looks.old).trees) query }
    ensures { Begins L.contents L.rest L.sight looks.old looks.new result query }
{
    match query {
        Query::Core(e) => core(looks, e),
        Query::Whnf(e) => Ok(of_core(lk_core::whnf::begin(e))),
        Query::Infer(e) => infer(looks, e),
        Query::Same(a, b) => Ok(of_same(lk_same::begin(looks, a, b)?)),
    }
}

/// The first step of `Infer` of lets one inside the other, whose values are put at once.
#[inline(never)]
fn infer_lets<L: Looks>(looks: &mut L, e: u64) -> Result<AnyNext, NoMemory>
    requires e_in { e < length (L.contents looks.old).trees }
    requires closed { loose (tree_at (L.contents looks.old) e) ≡ 0 }
    ensures { Starts L.contents L.rest L.sight looks.old looks.new result (Infer e) }
{
    let pushed = pushed_lets(looks, e)?;
    infer(looks, pushed)
}

/// The first step of `Infer` of a term applied to many arguments, which are put at once where the
/// type of what they are given to is at hand.
#[inline(never)]
fn infer_spine<L: Looks>(looks: &mut L, e: u64) -> Result<AnyNext, NoMemory>
    requires e_in { e < length (L.contents looks.old).trees }
    requires closed { loose (tree_at (L.contents looks.old) e) ≡ 0 }
    ensures { Starts L.contents L.rest L.sight looks.old looks.new result (Infer e) }
{
    if let Some(spine) = pushed_spine(looks, e)? {
        return infer(looks, spine);
    }
    infer(looks, e)
}

/// The first step of a question, or of all binders of a telescope at once, or of lets one inside
/// the other, or, where it is asked for deep inside applications, of many arguments, which run as
/// that does.
#[inline(always)]
pub fn start<L: Looks>(looks: &mut L, query: Query<u64>, deep: bool) -> Result<AnyNext, NoMemory>
    requires query_in { IsKnownQuery (length (L.contents looks.old).trees) query }
    ensures { Starts L.contents L.rest L.sight looks.old looks.new result query }
{
    if let Query::Infer(e) = query {
        if let Some((binders, domain, body)) = long_telescope(looks, e) {
            return Ok(of_type(begin_binders(looks, binders, e, domain, body)?));
        }
        if long_lets(looks, e) {
            return infer_lets(looks, e);
        }
        if deep && long_spine(looks, e) {
            return infer_spine(looks, e);
        }
    }
    begin(looks, query)
}

/// Goes on once the term is there that a sheet waits for.
#[inline(always)]
fn resume_term<L: Looks>(looks: &mut L, sheet: TermSheet<u64>, e: u64) -> Result<AnyNext, NoMemory>
    requires sheet_in { IsKnownTerm (length (L.contents looks.old).trees) sheet }
    requires e_in { e < length (L.contents looks.old).trees }
    ensures { ResumesTerm L.contents L.rest L.sight looks.old looks.new result sheet e }
{
    match sheet {
        TermSheet::Core(kept) => Ok(of_core(lk_core::whnf::resume(looks, kept, e)?)),
        TermSheet::Iota(kept) => Ok(of_iota(lk_iota::resume_term(looks, kept, e)?)),
        TermSheet::Quotient(kept) => Ok(of_quotient(lk_quot::resume_term(looks, kept, e)?)),
        TermSheet::Reduced(kept) => Ok(of_reduced(lk_proj::reduce::resume_term(looks, kept, e)?)),
        TermSheet::Type(kept) => Ok(of_type(lk_type::infer::resume_term(looks, kept, e)?)),
        TermSheet::Projected(kept) => {
            Ok(of_projected(lk_proj::infer::resume_term(looks, kept, e)?))
        }
        TermSheet::Same(kept) => Ok(of_same(lk_same::resume_term(looks, kept, e)?)),
    }
}

/// Goes on once yes or no is there, for which a sheet waits.
#[inline(always)]
fn resume_truth<L: Looks>(
    looks: &mut L,
    sheet: TruthSheet<u64>,
    yes: bool,
) -> Result<AnyNext, NoMemory>
    requires sheet_in { IsKnownTruth (length (L.contents looks.old).trees) sheet }
    ensures { ResumesTruth L.contents L.rest L.sight looks.old looks.new result sheet yes }
{
    match sheet {
        TruthSheet::Iota(kept) => Ok(of_iota(lk_iota::resume_truth(looks, kept, yes)?)),
        TruthSheet::Type(kept) => Ok(of_type(lk_type::infer::resume_truth(looks, kept, yes)?)),
        TruthSheet::Same(kept) => Ok(of_same(lk_same::resume_truth(looks, kept, yes)?)),
    }
}

/// Goes on once the answer is there that a sheet waits for. One of the other kind never comes.
#[inline(always)]
pub fn resume<L: Looks>(
    looks: &mut L,
    sheet: AnySheet,
    answer: Answer<u64>,
) -> Result<AnyNext, NoMemory>
    requires sheet_in { IsKnownAny (length (L.contents looks.old).trees) sheet }
    requires answer_in { IsKnownAnswer (length (L.contents looks.old).trees) answer }
    ensures { Resumes L.contents L.rest L.sight looks.old looks.new result sheet
        (λ t. value_at t answer) }
{
    match sheet {
        Sheet::Term(kept) => match answer {
            Answer::Term(e) => resume_term(looks, kept, e),
            Answer::Truth(_) => Ok(Next::No(Rule::LooseVariable)),
        },
        Sheet::Truth(kept) => match answer {
            Answer::Truth(yes) => resume_truth(looks, kept, yes),
            Answer::Term(_) => Ok(Next::No(Rule::LooseVariable)),
        },
    }
}
