//! `Infer`: its first step, and how it goes on.

ghost use Rattle.std.specs.Prelude.{◌<◌, length};
ghost use Rattle.lk_type.specs.Sheets.{IsKnownTypeTerm, IsKnownTypeTruth};
ghost use Rattle.lk_type.specs.Types.{Begins, ResumesTerm, ResumesTruth};

use crate::application::{application_end, function_form};
use crate::binders::{lam_domain_sort, lam_end, pi_domain_sort};
use crate::constant::constant_type;
use crate::lets::{let_body, let_type_sort};
use crate::literals::{number_type, text_type};
use crate::sheet::{TypeTermSheet, TypeTruthSheet};
use crate::sorts::{next_sort, pi_body_sort};
use crate::telescope::{domain_sort, pi_inside_sort, telescope_end};
use lk_ask::looks::Looks;
use lk_ask::next::Next;
use lk_ask::query::{Answer, Query};
use lk_ask::sheet::Sheet;
use lk_store::memory::NoMemory;
use lk_store::node::Node;
use lk_tree::rule::Rule;

/// What `Infer` does next.
pub type TypeNext = Next<u64, Sheet<TypeTermSheet<u64>, TypeTruthSheet<u64>>>;

/// The first step of `Infer`.
pub enum TypeStep {
    /// What comes next.
    Goes(TypeNext),
    /// It is a projection of this subject.
    Projection { subject: u64 },
}

/// The first step of `Infer` of a term. A projection has steps of its own.
pub fn begin<L: Looks>(looks: &mut L, e: u64) -> Result<TypeStep, NoMemory>
    requires e_in { e < length (L.contents looks.old).trees }
    ensures { Begins L.contents L.rest L.sight looks.old looks.new result e }
{
    match looks.view(e) {
        Node::Var(_) => Ok(TypeStep::Goes(Next::No(Rule::LooseVariable))),
        Node::Sort(level) => Ok(TypeStep::Goes(next_sort(looks, level)?)),
        Node::Local(_, ty) => Ok(TypeStep::Goes(Next::Done(Answer::Term(ty)))),
        Node::Const(name, levels) => Ok(TypeStep::Goes(constant_type(looks, name, levels)?)),
        Node::App(function, argument) => Ok(TypeStep::Goes(Next::Ask(
            Query::Infer(function),
            Sheet::Term(TypeTermSheet::Function { argument }),
        ))),
        Node::Lam(domain, body) => Ok(TypeStep::Goes(Next::Ask(
            Query::Infer(domain),
            Sheet::Term(TypeTermSheet::LamDomain { domain, body }),
        ))),
        Node::Pi(domain, body) => Ok(TypeStep::Goes(Next::Ask(
            Query::Infer(domain),
            Sheet::Term(TypeTermSheet::PiDomain { domain, body }),
        ))),
        Node::Let(ty, value, body) => Ok(TypeStep::Goes(Next::Ask(
            Query::Infer(ty),
            Sheet::Term(TypeTermSheet::LetType { ty, value, body }),
        ))),
        Node::Proj(_, _, subject) => Ok(TypeStep::Projection { subject }),
        Node::Lit(_) => Ok(TypeStep::Goes(number_type(looks)?)),
        Node::Str(_) => Ok(TypeStep::Goes(text_type(looks)?)),
        Node::Wide => Ok(TypeStep::Goes(Next::No(Rule::WideLiteral))),
    }
}

/// Goes on with `Infer` once the term is there that its sheet waits for.
pub fn resume_term<L: Looks>(
    looks: &mut L,
    sheet: TypeTermSheet<u64>,
    e: u64,
) -> Result<TypeNext, NoMemory>
    requires sheet_in { IsKnownTypeTerm (length (L.contents looks.old).trees) sheet }
    requires e_in { e < length (L.contents looks.old).trees }
    ensures { ResumesTerm L.contents L.rest L.sight looks.old looks.new result sheet e }
{
    match sheet {
        TypeTermSheet::Passed => Ok(Next::Done(Answer::Term(e))),
        TypeTermSheet::LamDomain { domain, body } => Ok(Next::Ask(
            Query::Whnf(e),
            Sheet::Term(TypeTermSheet::LamDomainSort { domain, body }),
        )),
        TypeTermSheet::LamDomainSort { domain, body } => lam_domain_sort(looks, domain, body, e),
        TypeTermSheet::LamBody { domain, number } => lam_end(looks, domain, number, e),
        TypeTermSheet::PiDomain { domain, body } => Ok(Next::Ask(
            Query::Whnf(e),
            Sheet::Term(TypeTermSheet::PiDomainSort { domain, body }),
        )),
        TypeTermSheet::PiDomainSort { domain, body } => pi_domain_sort(looks, domain, body, e),
        TypeTermSheet::PiBody { sort } => Ok(Next::Ask(
            Query::Whnf(e),
            Sheet::Term(TypeTermSheet::PiBodySort { sort }),
        )),
        TypeTermSheet::PiBodySort { sort } => pi_body_sort(looks, sort, e),
        TypeTermSheet::TelescopeLocal { telescope } => Ok(Next::Ask(
            Query::Infer(e),
            Sheet::Term(TypeTermSheet::TelescopeDomain { telescope }),
        )),
        TypeTermSheet::TelescopeDomain { telescope } => Ok(Next::Ask(
            Query::Whnf(e),
            Sheet::Term(TypeTermSheet::TelescopeSort { telescope }),
        )),
        TypeTermSheet::TelescopeSort { telescope } => domain_sort(looks, telescope, e),
        TypeTermSheet::TelescopeBody { binders, gathered } => {
            telescope_end(looks, binders, gathered, e)
        }
        TypeTermSheet::PisSort { sorts, sort } => pi_inside_sort(looks, sorts, sort, e),
        TypeTermSheet::Function { argument } => Ok(Next::Ask(
            Query::Whnf(e),
            Sheet::Term(TypeTermSheet::FunctionForm { argument }),
        )),
        TypeTermSheet::FunctionForm { argument } => Ok(function_form(looks, argument, e)),
        TypeTermSheet::Argument {
            domain,
            body,
            argument,
        } => Ok(Next::Ask(
            Query::Same(e, domain),
            Sheet::Truth(TypeTruthSheet::ArgumentSame { body, argument }),
        )),
        TypeTermSheet::LetType { ty, value, body } => Ok(Next::Ask(
            Query::Whnf(e),
            Sheet::Term(TypeTermSheet::LetTypeSort { ty, value, body }),
        )),
        TypeTermSheet::LetTypeSort { ty, value, body } => {
            Ok(let_type_sort(looks, ty, value, body, e))
        }
        TypeTermSheet::LetValue { ty, value, body } => Ok(Next::Ask(
            Query::Same(e, ty),
            Sheet::Truth(TypeTruthSheet::LetValueSame { value, body }),
        )),
    }
}

/// Goes on with `Infer` once yes or no is there, which its sheet waits for.
pub fn resume_truth<L: Looks>(
    looks: &mut L,
    sheet: TypeTruthSheet<u64>,
    yes: bool,
) -> Result<TypeNext, NoMemory>
    requires sheet_in { IsKnownTypeTruth (length (L.contents looks.old).trees) sheet }
    ensures { ResumesTruth L.contents L.rest L.sight looks.old looks.new result sheet yes }
{
    match sheet {
        TypeTruthSheet::ArgumentSame { body, argument } => {
            application_end(looks, body, argument, yes)
        }
        TypeTruthSheet::LetValueSame { value, body } => let_body(looks, value, body, yes),
    }
}
