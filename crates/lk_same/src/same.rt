//! `Same`: its first step, and how it goes on.

ghost use Rattle.std.specs.Prelude.{◌<◌, true, Ok, length};
ghost use Rattle.lk_questions.specs.Same.{same_steps};
ghost use Rattle.lk_same.specs.Sames.{bodies_rest, cores_rest, Compares};
ghost use Rattle.lk_same.specs.Sames.{ResumesTerm, ResumesTruth};
ghost use Rattle.lk_same.specs.Sheets.{IsKnownSameTerm, IsKnownSameTruth};

use crate::irrelevance;
use crate::lines::{of_eta, of_lazy, of_literals};
use crate::parts::{after_pair, after_subjects};
use crate::shape::shape;
use crate::sheet::{SameTermSheet, SameTruthSheet};
use lk_ask::looks::Looks;
use lk_ask::next::Next;
use lk_ask::query::{Answer, Query};
use lk_ask::sheet::Sheet;
use lk_store::memory::NoMemory;
use lk_store::node::Node;
use lk_subst::opening::open_with;

/// What `Same` does next.
pub type SameNext = Next<u64, Sheet<SameTermSheet<u64>, SameTruthSheet<u64>>>;

/// The first step of `Same` of two terms.
pub fn begin<L: Looks>(looks: &mut L, a: u64, b: u64) -> Result<SameNext, NoMemory>
    requires a_in { a < length (L.contents looks.old).trees }
    requires b_in { b < length (L.contents looks.old).trees }
    ensures { Compares L.contents L.rest L.sight looks.old looks.new result
        (λ t. same_steps (t a) (t b)) }
{
    if looks.same(a, b) {
        return Ok(Next::Done(Answer::Truth(true)));
    }
    shape(looks, a, b)
}

/// Two bodies, opened with one Local of their first domain.
fn bodies<L: Looks>(
    looks: &mut L,
    domain: u64,
    left: u64,
    right: u64,
    number: u64,
) -> Result<SameNext, NoMemory>
    requires domain_in { domain < length (L.contents looks.old).trees }
    requires left_in { left < length (L.contents looks.old).trees }
    requires right_in { right < length (L.contents looks.old).trees }
    ensures { Compares L.contents L.rest L.sight looks.old looks.new result
        (λ t. bodies_rest number (t domain) (t left) (t right) true) }
{
    let fresh = looks.make(Node::Local(number, domain))?;
    let a = open_with(looks.alloc(), looks, left, fresh)?;
    let b = open_with(looks.alloc(), looks, right, fresh)?;
    Ok(Next::Ask(Query::Same(a, b), Sheet::Truth(SameTruthSheet::Passed)))
}

/// Goes on with two binders, once their domains were compared.
fn after_domains<L: Looks>(
    looks: &mut L,
    domain: u64,
    left: u64,
    right: u64,
    number: u64,
    equal: bool,
) -> Result<SameNext, NoMemory>
    requires domain_in { domain < length (L.contents looks.old).trees }
    requires left_in { left < length (L.contents looks.old).trees }
    requires right_in { right < length (L.contents looks.old).trees }
    ensures { Compares L.contents L.rest L.sight looks.old looks.new result
        (λ t. bodies_rest number (t domain) (t left) (t right) equal) }
{
    if equal {
        bodies(looks, domain, left, right, number)
    } else {
        Ok(Next::Done(Answer::Truth(false)))
    }
}

/// Goes on with two terms, once the `Core` of each is there: `form` and `e`.
fn after_cores<L: Looks>(looks: &L, left: u64, right: u64, form: u64, e: u64) -> SameNext
    requires left_in { left < length (L.contents looks.now).trees }
    requires right_in { right < length (L.contents looks.now).trees }
    requires form_in { form < length (L.contents looks.now).trees }
    requires e_in { e < length (L.contents looks.now).trees }
    ensures { Compares L.contents L.rest L.sight looks.now looks.now (Ok result)
        (λ t. cores_rest (t left) (t right) (t form) (t e)) }
{
    if looks.same(form, left) && looks.same(e, right) {
        return irrelevance::begin(left, right);
    }
    Next::Ask(Query::Same(form, e), Sheet::Truth(SameTruthSheet::Passed))
}

/// Goes on with `Same` once the term is there that its sheet waits for.
pub fn resume_term<L: Looks>(
    looks: &mut L,
    sheet: SameTermSheet<u64>,
    e: u64,
) -> Result<SameNext, NoMemory>
    requires sheet_in { IsKnownSameTerm (length (L.contents looks.old).trees) sheet }
    requires e_in { e < length (L.contents looks.old).trees }
    ensures { ResumesTerm L.contents L.rest L.sight looks.old looks.new result sheet e }
{
    match sheet {
        SameTermSheet::CoreLeft { left, right } => Ok(Next::Ask(
            Query::Core(right),
            Sheet::Term(SameTermSheet::CoreRight {
                left,
                right,
                form: e,
            }),
        )),
        SameTermSheet::CoreRight { left, right, form } => {
            Ok(after_cores(looks, left, right, form, e))
        }
        SameTermSheet::Proof(kept) => irrelevance::resume_term(looks, kept, e),
        SameTermSheet::Literals(kept) => {
            let line = lk_lit::literals::resume(looks, kept, e)?;
            of_literals(looks, line)
        }
        SameTermSheet::Eta(kept) => {
            let line = lk_eta::resume_term(looks, kept, e)?;
            of_eta(looks, line)
        }
    }
}

/// Goes on with `Same` once yes or no is there, which its sheet waits for.
pub fn resume_truth<L: Looks>(
    looks: &mut L,
    sheet: SameTruthSheet<u64>,
    yes: bool,
) -> Result<SameNext, NoMemory>
    requires sheet_in { IsKnownSameTruth (length (L.contents looks.old).trees) sheet }
    ensures { ResumesTruth L.contents L.rest L.sight looks.old looks.new result sheet yes }
{
    match sheet {
        SameTruthSheet::Passed => Ok(Next::Done(Answer::Truth(yes))),
        SameTruthSheet::Domains {
            domain,
            left,
            right,
            number,
        } => after_domains(looks, domain, left, right, number, yes),
        SameTruthSheet::Parts {
            left,
            right,
            others,
        } => after_pair(looks, left, right, others, yes),
        SameTruthSheet::Subjects { left, right } => after_subjects(looks, left, right, yes),
        SameTruthSheet::Types { left, right } => irrelevance::by_types(looks, left, right, yes),
        SameTruthSheet::Lazy(kept) => {
            let next = lk_lazy::resume(looks, kept, yes)?;
            Ok(of_lazy(next))
        }
        SameTruthSheet::Eta(kept) => {
            let line = lk_eta::resume_truth(looks, kept, yes)?;
            of_eta(looks, line)
        }
    }
}
