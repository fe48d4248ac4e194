//! Function eta: a lambda, and another term as one.

ghost use Rattle.std.specs.Prelude.{◌≡◌, ◌<◌, length};
ghost use Rattle.lk_questions.specs.Pairs.{◌or_else◌};
ghost use Rattle.lk_questions.specs.Same.{eta_long, is_lam, eta_first, eta_second};
ghost use Rattle.lk_store.specs.Contents.{tree_at};
ghost use Rattle.lk_ask.specs.Looks.{MakesTree};
ghost use Rattle.lk_eta.specs.Etas.{then_structure, then_function, Expands, ResumesTerm, ResumesTruth};
ghost use Rattle.lk_eta.specs.Sheets.{IsKnownFunction};

use crate::eta::EtaLine;
use crate::sheet::{EtaTermSheet, EtaTruthSheet, FunctionSheet};
use crate::ways;
use lk_ask::looks::Looks;
use lk_ask::next::{Line, Next};
use lk_ask::query::{Answer, Query};
use lk_ask::sheet::Sheet;
use lk_store::memory::NoMemory;
use lk_store::node::Node;
use lk_store::terms::Terms;

fn is_lambda<T: Terms>(terms: &T, e: u64) -> bool
    requires { e < length (T.contents terms.now).trees }
    ensures { result ≡ is_lam (tree_at (T.contents terms.now) e) }
{
    match terms.view(e) {
        Node::Lam(_, _) => true,
        _ => false,
    }
}

/// A term as a lambda over this domain.
pub fn long<T: Terms>(terms: &mut T, domain: u64, e: u64) -> Result<u64, NoMemory>
    requires domain_in { domain < length (T.contents terms.old).trees }
    requires e_in { e < length (T.contents terms.old).trees }
    ensures { MakesTree T.contents T.rest terms.old terms.new result
        (λ t. eta_long (t domain) (t e)) }
{
    let variable = terms.make(Node::Var(0))?;
    let body = terms.make(Node::App(e, variable))?;
    terms.make(Node::Lam(domain, body))
}

/// Two terms by function eta (`try_eta_expansion`), where exactly one of them is a lambda.
pub(crate) fn begin<L: Looks>(looks: &mut L, a: u64, b: u64) -> Result<EtaLine, NoMemory>
    requires a_in { a < length (L.contents looks.old).trees }
    requires b_in { b < length (L.contents looks.old).trees }
    ensures { Expands L.contents L.rest L.sight looks.old looks.new result
        (λ p t. then_function p (t a) (t b)) }
{
    if is_lambda(looks, a) {
        if is_lambda(looks, b) {
            return ways::begin(looks, a, b);
        }
        return Ok(Line::Goes(Next::Ask(
            Query::Infer(b),
            Sheet::Term(EtaTermSheet::Function(FunctionSheet::Second { left: a, right: b })),
        )));
    }
    if is_lambda(looks, b) {
        return Ok(Line::Goes(Next::Ask(
            Query::Infer(a),
            Sheet::Term(EtaTermSheet::Function(FunctionSheet::First { left: a, right: b })),
        )));
    }
    ways::begin(looks, a, b)
}

/// Goes on with the weak head form of the left one's type.
fn by_first<L: Looks>(looks: &mut L, a: u64, b: u64, form: u64) -> Result<EtaLine, NoMemory>
    requires a_in { a < length (L.contents looks.old).trees }
    requires b_in { b < length (L.contents looks.old).trees }
    requires form_in { form < length (L.contents looks.old).trees }
    ensures { Expands L.contents L.rest L.sight looks.old looks.new result
        (λ p t. eta_first (t a) (t b) (t form) or_else then_structure p (t a) (t b)) }
{
    match looks.view(form) {
        Node::Pi(domain, _) => {
            let e = long(looks, domain, a)?;
            Ok(Line::Goes(Next::Ask(
                Query::Same(e, b),
                Sheet::Truth(EtaTruthSheet::Long { left: a, right: b }),
            )))
        }
        _ => ways::begin(looks, a, b),
    }
}

/// Goes on with the weak head form of the right one's type.
fn by_second<L: Looks>(looks: &mut L, a: u64, b: u64, form: u64) -> Result<EtaLine, NoMemory>
    requires a_in { a < length (L.contents looks.old).trees }
    requires b_in { b < length (L.contents looks.old).trees }
    requires form_in { form < length (L.contents looks.old).trees }
    ensures { Expands L.contents L.rest L.sight looks.old looks.new result
        (λ p t. eta_second (t b) (t a) (t form) or_else then_structure p (t a) (t b)) }
{
    match looks.view(form) {
        Node::Pi(domain, _) => {
            let e = long(looks, domain, b)?;
            Ok(Line::Goes(Next::Ask(
                Query::Same(a, e),
                Sheet::Truth(EtaTruthSheet::Long { left: a, right: b }),
            )))
        }
        _ => ways::begin(looks, a, b),
    }
}

/// Goes on once the term is there that a sheet waits for.
pub(crate) fn resume_term<L: Looks>(
    looks: &mut L,
    sheet: FunctionSheet<u64>,
    e: u64,
) -> Result<EtaLine, NoMemory>
    requires sheet_in { IsKnownFunction (length (L.contents looks.old).trees) sheet }
    requires e_in { e < length (L.contents looks.old).trees }
    ensures { ResumesTerm L.contents L.rest L.sight looks.old looks.new result
        (EtaTermSheet.Function sheet) e }
{
    match sheet {
        FunctionSheet::First { left, right } => Ok(Line::Goes(Next::Ask(
            Query::Whnf(e),
            Sheet::Term(EtaTermSheet::Function(FunctionSheet::FirstForm { left, right })),
        ))),
        FunctionSheet::FirstForm { left, right } => by_first(looks, left, right, e),
        FunctionSheet::Second { left, right } => Ok(Line::Goes(Next::Ask(
            Query::Whnf(e),
            Sheet::Term(EtaTermSheet::Function(FunctionSheet::SecondForm { left, right })),
        ))),
        FunctionSheet::SecondForm { left, right } => by_second(looks, left, right, e),
    }
}

/// Goes on once the two were compared, the other one as a lambda.
pub(crate) fn after_long<L: Looks>(
    looks: &mut L,
    left: u64,
    right: u64,
    equal: bool,
) -> Result<EtaLine, NoMemory>
    requires left_in { left < length (L.contents looks.old).trees }
    requires right_in { right < length (L.contents looks.old).trees }
    ensures { ResumesTruth L.contents L.rest L.sight looks.old looks.new result
        (EtaTruthSheet.Long left right) equal }
{
    if equal {
        Ok(Line::Goes(Next::Done(Answer::Truth(true))))
    } else {
        ways::begin(looks, left, right)
    }
}
