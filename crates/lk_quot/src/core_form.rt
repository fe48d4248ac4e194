//! `Core` of an application whose head is a constant that a quotient unit gives: its first step,
//! and how it goes on.

ghost use Rattle.std.specs.Prelude.{◌≡◌, ◌<◌, List, Some, length};
ghost use Rattle.lk_tree.specs.Tree.{Level, const};
ghost use Rattle.lk_tree.specs.Spine.{head as head_of, args as args_of};
ghost use Rattle.lk_rulebook.specs.Names.{quot_mk};
ghost use Rattle.lk_questions.specs.Quotients.{at_mk, core_quot};
ghost use Rattle.lk_store.specs.Contents.{name_at, tree_at};
ghost use Rattle.lk_quot.specs.Sheets.{IsKnownQuotSheet};
ghost use Rattle.lk_quot.specs.Redexes.{redex_in as plain_in, form_rest, at_element as plain_at};
ghost use Rattle.lk_quot.specs.Redexes.{looked_mk, plain_redex, IsKnownRedex};
ghost use Rattle.lk_quot.specs.Cores.{Reduces, ResumesTerm};

use crate::entries::is_quotient;
use crate::names::is_dotted;
use crate::redex::{Redex, redex_by, redex_in};
use crate::sheet::QuotSheet;
use lk_ask::looks::Looks;
use lk_ask::next::Next;
use lk_ask::query::{Answer, Query};
use lk_spine::{apply, args, head};
use lk_store::memory::NoMemory;
use lk_store::node::Node;
use lk_tree::rule::Rule;

/// What `Core` of a constant of quotient types does next.
pub type QuotNext = Next<u64, QuotSheet<u64>>;

/// The first step of `Core` of an application whose head is a constant of this name, which a
/// quotient unit gives. It is done where that is no `Quot.lift` or `Quot.ind` with a major premise.
pub fn begin<L: Looks>(looks: &mut L, name: u64, e: u64) -> Result<QuotNext, NoMemory>
    requires name_in { name < length (L.contents looks.old).names }
    requires e_in { e < length (L.contents looks.old).trees }
    ensures { let c = name_at (L.contents looks.old) name in (ls : List Level)
        → head_of (tree_at (L.contents looks.old) e) ≡ const c ls
        → Reduces L.contents L.rest L.sight looks.old looks.new result
        (λ t. core_quot (t e) c (args_of (t e))) }
{
    match redex_by(looks, name, e)? {
        Some(redex) => Ok(Next::Ask(
            Query::Whnf(redex.major),
            QuotSheet::Major { application: e },
        )),
        None => Ok(Next::Done(Answer::Term(e))),
    }
}

/// The function applied to the element of the major premise, and to what came behind that.
fn at_element<L: Looks>(looks: &mut L, redex: &Redex, element: u64) -> Result<QuotNext, NoMemory>
    requires redex_in { IsKnownRedex (length (L.contents looks.old).trees) redex.now }
    requires element_in { element < length (L.contents looks.old).trees }
    ensures { Reduces L.contents L.rest L.sight looks.old looks.new result
        (λ t. plain_at (plain_redex t redex.now) (t element)) }
{
    let front = looks.make(Node::App(redex.function, element))?;
    let (_, others) = redex.arguments.split_at(redex.before + 1);
    let next = apply(looks, front, others)?;
    Ok(Next::Ask(Query::Core(next), QuotSheet::Passed))
}

/// The same of a major premise that is `Quot.mk` with three arguments, the last of them its
/// element: that name is looked up first, and a step is taken where a quotient unit gives it.
fn at_constructor<L: Looks>(
    looks: &mut L,
    redex: &Redex,
    e: u64,
    name: u64,
    element: u64,
) -> Result<QuotNext, NoMemory>
    requires redex_in { IsKnownRedex (length (L.contents looks.old).trees) redex.now }
    requires e_in { e < length (L.contents looks.old).trees }
    requires name_in { name < length (L.contents looks.old).names }
    requires name_is { name_at (L.contents looks.old) name ≡ quot_mk }
    requires element_in { element < length (L.contents looks.old).trees }
    ensures { Reduces L.contents L.rest L.sight looks.old looks.new result
        (λ t. looked_mk (t e) (plain_redex t redex.now) (t element)) }
{
    let entry = match looks.look(name, Rule::UnknownConstant) {
        Ok(entry) => entry,
        Err(rule) => return Ok(Next::No(rule)),
    };
    if is_quotient(entry) {
        at_element(looks, redex, element)
    } else {
        Ok(Next::Done(Answer::Term(e)))
    }
}

/// Goes on with a major premise whose head is a constant of this name.
fn by_name<L: Looks>(
    looks: &mut L,
    redex: &Redex,
    e: u64,
    name: u64,
    m: u64,
) -> Result<QuotNext, NoMemory>
    requires redex_in { IsKnownRedex (length (L.contents looks.old).trees) redex.now }
    requires e_in { e < length (L.contents looks.old).trees }
    requires name_in { name < length (L.contents looks.old).names }
    requires m_in { m < length (L.contents looks.old).trees }
    ensures { let c = name_at (L.contents looks.old) name in (ks : List Level)
        → Reduces L.contents L.rest L.sight looks.old looks.new result
        (λ t. let p = plain_redex t redex.now in
        at_mk (t e) p.function p.rest (const c ks) (args_of (t m))) }
{
    if !is_dotted(looks, name, b"Quot", b"mk") {
        return Ok(Next::Done(Answer::Term(e)));
    }
    let arguments = args(looks.alloc(), looks, m)?;
    if arguments.len() != 3 {
        return Ok(Next::Done(Answer::Term(e)));
    }
    at_constructor(looks, redex, e, name, arguments[2])
}

/// Goes on with the weak head form of the major premise.
fn by_form<L: Looks>(looks: &mut L, redex: &Redex, e: u64, m: u64) -> Result<QuotNext, NoMemory>
    requires redex_in { IsKnownRedex (length (L.contents looks.old).trees) redex.now }
    requires e_in { e < length (L.contents looks.old).trees }
    requires m_in { m < length (L.contents looks.old).trees }
    ensures { Reduces L.contents L.rest L.sight looks.old looks.new result
        (λ t. form_rest (t e) (Some (plain_redex t redex.now)) (t m)) }
{
    let front = head(looks, m);
    match looks.view(front) {
        Node::Const(name, _) => by_name(looks, redex, e, name, m),
        _ => Ok(Next::Done(Answer::Term(e))),
    }
}

/// Goes on with the weak head form of the major premise of this application.
fn resume_form<L: Looks>(looks: &mut L, e: u64, m: u64) -> Result<QuotNext, NoMemory>
    requires e_in { e < length (L.contents looks.old).trees }
    requires m_in { m < length (L.contents looks.old).trees }
    ensures { Reduces L.contents L.rest L.sight looks.old looks.new result
        (λ t. form_rest (t e) (plain_in (t e)) (t m)) }
{
    match redex_in(looks, e)? {
        Some(redex) => by_form(looks, &redex, e, m),
        None => Ok(Next::Done(Answer::Term(e))),
    }
}

/// Goes on once the term is there that a sheet waits for.
pub fn resume_term<L: Looks>(
    looks: &mut L,
    sheet: QuotSheet<u64>,
    e: u64,
) -> Result<QuotNext, NoMemory>
    requires sheet_in { IsKnownQuotSheet (length (L.contents looks.old).trees) sheet }
    requires e_in { e < length (L.contents looks.old).trees }
    ensures { ResumesTerm L.contents L.rest L.sight looks.old looks.new result sheet e }
{
    match sheet {
        QuotSheet::Passed => Ok(Next::Done(Answer::Term(e))),
        QuotSheet::Major { application } => resume_form(looks, application, e),
    }
}
