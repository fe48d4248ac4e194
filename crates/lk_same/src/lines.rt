//! The tests of two terms that `Core` leaves as they are, one behind the other: each answers, or
//! leaves the two to those behind it. As proofs they were compared before.

ghost use Rattle.std.specs.Prelude.{◌≡◌, ◌<◌, ℕ, Option, length};
ghost use Rattle.lk_tree.specs.Tree.{Tree};
ghost use Rattle.lk_rulebook.specs.Place.{Place};
ghost use Rattle.lk_store.specs.Contents.{tree_at};
ghost use Rattle.lk_ask.specs.Nexts.{IsKnownNext};
ghost use Rattle.lk_ask.specs.Gives.{Wraps};
ghost use Rattle.lk_ask.specs.Lines.{IsKnownLine};
ghost use Rattle.lk_eta.specs.Etas.{eta_line};
ghost use Rattle.lk_eta.specs.Sheets.{IsKnownEtaSheet};
ghost use Rattle.lk_lazy.specs.Lazies.{lazy_next};
ghost use Rattle.lk_lazy.specs.Sheets.{IsKnownLazy};
ghost use Rattle.lk_lit.specs.Answers.{IsKnownAnswer, texts_line};
ghost use Rattle.lk_lit.specs.Literals.{literals_line};
ghost use Rattle.lk_lit.specs.Sheets.{IsKnownLiteralsSheet};
ghost use Rattle.lk_same.specs.Sames.{then_texts, then_eta, then_parts, then_unfolding};
ghost use Rattle.lk_same.specs.Sames.{then_literals, no_other, same_next};
ghost use Rattle.lk_same.specs.Sames.{Compares, Continues};
ghost use Rattle.lk_same.specs.Sheets.{IsKnownSameSheet};

use crate::parts::parts;
use crate::same::SameNext;
use crate::sheet::{SameTermSheet, SameTruthSheet};
use lk_ask::looks::Looks;
use lk_ask::next::{Line, Next};
use lk_ask::query::Answer;
use lk_ask::sheet::Sheet;
use lk_eta::EtaLine;
use lk_lazy::LazyNext;
use lk_lit::literals::LiteralsLine;
use lk_lit::texts::TextsLine;
use lk_store::memory::NoMemory;

/// What `Same` does next where texts do it: that they are no texts to be compared is a no.
fn of_texts(line: TextsLine) -> SameNext
    ensures known { (n : ℕ) → IsKnownLine IsKnownAnswer n line
        → IsKnownNext IsKnownSameSheet n result }
    ensures steps { (w : Place) (t : ℕ → Tree) (last : Option ℕ)
        → same_next w t last result ≡ texts_line no_other w t last line }
{
    match line {
        Line::Goes(next) => match next {
            Next::Ask(asked, _) => Next::Ask(asked, Sheet::Truth(SameTruthSheet::Passed)),
            Next::Done(answer) => Next::Done(answer),
            Next::No(rule) => Next::No(rule),
        },
        Line::Behind { .. } => Next::Done(Answer::Truth(false)),
    }
}

/// Two terms by texts, the last test.
fn texts<L: Looks>(looks: &mut L, a: u64, b: u64) -> Result<SameNext, NoMemory>
    requires a_in { a < length (L.contents looks.old).trees }
    requires b_in { b < length (L.contents looks.old).trees }
    ensures { Compares L.contents L.rest L.sight looks.old looks.new result
        (λ t. then_texts (t a) (t b)) }
{
    let line = lk_lit::texts::begin(looks, a, b)?;
    Ok(of_texts(line))
}

/// What `Same` does next where eta does it, and texts behind it.
pub(crate) fn of_eta<L: Looks>(looks: &mut L, line: EtaLine) -> Result<SameNext, NoMemory>
    requires { IsKnownLine IsKnownEtaSheet (length (L.contents looks.old).trees) line }
    ensures { Continues L.contents L.rest L.sight looks.old looks.new result
        (λ w t last. eta_line then_texts w t last line) }
{
    match line {
        Line::Goes(next) => match next {
            Next::Ask(asked, sheet) => match sheet {
                Sheet::Term(kept) => Ok(Next::Ask(asked, Sheet::Term(SameTermSheet::Eta(kept)))),
                Sheet::Truth(kept) => {
                    Ok(Next::Ask(asked, Sheet::Truth(SameTruthSheet::Eta(kept))))
                }
            },
            Next::Done(answer) => Ok(Next::Done(answer)),
            Next::No(rule) => Ok(Next::No(rule)),
        },
        Line::Behind { left, right } => texts(looks, left, right),
    }
}

/// Two terms by eta, and by texts behind it.
pub(crate) fn eta<L: Looks>(looks: &mut L, a: u64, b: u64) -> Result<SameNext, NoMemory>
    requires a_in { a < length (L.contents looks.old).trees }
    requires b_in { b < length (L.contents looks.old).trees }
    ensures { Compares L.contents L.rest L.sight looks.old looks.new result
        (λ t. then_eta (t a) (t b)) }
{
    let line = lk_eta::begin(looks, a, b)?;
    of_eta(looks, line)
}

/// Two terms part by part, and by the tests behind that.
fn parted<L: Looks>(looks: &mut L, a: u64, b: u64) -> Result<SameNext, NoMemory>
    requires a_in { a < length (L.contents looks.old).trees }
    requires b_in { b < length (L.contents looks.old).trees }
    ensures { Compares L.contents L.rest L.sight looks.old looks.new result
        (λ t. then_parts (t a) (t b)) }
{
    match parts(looks, a, b)? {
        Some(next) => Ok(next),
        None => eta(looks, a, b),
    }
}

/// What `Same` does next where unfolding does it.
pub(crate) fn of_lazy(next: LazyNext) -> SameNext
    ensures { Wraps IsKnownLazy lazy_next IsKnownSameSheet same_next next result }
{
    match next {
        Next::Ask(asked, sheet) => Next::Ask(asked, Sheet::Truth(SameTruthSheet::Lazy(sheet))),
        Next::Done(answer) => Next::Done(answer),
        Next::No(rule) => Next::No(rule),
    }
}

/// Two terms by unfolding, and by the tests behind that.
fn unfolded<L: Looks>(looks: &mut L, a: u64, b: u64) -> Result<SameNext, NoMemory>
    requires a_in { a < length (L.contents looks.old).trees }
    requires b_in { b < length (L.contents looks.old).trees }
    ensures { Compares L.contents L.rest L.sight looks.old looks.new result
        (λ t. then_unfolding (t a) (t b)) }
{
    match lk_lazy::begin(looks, a, b)? {
        Some(next) => Ok(of_lazy(next)),
        None => parted(looks, a, b),
    }
}

/// What `Same` does next where literals do it, and unfolding behind them.
pub(crate) fn of_literals<L: Looks>(looks: &mut L, line: LiteralsLine) -> Result<SameNext, NoMemory>
    requires { IsKnownLine IsKnownLiteralsSheet (length (L.contents looks.old).trees) line }
    ensures { Continues L.contents L.rest L.sight looks.old looks.new result
        (λ w t last. literals_line then_unfolding w t last line) }
{
    match line {
        Line::Goes(next) => match next {
            Next::Ask(asked, sheet) => match sheet {
                Sheet::Term(kept) => {
                    Ok(Next::Ask(asked, Sheet::Term(SameTermSheet::Literals(kept))))
                }
                Sheet::Truth(_) => Ok(Next::Ask(asked, Sheet::Truth(SameTruthSheet::Passed))),
            },
            Next::Done(answer) => Ok(Next::Done(answer)),
            Next::No(rule) => Ok(Next::No(rule)),
        },
        Line::Behind { left, right } => unfolded(looks, left, right),
    }
}

/// Two terms by literals, and by the tests behind them.
pub(crate) fn literals<L: Looks>(looks: &mut L, a: u64, b: u64) -> Result<SameNext, NoMemory>
    requires a_in { a < length (L.contents looks.old).trees }
    requires b_in { b < length (L.contents looks.old).trees }
    ensures { Compares L.contents L.rest L.sight looks.old looks.new result
        (λ t. then_literals (t a) (t b)) }
{
    let line = lk_lit::literals::begin(looks, a, b)?;
    of_literals(looks, line)
}
