//! Two terms by literals: an operation that is computed on either side, then a number beside `Nat.zero` or `Nat.succ`.

ghost use Rattle.std.specs.Prelude.{◌≡◌, ◌<◌, ℕ, Ok, Option, length};
ghost use Rattle.lk_questions.specs.Erased.{truth, erased};
ghost use Rattle.lk_questions.specs.Pairs.{◌or_else◌, ◌or_line◌};
ghost use Rattle.lk_questions.specs.LiteralLines.{NatCtor as PlainCtor, nat_ctor as plain_ctor};
ghost use Rattle.lk_questions.specs.LiteralLines.{by_literals, step_of, step_second, same_numbers};
ghost use Rattle.lk_tree.specs.Tree.{Tree, const};
ghost use Rattle.lk_tree.specs.Spine.{head as head_of};
ghost use Rattle.lk_rulebook.specs.Place.{Place};
ghost use Rattle.lk_store.specs.Contents.{name_at, list_at, tree_at};
ghost use Rattle.lk_ask.specs.Lines.{Rest, IsKnownLine};
ghost use Rattle.lk_ask.specs.Nexts.{IsKnownNext};
ghost use Rattle.lk_lit.specs.Literals.{number_in, is_nat_succ, number_line, numbers_line};
ghost use Rattle.lk_lit.specs.Literals.{after, after_left, after_right, sheet_of, literals_line};
ghost use Rattle.lk_lit.specs.Literals.{asks_same, literals_rest, IsCtorIf, Compares, Continues};
ghost use Rattle.lk_lit.specs.Sheets.{map_literals, IsKnownLit, IsKnownLiterals};
ghost use Rattle.lk_lit.specs.Sheets.{IsKnownLiteralsSheet};
ghost use Rattle.lk_lit.specs.Steps.{IsKnownPart, lit_steps, GivesPart};

use crate::answer::AnswerSheet;
use crate::builtin::{Builtin, is_builtin};
use crate::constant::is_empty;
use crate::sheet::{LitSheet, LiteralsSheet};
use crate::step::{self, LitPart};
use lk_ask::looks::Looks;
use lk_ask::next::{Line, Next};
use lk_ask::query::{Answer, Query};
use lk_ask::sheet::Sheet;
use lk_spine::head;
use lk_store::memory::NoMemory;
use lk_store::node::Node;
use lk_store::terms::Terms;
use lk_tree::rule::Rule;

/// What two terms do next by literals.
pub type LiteralsLine = Line<u64, Sheet<LiteralsSheet<u64>, AnswerSheet>>;

/// `Nat.zero`, or `Nat.succ` of a term.
#[derive(Clone, Copy)]
pub(crate) enum NatCtor {
    Zero,
    Succ(u64),
}

/// The number that a term is.
fn number_of<T: Terms>(terms: &T, e: u64) -> Option<u128>
    requires { e < length (T.contents terms.now).trees }
    ensures { result ≡ number_in (tree_at (T.contents terms.now) e) }
{
    match terms.view(e) {
        Node::Lit(number) => Some(number),
        _ => None,
    }
}

/// Whether a term is the constructor `Nat.succ`.
fn is_successor<T: Terms>(terms: &T, e: u64) -> bool
    requires { e < length (T.contents terms.now).trees }
    ensures { result ≡ is_nat_succ (tree_at (T.contents terms.now) e) }
{
    match terms.view(e) {
        Node::Const(name, levels) => {
            is_builtin(terms, name, Builtin::NatSucc) && is_empty(terms, levels)
        }
        _ => false,
    }
}

/// What a term is of the constructors of `Nat`.
fn nat_ctor<T: Terms>(terms: &T, e: u64) -> Option<NatCtor>
    requires { e < length (T.contents terms.now).trees }
    ensures { IsCtorIf (T.contents terms.now) result
        (plain_ctor (tree_at (T.contents terms.now) e)) }
{
    match terms.view(e) {
        Node::Const(name, levels) => {
            if is_builtin(terms, name, Builtin::NatZero) && is_empty(terms, levels) {
                Some(NatCtor::Zero)
            } else {
                None
            }
        }
        Node::App(function, argument) => {
            if is_successor(terms, function) {
                Some(NatCtor::Succ(argument))
            } else {
                None
            }
        }
        _ => None,
    }
}

/// The question whether two terms are the same, whose answer is the whole one.
fn ask_same(a: u64, b: u64) -> LiteralsLine
    ensures { result ≡ asks_same a b }
{
    Line::Goes(Next::Ask(Query::Same(a, b), Sheet::Truth(AnswerSheet::Passed)))
}

/// Which of the two terms it is.
#[derive(Clone, Copy)]
pub(crate) enum Side {
    Left,
    Right,
}

/// A number beside what may be a constructor of `Nat`. The number is the term on this side.
fn number_beside<L: Looks>(
    looks: &mut L,
    side: Side,
    number: u128,
    ctor: Option<NatCtor>,
    a: u64,
    b: u64,
) -> Result<LiteralsLine, NoMemory>
    requires a_in { a < length (L.contents looks.old).trees }
    requires b_in { b < length (L.contents looks.old).trees }
    ensures { (k : Option PlainCtor) → IsCtorIf (L.contents looks.old) ctor k
        → Compares L.contents L.rest L.sight looks.old looks.new result
        (λ p t. number_line side number k or_else p (t a) (t b)) }
{
    match ctor {
        None => Ok(Line::Behind { left: a, right: b }),
        Some(NatCtor::Zero) => Ok(Line::Goes(Next::Done(Answer::Truth(number == 0)))),
        Some(NatCtor::Succ(argument)) => {
            if number == 0 {
                return Ok(Line::Goes(Next::Done(Answer::Truth(false))));
            }
            let before = looks.make(Node::Lit(number - 1))?;
            match side {
                Side::Left => Ok(ask_same(before, argument)),
                Side::Right => Ok(ask_same(argument, before)),
            }
        }
    }
}

/// Two terms of which one may be a number, and the other a constructor of `Nat`.
fn numbers<L: Looks>(looks: &mut L, a: u64, b: u64) -> Result<LiteralsLine, NoMemory>
    requires a_in { a < length (L.contents looks.old).trees }
    requires b_in { b < length (L.contents looks.old).trees }
    ensures { Compares L.contents L.rest L.sight looks.old looks.new result
        (λ p t. numbers_line (number_in (t a)) (number_in (t b)) (t a) (t b)
        or_else p (t a) (t b)) }
{
    if let Some(number) = number_of(looks, a) {
        let ctor = nat_ctor(looks, b);
        return number_beside(looks, Side::Left, number, ctor, a, b);
    }
    match number_of(looks, b) {
        Some(number) => {
            let ctor = nat_ctor(looks, a);
            number_beside(looks, Side::Right, number, ctor, a, b)
        }
        None => Ok(Line::Behind { left: a, right: b }),
    }
}

/// What literals keep while the literal step of one of two terms waits.
fn waiting(side: Side, left: u64, right: u64, step: LitSheet<u64>) -> LiteralsSheet<u64>
    ensures { result ≡ sheet_of side left right step }
{
    match side {
        Side::Left => LiteralsSheet::Left { left, right, step },
        Side::Right => LiteralsSheet::Right { left, right, step },
    }
}

/// What the literal step of the term on this side does next, as a line of both.
fn stepping(next: Next<u64, LitSheet<u64>>, side: Side, left: u64, right: u64) -> LiteralsLine
    ensures known { (n : ℕ) → IsKnownNext IsKnownLit n next → left < n → right < n
        → IsKnownLine IsKnownLiteralsSheet n result }
    ensures steps { (p : Rest) (w : Place) (t : ℕ → Tree) (last : Option ℕ)
        → literals_line p w t last result
        ≡ lit_steps (after side p w (t left) (t right)) w t last (LitPart.Goes next) }
{
    match next {
        Next::Ask(asked, step) => Line::Goes(Next::Ask(
            asked,
            Sheet::Term(waiting(side, left, right, step)),
        )),
        Next::Done(answer) => Line::Goes(Next::Done(answer)),
        Next::No(rule) => Line::Goes(Next::No(rule)),
    }
}

/// The literal step of a term whose head is this constant, once that is looked up.
fn constant_step<L: Looks>(
    looks: &mut L,
    name: u64,
    levels: u64,
    e: u64,
) -> Result<LitPart, NoMemory>
    requires name_in { name < length (L.contents looks.old).names }
    requires levels_in { levels < length (L.contents looks.old).lists }
    requires e_in { e < length (L.contents looks.old).trees }
    requires head_is { const (name_at (L.contents looks.old) name)
        (list_at (L.contents looks.old) levels) ≡ head_of (tree_at (L.contents looks.old) e) }
    ensures { GivesPart L.contents L.rest L.sight looks.old looks.new result e
        (λ t. step_of (t e) (head_of (t e))) }
{
    match looks.look(name, Rule::UnknownConstant) {
        Ok(entry) => step::begin(looks, entry, name, levels, e),
        Err(rule) => Ok(LitPart::Goes(Next::No(rule))),
    }
}

/// The literal step of a term. Only a constant at its head may have one.
fn step_of<L: Looks>(looks: &mut L, e: u64) -> Result<LitPart, NoMemory>
    requires { e < length (L.contents looks.old).trees }
    ensures { GivesPart L.contents L.rest L.sight looks.old looks.new result e
        (λ t. step_of (t e) (head_of (t e))) }
{
    let front = head(looks, e);
    match looks.view(front) {
        Node::Const(name, levels) => constant_step(looks, name, levels, e),
        _ => Ok(LitPart::Comes {
            term: e,
            value: None,
        }),
    }
}

/// Goes on with the literal step of the right one: what it gives is compared with the left one.
fn of_right<L: Looks>(
    looks: &mut L,
    part: LitPart,
    a: u64,
    b: u64,
) -> Result<LiteralsLine, NoMemory>
    requires part_in { IsKnownPart (length (L.contents looks.old).trees) part }
    requires a_in { a < length (L.contents looks.old).trees }
    requires b_in { b < length (L.contents looks.old).trees }
    ensures { Continues L.contents L.rest L.sight looks.old looks.new result
        (λ p w t last. lit_steps (after_right p w (t a) (t b)) w t last part) }
{
    match part {
        LitPart::Goes(next) => Ok(stepping(next, Side::Right, a, b)),
        LitPart::Comes { term: _, value } => match value {
            Some(e) => Ok(ask_same(a, e)),
            None => numbers(looks, a, b),
        },
    }
}

/// Two terms, once the left one has no literal step: by that of the right one, then as numbers.
fn right<L: Looks>(looks: &mut L, a: u64, b: u64) -> Result<LiteralsLine, NoMemory>
    requires a_in { a < length (L.contents looks.old).trees }
    requires b_in { b < length (L.contents looks.old).trees }
    ensures { Compares L.contents L.rest L.sight looks.old looks.new result
        (λ p t. (step_second (t a) (t b) or_line same_numbers (t a) (t b)) or_else p (t a) (t b)) }
{
    let part = step_of(looks, b)?;
    of_right(looks, part, a, b)
}

/// Goes on with the literal step of the left one: what it gives is compared with the right one.
fn of_left<L: Looks>(looks: &mut L, part: LitPart, a: u64, b: u64) -> Result<LiteralsLine, NoMemory>
    requires part_in { IsKnownPart (length (L.contents looks.old).trees) part }
    requires a_in { a < length (L.contents looks.old).trees }
    requires b_in { b < length (L.contents looks.old).trees }
    ensures { Continues L.contents L.rest L.sight looks.old looks.new result
        (λ p w t last. lit_steps (after_left p w (t a) (t b)) w t last part) }
{
    match part {
        LitPart::Goes(next) => Ok(stepping(next, Side::Left, a, b)),
        LitPart::Comes { term: _, value } => match value {
            Some(e) => Ok(ask_same(e, b)),
            None => right(looks, a, b),
        },
    }
}

/// Two terms by literals: by the literal step of the left one, else of the right one, else as
/// numbers.
pub fn begin<L: Looks>(looks: &mut L, a: u64, b: u64) -> Result<LiteralsLine, NoMemory>
    requires a_in { a < length (L.contents looks.old).trees }
    requires b_in { b < length (L.contents looks.old).trees }
    ensures { Compares L.contents L.rest L.sight looks.old looks.new result
        (λ p t. by_literals (t a) (t b) or_else p (t a) (t b)) }
{
    let part = step_of(looks, a)?;
    of_left(looks, part, a, b)
}

/// Goes on once the term is there that a sheet waits for.
pub fn resume<L: Looks>(
    looks: &mut L,
    sheet: LiteralsSheet<u64>,
    e: u64,
) -> Result<LiteralsLine, NoMemory>
    requires sheet_in { IsKnownLiterals (length (L.contents looks.old).trees) sheet }
    requires e_in { e < length (L.contents looks.old).trees }
    ensures { let t = tree_at (L.contents looks.old) in
        Continues L.contents L.rest L.sight looks.old looks.new result
        (λ p w u last. literals_rest p w last (map_literals t sheet) (t e)) }
{
    match sheet {
        LiteralsSheet::Left { left, right, step } => {
            let part = step::resume(looks, step, e)?;
            of_left(looks, part, left, right)
        }
        LiteralsSheet::Right { left, right, step } => {
            let part = step::resume(looks, step, e)?;
            of_right(looks, part, left, right)
        }
    }
}
